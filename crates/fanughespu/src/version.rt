//! The version of these calls.
ghost use Rattle.std.specs.Prelude.{◌≡◌};

/// The version of these calls, `FAN_VERSION` of the header: it changes if a call or a status changes its meaning.
#[unsafe(no_mangle)]
pub extern "C" fn fan_version() -> u32
    ensures { result ≡ 1 }
{
    1
}
