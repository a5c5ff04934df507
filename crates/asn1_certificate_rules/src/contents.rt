//! Contents octets of numbers, BOOLEANs and bits that are not those of DER.
ghost use Rattle.std.specs.Prelude.{◌≡◌, ◌<◌, ◌^◌, Decides};
ghost use Rattle.asn1_certificate_rules.specs.Contents.{EndsWithZero, HasUnusedBit, IsOtherTrue, IsPadded};

/// Whether a BOOLEAN is a TRUE of another octet than ff.
pub(crate) fn is_other_true(octets: &[u8]) -> bool
    ensures { Decides result (IsOtherTrue octets.now) }
{
    match octets {
        [octet] => *octet != 0 && *octet != 255,
        _ => false,
    }
}

/// Whether an integer has more octets than it needs: the first nine bits are all zeros or all ones.
pub(crate) fn is_padded(octets: &[u8]) -> bool
    ensures { Decides result (IsPadded octets.now) }
{
    match octets {
        [first, second, ..] => {
            (*first == 0 && *second < 128) || (*first == 255 && *second >= 128)
        }
        _ => false,
    }
}

/// Whether an unused bit of a BIT STRING is not zero.
pub(crate) fn has_unused_bit(octets: &[u8]) -> bool
    ensures { Decides result (HasUnusedBit octets.now) }
{
    match octets {
        [unused, .., last] => *unused < 8 && *last % unit(*unused) != 0,
        _ => false,
    }
}

/// Whether the last bit of a BIT STRING, which has bits, is zero.
pub(crate) fn ends_with_zero(octets: &[u8]) -> bool
    ensures { Decides result (EndsWithZero octets.now) }
{
    match octets {
        [unused, .., last] => *unused < 8 && *last / unit(*unused) % 2 == 0,
        _ => false,
    }
}

/// The lowest bit of an octet that is used, where this many are not.
fn unit(unused: u8) -> u8
    ensures { unused < 8 → result ≡ 2 ^ unused }
{
    match unused {
        0 => 1,
        1 => 2,
        2 => 4,
        3 => 8,
        4 => 16,
        5 => 32,
        6 => 64,
        _ => 128,
    }
}
