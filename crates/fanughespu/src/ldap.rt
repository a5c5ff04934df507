//! Messages of LDAP.
ghost use Rattle.std.specs.Prelude.{◌≡◌, ◌≢◌, ◌⊎◌, ◌≤◌, List, length, ℕ};
ghost use Rattle.asn1_ldap_stream.specs.Octets.{AreLinesOf, BeginsNoMessage, EndsInside};
ghost use Rattle.fan_calls.specs.Results.{LacksRoom, Puts};
ghost use Rattle.fan_calls.specs.Statuses.{FAN_FAULT, FAN_MEMORY, FAN_OK, FAN_ROOM};

use asn1_ldap_stream::lines_of;
use fan_calls::{Status, put};
use std::alloc::Global;

/// Writes the lines of the messages of LDAP (RFC 4511) with which the octets begin, in BER, and into `used` how many octets these
/// messages have. `FAN_OK` if nothing is behind them, or the octets end inside an element; `FAN_FAULT` if what is behind them begins no
/// message. A message that is not understood has a line that says so and why, also one with more than 64 filters inside one another.
#[unsafe(no_mangle)]
pub extern "C" fn fan_ldap_lines(
    alloc: Global,
    octets: &[u8],
    text: &mut [u8],
    size: &mut usize,
    used: &mut usize,
) -> i32
    ensures statuses { (result ≡ FAN_OK) ⊎ ((result ≡ FAN_FAULT) ⊎
        ((result ≡ FAN_ROOM) ⊎ (result ≡ FAN_MEMORY))) }
    ensures lines { (result ≡ FAN_OK) ⊎ (result ≡ FAN_FAULT) →
        Puts (λ lines. AreLinesOf octets.now lines used.new) text.old text.new size.new }
    ensures ends { result ≡ FAN_OK → EndsInside octets.now used.new }
    ensures ended { (lines : List ℕ) (at : ℕ) → AreLinesOf octets.now lines at →
        EndsInside octets.now at → result ≢ FAN_FAULT }
    ensures fault { result ≡ FAN_FAULT → BeginsNoMessage octets.now used.new }
    ensures faulty { (lines : List ℕ) (at : ℕ) → AreLinesOf octets.now lines at →
        BeginsNoMessage octets.now at → result ≢ FAN_OK }
    ensures no_room { result ≡ FAN_ROOM →
        LacksRoom (λ lines. AreLinesOf octets.now lines used.new) text.old text.new size.new }
    ensures needed { result ≡ FAN_ROOM →
        EndsInside octets.now used.new ⊎ BeginsNoMessage octets.now used.new }
    ensures fits { size.new ≤ length text.old → result ≢ FAN_ROOM }
    ensures stays { result ≢ FAN_OK → result ≢ FAN_FAULT → text.new ≡ text.old }
    ensures no_size { result ≡ FAN_MEMORY → size.new ≡ size.old }
    ensures no_used { result ≡ FAN_MEMORY → used.new ≡ used.old }
{
    let Ok(lines) = lines_of(alloc, octets) else {
        return Status::Memory.number();
    };
    *used = lines.used;
    match put(lines.text.as_slice(), text, size) {
        Status::Ok if lines.is_damaged => Status::Fault.number(),
        status => status.number(),
    }
}
