//! Elements of BER.
ghost use Rattle.std.specs.Prelude.{◌≡◌, ◌≢◌, ◌⊎◌, ◌↔◌, ◌≤◌, [], length, ℕ, List};
ghost use Rattle.asn1_ber_items.specs.Spellings.{Spells};
ghost use Rattle.fan_calls.specs.Depths.{NestsDeeper};
ghost use Rattle.fan_calls.specs.Results.{HasNoRoom, IsPut, LacksRoom, Puts};
ghost use Rattle.fan_calls.specs.Statuses.{FAN_DEEP, FAN_FAULT, FAN_MEMORY, FAN_OK, FAN_ROOM};
ghost use Rattle.fan_calls.specs.declared.status.Status.TheVariants.{Deep, Ok, Room};
ghost use Rattle.fanughespu.specs.Normals.{HasDeepNormal, IsNormal};

use crate::refusal::refusal;
use asn1_ber_items::normal_form;
use fan_calls::{DEPTH, Status, nests_deeper, put};
use std::alloc::Global;

/// Writes the elements of BER that the octets are, each with a definite length of the fewest octets. Contents octets of primitive
/// elements stay, since without a type they have no DER. `FAN_FAULT` if the octets are no elements of BER; `FAN_DEEP` if octets lie
/// inside more than 64 constructed elements.
#[unsafe(no_mangle)]
pub extern "C" fn fan_ber_normal(
    alloc: Global,
    octets: &[u8],
    out: &mut [u8],
    size: &mut usize,
) -> i32
    ensures statuses { (result ≡ FAN_OK) ⊎ ((result ≡ FAN_FAULT) ⊎
        ((result ≡ FAN_ROOM) ⊎ ((result ≡ FAN_MEMORY) ⊎ (result ≡ FAN_DEEP)))) }
    ensures written { result ≡ FAN_OK → Puts (IsNormal 64 octets.now) out.old out.new size.new }
    ensures no_room { result ≡ FAN_ROOM →
        LacksRoom (IsNormal 64 octets.now) out.old out.new size.new }
    ensures fault { result ≡ FAN_FAULT → (normal : List ℕ) → ¬ Spells octets.now normal [] }
    ensures read { (normal : List ℕ) → Spells octets.now normal [] → result ≢ FAN_FAULT }
    ensures deep { result ≡ FAN_DEEP → HasDeepNormal 64 octets.now }
    ensures deep_found { HasDeepNormal 64 octets.now →
        (result ≡ FAN_DEEP) ⊎ (result ≡ FAN_MEMORY) }
    ensures fits { (normal : List ℕ) → Spells octets.now normal [] →
        ¬ NestsDeeper 64 normal → length normal ≤ length out.old →
        (result ≡ FAN_OK) ⊎ (result ≡ FAN_MEMORY) }
    ensures stays { result ≢ FAN_OK → out.new ≡ out.old }
    ensures no_size { result ≢ FAN_OK → result ≢ FAN_ROOM → size.new ≡ size.old }
{
    match normal_form(alloc, octets) {
        Ok(normal) => put_shallow(normal.as_slice(), out, size).number(),
        Err(error) => refusal(error).number(),
    }
}

/// Writes elements, unless octets lie too deep in them.
fn put_shallow(octets: &[u8], out: &mut [u8], size: &mut usize) -> Status
    ensures deep { (result ≡ Deep) ↔ NestsDeeper 64 octets.now }
    ensures fits { result ≡ Ok → IsPut octets.now out.old out.new size.new }
    ensures no_room { result ≡ Room → HasNoRoom octets.now out.old out.new size.new }
    ensures statuses { (result ≡ Deep) ⊎ ((result ≡ Ok) ⊎ (result ≡ Room)) }
    ensures stays { result ≢ Ok → out.new ≡ out.old }
    ensures no_size { result ≡ Deep → size.new ≡ size.old }
{
    if nests_deeper(octets, DEPTH) {
        return Status::Deep;
    }
    put(octets, out, size)
}
