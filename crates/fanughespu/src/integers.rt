//! Numbers of DER as text.
ghost use Rattle.std.specs.Prelude.{◌≡◌, ◌≢◌, ◌⊎◌, ◌≤◌, IfOk, MatchResult, length, ℤ};
ghost use Rattle.std.specs.String.{string_bytes};
ghost use Rattle.asn1_der_items.specs.Integers.{IsInteger};
ghost use Rattle.asn1_items.specs.declared.error.ItemError.TheVariants.{Memory};
ghost use Rattle.asn1_values.specs.Text.{integer_text};
ghost use Rattle.fan_calls.specs.Results.{LacksRoom, Puts};
ghost use Rattle.fan_calls.specs.Statuses.{FAN_FAULT, FAN_MEMORY, FAN_OK, FAN_ROOM};
ghost use Rattle.fanughespu.specs.Texts.{IsNumberText};

use crate::refusal::refusal;
use asn1_der_items::read_integer;
use asn1_items::ItemError;
use fan_calls::put;
use std::alloc::Global;

/// Writes the decimal digits of the INTEGER whose contents octets these are. `FAN_FAULT` if they are those of none in DER: there is no
/// octet, or one more than need be.
#[unsafe(no_mangle)]
pub extern "C" fn fan_integer_text(
    alloc: Global,
    octets: &[u8],
    text: &mut [u8],
    size: &mut usize,
) -> i32
    ensures statuses { (result ≡ FAN_OK) ⊎ ((result ≡ FAN_FAULT) ⊎
        ((result ≡ FAN_ROOM) ⊎ (result ≡ FAN_MEMORY))) }
    ensures written { result ≡ FAN_OK →
        Puts (IsNumberText octets.now) text.old text.new size.new }
    ensures no_room { result ≡ FAN_ROOM →
        LacksRoom (IsNumberText octets.now) text.old text.new size.new }
    ensures fault { result ≡ FAN_FAULT → (number : ℤ) → ¬ IsInteger number octets.now }
    ensures read { (number : ℤ) → IsInteger number octets.now → result ≢ FAN_FAULT }
    ensures fits { (number : ℤ) → IsInteger number octets.now →
        length (integer_text number) ≤ length text.old →
        (result ≡ FAN_OK) ⊎ (result ≡ FAN_MEMORY) }
    ensures stays { result ≢ FAN_OK → text.new ≡ text.old }
    ensures no_size { result ≢ FAN_OK → result ≢ FAN_ROOM → size.new ≡ size.old }
{
    match text_of(alloc, octets) {
        Ok(written) => put(written.as_bytes(), text, size).number(),
        Err(error) => refusal(error).number(),
    }
}

/// The text of the INTEGER whose contents octets these are.
fn text_of(alloc: Global, octets: &[u8]) -> Result<String, ItemError>
    ensures read { (number : ℤ) → IsInteger number octets.now →
        MatchResult result (λ text. string_bytes text ≡ integer_text number) (λ e. e ≡ Memory) }
    ensures only { IfOk result (λ text. IsNumberText octets.now (string_bytes text)) }
{
    let number = read_integer(alloc, octets)?;
    Ok(number.to_string(alloc)?)
}
