//! Conversions of a value from BER: to DER, to X.680's notation, and to JSON.
ghost use Rattle.std.specs.Prelude.{◌≡◌, ◌≢◌, ◌⊎◌};
ghost use Rattle.fan_calls.specs.Results.{LacksRoom, Puts};
ghost use Rattle.fan_calls.specs.Statuses.{FAN_DEEP, FAN_FAULT, FAN_MEMORY, FAN_OK, FAN_ROOM};
ghost use Rattle.fan_calls.specs.declared.status.Status.TheVariants as status;
ghost use Rattle.fan_types.specs.Conversions.{IsConversion, IsNotConverted, as_der, as_json, as_text};

use crate::refusal::status_of_recoding;
use asn1_convert::{CodecForm, OutputForm, convert_value};
use asn1_dec::Decode;
use asn1_enc::Encode;
use fan_calls::{DEPTH, Status, put};
use std::alloc::Global;

/// Reads the octets as the BER of a value of the type, and writes its DER. `FAN_FAULT` if they are the BER of none, or if it has no DER;
/// `FAN_DEEP` if its scopes are nested more than 64 deep.
pub fn der<T: Encode + Decode>(
    alloc: Global,
    octets: &[u8],
    out: &mut [u8],
    size: &mut usize,
) -> i32
    ensures statuses { (result ≡ FAN_OK) ⊎ ((result ≡ FAN_FAULT) ⊎
        ((result ≡ FAN_ROOM) ⊎ ((result ≡ FAN_MEMORY) ⊎ (result ≡ FAN_DEEP)))) }
    ensures written { result ≡ FAN_OK → Puts
        (IsConversion T.meaning T.eq T.refusals as_der octets.now) out.old out.new size.new }
    ensures no_room { result ≡ FAN_ROOM → LacksRoom
        (IsConversion T.meaning T.eq T.refusals as_der octets.now) out.old out.new size.new }
    ensures refused { result ≡ FAN_FAULT →
        IsNotConverted T.meaning T.eq T.refusals as_der octets.now status.Fault }
    ensures deep { result ≡ FAN_DEEP →
        IsNotConverted T.meaning T.eq T.refusals as_der octets.now status.Deep }
    ensures stays { result ≢ FAN_OK → out.new ≡ out.old }
    ensures no_size { result ≢ FAN_OK → result ≢ FAN_ROOM → size.new ≡ size.old }
{
    convert::<T>(alloc, octets, OutputForm::Codec(CodecForm::Der), out, size)
}

/// Reads the octets as the BER of a value of the type, and writes it in X.680's notation of values, with a line feed at its end. The
/// statuses are those of [`der`].
pub fn text<T: Encode + Decode>(
    alloc: Global,
    octets: &[u8],
    out: &mut [u8],
    size: &mut usize,
) -> i32
    ensures statuses { (result ≡ FAN_OK) ⊎ ((result ≡ FAN_FAULT) ⊎
        ((result ≡ FAN_ROOM) ⊎ ((result ≡ FAN_MEMORY) ⊎ (result ≡ FAN_DEEP)))) }
    ensures written { result ≡ FAN_OK → Puts
        (IsConversion T.meaning T.eq T.refusals as_text octets.now) out.old out.new size.new }
    ensures no_room { result ≡ FAN_ROOM → LacksRoom
        (IsConversion T.meaning T.eq T.refusals as_text octets.now) out.old out.new size.new }
    ensures refused { result ≡ FAN_FAULT →
        IsNotConverted T.meaning T.eq T.refusals as_text octets.now status.Fault }
    ensures deep { result ≡ FAN_DEEP →
        IsNotConverted T.meaning T.eq T.refusals as_text octets.now status.Deep }
    ensures stays { result ≢ FAN_OK → out.new ≡ out.old }
    ensures no_size { result ≢ FAN_OK → result ≢ FAN_ROOM → size.new ≡ size.old }
{
    convert::<T>(alloc, octets, OutputForm::Notation, out, size)
}

/// Reads the octets as the BER of a value of the type, and writes it as JSON (X.697), in one line with a line feed at its end. The
/// statuses are those of [`der`].
pub fn json<T: Encode + Decode>(
    alloc: Global,
    octets: &[u8],
    out: &mut [u8],
    size: &mut usize,
) -> i32
    ensures statuses { (result ≡ FAN_OK) ⊎ ((result ≡ FAN_FAULT) ⊎
        ((result ≡ FAN_ROOM) ⊎ ((result ≡ FAN_MEMORY) ⊎ (result ≡ FAN_DEEP)))) }
    ensures written { result ≡ FAN_OK → Puts
        (IsConversion T.meaning T.eq T.refusals as_json octets.now) out.old out.new size.new }
    ensures no_room { result ≡ FAN_ROOM → LacksRoom
        (IsConversion T.meaning T.eq T.refusals as_json octets.now) out.old out.new size.new }
    ensures refused { result ≡ FAN_FAULT →
        IsNotConverted T.meaning T.eq T.refusals as_json octets.now status.Fault }
    ensures deep { result ≡ FAN_DEEP →
        IsNotConverted T.meaning T.eq T.refusals as_json octets.now status.Deep }
    ensures stays { result ≢ FAN_OK → out.new ≡ out.old }
    ensures no_size { result ≢ FAN_OK → result ≢ FAN_ROOM → size.new ≡ size.old }
{
    convert::<T>(alloc, octets, OutputForm::Json, out, size)
}

/// Reads the octets as the BER of a value of the type, and writes it in a form.
#[tactic(auto, using(crate::proofs::Statuses::one_of_all))]
fn convert<T: Encode + Decode>(
    alloc: Global,
    octets: &[u8],
    to: OutputForm,
    out: &mut [u8],
    size: &mut usize,
) -> i32
    ensures statuses { (result ≡ FAN_OK) ⊎ ((result ≡ FAN_FAULT) ⊎
        ((result ≡ FAN_ROOM) ⊎ ((result ≡ FAN_MEMORY) ⊎ (result ≡ FAN_DEEP)))) }
    ensures written { result ≡ FAN_OK → Puts
        (IsConversion T.meaning T.eq T.refusals to octets.now) out.old out.new size.new }
    ensures no_room { result ≡ FAN_ROOM → LacksRoom
        (IsConversion T.meaning T.eq T.refusals to octets.now) out.old out.new size.new }
    ensures refused { result ≡ FAN_FAULT →
        IsNotConverted T.meaning T.eq T.refusals to octets.now status.Fault }
    ensures deep { result ≡ FAN_DEEP →
        IsNotConverted T.meaning T.eq T.refusals to octets.now status.Deep }
    ensures stays { result ≢ FAN_OK → out.new ≡ out.old }
    ensures no_size { result ≢ FAN_OK → result ≢ FAN_ROOM → size.new ≡ size.old }
{
    let Ok(own) = Vec::from_slice(alloc, octets) else {
        return Status::Memory.number();
    };
    match convert_value::<T>(alloc, CodecForm::Ber, &own, to, DEPTH) {
        Ok(written) => put(written.as_slice(), out, size).number(),
        Err(error) => status_of_recoding(error).number(),
    }
}
