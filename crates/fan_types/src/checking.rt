//! Whether octets are the DER of a value of a type.
ghost use Rattle.std.specs.Prelude.{◌≡◌, ◌≢◌, ◌⊎◌, ◌≤◌, ⊤, length, vec_len};
ghost use Rattle.fan_calls.specs.Results.{LacksRoom, Puts};
ghost use Rattle.fan_calls.specs.Statuses.{FAN_DEEP, FAN_FAULT, FAN_MEMORY, FAN_OK, FAN_ROOM};
ghost use Rattle.fan_calls.specs.declared.status.Status.TheVariants as status;
ghost use Rattle.fan_types.specs.Checks.{AcceptsOnlyDer, AreOfNoneRefused, AreRefusedAs, IsDerOf, KeepRules};
ghost use Rattle.fan_types.specs.Refusals.{status_of_check};

use crate::refusal::status_of_check;
use asn1_convert::{CheckError, check_der, check_fault};
use asn1_dec::Decode;
use asn1_enc::Encode;
use fan_calls::{DEPTH, Status, put};
use std::alloc::Global;

/// `FAN_OK` if the octets are the DER of a value of the type: they break no rule of X.690 that reading asks for, also inside open types,
/// are read, and writing the value makes them again. `FAN_FAULT` if they are not, with the words for the reason, and the position of the
/// octet, from 0, if it is known. `FAN_DEEP` if the scopes of the value are nested more than 64 deep, or elements lie
/// inside more than 64 constructed ones.
#[tactic(auto, using(crate::proofs::Accepting::is_der, crate::proofs::Accepting::kept, crate::proofs::Accepting::accepted, crate::proofs::Accepting::none_refused, crate::proofs::Accepting::refused))]
pub fn check<T: Encode + Decode + Drop>(
    alloc: Global,
    octets: &[u8],
    position: &mut usize,
    text: &mut [u8],
    size: &mut usize,
) -> i32
    ensures statuses { (result ≡ FAN_OK) ⊎ ((result ≡ FAN_FAULT) ⊎
        ((result ≡ FAN_ROOM) ⊎ ((result ≡ FAN_MEMORY) ⊎ (result ≡ FAN_DEEP)))) }
    ensures der { result ≡ FAN_OK → IsDerOf T.meaning octets.now }
    ensures keeps { result ≡ FAN_OK → KeepRules octets.now }
    ensures admitted { result ≡ FAN_OK → AreOfNoneRefused T.meaning T.refusals octets.now }
    ensures found { AcceptsOnlyDer T.meaning T.eq octets.now result }
    ensures refused { (result ≡ FAN_FAULT) ⊎ (result ≡ FAN_ROOM) →
        AreRefusedAs T.meaning T.eq T.refusals status.Fault octets.now }
    ensures deep { result ≡ FAN_DEEP →
        AreRefusedAs T.meaning T.eq T.refusals status.Deep octets.now }
    ensures within { (result ≡ FAN_FAULT) ⊎ (result ≡ FAN_ROOM) →
        position.new ≤ length octets.now }
    ensures message { result ≡ FAN_FAULT → Puts (λ _. ⊤) text.old text.new size.new }
    ensures no_room { result ≡ FAN_ROOM → LacksRoom (λ _. ⊤) text.old text.new size.new }
    ensures stays { result ≢ FAN_FAULT → text.new ≡ text.old }
    ensures no_position { result ≢ FAN_FAULT → result ≢ FAN_ROOM → position.new ≡ position.old }
    ensures no_size { result ≢ FAN_FAULT → result ≢ FAN_ROOM → size.new ≡ size.old }
{
    let Ok(own) = Vec::from_slice(alloc, octets) else {
        return Status::Memory.number();
    };
    match check_der::<T>(alloc, &own, DEPTH) {
        Ok(_value) => Status::Ok.number(),
        Err(error) => put_refusal::<T>(alloc, &own, error, position, text, size).number(),
    }
}

/// The status of octets that were refused for this error, with the reason if they are at fault.
fn put_refusal<T: Encode + Decode>(
    alloc: Global,
    octets: &Vec<u8>,
    error: CheckError,
    position: &mut usize,
    text: &mut [u8],
    size: &mut usize,
) -> Status
    ensures statuses { (result ≡ status.Fault) ⊎ ((result ≡ status.Room) ⊎
        ((result ≡ status.Memory) ⊎ (result ≡ status.Deep))) }
    ensures fault { result ≡ status.Fault → status_of_check error ≡ status.Fault }
    ensures room { result ≡ status.Room → status_of_check error ≡ status.Fault }
    ensures deep { result ≡ status.Deep → status_of_check error ≡ status.Deep }
    ensures others { status_of_check error ≢ status.Fault → result ≡ status_of_check error }
    ensures within { (result ≡ status.Fault) ⊎ (result ≡ status.Room) →
        position.new ≤ vec_len octets.now }
    ensures message { result ≡ status.Fault → Puts (λ _. ⊤) text.old text.new size.new }
    ensures no_room { result ≡ status.Room → LacksRoom (λ _. ⊤) text.old text.new size.new }
    ensures stays { result ≢ status.Fault → text.new ≡ text.old }
    ensures no_position { result ≢ status.Fault → result ≢ status.Room →
        position.new ≡ position.old }
    ensures no_size { result ≢ status.Fault → result ≢ status.Room → size.new ≡ size.old }
{
    match status_of_check(error) {
        Status::Deep => Status::Deep,
        Status::Fault => put_fault::<T>(alloc, octets, error, position, text, size),
        _ => Status::Memory,
    }
}

/// Writes the reason for which octets are at fault.
fn put_fault<T: Encode + Decode>(
    alloc: Global,
    octets: &Vec<u8>,
    error: CheckError,
    position: &mut usize,
    text: &mut [u8],
    size: &mut usize,
) -> Status
    ensures statuses { (result ≡ status.Fault) ⊎
        ((result ≡ status.Room) ⊎ (result ≡ status.Memory)) }
    ensures within { (result ≡ status.Fault) ⊎ (result ≡ status.Room) →
        position.new ≤ vec_len octets.now }
    ensures message { result ≡ status.Fault → Puts (λ _. ⊤) text.old text.new size.new }
    ensures no_room { result ≡ status.Room → LacksRoom (λ _. ⊤) text.old text.new size.new }
    ensures stays { result ≢ status.Fault → text.new ≡ text.old }
    ensures no_position { result ≡ status.Memory → position.new ≡ position.old }
    ensures no_size { result ≡ status.Memory → size.new ≡ size.old }
{
    let Ok(fault) = check_fault::<T>(alloc, octets, error, DEPTH) else {
        return Status::Memory;
    };
    *position = fault.position.unwrap_or(0).min(octets.len());
    match put(fault.cause.as_bytes(), text, size) {
        Status::Ok => Status::Fault,
        _ => Status::Room,
    }
}
