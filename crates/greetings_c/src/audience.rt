//! Octets of values of `Audience`, for C.
ghost use Rattle.std.specs.Prelude.{◌≡◌, ◌≢◌, ◌⊎◌, ◌≤◌, ⊤, length};
ghost use Rattle.fan_calls.specs.Results.{LacksRoom, Puts};
ghost use Rattle.fan_calls.specs.Statuses.{FAN_DEEP, FAN_FAULT, FAN_MEMORY, FAN_OK, FAN_ROOM};
ghost use Rattle.fan_calls.specs.declared.status.Status.TheVariants as status;
ghost use Rattle.fan_types.specs.Checks.{AcceptsOnlyDer, AreOfNoneRefused, AreRefusedAs, IsDerOf, KeepRules};
ghost use Rattle.fan_types.specs.Conversions.{IsConversion, IsNotConverted, as_der, as_json, as_text};

use asn1_schema::{AsnType, Decode};
use greetings::Audience;
use std::alloc::Global;

/// Whether the octets are the DER of a value of `Audience`, and if not where and why ([`fan_types::check`]).
#[unsafe(no_mangle)]
pub extern "C" fn greetings_audience_check(
    alloc: Global,
    octets: &[u8],
    position: &mut usize,
    text: &mut [u8],
    size: &mut usize,
) -> i32
    ensures statuses { (result ≡ FAN_OK) ⊎ ((result ≡ FAN_FAULT) ⊎
        ((result ≡ FAN_ROOM) ⊎ ((result ≡ FAN_MEMORY) ⊎ (result ≡ FAN_DEEP)))) }
    ensures der { result ≡ FAN_OK → IsDerOf ⟦<Audience as AsnType>⟧.meaning octets.now }
    ensures keeps { result ≡ FAN_OK → KeepRules octets.now }
    ensures admitted { result ≡ FAN_OK →
        AreOfNoneRefused ⟦<Audience as AsnType>⟧.meaning ⟦<Audience as Decode>⟧.refusals octets.now }
    ensures found { AcceptsOnlyDer ⟦<Audience as AsnType>⟧.meaning
        ⟦<Audience as PartialEq>⟧.eq octets.now result }
    ensures refused { (result ≡ FAN_FAULT) ⊎ (result ≡ FAN_ROOM) →
        AreRefusedAs ⟦<Audience as AsnType>⟧.meaning ⟦<Audience as PartialEq>⟧.eq
        ⟦<Audience as Decode>⟧.refusals status.Fault octets.now }
    ensures deep { result ≡ FAN_DEEP →
        AreRefusedAs ⟦<Audience as AsnType>⟧.meaning ⟦<Audience as PartialEq>⟧.eq
        ⟦<Audience as Decode>⟧.refusals status.Deep octets.now }
    ensures within { (result ≡ FAN_FAULT) ⊎ (result ≡ FAN_ROOM) →
        position.new ≤ length octets.now }
    ensures message { result ≡ FAN_FAULT → Puts (λ _. ⊤) text.old text.new size.new }
    ensures no_room { result ≡ FAN_ROOM → LacksRoom (λ _. ⊤) text.old text.new size.new }
    ensures stays { result ≢ FAN_FAULT → text.new ≡ text.old }
    ensures no_position { result ≢ FAN_FAULT → result ≢ FAN_ROOM → position.new ≡ position.old }
    ensures no_size { result ≢ FAN_FAULT → result ≢ FAN_ROOM → size.new ≡ size.old }
{
    fan_types::check::<Audience>(alloc, octets, position, text, size)
}

/// Writes the value of `Audience` whose BER the octets are as DER ([`fan_types::der`]).
#[unsafe(no_mangle)]
pub extern "C" fn greetings_audience_der(
    alloc: Global,
    octets: &[u8],
    output: &mut [u8],
    size: &mut usize,
) -> i32
    ensures statuses { (result ≡ FAN_OK) ⊎ ((result ≡ FAN_FAULT) ⊎
        ((result ≡ FAN_ROOM) ⊎ ((result ≡ FAN_MEMORY) ⊎ (result ≡ FAN_DEEP)))) }
    ensures written { result ≡ FAN_OK →
        Puts (IsConversion ⟦<Audience as AsnType>⟧.meaning ⟦<Audience as PartialEq>⟧.eq
        ⟦<Audience as Decode>⟧.refusals as_der octets.now) output.old output.new size.new }
    ensures no_room { result ≡ FAN_ROOM →
        LacksRoom (IsConversion ⟦<Audience as AsnType>⟧.meaning ⟦<Audience as PartialEq>⟧.eq
        ⟦<Audience as Decode>⟧.refusals as_der octets.now) output.old output.new size.new }
    ensures refused { result ≡ FAN_FAULT →
        IsNotConverted ⟦<Audience as AsnType>⟧.meaning ⟦<Audience as PartialEq>⟧.eq
        ⟦<Audience as Decode>⟧.refusals as_der octets.now status.Fault }
    ensures deep { result ≡ FAN_DEEP →
        IsNotConverted ⟦<Audience as AsnType>⟧.meaning ⟦<Audience as PartialEq>⟧.eq
        ⟦<Audience as Decode>⟧.refusals as_der octets.now status.Deep }
    ensures stays { result ≢ FAN_OK → output.new ≡ output.old }
    ensures no_size { result ≢ FAN_OK → result ≢ FAN_ROOM → size.new ≡ size.old }
{
    fan_types::der::<Audience>(alloc, octets, output, size)
}

/// Writes the value of `Audience` whose BER the octets are in X.680's notation ([`fan_types::text`]).
#[unsafe(no_mangle)]
pub extern "C" fn greetings_audience_text(
    alloc: Global,
    octets: &[u8],
    output: &mut [u8],
    size: &mut usize,
) -> i32
    ensures statuses { (result ≡ FAN_OK) ⊎ ((result ≡ FAN_FAULT) ⊎
        ((result ≡ FAN_ROOM) ⊎ ((result ≡ FAN_MEMORY) ⊎ (result ≡ FAN_DEEP)))) }
    ensures written { result ≡ FAN_OK →
        Puts (IsConversion ⟦<Audience as AsnType>⟧.meaning ⟦<Audience as PartialEq>⟧.eq
        ⟦<Audience as Decode>⟧.refusals as_text octets.now) output.old output.new size.new }
    ensures no_room { result ≡ FAN_ROOM →
        LacksRoom (IsConversion ⟦<Audience as AsnType>⟧.meaning ⟦<Audience as PartialEq>⟧.eq
        ⟦<Audience as Decode>⟧.refusals as_text octets.now) output.old output.new size.new }
    ensures refused { result ≡ FAN_FAULT →
        IsNotConverted ⟦<Audience as AsnType>⟧.meaning ⟦<Audience as PartialEq>⟧.eq
        ⟦<Audience as Decode>⟧.refusals as_text octets.now status.Fault }
    ensures deep { result ≡ FAN_DEEP →
        IsNotConverted ⟦<Audience as AsnType>⟧.meaning ⟦<Audience as PartialEq>⟧.eq
        ⟦<Audience as Decode>⟧.refusals as_text octets.now status.Deep }
    ensures stays { result ≢ FAN_OK → output.new ≡ output.old }
    ensures no_size { result ≢ FAN_OK → result ≢ FAN_ROOM → size.new ≡ size.old }
{
    fan_types::text::<Audience>(alloc, octets, output, size)
}

/// Writes the value of `Audience` whose BER the octets are as JSON ([`fan_types::json`]).
#[unsafe(no_mangle)]
pub extern "C" fn greetings_audience_json(
    alloc: Global,
    octets: &[u8],
    output: &mut [u8],
    size: &mut usize,
) -> i32
    ensures statuses { (result ≡ FAN_OK) ⊎ ((result ≡ FAN_FAULT) ⊎
        ((result ≡ FAN_ROOM) ⊎ ((result ≡ FAN_MEMORY) ⊎ (result ≡ FAN_DEEP)))) }
    ensures written { result ≡ FAN_OK →
        Puts (IsConversion ⟦<Audience as AsnType>⟧.meaning ⟦<Audience as PartialEq>⟧.eq
        ⟦<Audience as Decode>⟧.refusals as_json octets.now) output.old output.new size.new }
    ensures no_room { result ≡ FAN_ROOM →
        LacksRoom (IsConversion ⟦<Audience as AsnType>⟧.meaning ⟦<Audience as PartialEq>⟧.eq
        ⟦<Audience as Decode>⟧.refusals as_json octets.now) output.old output.new size.new }
    ensures refused { result ≡ FAN_FAULT →
        IsNotConverted ⟦<Audience as AsnType>⟧.meaning ⟦<Audience as PartialEq>⟧.eq
        ⟦<Audience as Decode>⟧.refusals as_json octets.now status.Fault }
    ensures deep { result ≡ FAN_DEEP →
        IsNotConverted ⟦<Audience as AsnType>⟧.meaning ⟦<Audience as PartialEq>⟧.eq
        ⟦<Audience as Decode>⟧.refusals as_json octets.now status.Deep }
    ensures stays { result ≢ FAN_OK → output.new ≡ output.old }
    ensures no_size { result ≢ FAN_OK → result ≢ FAN_ROOM → size.new ≡ size.old }
{
    fan_types::json::<Audience>(alloc, octets, output, size)
}
