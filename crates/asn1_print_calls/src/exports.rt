//! The crate of the exports, in templates.

/// The root of the crate, before its modules.
pub(crate) const ROOT: &str =
    "//! Octets of values of the types of `@crate@`, for C: `lib@crate@_c.a`.
//!
//! For each type `TYPE_check` tells whether octets are the DER of a value, and if not where and why. `TYPE_der` writes the value whose BER
//! octets are as DER, `TYPE_text` in X.680's notation, and `TYPE_json` as JSON. Each is one call of `fan_types`, which has its page.
//! The header, the Python and the Rust module are beside the folder of this file.
#![tactic(auto)]

";

/// The head of the module of a type, before what it uses.
pub(crate) const HEAD: &str = "//! Octets of values of `@name@`, for C.
ghost use Rattle.std.specs.Prelude.{◌≡◌, ◌≢◌, ◌⊎◌, ◌≤◌, ⊤, length};
ghost use Rattle.fan_calls.specs.Results.{LacksRoom, Puts};
ghost use Rattle.fan_calls.specs.Statuses.{FAN_DEEP, FAN_FAULT, FAN_MEMORY, FAN_OK, FAN_ROOM};
ghost use Rattle.fan_calls.specs.declared.status.Status.TheVariants as status;
ghost use Rattle.fan_types.specs.Checks.{AcceptsOnlyDer, AreOfNoneRefused, AreRefusedAs, IsDerOf, KeepRules};
ghost use Rattle.fan_types.specs.Conversions.{IsConversion, IsNotConverted, as_der, as_json, as_text};

";

/// The lines of what the module uses, which are sorted: the crate of the types may come first or last.
pub(crate) const USES: &[&str] = &[
    "use asn1_schema::{AsnType, Decode};\n",
    "use std::alloc::Global;\n",
    "use @crate@::@type@;\n",
];

/// The call that checks octets.
pub(crate) const CHECK: &str = "
/// Whether the octets are the DER of a value of `@name@`, and if not where and why ([`fan_types::check`]).
#[unsafe(no_mangle)]
pub extern \"C\" fn @crate@_@function@_check(
    alloc: Global,
    octets: &[u8],
    position: &mut usize,
    text: &mut [u8],
    size: &mut usize,
) -> i32
    ensures statuses { (result ≡ FAN_OK) ⊎ ((result ≡ FAN_FAULT) ⊎
        ((result ≡ FAN_ROOM) ⊎ ((result ≡ FAN_MEMORY) ⊎ (result ≡ FAN_DEEP)))) }
    ensures der { result ≡ FAN_OK → IsDerOf ⟦<@type@ as AsnType>⟧.meaning octets.now }
    ensures keeps { result ≡ FAN_OK → KeepRules octets.now }
    ensures admitted { result ≡ FAN_OK →
        AreOfNoneRefused ⟦<@type@ as AsnType>⟧.meaning ⟦<@type@ as Decode>⟧.refusals octets.now }
    ensures found { AcceptsOnlyDer ⟦<@type@ as AsnType>⟧.meaning
        ⟦<@type@ as PartialEq>⟧.eq octets.now result }
    ensures refused { (result ≡ FAN_FAULT) ⊎ (result ≡ FAN_ROOM) →
        AreRefusedAs ⟦<@type@ as AsnType>⟧.meaning ⟦<@type@ as PartialEq>⟧.eq
        ⟦<@type@ as Decode>⟧.refusals status.Fault octets.now }
    ensures deep { result ≡ FAN_DEEP →
        AreRefusedAs ⟦<@type@ as AsnType>⟧.meaning ⟦<@type@ as PartialEq>⟧.eq
        ⟦<@type@ as Decode>⟧.refusals status.Deep octets.now }
    ensures within { (result ≡ FAN_FAULT) ⊎ (result ≡ FAN_ROOM) →
        position.new ≤ length octets.now }
    ensures message { result ≡ FAN_FAULT → Puts (λ _. ⊤) text.old text.new size.new }
    ensures no_room { result ≡ FAN_ROOM → LacksRoom (λ _. ⊤) text.old text.new size.new }
    ensures stays { result ≢ FAN_FAULT → text.new ≡ text.old }
    ensures no_position { result ≢ FAN_FAULT → result ≢ FAN_ROOM → position.new ≡ position.old }
    ensures no_size { result ≢ FAN_FAULT → result ≢ FAN_ROOM → size.new ≡ size.old }
{
";

/// What it calls.
pub(crate) const CHECK_CALL: CallTemplates = CallTemplates {
    function: "fan_types::check::<@type@>",
    arguments: "alloc, octets, position, text, size",
};

/// A call that writes the value of octets of BER in another form.
pub(crate) const CONVERSION: &str = "
/// Writes the value of `@name@` whose BER the octets are @form@ ([`fan_types::@call@`]).
#[unsafe(no_mangle)]
pub extern \"C\" fn @crate@_@function@_@call@(
    alloc: Global,
    octets: &[u8],
    output: &mut [u8],
    size: &mut usize,
) -> i32
    ensures statuses { (result ≡ FAN_OK) ⊎ ((result ≡ FAN_FAULT) ⊎
        ((result ≡ FAN_ROOM) ⊎ ((result ≡ FAN_MEMORY) ⊎ (result ≡ FAN_DEEP)))) }
    ensures written { result ≡ FAN_OK →
        Puts (IsConversion ⟦<@type@ as AsnType>⟧.meaning ⟦<@type@ as PartialEq>⟧.eq
        ⟦<@type@ as Decode>⟧.refusals as_@call@ octets.now) output.old output.new size.new }
    ensures no_room { result ≡ FAN_ROOM →
        LacksRoom (IsConversion ⟦<@type@ as AsnType>⟧.meaning ⟦<@type@ as PartialEq>⟧.eq
        ⟦<@type@ as Decode>⟧.refusals as_@call@ octets.now) output.old output.new size.new }
    ensures refused { result ≡ FAN_FAULT →
        IsNotConverted ⟦<@type@ as AsnType>⟧.meaning ⟦<@type@ as PartialEq>⟧.eq
        ⟦<@type@ as Decode>⟧.refusals as_@call@ octets.now status.Fault }
    ensures deep { result ≡ FAN_DEEP →
        IsNotConverted ⟦<@type@ as AsnType>⟧.meaning ⟦<@type@ as PartialEq>⟧.eq
        ⟦<@type@ as Decode>⟧.refusals as_@call@ octets.now status.Deep }
    ensures stays { result ≢ FAN_OK → output.new ≡ output.old }
    ensures no_size { result ≢ FAN_OK → result ≢ FAN_ROOM → size.new ≡ size.old }
{
";

/// What it calls.
pub(crate) const CONVERSION_CALL: CallTemplates = CallTemplates {
    function: "fan_types::@call@::<@type@>",
    arguments: "alloc, octets, output, size",
};

/// A call that is all of a body.
#[derive(Clone, Copy)]
pub(crate) struct CallTemplates {
    /// The function.
    pub(crate) function: &'static str,
    /// The arguments.
    pub(crate) arguments: &'static str,
}
