//! Laws of the kinds of string, as a codec is given them.
ghost use Rattle.std.specs.Prelude.{◌≡◌, ◌↔◌, ℕ, Bool, List, Some};
ghost use Rattle.std.specs.Str.{IsUtf8};
ghost use Rattle.asn1_tags.specs.Derives.{ClonesAll, ComparesAll};
ghost use Rattle.asn1_model.specs.ConstraintSets.{unconstrained};
ghost use Rattle.asn1_model.specs.Meaning.{HasOwn};
ghost use Rattle.asn1_model.specs.Records.{units, utf8};

use crate::any_string::{AnyStr, OctetKind, StringKind};
use crate::codec_string::{CodecString, Utf8};
use asn1_model::{AsnType, StringType};
use asn1_values::kind::{
    Bits, Bmp, General, Graphic, Ia5, NamedBits, Numeric, Octets, PackedBits, Printable, Teletex,
    Visible,
};
use asn1_values::{
    BitString, BitVec, BmpString, GeneralString, GraphicString, Ia5String, NamedBitString,
    NumericString, OctetString, PrintableString, TeletexString, VisibleString,
};

/// A law of the kinds of string: the units that a string of a kind can have are those that its type says, and a UTF8String has
/// the tag, the name and the content of its kind.
pub fn kinds_of_string_say_what_their_types_say()
    ensures bit_string { (s : List Bool) →
        ⟦<Bits as CodecString<bool>>⟧.AreOfKind s ↔ ⟦<BitString as AsnType>⟧.meaning.IsOfType s }
    ensures packed_bits { (s : List Bool) →
        ⟦<PackedBits as CodecString<bool>>⟧.AreOfKind s ↔ ⟦<BitVec as AsnType>⟧.meaning.IsOfType s }
    ensures named_bits { (s : List Bool) →
        ⟦<NamedBits as CodecString<bool>>⟧.AreOfKind s ↔
        ⟦<NamedBitString as AsnType>⟧.meaning.IsOfType s }
    ensures octet_string { (s : List ℕ) →
        ⟦<Octets as CodecString<u8>>⟧.AreOfKind s ↔ ⟦<OctetString as AsnType>⟧.meaning.IsOfType s }
    ensures general_string { (s : List ℕ) →
        ⟦<General as CodecString<u8>>⟧.AreOfKind s ↔
        ⟦<GeneralString as AsnType>⟧.meaning.IsOfType s }
    ensures graphic_string { (s : List ℕ) →
        ⟦<Graphic as CodecString<u8>>⟧.AreOfKind s ↔
        ⟦<GraphicString as AsnType>⟧.meaning.IsOfType s }
    ensures teletex_string { (s : List ℕ) →
        ⟦<Teletex as CodecString<u32>>⟧.AreOfKind s ↔
        ⟦<TeletexString as AsnType>⟧.meaning.IsOfType s }
    ensures bmp_string { (s : List ℕ) →
        ⟦<Bmp as CodecString<u16>>⟧.AreOfKind s ↔ ⟦<BmpString as AsnType>⟧.meaning.IsOfType s }
    ensures visible_string { (s : List ℕ) →
        ⟦<Visible as CodecString<u8>>⟧.AreOfKind s ↔
        ⟦<VisibleString as AsnType>⟧.meaning.IsOfType s }
    ensures ia5_string { (s : List ℕ) →
        ⟦<Ia5 as CodecString<u8>>⟧.AreOfKind s ↔ ⟦<Ia5String as AsnType>⟧.meaning.IsOfType s }
    ensures numeric_string { (s : List ℕ) →
        ⟦<Numeric as CodecString<u8>>⟧.AreOfKind s ↔
        ⟦<NumericString as AsnType>⟧.meaning.IsOfType s }
    ensures printable_string { (s : List ℕ) →
        ⟦<Printable as CodecString<u8>>⟧.AreOfKind s ↔
        ⟦<PrintableString as AsnType>⟧.meaning.IsOfType s }
    ensures utf8_string { (s : List ℕ) → ⟦<Utf8 as CodecString<u8>>⟧.AreOfKind s ↔ IsUtf8 s }
    ensures utf8_own { HasOwn ⟦<String as AsnType>⟧.meaning
        ⟦<Utf8 as StringType<u8>>⟧.own_tag unconstrained
        (Some ⟦<Utf8 as StringType<u8>>⟧.own_name) }
    ensures utf8_content { (s : List ℕ) → ⟦<Utf8 as StringType<u8>>⟧.content s ≡ units utf8 s }
{}

/// A law of the kinds as values: two are equal if and only if they are the same, and clones of kinds and of borrowed strings are
/// their sources.
pub fn kinds_of_string_are_compared_as_they_are<'a>()
    ensures kinds { ComparesAll ⟦<StringKind as PartialEq>⟧.eq }
    ensures clones_of_kinds { ClonesAll ⟦<StringKind as Clone>⟧.is_clone
        ⟦<StringKind as Clone>⟧.is_infallible }
    ensures octet_kinds { ComparesAll ⟦<OctetKind as PartialEq>⟧.eq }
    ensures clones_of_octet_kinds { ClonesAll ⟦<OctetKind as Clone>⟧.is_clone
        ⟦<OctetKind as Clone>⟧.is_infallible }
    ensures clones_of_strings { ClonesAll ⟦<AnyStr<'a> as Clone>⟧.is_clone
        ⟦<AnyStr<'a> as Clone>⟧.is_infallible }
{}
