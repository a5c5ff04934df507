//! The kinds of string (X.680, 22, 23 and 41), as a codec writes and reads them.
ghost use Rattle.std.specs.Prelude.{◌≡◌, ◌<◌, ◌^◌, ⊤, All, IfSome, IsSomeAnd, IsTrue, List, codes, refl};
ghost use Rattle.std.specs.Str.{IsUtf8};
ghost use Rattle.std.specs.String.{string_bytes};
ghost use Rattle.asn1_values.specs.Alphabets.{is_ia5, is_numeric, is_printable, is_visible};
ghost use Rattle.asn1_values.specs.Bits.{EndsInOne};
ghost use Rattle.asn1_model.specs.Records.{Content, units, utf8};
ghost use Rattle.asn1_model.specs.Tags.{universal};
ghost use Rattle.asn1_types.specs.AnyStrings.{HasSpelling, IsMadeAs, IsStringOf, as_they_are, content_kind_of, content_of_str, content_of_string, content_read, with_zeros};
ghost use Rattle.asn1_types.specs.declared.any_string.OctetKind.TheVariants as octets;
ghost use Rattle.asn1_types.specs.declared.any_string.StringKind.TheVariants as kinds;
ghost use Rattle.asn1_types.specs.declared.any_string.StringKind.{StringKind};

use crate::any_string::{AnyStr, AnyString, OctetKind, StringKind};
use asn1_model::{StringType, TypeTable};
use asn1_tags::{Identifier, Tag};
use asn1_values::kind::{
    Bits, Bmp, General, Graphic, Ia5, NamedBits, Numeric, Octets, PackedBits, Printable, Teletex,
    Visible,
};
use asn1_values::{
    BitString, BitVec, BmpString, GeneralString, GraphicString, Ia5String, NamedBitString,
    NumericString, PrintableString, TeletexString, VisibleString,
};

/// A kind of string, by the kind's marker, as a codec writes and reads it: one call of a codec serves all kinds.
pub trait CodecString<U>: StringType<U> {
    /// A string of the kind that has its own memory.
    type Owned: Drop;

    // The kind, by which a codec tells it from others.
    ghost own_kind: { StringKind };

    // The units are those that a string of the kind can have.
    ghost AreOfKind: { List U → Type 0 };

    // The units of a string.
    ghost units_in: { Self.Owned → List U };

    // The units that are read where these come, in a codec that reads all spellings: those without the 0 bits at the end, if the
    // bits have names (X.680, 22.7).
    ghost units_read: { List U → List U };

    /// The kind, by which a codec tells it from others.
    fn kind() -> StringKind
        ensures { result ≡ own_kind };

    /// The string of these units, as a codec writes it.
    fn as_any(units: &[U]) -> AnyStr<'_>
        ensures { content_of_str result ≡ Self.content units.now };

    /// The string that a codec has read, if it is of this kind, and its units are those that a string of the kind can have.
    fn from_any(string: AnyString) -> Option<Self::Owned>
        ensures found { (list : List U) → AreOfKind list → IsMadeAs own_kind string →
            content_of_string string ≡ Self.content list →
            IsSomeAnd result (λ s. units_in s ≡ list) }
        ensures only { IfSome result (λ s.
            content_of_string string ≡ Self.content (units_in s)) }
        ensures read_as_is { IfSome result (λ s. units_read (units_in s) ≡ units_in s) };

    // The law of a kind: what its units are to a codec is a string of the kind.
    ghost is_string: { (list : List U) → AreOfKind list → IsStringOf own_kind (Self.content list) };

    // The same of the kind of the content, of whatever units.
    ghost has_kind: { (list : List U) → IsStringOf (content_kind_of own_kind) (Self.content list) };

    // The laws of what is read: units of the kind are read as they are, and the kind says what is read of others.
    ghost reads_own: { (list : List U) → AreOfKind list → units_read list ≡ list };

    ghost reads_content: { (list : List U) →
        content_read own_kind (Self.content list) ≡ Self.content (units_read list) };

    // The law of what is spelled: a content that is read as units of the kind has units that are read as these.
    ghost spellings: { (x : Content) (list : List U) → IsStringOf (content_kind_of own_kind) x →
        content_read own_kind x ≡ Self.content list → HasSpelling Self.content units_read x list };
}

/// The kind of UTF8String, whose strings are of the language's own type.
#[derive(Drop)]
pub enum Utf8 {}

impl StringType<u8> for Utf8 {
    ghost own_tag = { universal 12 };

    ghost own_name = { codes "UTF8String" };

    ghost content = { units utf8 };

    #[inline(always)]
    fn table() -> TypeTable {
        TypeTable::new(Tag::UTF8_STRING, Identifier::UTF8_STRING)
    }
}

impl CodecString<bool> for Bits {
    type Owned = BitString;

    ghost own_kind = { kinds.Bits };

    ghost AreOfKind = { λ _. ⊤ };

    ghost units_in = { λ string. string };

    ghost units_read = { λ list. list };

    fn kind() -> StringKind {
        StringKind::Bits
    }

    fn as_any(units: &[bool]) -> AnyStr<'_> {
        AnyStr::Bits(units)
    }

    fn from_any(string: AnyString) -> Option<BitString> {
        match string {
            AnyString::Bits(bits) => Some(BitString::new(bits)),
            _ => None,
        }
    }

    ghost is_string = { λ _ _. tt };

    ghost has_kind = { λ _. tt };

    ghost reads_own = { λ _ _. refl };

    ghost reads_content = { λ _. refl };

    ghost spellings = { λ x list _ read. as_they_are _ x list read };
}

impl CodecString<bool> for PackedBits {
    type Owned = BitVec;

    ghost own_kind = { kinds.PackedBits };

    ghost AreOfKind = { λ _. ⊤ };

    ghost units_in = { λ string. string };

    ghost units_read = { λ list. list };

    fn kind() -> StringKind {
        StringKind::PackedBits
    }

    fn as_any(units: &[bool]) -> AnyStr<'_> {
        AnyStr::Bits(units)
    }

    fn from_any(string: AnyString) -> Option<BitVec> {
        match string {
            AnyString::PackedBits(bits) => Some(bits),
            _ => None,
        }
    }

    ghost is_string = { λ _ _. tt };

    ghost has_kind = { λ _. tt };

    ghost reads_own = { λ _ _. refl };

    ghost reads_content = { λ _. refl };

    ghost spellings = { λ x list _ read. as_they_are _ x list read };
}

impl CodecString<bool> for NamedBits {
    ghost use Rattle.asn1_strings.proofs.TrailingZeros.{nothing_left_out};
    ghost use Rattle.asn1_values.specs.Bits.{without_trailing_zeros};

    type Owned = NamedBitString;

    ghost own_kind = { kinds.NamedBits };

    ghost AreOfKind = { EndsInOne };

    ghost units_in = { λ string. string };

    ghost units_read = { without_trailing_zeros };

    fn kind() -> StringKind {
        StringKind::NamedBits
    }

    fn as_any(units: &[bool]) -> AnyStr<'_> {
        AnyStr::Bits(units)
    }

    fn from_any(string: AnyString) -> Option<NamedBitString> {
        match string {
            AnyString::PackedBits(bits) => NamedBitString::of_bits(bits),
            _ => None,
        }
    }

    ghost is_string = { λ _ ends. ends };

    ghost has_kind = { λ _. tt };

    ghost reads_own = { nothing_left_out };

    ghost reads_content = { λ _. refl };

    ghost spellings = { with_zeros };
}

impl CodecString<u8> for Octets {
    type Owned = Vec<u8>;

    ghost own_kind = { kinds.Octets octets.OctetString };

    ghost AreOfKind = { All (λ unit. unit < 2 ^ 8) };

    ghost units_in = { λ string. string.items };

    ghost units_read = { λ list. list };

    fn kind() -> StringKind {
        StringKind::Octets(OctetKind::OctetString)
    }

    fn as_any(units: &[u8]) -> AnyStr<'_> {
        AnyStr::Octets(OctetKind::OctetString, units)
    }

    fn from_any(string: AnyString) -> Option<Vec<u8>> {
        string.into_octets(OctetKind::OctetString)
    }

    ghost is_string = { λ _ _. refl };

    ghost has_kind = { λ _. refl };

    ghost reads_own = { λ _ _. refl };

    ghost reads_content = { λ _. refl };

    ghost spellings = { λ x list _ read. as_they_are _ x list read };
}

impl CodecString<u8> for Utf8 {
    type Owned = String;

    ghost own_kind = { kinds.Octets octets.Utf8 };

    ghost AreOfKind = { IsUtf8 };

    ghost units_in = { string_bytes };

    ghost units_read = { λ list. list };

    fn kind() -> StringKind {
        StringKind::Octets(OctetKind::Utf8)
    }

    fn as_any(units: &[u8]) -> AnyStr<'_> {
        AnyStr::Octets(OctetKind::Utf8, units)
    }

    fn from_any(string: AnyString) -> Option<String> {
        String::from_utf8(string.into_octets(OctetKind::Utf8)?).ok()
    }

    ghost is_string = { λ _ _. refl };

    ghost has_kind = { λ _. refl };

    ghost reads_own = { λ _ _. refl };

    ghost reads_content = { λ _. refl };

    ghost spellings = { λ x list _ read. as_they_are _ x list read };
}

impl CodecString<u8> for General {
    type Owned = GeneralString;

    ghost own_kind = { kinds.Octets octets.General };

    ghost AreOfKind = { All (λ unit. unit < 2 ^ 8) };

    ghost units_in = { λ string. string };

    ghost units_read = { λ list. list };

    fn kind() -> StringKind {
        StringKind::Octets(OctetKind::General)
    }

    fn as_any(units: &[u8]) -> AnyStr<'_> {
        AnyStr::Octets(OctetKind::General, units)
    }

    fn from_any(string: AnyString) -> Option<GeneralString> {
        Some(GeneralString::new(string.into_octets(OctetKind::General)?))
    }

    ghost is_string = { λ _ _. refl };

    ghost has_kind = { λ _. refl };

    ghost reads_own = { λ _ _. refl };

    ghost reads_content = { λ _. refl };

    ghost spellings = { λ x list _ read. as_they_are _ x list read };
}

impl CodecString<u8> for Graphic {
    type Owned = GraphicString;

    ghost own_kind = { kinds.Octets octets.Graphic };

    ghost AreOfKind = { All (λ unit. unit < 2 ^ 8) };

    ghost units_in = { λ string. string };

    ghost units_read = { λ list. list };

    fn kind() -> StringKind {
        StringKind::Octets(OctetKind::Graphic)
    }

    fn as_any(units: &[u8]) -> AnyStr<'_> {
        AnyStr::Octets(OctetKind::Graphic, units)
    }

    fn from_any(string: AnyString) -> Option<GraphicString> {
        Some(GraphicString::new(string.into_octets(OctetKind::Graphic)?))
    }

    ghost is_string = { λ _ _. refl };

    ghost has_kind = { λ _. refl };

    ghost reads_own = { λ _ _. refl };

    ghost reads_content = { λ _. refl };

    ghost spellings = { λ x list _ read. as_they_are _ x list read };
}

impl CodecString<u32> for Teletex {
    type Owned = TeletexString;

    ghost own_kind = { kinds.Teletex };

    ghost AreOfKind = { All (λ unit. unit < 2 ^ 32) };

    ghost units_in = { λ string. string };

    ghost units_read = { λ list. list };

    fn kind() -> StringKind {
        StringKind::Teletex
    }

    fn as_any(units: &[u32]) -> AnyStr<'_> {
        AnyStr::Teletex(units)
    }

    fn from_any(string: AnyString) -> Option<TeletexString> {
        match string {
            AnyString::Teletex(units) => Some(TeletexString::new(units)),
            _ => None,
        }
    }

    ghost is_string = { λ _ _. refl };

    ghost has_kind = { λ _. refl };

    ghost reads_own = { λ _ _. refl };

    ghost reads_content = { λ _. refl };

    ghost spellings = { λ x list _ read. as_they_are _ x list read };
}

impl CodecString<u16> for Bmp {
    type Owned = BmpString;

    ghost own_kind = { kinds.Bmp };

    ghost AreOfKind = { All (λ unit. unit < 2 ^ 16) };

    ghost units_in = { λ string. string };

    ghost units_read = { λ list. list };

    fn kind() -> StringKind {
        StringKind::Bmp
    }

    fn as_any(units: &[u16]) -> AnyStr<'_> {
        AnyStr::Bmp(units)
    }

    fn from_any(string: AnyString) -> Option<BmpString> {
        match string {
            AnyString::Bmp(units) => Some(BmpString::new(units)),
            _ => None,
        }
    }

    ghost is_string = { λ _ _. refl };

    ghost has_kind = { λ _. refl };

    ghost reads_own = { λ _ _. refl };

    ghost reads_content = { λ _. refl };

    ghost spellings = { λ x list _ read. as_they_are _ x list read };
}

impl CodecString<u8> for Visible {
    type Owned = VisibleString;

    ghost own_kind = { kinds.Octets octets.Visible };

    ghost AreOfKind = { All (λ unit. IsTrue (is_visible unit)) };

    ghost units_in = { λ string. string };

    ghost units_read = { λ list. list };

    fn kind() -> StringKind {
        StringKind::Octets(OctetKind::Visible)
    }

    fn as_any(units: &[u8]) -> AnyStr<'_> {
        AnyStr::Octets(OctetKind::Visible, units)
    }

    fn from_any(string: AnyString) -> Option<VisibleString> {
        VisibleString::new(string.into_octets(OctetKind::Visible)?).ok()
    }

    ghost is_string = { λ _ _. refl };

    ghost has_kind = { λ _. refl };

    ghost reads_own = { λ _ _. refl };

    ghost reads_content = { λ _. refl };

    ghost spellings = { λ x list _ read. as_they_are _ x list read };
}

impl CodecString<u8> for Ia5 {
    type Owned = Ia5String;

    ghost own_kind = { kinds.Octets octets.Ia5 };

    ghost AreOfKind = { All (λ unit. IsTrue (is_ia5 unit)) };

    ghost units_in = { λ string. string };

    ghost units_read = { λ list. list };

    fn kind() -> StringKind {
        StringKind::Octets(OctetKind::Ia5)
    }

    fn as_any(units: &[u8]) -> AnyStr<'_> {
        AnyStr::Octets(OctetKind::Ia5, units)
    }

    fn from_any(string: AnyString) -> Option<Ia5String> {
        Ia5String::new(string.into_octets(OctetKind::Ia5)?).ok()
    }

    ghost is_string = { λ _ _. refl };

    ghost has_kind = { λ _. refl };

    ghost reads_own = { λ _ _. refl };

    ghost reads_content = { λ _. refl };

    ghost spellings = { λ x list _ read. as_they_are _ x list read };
}

impl CodecString<u8> for Numeric {
    type Owned = NumericString;

    ghost own_kind = { kinds.Octets octets.Numeric };

    ghost AreOfKind = { All (λ unit. IsTrue (is_numeric unit)) };

    ghost units_in = { λ string. string };

    ghost units_read = { λ list. list };

    fn kind() -> StringKind {
        StringKind::Octets(OctetKind::Numeric)
    }

    fn as_any(units: &[u8]) -> AnyStr<'_> {
        AnyStr::Octets(OctetKind::Numeric, units)
    }

    fn from_any(string: AnyString) -> Option<NumericString> {
        NumericString::new(string.into_octets(OctetKind::Numeric)?).ok()
    }

    ghost is_string = { λ _ _. refl };

    ghost has_kind = { λ _. refl };

    ghost reads_own = { λ _ _. refl };

    ghost reads_content = { λ _. refl };

    ghost spellings = { λ x list _ read. as_they_are _ x list read };
}

impl CodecString<u8> for Printable {
    type Owned = PrintableString;

    ghost own_kind = { kinds.Octets octets.Printable };

    ghost AreOfKind = { All (λ unit. IsTrue (is_printable unit)) };

    ghost units_in = { λ string. string };

    ghost units_read = { λ list. list };

    fn kind() -> StringKind {
        StringKind::Octets(OctetKind::Printable)
    }

    fn as_any(units: &[u8]) -> AnyStr<'_> {
        AnyStr::Octets(OctetKind::Printable, units)
    }

    fn from_any(string: AnyString) -> Option<PrintableString> {
        PrintableString::new(string.into_octets(OctetKind::Printable)?).ok()
    }

    ghost is_string = { λ _ _. refl };

    ghost has_kind = { λ _. refl };

    ghost reads_own = { λ _ _. refl };

    ghost reads_content = { λ _. refl };

    ghost spellings = { λ x list _ read. as_they_are _ x list read };
}
