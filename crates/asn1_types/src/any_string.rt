//! Strings of whatever kind. A codec writes and reads the strings of all kinds by one call, and tells the kinds apart by
//! these types.
ghost use Rattle.asn1_types.specs.AnyStrings.{content_kind_of, content_of_str, content_of_string, octet_kind};
ghost use Rattle.asn1_model.specs.Records.{units};
ghost use Rattle.std.specs.Prelude.{◌≡◌, IfSome, IsSomeAnd, List, ℕ};

use asn1_values::BitVec;

/// A kind of string whose units are octets (X.680, 23 and 41).
#[derive(Clone, Copy, Debug, PartialEq, Eq)]
pub enum OctetKind {
    /// OCTET STRING.
    OctetString,
    /// UTF8String, whose octets are those of a text.
    Utf8,
    /// VisibleString.
    Visible,
    /// GeneralString.
    General,
    /// GraphicString.
    Graphic,
    /// IA5String.
    Ia5,
    /// PrintableString.
    Printable,
    /// NumericString.
    Numeric,
}

/// A kind of string (X.680, 22, 23 and 41), by what its units are.
#[derive(Clone, Copy, Debug, PartialEq, Eq)]
pub enum StringKind {
    /// BIT STRING, of bits.
    Bits,
    /// BIT STRING, of bits that lie in octets.
    PackedBits,
    /// BIT STRING with named bits, of bits that lie in octets, of which the last is 1.
    NamedBits,
    /// A kind whose units are octets.
    Octets(OctetKind),
    /// BMPString, of numbers of 16 bits.
    Bmp,
    /// TeletexString, of numbers of 32 bits.
    Teletex,
}

impl StringKind {
    /// The kind of the content of a string. The contents of all BIT STRINGs are of one kind.
    #[inline(always)]
    pub fn of_content(self) -> StringKind
        ensures { result ≡ content_kind_of self }
    {
        match self {
            StringKind::Bits | StringKind::PackedBits | StringKind::NamedBits => StringKind::Bits,
            StringKind::Octets(kind) => StringKind::Octets(kind),
            StringKind::Bmp => StringKind::Bmp,
            StringKind::Teletex => StringKind::Teletex,
        }
    }
}

/// A string of whatever kind, borrowed, as a codec is given it.
#[derive(Clone, Copy, Debug)]
pub enum AnyStr<'a> {
    /// A BIT STRING.
    Bits(&'a [bool]),
    /// A BIT STRING whose bits lie in octets.
    PackedBits(&'a BitVec),
    /// A string of a kind whose units are octets.
    Octets(OctetKind, &'a [u8]),
    /// A BMPString.
    Bmp(&'a [u16]),
    /// A TeletexString.
    Teletex(&'a [u32]),
}

/// A string of whatever kind, as a codec has read it. Its units need not be those that strings of the kind can have.
#[derive(Debug, Drop)]
pub enum AnyString {
    /// A BIT STRING.
    Bits(Vec<bool>),
    /// A BIT STRING whose bits lie in octets.
    PackedBits(BitVec),
    /// A string of a kind whose units are octets.
    Octets(OctetKind, Vec<u8>),
    /// A BMPString.
    Bmp(Vec<u16>),
    /// A TeletexString.
    Teletex(Vec<u32>),
}

impl AnyString {
    /// The octets of a string of this kind.
    pub(crate) fn into_octets(self, kind: OctetKind) -> Option<Vec<u8>>
        ensures found { (list : List ℕ) → content_of_string self ≡ units (octet_kind kind) list →
            IsSomeAnd result (λ found. found.items ≡ list) }
        ensures only { IfSome result (λ found.
            content_of_string self ≡ units (octet_kind kind) found.items) }
    {
        match self {
            AnyString::Octets(own, octets) => { if own == kind { Some(octets) } else { None } }
            _ => None,
        }
    }
}
