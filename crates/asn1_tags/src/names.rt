//! The names of types.
ghost use Rattle.std.specs.Prelude.{◌≡◌, IsSome, Some, None};
ghost use Rattle.asn1_tags.specs.Names.{name_of};

/// The name of a type, for codecs that write names, or no name.
///
/// A type that ASN.1 itself defines has its keyword as name, with `_` for a space or a hyphen.
#[derive(Clone, Copy, PartialEq, Eq, PartialOrd, Ord, Hash, Debug)]
pub struct Identifier(pub Option<&'static str>);

impl Identifier {
    /// No name.
    pub const EMPTY: Identifier = Identifier(None);

    /// BOOLEAN.
    pub const BOOL: Identifier = Identifier(Some("BOOLEAN"));

    /// INTEGER.
    pub const INTEGER: Identifier = Identifier(Some("INTEGER"));

    /// ENUMERATED.
    pub const ENUMERATED: Identifier = Identifier(Some("ENUMERATED"));

    /// REAL.
    pub const REAL: Identifier = Identifier(Some("REAL"));

    /// NULL.
    pub const NULL: Identifier = Identifier(Some("NULL"));

    /// BIT STRING.
    pub const BIT_STRING: Identifier = Identifier(Some("BIT_STRING"));

    /// OCTET STRING.
    pub const OCTET_STRING: Identifier = Identifier(Some("OCTET_STRING"));

    /// OBJECT IDENTIFIER.
    pub const OBJECT_IDENTIFIER: Identifier = Identifier(Some("OBJECT_IDENTIFIER"));

    /// RELATIVE-OID.
    pub const RELATIVE_OID: Identifier = Identifier(Some("RELATIVE_OID"));

    /// OID-IRI.
    pub const IRI: Identifier = Identifier(Some("OID_IRI"));

    /// RELATIVE-OID-IRI.
    pub const RELATIVE_IRI: Identifier = Identifier(Some("RELATIVE_OID_IRI"));

    /// SEQUENCE.
    pub const SEQUENCE: Identifier = Identifier(Some("SEQUENCE"));

    /// SEQUENCE OF.
    pub const SEQUENCE_OF: Identifier = Identifier(Some("SEQUENCE_OF"));

    /// SET.
    pub const SET: Identifier = Identifier(Some("SET"));

    /// SET OF.
    pub const SET_OF: Identifier = Identifier(Some("SET_OF"));

    /// CHOICE.
    pub const CHOICE: Identifier = Identifier(Some("CHOICE"));

    /// EXTERNAL, by the name of the SEQUENCE that represents it.
    pub const EXTERNAL: Identifier = Identifier(Some("SEQUENCE"));

    /// EMBEDDED PDV, by the name of the SEQUENCE that represents it.
    pub const EMBEDDED_PDV: Identifier = Identifier(Some("SEQUENCE"));

    /// INSTANCE OF, by the name of the SEQUENCE that represents it.
    pub const INSTANCE_OF: Identifier = Identifier(Some("SEQUENCE"));

    /// CHARACTER STRING, by the name of the SEQUENCE that represents it.
    pub const UNRESTRICTED_CHARACTER_STRING: Identifier = Identifier(Some("SEQUENCE"));

    /// BMPString.
    pub const BMP_STRING: Identifier = Identifier(Some("BMPString"));

    /// GeneralString.
    pub const GENERAL_STRING: Identifier = Identifier(Some("GeneralString"));

    /// GraphicString.
    pub const GRAPHIC_STRING: Identifier = Identifier(Some("GraphicString"));

    /// IA5String.
    pub const IA5_STRING: Identifier = Identifier(Some("IA5String"));

    /// NumericString.
    pub const NUMERIC_STRING: Identifier = Identifier(Some("NumericString"));

    /// PrintableString.
    pub const PRINTABLE_STRING: Identifier = Identifier(Some("PrintableString"));

    /// TeletexString.
    pub const TELETEX_STRING: Identifier = Identifier(Some("TeletexString"));

    /// UTF8String.
    pub const UTF8_STRING: Identifier = Identifier(Some("UTF8String"));

    /// VisibleString.
    pub const VISIBLE_STRING: Identifier = Identifier(Some("VisibleString"));

    /// DATE.
    pub const DATE: Identifier = Identifier(Some("DATE"));

    /// DATE-TIME.
    pub const DATE_TIME: Identifier = Identifier(Some("DATE_TIME"));

    /// DURATION.
    pub const DURATION: Identifier = Identifier(Some("DURATION"));

    /// GeneralizedTime.
    pub const GENERALIZED_TIME: Identifier = Identifier(Some("GeneralizedTime"));

    /// TIME.
    pub const TIME: Identifier = Identifier(Some("TIME"));

    /// TIME-OF-DAY.
    pub const TIME_OF_DAY: Identifier = Identifier(Some("TIME_OF_DAY"));

    /// UTCTime.
    pub const UTC_TIME: Identifier = Identifier(Some("UTCTime"));

    /// This name, or the other where this one is empty.
    pub fn or(&self, other: Self) -> Self
        ensures named { IsSome (name_of self.now) → name_of result ≡ name_of self.now }
        ensures empty { name_of self.now ≡ None → name_of result ≡ name_of other }
    {
        Identifier(self.0.or(other.0))
    }

    /// The text of the name, which is not to be empty.
    pub fn unwrap(&self) -> &'static str
        requires { IsSome (name_of self.now) }
        ensures { name_of self.now ≡ Some result.now }
    {
        self.0.unwrap()
    }
}
