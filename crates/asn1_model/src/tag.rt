//! Markers of the tags that X.680 assigns (8.4, table 1), for types that name a tag by a type.
ghost use Rattle.asn1_model.specs.Kinds.{marker_type};
ghost use Rattle.asn1_model.specs.Tags.{universal};

use crate::asn_type::AsnType;
use crate::type_table::TypeTable;
use asn1_tags::{Class, Identifier, Tag};

/// The marker of a tag of the class `Universal`, by its number. It has this tag, no constraints and no name.
#[derive(Clone, Copy, Debug, PartialEq, Eq, PartialOrd, Ord, Hash)]
pub struct Marker<const NUMBER: u32>;

impl<const NUMBER: u32> AsnType for Marker<NUMBER> {
    ghost meaning = { marker_type (universal NUMBER) };

    fn table() -> TypeTable {
        TypeTable::new(Tag::new(Class::Universal, NUMBER), Identifier::EMPTY)
    }

    fn is_present(&self) -> bool {
        true
    }
}

/// The tag of end of contents.
#[allow(non_camel_case_types)]
pub type EOC = Marker<0>;

/// The tag of BOOLEAN.
#[allow(non_camel_case_types)]
pub type BOOL = Marker<1>;

/// The tag of INTEGER.
#[allow(non_camel_case_types)]
pub type INTEGER = Marker<2>;

/// The tag of BIT STRING.
#[allow(non_camel_case_types)]
pub type BIT_STRING = Marker<3>;

/// The tag of OCTET STRING.
#[allow(non_camel_case_types)]
pub type OCTET_STRING = Marker<4>;

/// The tag of NULL.
#[allow(non_camel_case_types)]
pub type NULL = Marker<5>;

/// The tag of OBJECT IDENTIFIER.
#[allow(non_camel_case_types)]
pub type OBJECT_IDENTIFIER = Marker<6>;

/// The tag of ObjectDescriptor.
#[allow(non_camel_case_types)]
pub type OBJECT_DESCRIPTOR = Marker<7>;

/// The tag of EXTERNAL.
#[allow(non_camel_case_types)]
pub type EXTERNAL = Marker<8>;

/// The tag of REAL.
#[allow(non_camel_case_types)]
pub type REAL = Marker<9>;

/// The tag of ENUMERATED.
#[allow(non_camel_case_types)]
pub type ENUMERATED = Marker<10>;

/// The tag of EMBEDDED PDV.
#[allow(non_camel_case_types)]
pub type EMBEDDED_PDV = Marker<11>;

/// The tag of UTF8String.
#[allow(non_camel_case_types)]
pub type UTF8_STRING = Marker<12>;

/// The tag of RELATIVE-OID.
#[allow(non_camel_case_types)]
pub type RELATIVE_OID = Marker<13>;

/// The tag of SEQUENCE and SEQUENCE OF.
#[allow(non_camel_case_types)]
pub type SEQUENCE = Marker<16>;

/// The tag of SET and SET OF.
#[allow(non_camel_case_types)]
pub type SET = Marker<17>;

/// The tag of NumericString.
#[allow(non_camel_case_types)]
pub type NUMERIC_STRING = Marker<18>;

/// The tag of PrintableString.
#[allow(non_camel_case_types)]
pub type PRINTABLE_STRING = Marker<19>;

/// The tag of TeletexString.
#[allow(non_camel_case_types)]
pub type TELETEX_STRING = Marker<20>;

/// The tag of VideotexString.
#[allow(non_camel_case_types)]
pub type VIDEOTEX_STRING = Marker<21>;

/// The tag of IA5String.
#[allow(non_camel_case_types)]
pub type IA5_STRING = Marker<22>;

/// The tag of UTCTime.
#[allow(non_camel_case_types)]
pub type UTC_TIME = Marker<23>;

/// The tag of GeneralizedTime.
#[allow(non_camel_case_types)]
pub type GENERALIZED_TIME = Marker<24>;

/// The tag of GraphicString.
#[allow(non_camel_case_types)]
pub type GRAPHIC_STRING = Marker<25>;

/// The tag of VisibleString.
#[allow(non_camel_case_types)]
pub type VISIBLE_STRING = Marker<26>;

/// The tag of GeneralString.
#[allow(non_camel_case_types)]
pub type GENERAL_STRING = Marker<27>;

/// The tag of UniversalString.
#[allow(non_camel_case_types)]
pub type UNIVERSAL_STRING = Marker<28>;

/// The tag of CHARACTER STRING.
#[allow(non_camel_case_types)]
pub type CHARACTER_STRING = Marker<29>;

/// The tag of BMPString.
#[allow(non_camel_case_types)]
pub type BMP_STRING = Marker<30>;

/// The tag of DATE.
#[allow(non_camel_case_types)]
pub type DATE = Marker<31>;
