//! Tags.
use asn1_notation::TagClass;

/// A tag.
#[derive(Clone, Copy, Debug, PartialEq, Eq)]
pub struct TagNumber {
    /// The class.
    pub class: TagClass,
    /// The number.
    pub number: u32,
}

/// The tagging of a component or an alternative.
#[derive(Clone, Copy, Debug, PartialEq, Eq)]
pub enum Tagging {
    /// It has the tag of its type.
    Untagged,
    /// This tag takes the place of its own.
    Implicit(TagNumber),
    /// This tag is in front of its own.
    Explicit(TagNumber),
}

/// The word of a class.
pub fn class_word(class: TagClass) -> &'static str {
    match class {
        TagClass::Universal => "universal",
        TagClass::Application => "application",
        TagClass::Context => "context",
        TagClass::Private => "private",
    }
}

/// The constant of a universal tag, if it has one.
pub(crate) fn universal_name(number: u32) -> Option<&'static str> {
    match number {
        1 => Some("BOOL"),
        2 => Some("INTEGER"),
        3 => Some("BIT_STRING"),
        4 => Some("OCTET_STRING"),
        5 => Some("NULL"),
        6 => Some("OBJECT_IDENTIFIER"),
        7 => Some("OBJECT_DESCRIPTOR"),
        10 => Some("ENUMERATED"),
        12 => Some("UTF8_STRING"),
        16 => Some("SEQUENCE"),
        17 => Some("SET"),
        18 => Some("NUMERIC_STRING"),
        19 => Some("PRINTABLE_STRING"),
        20 => Some("TELETEX_STRING"),
        21 => Some("VIDEOTEX_STRING"),
        22 => Some("IA5_STRING"),
        23 => Some("UTC_TIME"),
        24 => Some("GENERALIZED_TIME"),
        25 => Some("GRAPHIC_STRING"),
        26 => Some("VISIBLE_STRING"),
        27 => Some("GENERAL_STRING"),
        28 => Some("UNIVERSAL_STRING"),
        30 => Some("BMP_STRING"),
        _ => None,
    }
}
