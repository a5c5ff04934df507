//! The words of X.680 for types.
use asn1_notation::{ContentsKind, StringKind, TypeKind};

/// The word for a type.
pub fn type_word(kind: &TypeKind) -> &'static [u8] {
    match kind {
        TypeKind::Boolean => b"BOOLEAN",
        TypeKind::Null => b"NULL",
        TypeKind::Integer(_) => b"INTEGER",
        TypeKind::BitString(_) => b"BIT STRING",
        TypeKind::OctetString => b"OCTET STRING",
        TypeKind::ObjectIdentifier => b"OBJECT IDENTIFIER",
        TypeKind::String(kind) => string_word(*kind),
        TypeKind::Contents(kind) => contents_word(*kind),
        TypeKind::Enumerated(_) => b"ENUMERATED",
        TypeKind::Sequence(_) => b"SEQUENCE",
        TypeKind::Set(_) => b"SET",
        TypeKind::Choice(_) => b"CHOICE",
        TypeKind::SequenceOf(_, _) => b"SEQUENCE OF",
        TypeKind::SetOf(_, _) => b"SET OF",
        TypeKind::Tagged(_, _) => b"the tagged type",
        TypeKind::Any(_) => b"ANY",
        TypeKind::Reference(_) => b"the type",
        TypeKind::Selection(_, _) => b"the type of an alternative",
        TypeKind::Field(_, _) => b"the open type",
        TypeKind::Instance(_, _) => b"the type with arguments",
    }
}

/// The words behind the first in the name of a type of the language, where a tree has the first alone, with a space in front.
pub(crate) fn words_behind(first: &[u8]) -> &'static [u8] {
    match first {
        b"BIT" => b" STRING",
        b"OCTET" => b" STRING",
        b"OBJECT" => b" IDENTIFIER",
        b"EMBEDDED" => b" PDV",
        b"CHARACTER" => b" STRING",
        b"INSTANCE" => b" OF",
        _ => b"",
    }
}

// The word for a string of characters, or a time.
fn string_word(kind: StringKind) -> &'static [u8] {
    match kind {
        StringKind::Utf8 => b"UTF8String",
        StringKind::Numeric => b"NumericString",
        StringKind::Printable => b"PrintableString",
        StringKind::Teletex => b"TeletexString",
        StringKind::Videotex => b"VideotexString",
        StringKind::Ia5 => b"IA5String",
        StringKind::Graphic => b"GraphicString",
        StringKind::Visible => b"VisibleString",
        StringKind::General => b"GeneralString",
        StringKind::Universal => b"UniversalString",
        StringKind::Bmp => b"BMPString",
        StringKind::UtcTime => b"UTCTime",
        StringKind::GeneralizedTime => b"GeneralizedTime",
        StringKind::ObjectDescriptor => b"ObjectDescriptor",
    }
}

// The word for a type whose values are kept as their contents octets.
fn contents_word(kind: ContentsKind) -> &'static [u8] {
    match kind {
        ContentsKind::Real => b"REAL",
        ContentsKind::RelativeOid => b"RELATIVE-OID",
        ContentsKind::Date => b"DATE",
        ContentsKind::TimeOfDay => b"TIME-OF-DAY",
        ContentsKind::DateTime => b"DATE-TIME",
        ContentsKind::Duration => b"DURATION",
    }
}
