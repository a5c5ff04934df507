//! Tables of words.
use crate::error::Construct;
use asn1_notation::{ContentsKind, StringKind};

// The names of strings and useful types.
const STRINGS: &[(&[u8], StringKind)] = &[
    (b"UTF8String", StringKind::Utf8),
    (b"NumericString", StringKind::Numeric),
    (b"PrintableString", StringKind::Printable),
    (b"TeletexString", StringKind::Teletex),
    (b"T61String", StringKind::Teletex),
    (b"VideotexString", StringKind::Videotex),
    (b"IA5String", StringKind::Ia5),
    (b"GraphicString", StringKind::Graphic),
    (b"VisibleString", StringKind::Visible),
    (b"ISO646String", StringKind::Visible),
    (b"GeneralString", StringKind::General),
    (b"UniversalString", StringKind::Universal),
    (b"BMPString", StringKind::Bmp),
    (b"UTCTime", StringKind::UtcTime),
    (b"GeneralizedTime", StringKind::GeneralizedTime),
    (b"ObjectDescriptor", StringKind::ObjectDescriptor),
];

// The names of types whose values are kept as their contents octets.
const CONTENTS: &[(&[u8], ContentsKind)] = &[
    (b"REAL", ContentsKind::Real),
    (b"RELATIVE-OID", ContentsKind::RelativeOid),
    (b"DATE", ContentsKind::Date),
    (b"TIME-OF-DAY", ContentsKind::TimeOfDay),
    (b"DATE-TIME", ContentsKind::DateTime),
    (b"DURATION", ContentsKind::Duration),
];

// The words with which types begin that are not taken, and the names of these types.
const NOT_TAKEN: &[(&[u8], Construct)] = &[
    (b"OID-IRI", Construct::OidIri),
    (b"RELATIVE-OID-IRI", Construct::RelativeOidIri),
    (b"TIME", Construct::Time),
];

/// The kind of string with this name.
pub(crate) fn string_kind(word: &[u8]) -> Option<StringKind> {
    for entry in STRINGS {
        if entry.0 == word {
            return Some(entry.1);
        }
    }
    None
}

/// The type with this name, if its values are kept as their contents octets.
pub(crate) fn contents_kind(word: &[u8]) -> Option<ContentsKind> {
    for entry in CONTENTS {
        if entry.0 == word {
            return Some(entry.1);
        }
    }
    None
}

/// Whether this word is a type that holds no other, without parts.
pub(crate) fn is_plain_type(word: &[u8]) -> bool {
    matches!(word, b"BOOLEAN" | b"INTEGER" | b"NULL")
        || string_kind(word).is_some()
        || contents_kind(word).is_some()
}

/// The name of the type that begins with this word, and is not taken.
pub(crate) fn not_taken(word: &[u8]) -> Option<Construct> {
    for entry in NOT_TAKEN {
        if entry.0 == word {
            return Some(entry.1);
        }
    }
    None
}
