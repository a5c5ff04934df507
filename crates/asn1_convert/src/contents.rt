//! Elements that no value of a type has, by X.690.

use asn1_contents::{ContentsKind, UniversalCharacters};
use asn1_der_items::Element;
use asn1_paths::ElementTags;
use asn1_tags::Tag;

/// The greatest number of unused bits (X.690, 8.6.2.2).
const MOST_UNUSED_BITS: u8 = 7;

/// The bit of an octet of an arc behind which another one follows (X.690, 8.19.2).
const MORE_FOLLOWS: u8 = 128;

/// A rule of X.690 on the elements of a type, which an element breaks.
#[derive(Clone, Copy)]
pub(crate) struct ContentsFault {
    /// The fault in words, with the section of the rule.
    pub(crate) words: &'static str,
    /// Whether the identifier octets break the rule, and not the contents octets.
    pub(crate) is_of_identifier: bool,
}

/// The rule that an element breaks with these tags.
pub(crate) fn contents_fault(tags: ElementTags, element: Element<'_>) -> Option<ContentsFault> {
    if let Some(words) = form_fault(tags.universal, element.constructed) {
        return Some(ContentsFault {
            words,
            is_of_identifier: true,
        });
    }
    if element.constructed {
        return None;
    }
    Some(ContentsFault {
        words: primitive_fault(tags, element.contents)?,
        is_of_identifier: false,
    })
}

/// The rule that the form of an element breaks, of a type with this tag of the universal class. Strings have both forms.
fn form_fault(universal: Tag, is_constructed: bool) -> Option<&'static str> {
    if is_constructed {
        constructed_fault(universal)
    } else {
        match universal {
            Tag::SEQUENCE => Some("a SEQUENCE is primitive (X.690, 8.9.1 and 8.10.1)"),
            Tag::SET => Some("a SET is primitive (X.690, 8.11.1 and 8.12.1)"),
            _ => None,
        }
    }
}

/// The rule that a constructed element of a type with this tag of the universal class breaks.
fn constructed_fault(universal: Tag) -> Option<&'static str> {
    match universal {
        Tag::BOOL => Some("a BOOLEAN is constructed (X.690, 8.2.1)"),
        Tag::INTEGER => Some("an INTEGER is constructed (X.690, 8.3.1)"),
        Tag::ENUMERATED => Some("an ENUMERATED is constructed (X.690, 8.4)"),
        Tag::NULL => Some("a NULL is constructed (X.690, 8.8.1)"),
        Tag::OBJECT_IDENTIFIER => Some("an OBJECT IDENTIFIER is constructed (X.690, 8.19.1)"),
        Tag::RELATIVE_OID => Some("a RELATIVE-OID is constructed (X.690, 8.20.1)"),
        _ => None,
    }
}

/// The rule that the contents octets of a primitive element with these tags break.
fn primitive_fault(tags: ElementTags, contents: &[u8]) -> Option<&'static str> {
    match tags.universal {
        Tag::BOOL if contents.len() != 1 => Some(
            "the contents of a BOOLEAN are not one octet (X.690, 8.2.1)",
        ),
        Tag::INTEGER if contents.is_empty() => Some("an INTEGER has no contents (X.690, 8.3.1)"),
        Tag::ENUMERATED if contents.is_empty() => Some(
            "an ENUMERATED has no contents (X.690, 8.4)",
        ),
        Tag::BIT_STRING if contents.is_empty() => Some(
            "a BIT STRING has no contents (X.690, 8.6.2)",
        ),
        Tag::BIT_STRING if !tells_unused_bits(contents) => Some(
            "the first octet of a BIT STRING is no number of unused bits (X.690, 8.6.2)",
        ),
        Tag::NULL if !contents.is_empty() => Some("a NULL has contents (X.690, 8.8.2)"),
        Tag::OBJECT_IDENTIFIER if contents.is_empty() => Some(
            "an OBJECT IDENTIFIER has no contents (X.690, 8.19.2)",
        ),
        Tag::OBJECT_IDENTIFIER if !ends_a_number(contents) => Some(
            "a number of an OBJECT IDENTIFIER does not end (X.690, 8.19.2)",
        ),
        Tag::RELATIVE_OID if contents.is_empty() => Some(
            "a RELATIVE-OID has no contents (X.690, 8.20.2)",
        ),
        Tag::RELATIVE_OID if !ends_a_number(contents) => Some(
            "a number of a RELATIVE-OID does not end (X.690, 8.20.2)",
        ),
        Tag::UTF8_STRING if !is_utf8(tags.own, contents) => Some(
            "the contents are no UTF-8 (X.690, 8.23.10)",
        ),
        Tag::UNIVERSAL_STRING if !UniversalCharacters::allows(contents) => Some(
            "the contents of a UniversalString are no characters, four octets each (X.690, 8.23.7)",
        ),
        Tag::BMP_STRING if contents.len() % 2 == 1 => Some(
            "the contents of a BMPString are an odd number of octets (X.690, 8.23.8)",
        ),
        _ => None,
    }
}

/// Whether the first octet of a BIT STRING is a number of unused bits that it can have (X.690, 8.6.2.2 and 8.6.2.3).
fn tells_unused_bits(contents: &[u8]) -> bool {
    match contents {
        [] => false,
        [unused] => *unused == 0,
        [unused, ..] => *unused <= MOST_UNUSED_BITS,
    }
}

/// Whether the last octet is the last one of a number.
fn ends_a_number(contents: &[u8]) -> bool {
    match contents.last() {
        Some(last) => *last < MORE_FOLLOWS,
        None => false,
    }
}

/// Whether octets are UTF-8, where the type with this tag is a UTF8String. The UniversalString of asn1_schema is one under another tag.
fn is_utf8(own: Tag, contents: &[u8]) -> bool {
    own == Tag::UNIVERSAL_STRING || str::from_utf8(contents).is_ok()
}
