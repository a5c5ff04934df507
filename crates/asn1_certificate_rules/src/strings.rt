//! The tags of strings.
ghost use Rattle.std.specs.Prelude.{◌≡◌};
ghost use Rattle.asn1_certificate_rules.specs.Contents.{is_string};

use asn1_tags::Tag;

/// The tags of strings and of times in the universal class (X.680, 8.4, table 1).
const STRINGS: [Tag; 16] = [
    Tag::BIT_STRING,
    Tag::OCTET_STRING,
    Tag::OBJECT_DESCRIPTOR,
    Tag::UTF8_STRING,
    Tag::NUMERIC_STRING,
    Tag::PRINTABLE_STRING,
    Tag::TELETEX_STRING,
    Tag::VIDEOTEX_STRING,
    Tag::IA5_STRING,
    Tag::UTC_TIME,
    Tag::GENERALIZED_TIME,
    Tag::GRAPHIC_STRING,
    Tag::VISIBLE_STRING,
    Tag::GENERAL_STRING,
    Tag::UNIVERSAL_STRING,
    Tag::BMP_STRING,
];

/// Whether a tag is that of a string or a time.
pub(crate) fn is_string(tag: Tag) -> bool
    ensures { result ≡ is_string tag }
{
    STRINGS.contains(&tag)
}
