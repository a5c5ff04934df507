//! The search for faults in the values of a name, and the values that no name can have.
ghost use Rattle.std.specs.Prelude.{◌≡◌};
ghost use Rattle.std.specs.Str.{is_utf8};
ghost use Rattle.asn1_certificate_reader.specs.Alphabets.{fault_sought};
ghost use Rattle.asn1_certificate_reader.specs.NameFaults.{AnswersName, AnswersPart, AnswersParts, counts_unused_bits, element_fault, has_contents_of_tag, has_tag_of_name, value_fault};
ghost use Rattle.asn1_der_items.specs.Elements.{element_of};

use crate::alphabets::alphabet_fault;
use crate::units::are_bmp_characters;
use asn1_contents::{ContentsKind, UniversalCharacters};
use asn1_der_items::{Element, find_element};
use asn1_tags::Tag;
use asn1_x509::{AttributeTypeAndValue, Name, RelativeDistinguishedName};
use std::str;
use thiserror::Error;

/// The fault of a value in a name.
#[derive(Clone, Copy, Debug, Drop, PartialEq, Eq, Error)]
pub enum ValueFault {
    /// No name can have it: its tag is that of no kind of string, of no bits and of no SEQUENCE.
    #[error("is no string")]
    NoString,
    /// No name can have it: its octets are none of the type of its tag. They are no bits, no UTF-8, or no characters of a UniversalString
    /// or a BMPString.
    #[error("has octets that its kind of string cannot have")]
    BadString,
    /// It is a PrintableString with octets that are no characters of its alphabet (X.680, 41.4). Certificates in use have such values.
    #[error("has characters outside the alphabet of a PrintableString (X.680, 41.4)")]
    OutsideAlphabet,
}

/// A value in a name that has a fault.
#[derive(Clone, Copy, Debug, Drop, PartialEq, Eq, Error)]
#[error("the value of attribute {attribute} in part {part} {fault}")]
pub struct NameFault {
    /// The part, from 0, in the name's own order.
    pub part: usize,
    /// The attribute of the part, from 0.
    pub attribute: usize,
    /// The fault.
    pub fault: ValueFault,
}

/// The faults that a search looks for.
#[derive(Clone, Copy, Debug, Drop)]
pub(crate) enum Sought {
    /// Those of values that no name can have.
    Values,
    /// PrintableStrings with characters outside their alphabet.
    Alphabets,
}

/// The tags of the primitive values that a name can have.
const PRIMITIVE_TAGS: [Tag; 8] = [
    Tag::BIT_STRING,
    Tag::UTF8_STRING,
    Tag::NUMERIC_STRING,
    Tag::PRINTABLE_STRING,
    Tag::TELETEX_STRING,
    Tag::IA5_STRING,
    Tag::UNIVERSAL_STRING,
    Tag::BMP_STRING,
];

/// The first value in a name in DER that no name can have, if there is one. A name has values of seven kinds of string: those of a
/// DirectoryString (RFC 5280, 4.1.2.4), an IA5String and a NumericString; and bits and SEQUENCEs, for unique identifiers and postal
/// addresses. The alphabet of a kind of string is not checked, since certificates in use break it
/// ([`first_alphabet_fault`](crate::first_alphabet_fault) finds PrintableStrings that do); but the contents of a UTF8String, a
/// UniversalString and a BMPString have to be characters.
pub fn first_name_fault(name: &Name) -> Option<NameFault>
    ensures { AnswersName value_fault name.now result }
{
    match name {
        Name::RdnSequence(parts) => first_in_parts(parts.as_slice(), Sought::Values),
    }
}

/// The first value with a fault that is sought in the parts of a name.
pub(crate) fn first_in_parts(
    parts: &[RelativeDistinguishedName],
    sought: Sought,
) -> Option<NameFault>
    ensures { AnswersParts (fault_sought sought) parts.now result }
{
    for (part, attributes) in parts.iter().enumerate() {
        if let Some((attribute, fault)) = first_in_part(attributes.iter().as_slice(), sought) {
            return Some(NameFault {
                part,
                attribute,
                fault,
            });
        }
    }
    None
}

/// The first such value in the attributes of a part, with the index of the attribute.
fn first_in_part(
    attributes: &[AttributeTypeAndValue],
    sought: Sought,
) -> Option<(usize, ValueFault)>
    ensures { AnswersPart (fault_sought sought) attributes.now result }
{
    for (index, attribute) in attributes.iter().enumerate() {
        if let Some(fault) = fault_sought(attribute.value.as_bytes(), sought) {
            return Some((index, fault));
        }
    }
    None
}

/// The fault of the octets of a value, if they have one that is sought.
fn fault_sought(octets: &[u8], sought: Sought) -> Option<ValueFault>
    ensures { result ≡ fault_sought sought octets.now }
{
    match sought {
        Sought::Values => value_fault(octets),
        Sought::Alphabets => alphabet_fault(octets),
    }
}

/// The fault of the octets of a value, if no name can have them.
#[tactic(auto, using(crate::proofs::NameFaults::no_element))]
fn value_fault(octets: &[u8]) -> Option<ValueFault>
    ensures { result ≡ value_fault octets.now }
{
    match find_element(octets) {
        Ok(element) => element_fault(element),
        Err(_) => Some(ValueFault::NoString),
    }
}

/// The fault of an element, if no name can have it.
fn element_fault(element: Element<'_>) -> Option<ValueFault>
    ensures { result ≡ element_fault (element_of element.entry) }
{
    if !has_tag_of_name(element) {
        return Some(ValueFault::NoString);
    }
    if !has_contents_of_tag(element) {
        return Some(ValueFault::BadString);
    }
    None
}

/// Whether a name can have an element with this tag.
fn has_tag_of_name(element: Element<'_>) -> bool
    ensures { result ≡ has_tag_of_name (element_of element.entry) }
{
    if element.constructed {
        return element.tag == Tag::SEQUENCE;
    }
    PRIMITIVE_TAGS.contains(&element.tag)
}

/// Whether the contents are valid for the tag, if it is that of a BIT STRING, a UTF8String, a UniversalString or a BMPString.
fn has_contents_of_tag(element: Element<'_>) -> bool
    ensures { result ≡ has_contents_of_tag (element_of element.entry) }
{
    if element.tag == Tag::BIT_STRING {
        return counts_unused_bits(element.contents);
    }
    if element.tag == Tag::UTF8_STRING {
        return is_utf8(element.contents);
    }
    if element.tag == Tag::UNIVERSAL_STRING {
        return UniversalCharacters::allows(element.contents);
    }
    element.tag != Tag::BMP_STRING || are_bmp_characters(element.contents)
}

/// Whether the contents of a BIT STRING count no more than seven unused bits.
fn counts_unused_bits(contents: &[u8]) -> bool
    ensures { result ≡ counts_unused_bits contents.now }
{
    match contents {
        [unused, ..] => *unused < 8,
        [] => false,
    }
}

/// Whether octets are UTF-8.
fn is_utf8(octets: &[u8]) -> bool
    ensures { result ≡ is_utf8 octets.now }
{
    str::from_utf8(octets).is_ok()
}
