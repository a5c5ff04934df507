//! PrintableStrings in a name with characters outside their alphabet.
ghost use Rattle.std.specs.List.{list_all};
ghost use Rattle.std.specs.Prelude.{◌≡◌, Contains, MatchOption};
ghost use Rattle.asn1_certificate_reader.specs.Alphabets.{AnswersAlphabets, IsAttributeAt, IsAttributeIn, alphabet_fault, is_printable_string, string_fault};
ghost use Rattle.asn1_certificate_reader.specs.NameFaults.{AnswersName};
ghost use Rattle.asn1_certificate_text.specs.Registry.{NamesObject, known_objects, object_names};
ghost use Rattle.asn1_der_items.specs.Elements.{element_of};
ghost use Rattle.asn1_values.specs.Alphabets.{is_printable};
ghost use Rattle.asn1_x509.specs.declared.attribute_type_and_value.AttributeTypeAndValue.{AttributeTypeAndValue};

use crate::name_faults::{NameFault, Sought, ValueFault, first_in_parts};
use crate::objects::known_name;
use asn1_der_items::{Element, find_element};
use asn1_tags::Tag;
use asn1_values::Alphabet;
use asn1_values::kind::Printable;
use asn1_x509::{Name, RelativeDistinguishedName};

/// A PrintableString in a name with characters outside its alphabet (X.680, 41.4).
#[derive(Clone, Copy, Debug, Drop)]
pub struct AlphabetFault {
    /// The value, and its fault.
    pub fault: NameFault,
    /// The name of the kind of the attribute, if that has one here.
    pub kind: Option<&'static str>,
}

/// The first PrintableString in a name in DER with characters outside its alphabet, if there is one. The alphabet has the letters
/// and digits of ASCII, the space and `'()+,-./:=?`.
pub fn first_alphabet_fault(name: &Name) -> Option<AlphabetFault>
    ensures { AnswersAlphabets name.now result }
{
    match first_outside(name) {
        Some(fault) => Some(AlphabetFault {
            fault,
            kind: kind_at(name, fault),
        }),
        None => None,
    }
}

/// The first value that is such a string.
fn first_outside(name: &Name) -> Option<NameFault>
    ensures { AnswersName alphabet_fault name.now result }
{
    match name {
        Name::RdnSequence(parts) => first_in_parts(parts.as_slice(), Sought::Alphabets),
    }
}

/// The name of the kind of the attribute that has a fault, if the kind has a name here.
fn kind_at(name: &Name, fault: NameFault) -> Option<&'static str>
    ensures { (a : AttributeTypeAndValue) → IsAttributeAt name.now fault a →
        MatchOption result (¬ Contains known_objects a.type_)
        (λ kind. NamesObject object_names a.type_ kind.now) }
{
    match name {
        Name::RdnSequence(parts) => kind_in(parts.as_slice(), fault),
    }
}

/// The same of the parts of a name.
fn kind_in(parts: &[RelativeDistinguishedName], fault: NameFault) -> Option<&'static str>
    ensures { (a : AttributeTypeAndValue) → IsAttributeIn parts.now fault a →
        MatchOption result (¬ Contains known_objects a.type_)
        (λ kind. NamesObject object_names a.type_ kind.now) }
{
    let attributes = parts.get(fault.part)?.iter().as_slice();
    known_name(attributes.get(fault.attribute)?.type_.as_slice())
}

/// The fault of the octets of a value, if they are such a string.
#[tactic(auto, using(crate::proofs::AlphabetFaults::no_element))]
pub(crate) fn alphabet_fault(octets: &[u8]) -> Option<ValueFault>
    ensures { result ≡ alphabet_fault octets.now }
{
    match find_element(octets) {
        Ok(element) => string_fault(element),
        Err(_) => None,
    }
}

/// The fault of an element, if it is such a string.
fn string_fault(element: Element<'_>) -> Option<ValueFault>
    ensures { result ≡ string_fault (element_of element.entry) }
{
    if !is_printable_string(element) {
        return None;
    }
    if !are_printable(element.contents) {
        return Some(ValueFault::OutsideAlphabet);
    }
    None
}

/// Whether an element is a PrintableString, by its tag.
fn is_printable_string(element: Element<'_>) -> bool
    ensures { result ≡ is_printable_string (element_of element.entry) }
{
    if element.constructed {
        return false;
    }
    element.tag == Tag::PRINTABLE_STRING
}

/// Whether each octet is that of a character of the alphabet of PrintableString.
fn are_printable(octets: &[u8]) -> bool
    ensures { result ≡ list_all is_printable octets.now }
{
    octets.iter().all(|octet| Printable::allows(octet))
}
