//! The parameters of algorithms.
ghost use Rattle.std.specs.Prelude.{◌≡◌, IfOk, IfSome, true};
ghost use Rattle.asn1_certificate_reader.specs.Inside.{AreOfNoValue};
ghost use Rattle.asn1_certificate_reader.specs.Parameters.{AreBad, AreNotOfType, HasBadParameters, has_own_form, has_universal_form, has_whole_units, type_of_element, type_of_tag};
ghost use Rattle.asn1_der_items.specs.Elements.{element_at, element_of};
ghost use Rattle.asn1_model.specs.Meaning.{IsWellTagged};

use crate::inside::read_inside;
use asn1_dec::Decode;
use asn1_der_items::{Element, find_element};
use asn1_model::tag::ENUMERATED;
use asn1_rules::Rules;
use asn1_tags::{Class, Tag};
use asn1_types::Implicit;
use asn1_values::{BitString, BmpString, Integer, ObjectIdentifier};
use asn1_x509::AlgorithmIdentifier;
use std::alloc::{AllocError, Global};
use thiserror::Error;

/// The type that parameters of an algorithm have to be of, by their tag.
#[derive(Clone, Copy, Debug, Drop, PartialEq, Eq, Error)]
pub enum ParameterType {
    /// BOOLEAN
    #[error("BOOLEAN")]
    Boolean,
    /// INTEGER
    #[error("INTEGER")]
    Integer,
    /// BIT STRING
    #[error("BIT STRING")]
    BitString,
    /// NULL
    #[error("NULL")]
    Null,
    /// OBJECT IDENTIFIER
    #[error("OBJECT IDENTIFIER")]
    ObjectIdentifier,
    /// ENUMERATED, whose contents octets are those of an INTEGER
    #[error("ENUMERATED")]
    Enumerated,
    /// UniversalString
    #[error("UniversalString")]
    UniversalString,
    /// BMPString
    #[error("BMPString")]
    BmpString,
    /// An element in the form that DER gives its tag: of the universal class, a constructed one for a SEQUENCE or a SET, and a
    /// primitive one for any other type.
    #[error("element of DER")]
    Element,
}

/// The tags of the universal class of constructed parameters.
const CONSTRUCTED_TAGS: [Tag; 2] = [Tag::SEQUENCE, Tag::SET];

/// The tags of the universal class that primitive parameters cannot have.
const NO_PRIMITIVE_TAGS: [Tag; 3] = [Tag::EOC, Tag::SEQUENCE, Tag::SET];

/// The type that the parameters of an algorithm have to be of by their tag, in DER, if they are not. The contents are checked for eight
/// types, for another tag of the universal class the form alone, and parameters of any other class can be anything. An algorithm
/// may have none. The call fails only if memory runs out.
pub fn bad_parameters<R: Rules<Output = Vec<u8>>>(
    rules: &R,
    alloc: Global,
    algorithm: &AlgorithmIdentifier,
) -> Result<Option<ParameterType>, AllocError>
    ensures { IfOk result (λ bad.
        IfSome bad (HasBadParameters R.format algorithm.now)) }
{
    match &algorithm.parameters {
        Some(parameters) => bad_type(rules, alloc, parameters.as_bytes()),
        None => Ok(None),
    }
}

/// The same of the octets of parameters.
fn bad_type<R: Rules<Output = Vec<u8>>>(
    rules: &R,
    alloc: Global,
    octets: &[u8],
) -> Result<Option<ParameterType>, AllocError>
    ensures { IfOk result (λ bad. IfSome bad (AreBad R.format octets.now)) }
{
    let Some(parameter_type) = type_of_octets(octets) else {
        return Ok(None);
    };
    if are_not_of_type(rules, alloc, parameter_type, octets)? {
        return Ok(Some(parameter_type));
    }
    Ok(None)
}

/// The type that the first element of octets has to be of, if there is one: an element of DER if it is not in the form that DER gives
/// its tag, or else the type of its tag, if its contents are checked.
fn type_of_octets(octets: &[u8]) -> Option<ParameterType>
    ensures { IfSome result (λ kind. type_of_element (element_at octets.now) ≡ Some kind) }
{
    match find_element(octets) {
        Ok(element) => {
            if has_own_form(element) {
                type_of_tag(element.tag)
            } else {
                Some(ParameterType::Element)
            }
        }
        Err(_) => None,
    }
}

/// Whether an element is in the form that DER gives its tag, if the tag decides it.
fn has_own_form(element: Element<'_>) -> bool
    ensures { result ≡ has_own_form element.entry.tag.class (element_of element.entry) }
{
    match element.tag.class {
        Class::Universal => has_universal_form(element),
        Class::Application | Class::Context | Class::Private => true,
    }
}

/// The same of an element of the universal class.
fn has_universal_form(element: Element<'_>) -> bool
    ensures { result ≡ has_universal_form (element_of element.entry) }
{
    if element.constructed {
        return CONSTRUCTED_TAGS.contains(&element.tag);
    }
    !NO_PRIMITIVE_TAGS.contains(&element.tag)
}

/// The type with this tag, if its contents octets are checked.
fn type_of_tag(tag: Tag) -> Option<ParameterType>
    ensures { result ≡ type_of_tag tag }
{
    if tag == Tag::BOOL {
        return Some(ParameterType::Boolean);
    }
    if tag == Tag::INTEGER {
        return Some(ParameterType::Integer);
    }
    if tag == Tag::BIT_STRING {
        return Some(ParameterType::BitString);
    }
    if tag == Tag::NULL {
        return Some(ParameterType::Null);
    }
    if tag == Tag::OBJECT_IDENTIFIER {
        return Some(ParameterType::ObjectIdentifier);
    }
    if tag == Tag::ENUMERATED {
        return Some(ParameterType::Enumerated);
    }
    if tag == Tag::UNIVERSAL_STRING {
        return Some(ParameterType::UniversalString);
    }
    if tag == Tag::BMP_STRING {
        return Some(ParameterType::BmpString);
    }
    None
}

/// Whether octets are read as no value of this type.
fn are_not_of_type<R: Rules<Output = Vec<u8>>>(
    rules: &R,
    alloc: Global,
    parameter_type: ParameterType,
    octets: &[u8],
) -> Result<bool, AllocError>
    ensures { IfOk result (λ none. none ≡ true → AreNotOfType R.format parameter_type octets.now) }
{
    match parameter_type {
        ParameterType::Boolean => are_of_no_value::<R, bool>(rules, alloc, octets),
        ParameterType::Integer => are_of_no_value::<R, Integer>(rules, alloc, octets),
        ParameterType::BitString => are_of_no_value::<R, BitString>(rules, alloc, octets),
        ParameterType::Null => are_of_no_value::<R, ()>(rules, alloc, octets),
        ParameterType::ObjectIdentifier => {
            are_of_no_value::<R, ObjectIdentifier>(rules, alloc, octets)
        }
        ParameterType::Enumerated => {
            are_of_no_value::<R, Implicit<ENUMERATED, Integer>>(rules, alloc, octets)
        }
        ParameterType::UniversalString => Ok(!has_whole_units(octets)),
        ParameterType::BmpString => are_of_no_value::<R, BmpString>(rules, alloc, octets),
        ParameterType::Element => Ok(true),
    }
}

/// Whether octets begin with an element whose contents are units of four octets.
fn has_whole_units(octets: &[u8]) -> bool
    ensures { result ≡ has_whole_units (element_at octets.now) }
{
    match find_element(octets) {
        Ok(element) => element.contents.len() % 4 == 0,
        Err(_) => false,
    }
}

/// Whether octets are read as no value of a type.
fn are_of_no_value<R: Rules<Output = Vec<u8>>, T: Decode>(
    rules: &R,
    alloc: Global,
    octets: &[u8],
) -> Result<bool, AllocError>
    ensures { IsWellTagged T.meaning → IfOk result (λ none. none ≡ true →
        AreOfNoValue R.format T.meaning octets.now) }
{
    match read_inside::<R, T>(rules, alloc, octets)? {
        Some(_) => Ok(false),
        None => Ok(true),
    }
}
