//! Names and their attributes.
ghost use Rattle.std.specs.List.{AllZip};
ghost use Rattle.std.specs.Prelude.{IfOk, MatchOption, reverse};
ghost use Rattle.asn1_certificate_reader.specs.Names.{IsAttributeOf, IsNameOf, IsOctetsOf, IsPartOf, IsValueOf};

use crate::name_strings::{PrintableOctets, characters_of};
use crate::objects::object_of;
use asn1_certificate_text::{Attribute, AttributeValue, NamePart, ShownName};
use asn1_rules::Rules;
use asn1_values::{Ia5String, NumericString};
use asn1_x509::{AttributeTypeAndValue, DirectoryString, Name, RelativeDistinguishedName};
use std::alloc::{AllocError, Global};

/// A name by its parts, the last part first.
pub(crate) fn name_of<R: Rules<Output = Vec<u8>>>(
    rules: &R,
    alloc: Global,
    name: &Name,
) -> Result<ShownName, AllocError>
    ensures { IfOk result (IsNameOf R.format name.now) }
{
    match name {
        Name::RdnSequence(given) => name_of_parts(rules, alloc, given.as_slice()),
    }
}

/// The same of the parts of a name.
fn name_of_parts<R: Rules<Output = Vec<u8>>>(
    rules: &R,
    alloc: Global,
    given: &[RelativeDistinguishedName],
) -> Result<ShownName, AllocError>
    ensures { IfOk result (λ shown.
        AllZip (IsPartOf R.format) (reverse given.now) shown.parts.items) }
{
    let mut parts = parts_of(rules, alloc, given)?;
    parts.reverse();
    Ok(ShownName { parts })
}

/// The parts of a name, in their order.
fn parts_of<R: Rules<Output = Vec<u8>>>(
    rules: &R,
    alloc: Global,
    given: &[RelativeDistinguishedName],
) -> Result<Vec<NamePart>, AllocError>
    ensures { IfOk result (λ parts. AllZip (IsPartOf R.format) given.now parts.items) }
{
    let mut parts = Vec::new(alloc);
    for part in given {
        parts.push(part_of(rules, alloc, part)?)?;
    }
    Ok(parts)
}

/// A part of a name.
fn part_of<R: Rules<Output = Vec<u8>>>(
    rules: &R,
    alloc: Global,
    part: &RelativeDistinguishedName,
) -> Result<NamePart, AllocError>
    ensures { IfOk result (IsPartOf R.format part.now) }
{
    Ok(NamePart {
        attributes: attributes_of(rules, alloc, part.iter().as_slice())?,
    })
}

/// Attributes, in their order.
fn attributes_of<R: Rules<Output = Vec<u8>>>(
    rules: &R,
    alloc: Global,
    given: &[AttributeTypeAndValue],
) -> Result<Vec<Attribute>, AllocError>
    ensures { IfOk result (λ attributes.
        AllZip (IsAttributeOf R.format) given.now attributes.items) }
{
    let mut attributes = Vec::new(alloc);
    for attribute in given {
        attributes.push(attribute_of(rules, alloc, attribute)?)?;
    }
    Ok(attributes)
}

/// An attribute with its kind and its value.
fn attribute_of<R: Rules<Output = Vec<u8>>>(
    rules: &R,
    alloc: Global,
    attribute: &AttributeTypeAndValue,
) -> Result<Attribute, AllocError>
    ensures { IfOk result (IsAttributeOf R.format attribute.now) }
{
    let kind = object_of(alloc, &attribute.type_)?;
    let value = value_under(rules, alloc, kind.name, attribute.value.as_bytes())?;
    Ok(Attribute { kind, value })
}

/// A value of the kind with this name, or its octets if the kind has none (RFC 4514, 2.4).
fn value_under<R: Rules<Output = Vec<u8>>>(
    rules: &R,
    alloc: Global,
    name: Option<&'static str>,
    octets: &[u8],
) -> Result<AttributeValue, AllocError>
    ensures { IfOk result (λ value. MatchOption name.entry (IsOctetsOf octets.now value)
        (λ _. IsValueOf R.format octets.now value)) }
{
    match name {
        Some(_) => value_of(rules, alloc, octets),
        None => Ok(AttributeValue::Octets(Vec::from_slice(alloc, octets)?)),
    }
}

/// A value: its characters if it is a string of one of four types, and else its octets.
fn value_of<R: Rules<Output = Vec<u8>>>(
    rules: &R,
    alloc: Global,
    octets: &[u8],
) -> Result<AttributeValue, AllocError>
    ensures { IfOk result (IsValueOf R.format octets.now) }
{
    if let Some(characters) = characters_of::<R, PrintableOctets>(rules, alloc, octets)? {
        return Ok(AttributeValue::Text(characters));
    }
    if let Some(characters) = characters_of::<R, DirectoryString>(rules, alloc, octets)? {
        return Ok(AttributeValue::Text(characters));
    }
    if let Some(characters) = characters_of::<R, Ia5String>(rules, alloc, octets)? {
        return Ok(AttributeValue::Text(characters));
    }
    if let Some(characters) = characters_of::<R, NumericString>(rules, alloc, octets)? {
        return Ok(AttributeValue::Text(characters));
    }
    Ok(AttributeValue::Octets(Vec::from_slice(alloc, octets)?))
}
