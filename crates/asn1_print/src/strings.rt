//! Strings with constraints.
use crate::plan::Plan;
use crate::tags::universal;
use crate::types::{plain_name, tag_number};
use asn1_notation::StringKind;
use asn1_resolved::{CharacterRange, Constraint, ConstraintKind, Range, Type, TypeKind};
use asn1_rust_code::TagNumber;
use asn1_rust_components::{RestrictedString, Sizes};
use std::alloc::{AllocError, Global};

/// The greatest number of characters of an alphabet.
const MOST: u32 = 128;

/// Whether a definition is a string with constraints that a type in Rust has: one of its size, one of its characters, or both.
pub(crate) fn is_restricted_string(definition: &Type<'_>) -> bool {
    let string = below_tag(definition);
    match string.constraints.as_slice() {
        [only] => is_carried(&string.kind, only),
        [one, other] => {
            is_carried(&string.kind, one)
                && is_carried(&string.kind, other)
                && is_size(one) != is_size(other)
        }
        _ => false,
    }
}

// The type below an implicit tag, or the type itself.
fn below_tag<'t, 'a>(definition: &'t Type<'a>) -> &'t Type<'a> {
    match &definition.kind {
        TypeKind::Tagged(tag, inner) if !tag.is_explicit => inner,
        _ => definition,
    }
}

// Whether a type in Rust has this constraint of a type.
fn is_carried(kind: &TypeKind<'_>, constraint: &Constraint) -> bool {
    if constraint.is_extensible {
        return false;
    }
    match &constraint.kind {
        ConstraintKind::Size(range) => has_size(kind) && sizes_in(*range).is_some(),
        ConstraintKind::Alphabet(ranges) => has_characters(kind) && are_few(ranges.as_slice()),
        _ => false,
    }
}

// Whether a constraint is one of sizes.
fn is_size(constraint: &Constraint) -> bool {
    match &constraint.kind {
        ConstraintKind::Size(_) => true,
        _ => false,
    }
}

// Whether a type is a string, but a time, a UniversalString or one with named bits.
fn has_size(kind: &TypeKind<'_>) -> bool {
    match kind {
        TypeKind::OctetString => true,
        TypeKind::BitString(bits) => bits.is_empty(),
        _ => has_characters(kind),
    }
}

// Whether a type is a string of characters, but a time or a UniversalString, which is octets in Rust.
fn has_characters(kind: &TypeKind<'_>) -> bool {
    match kind {
        TypeKind::String(
            StringKind::UtcTime | StringKind::GeneralizedTime | StringKind::Universal,
        ) => false,
        TypeKind::String(_) => true,
        _ => false,
    }
}

// The sizes in a range, if they fit 64 bits.
fn sizes_in(range: Range) -> Option<Sizes> {
    let least = u64::try_from(range.lower?).ok()?;
    match range.upper {
        Some(upper) => Some(Sizes {
            least,
            greatest: Some(u64::try_from(upper).ok()?),
        }),
        None => Some(Sizes {
            least,
            greatest: None,
        }),
    }
}

// Whether ranges have a character, and not too many.
fn are_few(ranges: &[CharacterRange]) -> bool {
    let mut count = 0u32;
    for range in ranges {
        let length = range.last.saturating_sub(range.first).saturating_add(1);
        count = count.saturating_add(length);
    }
    0 < count && count <= MOST
}

/// The string with constraints that a definition is.
pub(crate) fn restricted_string(
    plan: &mut Plan<'_, '_>,
    definition: &Type<'_>,
) -> Result<RestrictedString, AllocError> {
    let string = below_tag(definition);
    let content = plain_name(plan, string)?;
    let characters = characters_of(plan.alloc, string.constraints.as_slice())?;
    Ok(RestrictedString {
        content,
        tag: tag_of(definition),
        sizes: sizes_of(string.constraints.as_slice()),
        characters,
    })
}

// The tag of a string, or that in its place.
fn tag_of(definition: &Type<'_>) -> TagNumber {
    match &definition.kind {
        TypeKind::Tagged(tag, _) => tag_number(*tag),
        kind => universal(kind.universal_number().unwrap_or(0)),
    }
}

// The sizes that constraints leave.
fn sizes_of(constraints: &[Constraint]) -> Option<Sizes> {
    for constraint in constraints {
        if let ConstraintKind::Size(range) = &constraint.kind {
            return sizes_in(*range);
        }
    }
    None
}

// The characters that constraints leave, each once and in ascending order; none if they leave all.
fn characters_of(alloc: Global, constraints: &[Constraint]) -> Result<Vec<u32>, AllocError> {
    let mut characters = Vec::new(alloc);
    for constraint in constraints {
        if let ConstraintKind::Alphabet(ranges) = &constraint.kind {
            push_ranges(&mut characters, ranges.as_slice())?;
        }
    }
    characters.sort()?;
    Ok(characters)
}

// Appends each character of ranges that is not there.
fn push_ranges(characters: &mut Vec<u32>, ranges: &[CharacterRange]) -> Result<(), AllocError> {
    for range in ranges {
        for character in range.first..=range.last {
            if !characters.contains(&character) {
                characters.push(character)?;
            }
        }
    }
    Ok(())
}
