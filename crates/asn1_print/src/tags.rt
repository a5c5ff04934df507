//! The tags with which types begin.
use asn1_notation::TagClass;
use asn1_resolved::{Alternative, Schema, Type, TypeKind};
use asn1_rust_code::TagNumber;
use std::alloc::{AllocError, Global};

/// The tags with which a type begins.
#[derive(Clone, Copy, Debug, PartialEq, Eq)]
pub(crate) enum Beginning {
    /// One tag.
    Leaf(TagNumber),
    /// Those of the alternatives of the definition with this index.
    Choice(usize),
    /// Those of the alternatives of a CHOICE without a name.
    Inline,
    /// Any tag: it is an open type.
    Any,
}

/// A tag of the class UNIVERSAL.
pub(crate) fn universal(number: u32) -> TagNumber {
    TagNumber {
        class: TagClass::Universal,
        number,
    }
}

/// The tags with which a type begins. References are followed at most so many times.
pub(crate) fn first_tags(schema: &Schema<'_>, definition: &Type<'_>, steps: usize) -> Beginning {
    match reference_of(definition) {
        Some(index) => tags_of_definition(schema, index, steps),
        None => own_tags(&definition.kind),
    }
}

// The index of the reference that a type is.
fn reference_of(definition: &Type<'_>) -> Option<usize> {
    match &definition.kind {
        TypeKind::Reference(index) => Some(*index),
        _ => None,
    }
}

// The tags with which the type of a definition begins.
fn tags_of_definition(schema: &Schema<'_>, start: usize, steps: usize) -> Beginning {
    let mut index = start;
    for _ in 0..steps {
        let Some(referred) = schema.types.get(index) else {
            return Beginning::Any;
        };
        if is_choice(&referred.definition) {
            return Beginning::Choice(index);
        }
        match reference_of(&referred.definition) {
            Some(next) => index = next,
            None => return own_tags(&referred.definition.kind),
        }
    }
    Beginning::Any
}

// The tags with which a type that is no reference begins.
fn own_tags(kind: &TypeKind<'_>) -> Beginning {
    match kind {
        TypeKind::Choice(_) => Beginning::Inline,
        TypeKind::Any => Beginning::Any,
        TypeKind::Tagged(tag, _) => Beginning::Leaf(TagNumber {
            class: tag.class,
            number: tag.number,
        }),
        kind => match kind.universal_number() {
            Some(number) => Beginning::Leaf(universal(number)),
            None => Beginning::Any,
        },
    }
}

// Whether a type is a CHOICE.
fn is_choice(definition: &Type<'_>) -> bool {
    match &definition.kind {
        TypeKind::Choice(_) => true,
        _ => false,
    }
}

// A number by which tags are in canonical order: by class, then by number (X.680, 8.6).
fn rank(tag: TagNumber) -> u64 {
    let class: u64 = match tag.class {
        TagClass::Universal => 0,
        TagClass::Application => 1,
        TagClass::Context => 2,
        TagClass::Private => 3,
    };
    class
        .saturating_mul(4294967296)
        .saturating_add(u64::from(tag.number))
}

/// The least rank of the tags with which a type begins.
pub(crate) fn least_rank(
    alloc: Global,
    schema: &Schema<'_>,
    definition: &Type<'_>,
) -> Result<u64, AllocError> {
    let mut waiting: Vec<usize> = Vec::new(alloc);
    let mut seen: Vec<usize> = Vec::new(alloc);
    let mut least = own_rank(&mut waiting, definition)?;
    for _ in 0..usize::MAX {
        let Some(next) = waiting.pop() else {
            return Ok(least);
        };
        if !seen.iter().any(|known| *known == next) {
            seen.push(next)?;
            if let Some(referred) = schema.types.get(next) {
                least = least.min(own_rank(&mut waiting, &referred.definition)?);
            }
        }
    }
    Ok(least)
}

// The least rank of the tags of a type apart from its references, which are appended.
#[cycle(ranks)]
fn own_rank(waiting: &mut Vec<usize>, definition: &Type<'_>) -> Result<u64, AllocError> {
    match &definition.kind {
        TypeKind::Reference(index) => {
            waiting.push(*index)?;
            Ok(u64::MAX)
        }
        TypeKind::Choice(choice) => {
            let root = rank_of_alternatives(waiting, choice.root.as_slice())?;
            let additions = rank_of_alternatives(waiting, choice.additions.as_slice())?;
            Ok(root.min(additions))
        }
        kind => match own_tags(kind) {
            Beginning::Leaf(tag) => Ok(rank(tag)),
            _ => Ok(u64::MAX),
        },
    }
}

// The least rank of the tags of alternatives apart from their references, which are appended.
#[cycle(ranks)]
fn rank_of_alternatives(
    waiting: &mut Vec<usize>,
    alternatives: &[Alternative<'_>],
) -> Result<u64, AllocError> {
    let mut least = u64::MAX;
    for alternative in alternatives {
        least = least.min(own_rank(waiting, &alternative.definition)?);
    }
    Ok(least)
}
