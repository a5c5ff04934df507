//! The kinds of constraint, constraint sets and their tables, and constraints of components.
mod alphabet;
mod constraint;
mod constraints;
mod extensible;
mod inner_subtype;
mod size;
mod table;
mod value;

use asn1_bounds::{Constraints, Extensible, PermittedAlphabet, Size, Value};
use std::alloc::Global;
use std::process::Abort;

const LETTERS: &[u32] = &[97, 98, 99];

/// The alphabet of these characters.
fn permitted(rt: &impl Abort, alloc: Global, characters: &[u32]) -> PermittedAlphabet {
    PermittedAlphabet::new(alloc, characters).expect(rt, "memory")
}

/// Whether the set permits these characters.
fn permits(set: &Constraints<'_>, characters: &[u32]) -> bool {
    match set.permitted_alphabet() {
        Some(part) => part.constraint.as_inner() == characters,
        None => false,
    }
}

/// Whether the set has these values, with no marker of their own.
fn has_value(set: &Constraints<'_>, value: Value) -> bool {
    set.value().copied() == Some(Extensible::new(value))
}

/// Whether the set has these lengths, with no marker of their own.
fn has_size(set: &Constraints<'_>, size: Size) -> bool {
    set.size().copied() == Some(Extensible::new(size))
}
