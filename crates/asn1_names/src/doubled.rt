//! Names that a module defines twice.
ghost use Rattle.std.specs.Prelude.{◌≡◌, ◌↔◌, ◌++◌, List, [], IfOk};
ghost use Rattle.std.specs.List.{AllPairs, find};
ghost use Rattle.asn1_names.specs.Distinct as spec;
ghost use Rattle.asn1_names.specs.Index.{IsIndexOf};

use crate::index::NameIndex;
use crate::names::DefinedName;
use std::alloc::{AllocError, Global};

/// A name that a module defines twice.
#[derive(Clone, Copy, Debug)]
pub struct DoubledName<'a> {
    /// The first definition of the name.
    pub first: DefinedName<'a>,
    /// A later one.
    pub again: DefinedName<'a>,
}

// The first of the earlier definitions that has the name of this one, and is in its module.
fn first_of_name<'a>(
    names: &NameIndex<'_>,
    defined: &[DefinedName<'a>],
    definition: &DefinedName<'_>,
) -> Option<DefinedName<'a>>
    ensures { (earlier later : List DefinedName) → IsIndexOf earlier names.now →
        defined.now ≡ earlier ++ later →
        result ≡ find (spec.has_same_name definition.now) earlier }
{
    let first = names.position(definition.module, definition.name)?;
    defined.get(first).copied()
}

/// The definitions whose name an earlier definition of the same module has, in the order of the list.
pub fn find_doubled<'a>(
    alloc: Global,
    defined: &[DefinedName<'a>],
) -> Result<Vec<DoubledName<'a>>, AllocError>
    // There are none if and only if no two definitions of a module have one name.
    ensures distinct { IfOk result (λ found. (found.items ≡ []) ↔
        AllPairs spec.IsDistinct defined.now) }
    ensures report { IfOk result (λ found. found.items ≡ spec.doubled [] defined.now) }
{
    let mut names = NameIndex::empty(alloc);
    let mut found = Vec::new(alloc);
    for (index, definition) in defined.iter().enumerate() {
        if let Some(first) = first_of_name(&names, defined, definition) {
            found.push(DoubledName {
                first,
                again: *definition,
            })?;
        }
        names.add(definition, index)?;
    }
    Ok(found)
}
