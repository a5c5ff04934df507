//! Names behind IMPORTS that are not defined.
ghost use Rattle.std.specs.Prelude.{◌≡◌, ◌↔◌, [], IfOk};
ghost use Rattle.std.specs.List.{All, filter};
ghost use Rattle.asn1_names.specs.Imports as spec;

use crate::index::NameIndex;
use crate::names::{DefinedName, ImportedName};
use std::alloc::{AllocError, Global};

/// The imports of names that the module behind FROM does not define, in the order of the list.
pub fn find_unknown_imports<'a>(
    alloc: Global,
    defined: &[DefinedName<'_>],
    imported: &[ImportedName<'a>],
) -> Result<Vec<ImportedName<'a>>, AllocError>
    // There are none if and only if every imported name is defined.
    ensures known { IfOk result (λ found. (found.items ≡ []) ↔
        All (spec.IsKnown defined.now) imported.now) }
    ensures report { IfOk result (λ found. found.items ≡
        filter (spec.is_unknown defined.now) imported.now) }
{
    let index = NameIndex::of(alloc, defined)?;
    let mut found = Vec::new(alloc);
    for import in imported {
        if !index.is_defined(import.from, import.name) {
            found.push(*import)?;
        }
    }
    Ok(found)
}
