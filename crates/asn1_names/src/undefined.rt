//! References that are to no definition.
ghost use Rattle.std.specs.Prelude.{◌≡◌, ◌↔◌, List, [], IfOk};
ghost use Rattle.std.specs.List.{All, filter};
ghost use Rattle.asn1_names.specs.Index.{IsIndexOf};
ghost use Rattle.asn1_names.specs.References as spec;
ghost use Rattle.asn1_names.specs.declared.names.DefinedName.{DefinedName};
ghost use Rattle.asn1_names.specs.declared.names.ImportedName.{ImportedName};

use crate::index::NameIndex;
use crate::names::{DefinedName, ImportedName, UsedName};
use std::alloc::{AllocError, Global};

// The names that modules import from modules that define them, as names of the modules that import them.
fn names_brought_in<'a>(
    alloc: Global,
    index: &NameIndex<'_>,
    imported: &[ImportedName<'a>],
) -> Result<Vec<DefinedName<'a>>, AllocError>
    ensures { IfOk result (λ names. (defined : List DefinedName) → IsIndexOf defined index.now →
        names.items ≡ spec.brought_in defined imported.now) }
{
    let mut names = Vec::new(alloc);
    for import in imported {
        if index.is_defined(import.from, import.name) {
            names.push(brought_in(import))?;
        }
    }
    Ok(names)
}

// The name that is imported, as one of the module that imports it.
fn brought_in<'a>(import: &ImportedName<'a>) -> DefinedName<'a>
    ensures { result ≡ spec.name_brought_in import.now }
{
    DefinedName {
        module: import.module,
        name: import.name,
        place: import.place,
    }
}

// Whether a reference is to a definition, by the definitions and by the names that are brought in.
fn is_resolved(index: &NameIndex<'_>, brought_in: &NameIndex<'_>, used: &UsedName<'_>) -> bool
    ensures { (defined : List DefinedName) (imported : List ImportedName) →
        IsIndexOf defined index.now → IsIndexOf (spec.brought_in defined imported) brought_in.now →
        result ≡ spec.is_resolved defined imported used.now }
{
    match used.qualifier {
        Some(module) => index.is_defined(module, used.name),
        None => {
            index.is_defined(used.module, used.name)
                || brought_in.is_defined(used.module, used.name)
        }
    }
}

/// The references that are to no definition, in the order of the list.
pub fn find_undefined<'a>(
    alloc: Global,
    defined: &[DefinedName<'_>],
    imported: &[ImportedName<'_>],
    used: &[UsedName<'a>],
) -> Result<Vec<UsedName<'a>>, AllocError>
    // There are none if and only if every reference is to a definition.
    ensures resolved { IfOk result (λ found. (found.items ≡ []) ↔
        All (spec.IsResolved defined.now imported.now) used.now) }
    ensures report { IfOk result (λ found. found.items ≡
        filter (spec.is_undefined defined.now imported.now) used.now) }
{
    let index = NameIndex::of(alloc, defined)?;
    let names = names_brought_in(alloc, &index, imported)?;
    let brought_in = NameIndex::of(alloc, names.as_slice())?;
    let mut found = Vec::new(alloc);
    for reference in used {
        if !is_resolved(&index, &brought_in, reference) {
            found.push(*reference)?;
        }
    }
    Ok(found)
}
