//! All that is wrong with the names of a set of modules.
ghost use Rattle.std.specs.Prelude.{◌≡◌, ◌↔◌, [], IfOk};
ghost use Rattle.asn1_names.specs.Accepted as spec;

use crate::doubled::{DoubledName, find_doubled};
use crate::imports::find_unknown_imports;
use crate::names::{ImportedName, Names, Place, UsedName};
use crate::undefined::find_undefined;
use std::alloc::{AllocError, Global};

/// What is wrong with a name.
#[derive(Clone, Copy, Debug)]
pub enum NameProblem<'a> {
    /// A module defines it twice.
    Doubled(DoubledName<'a>),
    /// The module behind FROM does not define it.
    UnknownImport(ImportedName<'a>),
    /// It is used, and is the name of no definition.
    Undefined(UsedName<'a>),
}

impl NameProblem<'_> {
    /// The place of the name. Of a name that is defined twice it is the second.
    pub fn place(&self) -> Place {
        match self {
            NameProblem::Doubled(doubled) => doubled.again.place,
            NameProblem::UnknownImport(import) => import.place,
            NameProblem::Undefined(used) => used.place,
        }
    }
}

// The names that are defined twice, then those that are imported and not defined, and those that are used and not defined.
fn list_problems<'a>(alloc: Global, names: &Names<'a>) -> Result<Vec<NameProblem<'a>>, AllocError>
    ensures { IfOk result (λ found. found.items ≡ spec.problems names.now) }
{
    let doubled = find_doubled(alloc, &names.defined)?;
    let unknown = find_unknown_imports(alloc, &names.defined, &names.imported)?;
    let undefined = find_undefined(alloc, &names.defined, &names.imported, &names.used)?;
    let mut found = Vec::new(alloc);
    for name in &doubled {
        found.push(NameProblem::Doubled(*name))?;
    }
    for import in &unknown {
        found.push(NameProblem::UnknownImport(*import))?;
    }
    for reference in &undefined {
        found.push(NameProblem::Undefined(*reference))?;
    }
    Ok(found)
}

/// All that is wrong with names: first the names that are defined twice, then those that are imported and not defined, and
/// then those that are used and not defined.
pub fn check_names<'a>(alloc: Global, names: &Names<'a>) -> Result<Vec<NameProblem<'a>>, AllocError>
    // Nothing is wrong if and only if every reference is to a definition, and no module has a name twice.
    ensures accepted { IfOk result (λ found. (found.items ≡ []) ↔ spec.IsAccepted names.now) }
    ensures report { IfOk result (λ found. found.items ≡ spec.problems names.now) }
{
    let found = list_problems(alloc, names)?;
    Ok(found)
}
