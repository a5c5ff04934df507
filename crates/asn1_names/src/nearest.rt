//! The defined name that is most like another.
ghost use Rattle.std.specs.Prelude.{◌≡◌, ◌≤◌, ◌<◌, length, IfOk, IfSome, IfNone};
ghost use Rattle.std.specs.List.{All, Contains};
ghost use Rattle.asn1_names.specs.Nearest as spec;

use crate::names::DefinedName;
use std::alloc::{AllocError, Global};
use strsim::generic_levenshtein;

/// How many letters of a name may differ from those of the name that is suggested: a third, and at least one.
pub fn most_edits(name: &[u8]) -> usize
    ensures { result ≡ spec.most_edits name.now }
{
    if name.len() < 6 { 1 } else { name.len() / 3 }
}

/// The defined name that is most like this one, if it is like it: few letters have to be put in, left out or replaced.
pub fn nearest_name<'a>(
    alloc: Global,
    defined: &[DefinedName<'a>],
    name: &[u8],
) -> Result<Option<DefinedName<'a>>, AllocError>
    // It is defined, it is like the name, and no other is more like it.
    ensures nearest { IfOk result (λ found. IfSome found (spec.IsNearest defined.now name.now)) }
    ensures none { IfOk result (λ found. IfNone found (
        All (λ d. spec.most_edits name.now < spec.edits name.now d) defined.now)) }
{
    let mut nearest = None;
    let mut limit = most_edits(name) + 1;
    for definition in defined {
        let edits = generic_levenshtein(alloc, name, definition.name)?;
        if edits < limit {
            nearest = Some(*definition);
            limit = edits;
        }
    }
    Ok(nearest)
}
