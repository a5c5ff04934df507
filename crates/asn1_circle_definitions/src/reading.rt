//! The clause of the reader of a knot.
use crate::circle::Circle;
use crate::terms::definitions_file;
use std::alloc::{AllocError, Global};

/// The file of definitions with the clause of the closure in the reader.
pub fn reading_file(alloc: Global, circle: Circle<'_>) -> Result<String, AllocError> {
    let name = circle.name;
    let module = circle.module;
    let crate_name = circle.crate_name;
    let uses = format!(in alloc;
        "use Rattle.{crate_name}.specs.{name}Meaning.{{meaning}}
use Rattle.{crate_name}.specs.contracts.{module}.{name}PartialEq.TheImpl.{{ghosts as equality}}
use Rattle.{crate_name}.specs.declared.{module}.{name}.{{{name} as Knot}}
"
    )?;
    let comment = format!(in alloc; "Calls that read a `{name}`.")?;
    definitions_file(
        alloc,
        comment.as_str(),
        uses.as_str(),
        "-- A call that reads a value under this tag.
abbrev pub ReadsKnot : {D : Type 0} → Reader D → Tag → D → D → Result Knot DecodeError → Type 0
ReadsKnot R t old new result = ReadsAs R meaning equality.eq t unconstrained old new result
",
    )
}
