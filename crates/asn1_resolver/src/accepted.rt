//! Schemas that are accepted.
ghost use Rattle.std.specs.Prelude.{◌≡◌, IfOk, IsTrue, OnOk, false, map, take};
ghost use Rattle.asn1_resolver.specs.Accepted.{HasDistinctNames, defined_names, name_of_type, name_of_value};
ghost use Rattle.asn1_resolver.specs.Indices.{HasKnownReferences};
ghost use Rattle.asn1_resolver.specs.References.{AreResolved};
ghost use Rattle.asn1_resolver.specs.Accepted as spec;

use crate::indices::are_known;
use asn1_names::{DefinedName, Names, Place, find_doubled, find_undefined};
use asn1_notation::Span;
use asn1_resolved::{Problem, Schema, Severity, TypeDefinition, ValueDefinition};
use std::alloc::{AllocError, Global};

// Whether modules with a problem of this severity can be used.
fn is_warning(severity: Severity) -> bool
    ensures { result ≡ spec.is_warning severity }
{
    match severity {
        Severity::Error => false,
        Severity::Warning => true,
    }
}

/// Whether no problem is an error.
pub(crate) fn accepts(problems: &[Problem]) -> bool
    ensures { result ≡ spec.accepts problems.now }
{
    problems.iter().all(|problem| is_warning(problem.severity))
}

/// Adds an error if a module has a name twice, or a reference of a module or of the schema is to no definition, unless there is
/// an error already.
///
/// The names were compared before. This is the comparison on which the promises of `resolve` rest.
pub(crate) fn require_names(
    alloc: Global,
    problems: &mut Vec<Problem>,
    schema: &Schema<'_>,
    names: &Names<'_>,
) -> Result<(), AllocError>
    ensures distinct { OnOk result (
        IsTrue (spec.accepts problems.new.items) → HasDistinctNames schema.now) }
    ensures resolved { OnOk result (
        IsTrue (spec.accepts problems.new.items) → AreResolved names.now) }
    ensures known { OnOk result (
        IsTrue (spec.accepts problems.new.items) → HasKnownReferences schema.now) }
{
    if !accepts(problems.as_slice()) {
        return Ok(());
    }
    let defined = list_names(alloc, schema)?;
    let doubled = find_doubled(alloc, defined.as_slice())?;
    if let [first, ..] = doubled.as_slice() {
        return refuse(
            alloc,
            problems,
            first.again.place,
            b"the name is defined twice",
        );
    }
    let undefined = find_undefined(alloc, &names.defined, &names.imported, &names.used)?;
    if let [first, ..] = undefined.as_slice() {
        return refuse(alloc, problems, first.place, b"the name is not defined");
    }
    if !are_known(alloc, schema)? {
        let span = Span { start: 0, end: 0 };
        let place = Place { text: 0, span };
        return refuse(alloc, problems, place, b"a reference is to no definition");
    }
    Ok(())
}

// Adds an error.
fn refuse(
    alloc: Global,
    problems: &mut Vec<Problem>,
    place: Place,
    text: &[u8],
) -> Result<(), AllocError>
    ensures { OnOk result (spec.accepts problems.new.items ≡ false) }
{
    problems.push(Problem {
        place,
        severity: Severity::Error,
        text: Vec::from_slice(alloc, text)?,
    })?;
    Ok(())
}

// The types that modules define.
#[tactic(auto, using(std::proofs::lemmas::List::take_min))]
fn defined_types<'s, 'a>(schema: &'s Schema<'a>) -> &'s [TypeDefinition<'a>]
    ensures { result.now ≡ take schema.now.defined schema.now.types.items }
{
    let types = schema.types.as_slice();
    &types[..schema.defined.min(types.len())]
}

// The names of the definitions, those of types first.
fn list_names<'a>(alloc: Global, schema: &Schema<'a>) -> Result<Vec<DefinedName<'a>>, AllocError>
    ensures { IfOk result (λ names. names.items ≡ defined_names schema.now) }
{
    let mut names = type_names(alloc, defined_types(schema))?;
    for definition in &schema.values {
        names.push(value_name(definition))?;
    }
    Ok(names)
}

// The names of the definitions of types.
fn type_names<'a>(
    alloc: Global,
    types: &[TypeDefinition<'a>],
) -> Result<Vec<DefinedName<'a>>, AllocError>
    ensures { IfOk result (λ names. names.items ≡ map name_of_type types.now) }
{
    let mut names = Vec::new(alloc);
    for definition in types {
        names.push(type_name(definition))?;
    }
    Ok(names)
}

// The name of the definition of a type.
fn type_name<'a>(definition: &TypeDefinition<'a>) -> DefinedName<'a>
    ensures { result ≡ name_of_type definition.now }
{
    DefinedName {
        module: definition.module,
        name: definition.name,
        place: definition.place,
    }
}

// The name of the definition of a value.
fn value_name<'a>(definition: &ValueDefinition<'a>) -> DefinedName<'a>
    ensures { result ≡ name_of_value definition.now }
{
    DefinedName {
        module: definition.module,
        name: definition.name,
        place: definition.place,
    }
}
