//! The types of components of a schema.
ghost use Rattle.std.specs.Prelude.{◌≡◌, ◌++◌, IfOk, OnOk, map};
ghost use Rattle.std.specs.List.{flat_map};
ghost use Rattle.asn1_resolved.specs.TypesInside.{types_in_addition, types_in_alternatives, types_in_components};
ghost use Rattle.asn1_module_check.specs.Tables.{schema_tables, table_view, tables_in, tables_of};

use crate::constructed::Constructed;
use crate::tables::add_tables;
use asn1_resolved::{
    Addition, Alternative, Alternatives, Component, Components, Schema, Type, TypeKind,
};
use std::alloc::{AllocError, Global};

/// The types of components of a schema, each with the first tags of its components, and the groups of additions.
pub fn list_constructed<'a>(
    alloc: Global,
    schema: &Schema<'a>,
) -> Result<Vec<Constructed<'a>>, AllocError>
    // Those of all types inside the schema are listed, and no others.
    ensures complete { IfOk result (λ list. map table_view list.items ≡ schema_tables schema.now) }
{
    let mut list = Vec::new(alloc);
    for defined in &schema.types {
        list_type(alloc, &mut list, schema, &defined.definition)?;
    }
    for value in &schema.values {
        list_type(alloc, &mut list, schema, &value.definition)?;
    }
    Ok(list)
}

/// Adds the components of a type and of those in it, which may be beside the schema.
#[cycle(list_types)]
pub fn list_type<'a>(
    alloc: Global,
    list: &mut Vec<Constructed<'a>>,
    schema: &Schema<'a>,
    definition: &Type<'a>,
) -> Result<(), AllocError>
    ensures { OnOk result (map table_view list.new.items ≡
        map table_view list.old.items ++ tables_in schema.now definition.now.kind) }
{
    add_tables(alloc, list, schema, definition)?;
    match &definition.kind {
        TypeKind::Sequence(components) => list_components(alloc, list, schema, components),
        TypeKind::Set(components) => list_components(alloc, list, schema, components),
        TypeKind::Choice(alternatives) => list_alternatives(alloc, list, schema, alternatives),
        TypeKind::SequenceOf(element) => list_type(alloc, list, schema, element),
        TypeKind::SetOf(element) => list_type(alloc, list, schema, element),
        TypeKind::Tagged(_, inner) => list_type(alloc, list, schema, inner),
        _ => Ok(()),
    }
}

// Adds the types in a SEQUENCE or a SET.
#[cycle(list_types)]
fn list_components<'a>(
    alloc: Global,
    list: &mut Vec<Constructed<'a>>,
    schema: &Schema<'a>,
    components: &Components<'a>,
) -> Result<(), AllocError>
    ensures { OnOk result (map table_view list.new.items ≡ map table_view list.old.items ++
        flat_map (tables_of schema.now) (types_in_components components.now)) }
{
    list_inner(alloc, list, schema, components.root.as_slice())?;
    for addition in &components.additions {
        list_addition(alloc, list, schema, addition)?;
    }
    Ok(())
}

// Adds the types in an addition.
#[cycle(list_types)]
#[tactic(auto, using(asn1_resolved::proofs::TypesInside::in_group))]
fn list_addition<'a>(
    alloc: Global,
    list: &mut Vec<Constructed<'a>>,
    schema: &Schema<'a>,
    addition: &Addition<'a>,
) -> Result<(), AllocError>
    ensures { OnOk result (map table_view list.new.items ≡ map table_view list.old.items ++
        flat_map (tables_of schema.now) (types_in_addition addition.now)) }
{
    match addition {
        Addition::Component(component) => list_type(alloc, list, schema, &component.definition),
        Addition::Group(components) => list_inner(alloc, list, schema, components.as_slice()),
    }
}

// Adds the types in components.
#[cycle(list_types)]
fn list_inner<'a>(
    alloc: Global,
    list: &mut Vec<Constructed<'a>>,
    schema: &Schema<'a>,
    components: &[Component<'a>],
) -> Result<(), AllocError>
    ensures { OnOk result (map table_view list.new.items ≡ map table_view list.old.items ++
        flat_map (λ component. tables_in schema.now component.definition.kind) components.now) }
{
    for component in components {
        list_type(alloc, list, schema, &component.definition)?;
    }
    Ok(())
}

// Adds the types in a CHOICE.
#[cycle(list_types)]
fn list_alternatives<'a>(
    alloc: Global,
    list: &mut Vec<Constructed<'a>>,
    schema: &Schema<'a>,
    alternatives: &Alternatives<'a>,
) -> Result<(), AllocError>
    ensures { OnOk result (map table_view list.new.items ≡ map table_view list.old.items ++
        flat_map (tables_of schema.now) (types_in_alternatives alternatives.now)) }
{
    list_chosen(alloc, list, schema, alternatives.root.as_slice())?;
    list_chosen(alloc, list, schema, alternatives.additions.as_slice())
}

// Adds the types in alternatives.
#[cycle(list_types)]
fn list_chosen<'a>(
    alloc: Global,
    list: &mut Vec<Constructed<'a>>,
    schema: &Schema<'a>,
    alternatives: &[Alternative<'a>],
) -> Result<(), AllocError>
    ensures { OnOk result (map table_view list.new.items ≡ map table_view list.old.items ++
        flat_map (λ alternative. tables_in schema.now alternative.definition.kind)
        alternatives.now) }
{
    for alternative in alternatives {
        list_type(alloc, list, schema, &alternative.definition)?;
    }
    Ok(())
}
