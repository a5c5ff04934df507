//! The definitions to which a schema refers.
ghost use Rattle.std.specs.Prelude.{◌≡◌, ◌++◌, ◌<◌, ◌↔◌, IfOk, IsTrue, OnOk, length};
ghost use Rattle.std.specs.List.{All, flat_map};
ghost use Rattle.asn1_resolved.specs.TypesInside.{types_in, types_in_addition, types_in_alternatives, types_in_components};
ghost use Rattle.asn1_resolver.specs.Indices.{HasKnownReferences, indices_in, indices_of, index_of_reference};

use asn1_resolved::{
    Addition, Alternative, Alternatives, Component, Components, Schema, Type, TypeKind,
};
use std::alloc::{AllocError, Global};

/// Whether each reference of a schema is to a definition of it.
pub(crate) fn are_known(alloc: Global, schema: &Schema<'_>) -> Result<bool, AllocError>
    ensures { IfOk result (λ known. IsTrue known ↔ HasKnownReferences schema.now) }
{
    let indices = list_indices(alloc, schema)?;
    Ok(are_below(indices.as_slice(), schema.types.len()))
}

// Whether each index is below this number.
fn are_below(indices: &[usize], count: usize) -> bool
    ensures { IsTrue result ↔ All (λ index. index < count) indices.now }
{
    indices.iter().all(|index| *index < count)
}

// The indices of the definitions to which a schema refers.
fn list_indices(alloc: Global, schema: &Schema<'_>) -> Result<Vec<usize>, AllocError>
    ensures { IfOk result (λ indices. indices.items ≡ indices_of schema.now) }
{
    let mut indices = Vec::new(alloc);
    for defined in &schema.types {
        list_type(&mut indices, &defined.definition)?;
    }
    for value in &schema.values {
        list_type(&mut indices, &value.definition)?;
    }
    Ok(indices)
}

// Adds the indices of a type and of those in it.
#[cycle(indices)]
fn list_type(indices: &mut Vec<usize>, definition: &Type<'_>) -> Result<(), AllocError>
    ensures { OnOk result (indices.new.items ≡
        indices.old.items ++ indices_in definition.now.kind) }
{
    list_reference(indices, &definition.kind)?;
    match &definition.kind {
        TypeKind::Sequence(components) => list_components(indices, components),
        TypeKind::Set(components) => list_components(indices, components),
        TypeKind::Choice(alternatives) => list_alternatives(indices, alternatives),
        TypeKind::SequenceOf(element) => list_type(indices, element),
        TypeKind::SetOf(element) => list_type(indices, element),
        TypeKind::Tagged(_, inner) => list_type(indices, inner),
        _ => Ok(()),
    }
}

// Adds the index of a reference.
fn list_reference(indices: &mut Vec<usize>, kind: &TypeKind<'_>) -> Result<(), AllocError>
    ensures { OnOk result (indices.new.items ≡ indices.old.items ++ index_of_reference kind.now) }
{
    match kind {
        TypeKind::Reference(index) => {
            indices.push(*index)?;
            Ok(())
        }
        _ => Ok(()),
    }
}

// Adds those of a SEQUENCE or a SET.
#[cycle(indices)]
fn list_components(indices: &mut Vec<usize>, components: &Components<'_>) -> Result<(), AllocError>
    ensures { OnOk result (indices.new.items ≡
        indices.old.items ++ flat_map index_of_reference (types_in_components components.now)) }
{
    list_inner(indices, components.root.as_slice())?;
    for addition in &components.additions {
        list_addition(indices, addition)?;
    }
    Ok(())
}

// Adds those of an addition.
#[cycle(indices)]
#[tactic(auto, using(asn1_resolved::proofs::TypesInside::in_group))]
fn list_addition(indices: &mut Vec<usize>, addition: &Addition<'_>) -> Result<(), AllocError>
    ensures { OnOk result (indices.new.items ≡
        indices.old.items ++ flat_map index_of_reference (types_in_addition addition.now)) }
{
    match addition {
        Addition::Component(component) => list_type(indices, &component.definition),
        Addition::Group(components) => list_inner(indices, components.as_slice()),
    }
}

// Adds those of components.
#[cycle(indices)]
fn list_inner(indices: &mut Vec<usize>, components: &[Component<'_>]) -> Result<(), AllocError>
    ensures { OnOk result (indices.new.items ≡ indices.old.items ++
        flat_map (λ component. indices_in component.definition.kind) components.now) }
{
    for component in components {
        list_type(indices, &component.definition)?;
    }
    Ok(())
}

// Adds those of a CHOICE.
#[cycle(indices)]
fn list_alternatives(
    indices: &mut Vec<usize>,
    alternatives: &Alternatives<'_>,
) -> Result<(), AllocError>
    ensures { OnOk result (indices.new.items ≡
        indices.old.items ++ flat_map index_of_reference (types_in_alternatives alternatives.now)) }
{
    list_chosen(indices, alternatives.root.as_slice())?;
    list_chosen(indices, alternatives.additions.as_slice())
}

// Adds those of alternatives.
#[cycle(indices)]
fn list_chosen(indices: &mut Vec<usize>, alternatives: &[Alternative<'_>]) -> Result<(), AllocError>
    ensures { OnOk result (indices.new.items ≡ indices.old.items ++
        flat_map (λ alternative. indices_in alternative.definition.kind) alternatives.now) }
{
    for alternative in alternatives {
        list_type(indices, &alternative.definition)?;
    }
    Ok(())
}
