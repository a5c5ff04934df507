//! Names of components and alternatives, as tables have them.

use asn1_components::{Choice, FieldTable};
use asn1_tags::{Tag, TagTree};
use std::alloc::{AllocError, Global};

/// Appends the names of the components of a table, in the order of the definition.
pub fn push_component_names<C: FieldTable>(
    alloc: Global,
    names: &mut Vec<String>,
) -> Result<(), AllocError> {
    for index in 0..C::field_count() {
        names.push(component_name::<C>(alloc, index)?)?;
    }
    Ok(())
}

/// The name of the component of that index in the definition; an empty one if there is none.
fn component_name<C: FieldTable>(alloc: Global, index: usize) -> Result<String, AllocError> {
    if let Some(name) = name_in_row::<C>(index, index) {
        return String::from_str(alloc, name);
    }
    for row in 0..C::field_count() {
        if let Some(name) = name_in_row::<C>(row, index) {
            return String::from_str(alloc, name);
        }
    }
    Ok(String::new(alloc))
}

/// The name in a row of a table, if that is the row of the component of that index in the definition.
fn name_in_row<C: FieldTable>(row: usize, index: usize) -> Option<&'static str> {
    let field = C::field_at(row)?;
    if field.index == index {
        Some(field.name)
    } else {
        None
    }
}

/// The index in the definition of the first component of a table that can begin with a tag.
pub fn component_index<C: FieldTable>(tag: Tag) -> Option<usize> {
    for row in 0..C::field_count() {
        let field = C::field_at(row)?;
        if field.tag_tree.can_begin_with(&tag) {
            return Some(field.index);
        }
    }
    None
}

/// The name of the first alternative that can begin with a tag.
pub fn alternative_name<T: Choice>(chosen: Tag) -> Option<&'static str> {
    let root = T::variants();
    let index = match index_in(root, chosen) {
        Some(index) => index,
        None => root
            .len()
            .checked_add(index_in(T::extended_variants()?, chosen)?)?,
    };
    T::identifiers().get(index).copied()
}

fn index_in(trees: &[TagTree<'_>], chosen: Tag) -> Option<usize> {
    trees.iter().position(|tree| tree.can_begin_with(&chosen))
}
