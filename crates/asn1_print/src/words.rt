//! The words of capitals that a schema has by themselves.
use asn1_resolved::{Alternative, Component, EnumerationItem, Schema, TypeDefinition, TypeKind};
use asn1_rust_names::KnownWords;
use std::alloc::{AllocError, Global};

/// The words of capitals in the names of definitions, of their components, alternatives and items; of a module alone, if one is named.
pub fn known_words(
    alloc: Global,
    schema: &Schema<'_>,
    module: Option<&[u8]>,
) -> Result<KnownWords, AllocError> {
    let mut words = KnownWords::new(alloc);
    for definition in &schema.types {
        if is_wanted(definition.module, module) {
            add_type(&mut words, definition)?;
        }
    }
    for definition in &schema.values {
        if is_wanted(definition.module, module) {
            words.add(definition.name)?;
        }
    }
    Ok(words)
}

// Whether a module is the one that is named, if one is.
fn is_wanted(module: &[u8], named: Option<&[u8]>) -> bool {
    match named {
        Some(named) => module == named,
        None => true,
    }
}

// Adds the words of a definition.
fn add_type(words: &mut KnownWords, definition: &TypeDefinition<'_>) -> Result<(), AllocError> {
    words.add(definition.name)?;
    match &definition.definition.kind {
        TypeKind::Sequence(components) => add_components(words, components.root.as_slice()),
        TypeKind::Set(components) => add_components(words, components.root.as_slice()),
        TypeKind::Choice(alternatives) => add_alternatives(words, alternatives.root.as_slice()),
        TypeKind::Enumerated(enumeration) => add_items(words, enumeration.root.as_slice()),
        _ => Ok(()),
    }
}

// Adds the words of components.
fn add_components(words: &mut KnownWords, components: &[Component<'_>]) -> Result<(), AllocError> {
    for component in components {
        words.add(component.name)?;
    }
    Ok(())
}

// Adds the words of alternatives.
fn add_alternatives(
    words: &mut KnownWords,
    alternatives: &[Alternative<'_>],
) -> Result<(), AllocError> {
    for alternative in alternatives {
        words.add(alternative.name)?;
    }
    Ok(())
}

// Adds the words of items.
fn add_items(words: &mut KnownWords, items: &[EnumerationItem<'_>]) -> Result<(), AllocError> {
    for item in items {
        words.add(item.name)?;
    }
    Ok(())
}
