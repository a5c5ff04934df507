//! The types that have the law of one spelling.
use crate::cores::{Core, Names};
use crate::proofs::ProofFile;
use crate::spelling_proofs::spelling_of;
use asn1_rust_code::TypeName;
use asn1_rust_components::{Alias, Alternative, Component, SpellingLaw, TypeBody, TypeFile};
use std::alloc::{AllocError, Global};
use std::collections::HashMap;

/// The law that a type has one spelling, with its proof.
#[derive(Drop)]
pub struct Spelling {
    /// The laws that it follows from.
    pub law: SpellingLaw,
    /// The proof.
    pub proof: ProofFile,
}

/// The laws of these types, which have these other names, in their order: each type has one if each of its parts is a type of the
/// language or the library whose equal values are written alike, or a type of the crate that has one, or lists of such.
pub fn spellings_of(
    alloc: Global,
    files: &[TypeFile],
    aliases: &[Alias],
) -> Result<Vec<Option<Spelling>>, AllocError> {
    let names = Names::of(alloc, files, aliases)?;
    let lawful = lawful_types(alloc, &names, files)?;
    let mut spellings = Vec::new(alloc);
    for file in files {
        let spelling = if has_own_law(file) && is_among(&lawful, file) {
            Some(spelling_of(alloc, &names, file)?)
        } else {
            None
        };
        spellings.push(spelling)?;
    }
    Ok(spellings)
}

// Whether a type may have a law of its own: a group of additions is proved with the type that has it.
fn has_own_law(file: &TypeFile) -> bool {
    !matches!(file.body, TypeBody::Group(_))
}

// The names of types that have the law, or whose components are those of types that have it.
fn lawful_types(
    alloc: Global,
    names: &Names<'_>,
    files: &[TypeFile],
) -> Result<HashMap<String, bool>, AllocError> {
    let mut lawful = HashMap::new(alloc);
    // In each round but the last a type is added.
    for _ in 0..=files.len() {
        if !add_lawful(alloc, names, files, &mut lawful)? {
            break;
        }
    }
    Ok(lawful)
}

// Adds the types whose parts are known to be lawful; whether there was one.
fn add_lawful(
    alloc: Global,
    names: &Names<'_>,
    files: &[TypeFile],
    lawful: &mut HashMap<String, bool>,
) -> Result<bool, AllocError> {
    let mut is_new = false;
    for file in files {
        if !is_among(lawful, file) && is_lawful(alloc, names, lawful, file)? {
            let name = String::from_str(alloc, file.name.as_str())?;
            lawful.insert(name, true)?;
            is_new = true;
        }
    }
    Ok(is_new)
}

// Whether a type is among these.
fn is_among(lawful: &HashMap<String, bool>, file: &TypeFile) -> bool {
    lawful.get(file.name.as_str()).is_some()
}

// Whether each part of a type is lawful.
fn is_lawful(
    alloc: Global,
    names: &Names<'_>,
    lawful: &HashMap<String, bool>,
    file: &TypeFile,
) -> Result<bool, AllocError> {
    match &file.body {
        TypeBody::Sequence(body) => {
            are_components_lawful(alloc, names, lawful, body.components.as_slice())
        }
        TypeBody::Set(body) => {
            are_components_lawful(alloc, names, lawful, body.components.as_slice())
        }
        TypeBody::Group(body) => {
            are_components_lawful(alloc, names, lawful, body.components.as_slice())
        }
        TypeBody::Choice(body) => {
            are_alternatives_lawful(alloc, names, lawful, body.alternatives.as_slice())
        }
        TypeBody::Enumerated(_) => Ok(true),
        TypeBody::RestrictedString(body) => { is_type_lawful(alloc, names, lawful, &body.content) }
    }
}

// Whether the type of each component is lawful.
fn are_components_lawful(
    alloc: Global,
    names: &Names<'_>,
    lawful: &HashMap<String, bool>,
    components: &[Component],
) -> Result<bool, AllocError> {
    for component in components {
        if !is_type_lawful(alloc, names, lawful, &component.definition)? {
            return Ok(false);
        }
    }
    Ok(true)
}

// Whether the type of each alternative is lawful.
fn are_alternatives_lawful(
    alloc: Global,
    names: &Names<'_>,
    lawful: &HashMap<String, bool>,
    alternatives: &[Alternative],
) -> Result<bool, AllocError> {
    for alternative in alternatives {
        if !is_type_lawful(alloc, names, lawful, &alternative.definition)? {
            return Ok(false);
        }
    }
    Ok(true)
}

// Whether a type is lawful.
fn is_type_lawful(
    alloc: Global,
    names: &Names<'_>,
    lawful: &HashMap<String, bool>,
    definition: &TypeName,
) -> Result<bool, AllocError> {
    Ok(match names.known(alloc, definition)? {
        Some(known) => match known.core {
            Core::Leaf(_) => true,
            Core::Type(file) => is_among(lawful, file),
        },
        None => false,
    })
}
