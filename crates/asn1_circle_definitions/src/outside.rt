//! Types outside a circle, each value of which is valid.
use crate::parts::is_group;
use asn1_rust_code::TypeName;
use asn1_rust_components::{Alias, Component, ListKind, TypeBody, TypeFile};
use std::alloc::{AllocError, Global};

/// The types of the language and of the library each value of which is valid.
const PLAIN: &[&str] = &[
    "()",
    "BitString",
    "BitVec",
    "BmpString",
    "GeneralString",
    "GeneralizedTime",
    "GraphicString",
    "Ia5String",
    "Integer",
    "NamedBitString",
    "NumericString",
    "ObjectIdentifier",
    "OctetString",
    "PrintableString",
    "TeletexString",
    "UtcTime",
    "Utf8String",
    "VisibleString",
    "asn1_contents::Date",
    "asn1_contents::DateTime",
    "asn1_contents::Real",
    "asn1_contents::RelativeOid",
    "asn1_contents::TimeOfDay",
    "asn1_contents::UniversalString",
    "bool",
    "i16",
    "i32",
    "i64",
    "i8",
    "u16",
    "u32",
    "u64",
    "u8",
];

/// The types of a crate that are in no circle, and its names for types.
#[derive(Clone, Copy)]
pub struct Surroundings<'a> {
    /// The types with files of their own.
    pub files: &'a [TypeFile],
    /// The names for types.
    pub aliases: &'a [Alias],
}

/// A type that holds no type of the circle: below its lists it is a type of the crate, or one without parts.
#[derive(Drop)]
pub(crate) struct Outside {
    /// The lists, the outermost first.
    pub(crate) lists: Vec<ListKind>,
    /// The index of the type of the crate.
    pub(crate) file: Option<usize>,
}

// A name below lists: of a type, of another name for one, or of something else.
enum Core<'a> {
    Plain,
    Type(usize),
    Name(&'a TypeName),
    Unknown,
}

/// The kind of a type outside, if it is known.
pub(crate) fn outside_of<'a>(
    alloc: Global,
    surroundings: Surroundings<'a>,
    definition: &'a TypeName,
) -> Result<Option<Outside>, AllocError> {
    let mut lists: Vec<ListKind> = Vec::new(alloc);
    let mut name = definition;
    for _ in 0..=surroundings.aliases.len() {
        match core_of(surroundings, name, &mut lists)? {
            Core::Plain => return Ok(Some(Outside { lists, file: None })),
            Core::Type(file) => {
                return Ok(Some(Outside {
                    lists,
                    file: Some(file),
                }));
            }
            Core::Name(next) => name = next,
            Core::Unknown => return Ok(None),
        }
    }
    Ok(None)
}

// The kind of a name below lists, which are added.
fn core_of<'a>(
    surroundings: Surroundings<'a>,
    name: &'a TypeName,
    lists: &mut Vec<ListKind>,
) -> Result<Core<'a>, AllocError> {
    let mut text = name.text.as_str();
    for _ in 0..name.text.len() {
        match inside(text) {
            Some((kind, rest)) => {
                lists.push(kind)?;
                text = rest;
            }
            None => break,
        }
    }
    Ok(named(surroundings, name, text))
}

// A list, and the name of the type of its elements.
fn inside(text: &str) -> Option<(ListKind, &str)> {
    match text.strip_prefix("Vec<") {
        Some(rest) => Some((ListKind::SequenceOf, rest.strip_suffix(">")?)),
        None => {
            let rest = text.strip_prefix("SetOf<")?;
            Some((ListKind::SetOf, rest.strip_suffix(">")?))
        }
    }
}

// The kind of a name without lists.
fn named<'a>(surroundings: Surroundings<'a>, name: &'a TypeName, text: &str) -> Core<'a> {
    if PLAIN.iter().any(|plain| *plain == text) {
        return Core::Plain;
    }
    match module_of(name, text) {
        Some("aliases") => match surroundings
            .aliases
            .iter()
            .find(|alias| alias.name.as_str() == text)
        {
            Some(alias) => Core::Name(&alias.definition),
            None => Core::Unknown,
        },
        Some(module) => match surroundings
            .files
            .iter()
            .position(|file| file.module.as_str() == module)
        {
            Some(file) => Core::Type(file),
            None => Core::Unknown,
        },
        None => Core::Unknown,
    }
}

// The module of the crate from which a name is imported.
fn module_of<'t>(name: &'t TypeName, text: &str) -> Option<&'t str> {
    let import = name
        .imports
        .iter()
        .find(|import| import.name.as_str() == text)?;
    import.path.as_str().strip_prefix("crate::")
}

/// The module of the type of this index.
pub(crate) fn module_at<'a>(
    surroundings: Surroundings<'a>,
    file: Option<usize>,
) -> Option<&'a str> {
    Some(surroundings.files.get(file?)?.module.as_str())
}

/// The indices of the types outside each value of which is valid, each behind those in it.
pub(crate) fn valid_files(
    alloc: Global,
    surroundings: Surroundings<'_>,
) -> Result<Vec<usize>, AllocError> {
    let mut known: Vec<usize> = Vec::new(alloc);
    for _ in surroundings.files {
        let before = known.len();
        for (index, file) in surroundings.files.iter().enumerate() {
            if !known.contains(&index)
                && has_known_parts(alloc, surroundings, &file.body, known.as_slice())?
            {
                known.push(index)?;
            }
        }
        if known.len() == before {
            break;
        }
    }
    Ok(known)
}

// Whether each part of a type is without parts, or one of the types that are known.
fn has_known_parts<'a>(
    alloc: Global,
    surroundings: Surroundings<'a>,
    body: &'a TypeBody,
    known: &[usize],
) -> Result<bool, AllocError> {
    match body {
        TypeBody::Choice(choice) => {
            for alternative in &choice.alternatives {
                if !is_known(alloc, surroundings, &alternative.definition, known)? {
                    return Ok(false);
                }
            }
            Ok(true)
        }
        TypeBody::Sequence(body) => {
            are_known(alloc, surroundings, body.components.as_slice(), known)
        }
        TypeBody::Set(body) => are_known(alloc, surroundings, body.components.as_slice(), known),
        TypeBody::Group(_) => Ok(false),
        TypeBody::Enumerated(_) | TypeBody::RestrictedString(_) => Ok(true),
    }
}

// The same of components. A value with a group has to write a component of it, so not each is valid.
fn are_known<'a>(
    alloc: Global,
    surroundings: Surroundings<'a>,
    components: &'a [Component],
    known: &[usize],
) -> Result<bool, AllocError> {
    for component in components {
        if is_group(&component.usage)
            || !is_known(alloc, surroundings, &component.definition, known)?
        {
            return Ok(false);
        }
    }
    Ok(true)
}

/// Whether a type outside is without parts below its lists, or one of the types that are known.
pub(crate) fn is_known<'a>(
    alloc: Global,
    surroundings: Surroundings<'a>,
    definition: &'a TypeName,
    known: &[usize],
) -> Result<bool, AllocError> {
    match outside_of(alloc, surroundings, definition)? {
        Some(Outside { file, .. }) => Ok(match file {
            Some(index) => known.contains(&index),
            None => true,
        }),
        None => Ok(false),
    }
}

/// Whether a type has a group of components.
pub(crate) fn has_group(body: &TypeBody) -> bool {
    match body {
        TypeBody::Sequence(body) => body.components.iter().any(|part| is_group(&part.usage)),
        TypeBody::Set(body) => body.components.iter().any(|part| is_group(&part.usage)),
        TypeBody::Group(_) => true,
        _ => false,
    }
}

/// Marks the types of the crate in a type.
pub(crate) fn mark_parts<'a>(
    alloc: Global,
    surroundings: Surroundings<'a>,
    body: &'a TypeBody,
    marks: &mut Vec<bool>,
) -> Result<(), AllocError> {
    match body {
        TypeBody::Choice(choice) => {
            for alternative in &choice.alternatives {
                mark(alloc, surroundings, &alternative.definition, marks)?;
            }
            Ok(())
        }
        TypeBody::Sequence(body) => {
            mark_components(alloc, surroundings, body.components.as_slice(), marks)
        }
        TypeBody::Set(body) => {
            mark_components(alloc, surroundings, body.components.as_slice(), marks)
        }
        _ => Ok(()),
    }
}

// The same of components.
fn mark_components<'a>(
    alloc: Global,
    surroundings: Surroundings<'a>,
    components: &'a [Component],
    marks: &mut Vec<bool>,
) -> Result<(), AllocError> {
    for component in components {
        mark(alloc, surroundings, &component.definition, marks)?;
    }
    Ok(())
}

/// Marks a type of the crate, which may be below lists.
pub(crate) fn mark<'a>(
    alloc: Global,
    surroundings: Surroundings<'a>,
    definition: &'a TypeName,
    marks: &mut Vec<bool>,
) -> Result<(), AllocError> {
    if let Some(Outside { file, .. }) = outside_of(alloc, surroundings, definition)? {
        if let Some(index) = file {
            if let Some(flag) = marks.get_mut(index) {
                *flag = true;
            }
        }
    }
    Ok(())
}
