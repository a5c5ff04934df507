//! The types in a circle that hold no type of it.
use crate::circle::Circle;
use asn1_rust_code::{Draft, TypeName};
use asn1_rust_components::{TypeBody, TypeFile, Usage};
use asn1_rust_names::{TakenNames, camel_case};
use std::alloc::{AllocError, Global};

/// A type that holds no type of its circle, under the name by which definitions cite its meaning.
#[derive(Drop)]
pub(crate) struct Part<'a> {
    /// The name, as `call_name_part`.
    pub(crate) name: String,
    /// The name of the struct that names its meaning, as `CallNamePart`.
    pub(crate) structure: String,
    /// The type.
    pub(crate) definition: &'a TypeName,
}

/// The types in a circle that hold no type of it, each once.
pub(crate) fn parts_of<'a>(alloc: Global, circle: Circle<'a>) -> Result<Vec<Part<'a>>, AllocError> {
    let mut parts = Vec::new(alloc);
    let mut names = TakenNames::new(alloc);
    for file in circle.members {
        push_parts(alloc, &mut parts, &mut names, file)?;
    }
    Ok(parts)
}

// Adds those in a type.
fn push_parts<'a>(
    alloc: Global,
    parts: &mut Vec<Part<'a>>,
    names: &mut TakenNames,
    file: &'a TypeFile,
) -> Result<(), AllocError> {
    match &file.body {
        TypeBody::Choice(choice) => {
            for alternative in &choice.alternatives {
                if alternative.held.is_none() {
                    let name = alternative.variant.as_str();
                    push_part(alloc, parts, names, file, name, &alternative.definition)?;
                }
            }
        }
        TypeBody::Sequence(body) => {
            for component in &body.components {
                if component.held.is_none() && !is_group(&component.usage) {
                    let name = component.field.as_str();
                    push_part(alloc, parts, names, file, name, &component.definition)?;
                }
            }
        }
        _ => {}
    }
    Ok(())
}

/// Whether a component is a group of additions.
pub(crate) fn is_group(usage: &Usage) -> bool {
    matches!(usage, Usage::Group(_) | Usage::GroupOfSet(_))
}

// Adds a type, unless it is there.
fn push_part<'a>(
    alloc: Global,
    parts: &mut Vec<Part<'a>>,
    names: &mut TakenNames,
    file: &TypeFile,
    name: &str,
    definition: &'a TypeName,
) -> Result<(), AllocError> {
    if part_name(parts.as_slice(), definition).is_some() {
        return Ok(());
    }
    let module = file.module.as_str();
    let mut lower = String::new(alloc);
    for character in name.chars() {
        lower.push(character.to_ascii_lowercase())?;
    }
    let lower = lower.as_str();
    let wanted = format!(in alloc; "{module}_{lower}_part")?;
    let wanted = wanted.as_str();
    let plain = struct_name(alloc, wanted)?;
    let plain = plain.as_str();
    let structure = names.take(plain)?;
    // Two parts of one name get a number, in both of their names.
    let number = structure.as_str().strip_prefix(plain).unwrap_or("");
    let name = format!(in alloc; "{wanted}{number}")?;
    parts.push(Part {
        name,
        structure,
        definition,
    })?;
    Ok(())
}

/// The name by which definitions cite the meaning of a type.
pub(crate) fn part_name<'p>(parts: &'p [Part<'_>], definition: &TypeName) -> Option<&'p str> {
    for part in parts {
        if part.definition.text.as_str() == definition.text.as_str() {
            return Some(part.name.as_str());
        }
    }
    None
}

/// The file with the names for the meanings of the types in a circle that hold no type of it.
pub fn parts_file(alloc: Global, circle: Circle<'_>) -> Result<String, AllocError> {
    let parts = parts_of(alloc, circle)?;
    let name = circle.name;
    if parts.is_empty() {
        return format!(in alloc;
            "//! There is no type in the circle of `{name}` that holds no type of it.\n"
        );
    }
    let mut draft = Draft::new(alloc);
    draft.use_foreign("asn1_circles", "Meant")?;
    draft.use_names(&["AsnType"])?;
    for (index, part) in parts.iter().enumerate() {
        if index != 0 {
            draft.blank()?;
        }
        append_part(&mut draft, part)?;
    }
    let mut page = Vec::new(alloc);
    page.push(format!(in alloc; "The types in the circle of `{name}` that hold no type of it.")?)?;
    draft.into_file(page.as_slice())
}

// Appends the name for the meaning of a type.
fn append_part(draft: &mut Draft, part: &Part<'_>) -> Result<(), AllocError> {
    let alloc = draft.alloc();
    draft.use_type(part.definition)?;
    let name = part.structure.as_str();
    let text = part.definition.text.as_str();
    draft.text(format!(in alloc;
        "\
/// The meaning of `{text}`.
pub(crate) struct {name};

impl Meant for {name} {{
    type Value = {text};

    ghost meaning = {{ ⟦<{text} as AsnType>⟧.meaning }};

    ghost equal = {{ ⟦<{text} as PartialEq>⟧.eq }};
}}
"
    )?)
}

// The name in the form of a struct.
fn struct_name(alloc: Global, name: &str) -> Result<String, AllocError> {
    let mut hyphened = String::new(alloc);
    for character in name.chars() {
        hyphened.push(if character == '_' { '-' } else { character })?;
    }
    camel_case(alloc, hyphened.as_bytes())
}

/// The lines that bring in the meanings of these types.
pub(crate) fn part_uses(
    alloc: Global,
    circle: Circle<'_>,
    parts: &[Part<'_>],
) -> Result<String, AllocError> {
    let mut uses = String::new(alloc);
    let crate_name = circle.crate_name;
    let module = circle.parts;
    for part in parts {
        let structure = part.structure.as_str();
        let name = part.name.as_str();
        let line = format!(in alloc;
            "use Rattle.{crate_name}.specs.contracts.{module}.{structure}Meant.TheImpl.{{ghosts as {name}}}\n"
        )?;
        uses.push_str(line.as_str())?;
    }
    Ok(uses)
}
