//! The lists of a circle, as definitions of the meaning inside.
use crate::circle::{Circle, meaning_term};
use crate::parts::{Part, part_name, part_uses, parts_of};
use crate::terms::{
    blocks, definitions_file, field_term, has_word, tag_term, tagged_term, use_line,
};
use asn1_rust_components::{
    Alternative, ChoiceType, Component, Constructed, Held, TypeBody, TypeFile, Usage,
};
use std::alloc::{AllocError, Global};

/// The file with the lists of a circle.
pub fn lists_file(alloc: Global, circle: Circle<'_>) -> Result<String, AllocError> {
    let parts = parts_of(alloc, circle)?;
    let text = all_lists(alloc, circle, parts.as_slice())?;
    let uses = all_uses(alloc, circle, parts.as_slice())?;
    let name = circle.name;
    let comment = format!(in alloc;
        "The lists of the types in the circle of `{name}`, by what it means inside them."
    )?;
    definitions_file(alloc, comment.as_str(), uses.as_str(), text.as_str())
}

// The lists of each type of a circle.
fn all_lists(alloc: Global, circle: Circle<'_>, parts: &[Part<'_>]) -> Result<String, AllocError> {
    let mut texts = Vec::new(alloc);
    for file in circle.members {
        let text = type_lists(alloc, file, parts)?;
        texts.push(text)?;
    }
    blocks(alloc, texts.as_slice())
}

// The list of a type, and its meaning.
fn type_lists(alloc: Global, file: &TypeFile, parts: &[Part<'_>]) -> Result<String, AllocError> {
    match &file.body {
        TypeBody::Choice(choice) => choice_lists(alloc, file, choice, parts),
        TypeBody::Sequence(body) => sequence_lists(alloc, file, body, parts),
        _ => Ok(String::new(alloc)),
    }
}

// The lines that bring in the names in the lists of a circle.
fn all_uses(alloc: Global, circle: Circle<'_>, parts: &[Part<'_>]) -> Result<String, AllocError> {
    let meanings = part_uses(alloc, circle, parts)?;
    let meanings = meanings.as_str();
    let types = all_type_uses(alloc, circle)?;
    let types = types.as_str();
    let defaults = default_lines(alloc, circle)?;
    let defaults = defaults.as_str();
    format!(in alloc; "{meanings}{types}{defaults}")
}

/// The lines that bring in the types with a parameter, and their variants.
pub(crate) fn all_type_uses(alloc: Global, circle: Circle<'_>) -> Result<String, AllocError> {
    let mut uses = String::new(alloc);
    for file in circle.members {
        let lines = type_uses(alloc, circle, file)?;
        uses.push_str(lines.as_str())?;
    }
    Ok(uses)
}

/// The lines that bring in a type with a parameter, and its variants.
pub(crate) fn type_uses(
    alloc: Global,
    circle: Circle<'_>,
    file: &TypeFile,
) -> Result<String, AllocError> {
    let crate_name = circle.crate_name;
    let module = file.module.as_str();
    let name = file.plain_name();
    let variants = variant_uses(alloc, circle, file)?;
    let variants = variants.as_str();
    format!(in alloc;
        "use Rattle.{crate_name}.specs.declared.{module}.{name}.{{{name}}}\n{variants}"
    )
}

/// The line that brings in the variants of a type; no text if it has none.
pub(crate) fn variant_uses(
    alloc: Global,
    circle: Circle<'_>,
    file: &TypeFile,
) -> Result<String, AllocError> {
    match &file.body {
        TypeBody::Choice(choice) => {
            let variants = variant_names(alloc, file, choice)?;
            let variants = variants.as_str();
            let crate_name = circle.crate_name;
            let module = file.module.as_str();
            let name = file.plain_name();
            format!(in alloc;
                "use Rattle.{crate_name}.specs.declared.{module}.{name}.TheVariants.{{{variants}}}\n"
            )
        }
        _ => Ok(String::new(alloc)),
    }
}

// The variants of a CHOICE with their names in definitions.
fn variant_names(
    alloc: Global,
    file: &TypeFile,
    choice: &ChoiceType,
) -> Result<String, AllocError> {
    let mut names = String::new(alloc);
    for (index, alternative) in choice.alternatives.iter().enumerate() {
        if index != 0 {
            names.push_str(", ")?;
        }
        let variant = alternative.variant.as_str();
        let own = variant_name(alloc, file, variant)?;
        names.push_str(variant)?;
        names.push_str(" as ")?;
        names.push_str(own.as_str())?;
    }
    Ok(names)
}

/// The name of a variant in definitions, which no variant of another type has.
pub(crate) fn variant_name(
    alloc: Global,
    file: &TypeFile,
    variant: &str,
) -> Result<String, AllocError> {
    let module = file.module.as_str();
    format!(in alloc; "{module}-{variant}")
}

// The lines that defaults need.
fn default_lines(alloc: Global, circle: Circle<'_>) -> Result<String, AllocError> {
    let mut lines: Vec<String> = Vec::new(alloc);
    for file in circle.members {
        if let TypeBody::Sequence(body) = &file.body {
            add_default_lines(alloc, &mut lines, body.components.as_slice())?;
        }
    }
    let mut text = String::new(alloc);
    for line in &lines {
        text.push_str(line.as_str())?;
    }
    Ok(text)
}

// Adds the lines that the defaults of components need, each once.
fn add_default_lines(
    alloc: Global,
    lines: &mut Vec<String>,
    components: &[Component],
) -> Result<(), AllocError> {
    for component in components {
        if let Some(line) = default_line(alloc, component)? {
            if !lines.iter().any(|known| known.as_str() == line.as_str()) {
                lines.push(line)?;
            }
        }
    }
    Ok(())
}

// The line that the default of a component needs.
fn default_line(alloc: Global, component: &Component) -> Result<Option<String>, AllocError> {
    match ghost_line(component) {
        Some(line) => {
            let line = line.trim_start_matches("ghost ").trim_end_matches(";");
            Ok(Some(format!(in alloc; "{line}\n")?))
        }
        None => Ok(None),
    }
}

// The line of clauses that the default of a component needs.
fn ghost_line(component: &Component) -> Option<&str> {
    match &component.usage {
        Usage::Default(value) => match &value.ghost_line {
            Some(line) => Some(line.as_str()),
            None => None,
        },
        _ => None,
    }
}

/// The name of the definition of a component that holds a type of the circle.
pub(crate) fn component_name(
    alloc: Global,
    file: &TypeFile,
    component: &Component,
) -> Result<String, AllocError> {
    let module = file.module.as_str();
    let field = component.field.as_str();
    format!(in alloc; "{module}_has_{field}")
}

/// The line that brings in the definitions of a circle that are in a spaced text.
pub(crate) fn definition_uses(
    alloc: Global,
    circle: Circle<'_>,
    spaced: &str,
) -> Result<String, AllocError> {
    let mut names: Vec<String> = Vec::new(alloc);
    for file in circle.members {
        add_definition_names(alloc, &mut names, file)?;
    }
    let mut used: Vec<&str> = Vec::new(alloc);
    for name in &names {
        if has_word(alloc, spaced, name.as_str())? {
            used.push(name.as_str())?;
        }
    }
    let crate_name = circle.crate_name;
    let name = circle.name;
    let module = format!(in alloc; "Rattle.{crate_name}.specs.{name}Lists")?;
    use_line(alloc, module.as_str(), used.as_slice())
}

// Adds the names of the definitions of a type.
fn add_definition_names(
    alloc: Global,
    names: &mut Vec<String>,
    file: &TypeFile,
) -> Result<(), AllocError> {
    if let TypeBody::Sequence(body) = &file.body {
        add_component_names(alloc, names, file, body.components.as_slice())?;
    }
    let module = file.module.as_str();
    for suffix in suffixes_of(file) {
        let name = format!(in alloc; "{module}_{suffix}")?;
        names.push(name)?;
    }
    Ok(())
}

// The names of the definitions of a type, behind its module.
fn suffixes_of(file: &TypeFile) -> &'static [&'static str] {
    match &file.body {
        TypeBody::Choice(_) => &["alternatives", "pick", "meaning"],
        TypeBody::Sequence(_) => &["components", "meaning"],
        _ => &[],
    }
}

// Adds the names of the definitions of the components that hold a type of the circle.
fn add_component_names(
    alloc: Global,
    names: &mut Vec<String>,
    file: &TypeFile,
    components: &[Component],
) -> Result<(), AllocError> {
    for component in components {
        if component.held.is_some() {
            let name = component_name(alloc, file, component)?;
            names.push(name)?;
        }
    }
    Ok(())
}

// The list of a SEQUENCE, and its meaning.
fn sequence_lists(
    alloc: Global,
    file: &TypeFile,
    body: &Constructed,
    parts: &[Part<'_>],
) -> Result<String, AllocError> {
    let own = component_definitions(alloc, file, body, parts)?;
    let own = own.as_str();
    let list = sequence_list(alloc, file, body, parts)?;
    let list = list.as_str();
    let meaning = sequence_meaning(alloc, file, body)?;
    let meaning = meaning.as_str();
    let name = file.plain_name();
    let module = file.module.as_str();
    format!(in alloc;
        "{own}abbrev pub {module}_components : {{T : Type 0}} → Meaning T → Components ({name} T)
{module}_components {{T}} m = {list}

abbrev pub {module}_meaning : {{T : Type 0}} → Meaning T → Meaning ({name} T)
{module}_meaning m = {meaning}
"
    )
}

// The definitions of the components that hold a type of the circle, an empty line behind each.
fn component_definitions(
    alloc: Global,
    file: &TypeFile,
    body: &Constructed,
    parts: &[Part<'_>],
) -> Result<String, AllocError> {
    let mut text = String::new(alloc);
    for component in &body.components {
        if component.held.is_some() {
            let definition = component_definition(alloc, file, component, parts)?;
            text.push_str(definition.as_str())?;
        }
    }
    Ok(text)
}

// The definition of a component that holds a type of the circle.
fn component_definition(
    alloc: Global,
    file: &TypeFile,
    component: &Component,
    parts: &[Part<'_>],
) -> Result<String, AllocError> {
    let name = component_name(alloc, file, component)?;
    let name = name.as_str();
    let term = component_term(alloc, component, parts)?;
    let term = term.as_str();
    let type_name = file.plain_name();
    format!(in alloc;
        "abbrev pub {name} : {{T : Type 0}} → Meaning T → ComponentType ({type_name} T)
{name} {{T}} m = {term}

"
    )
}

// The list of the components of a SEQUENCE.
fn sequence_list(
    alloc: Global,
    file: &TypeFile,
    body: &Constructed,
    parts: &[Part<'_>],
) -> Result<String, AllocError> {
    let mut entries: Vec<String> = Vec::new(alloc);
    for component in &body.components {
        let entry = component_entry(alloc, file, component, parts)?;
        entries.push(entry)?;
    }
    match body.extension_index {
        Some(index) => parted_list(alloc, "extensible_sequence", entries.as_slice(), index),
        None => whole_list(alloc, "sequence", entries.as_slice()),
    }
}

// A component in the list of its type: its definition, if it has one.
fn component_entry(
    alloc: Global,
    file: &TypeFile,
    component: &Component,
    parts: &[Part<'_>],
) -> Result<String, AllocError> {
    if component.held.is_some() {
        let name = component_name(alloc, file, component)?;
        let name = name.as_str();
        format!(in alloc; "{name} m")
    } else {
        component_term(alloc, component, parts)
    }
}

// The meaning of a SEQUENCE by its list.
fn sequence_meaning(
    alloc: Global,
    file: &TypeFile,
    body: &Constructed,
) -> Result<String, AllocError> {
    let module = file.module.as_str();
    let asn1_name = file.asn1_name.as_str();
    match body.tag {
        Some(tag) => {
            let tag = tag_term(alloc, tag)?;
            let tag = tag.as_str();
            format!(in alloc;
                "constructed_type_under ({module}_components m) {tag} (codes \"{asn1_name}\")"
            )
        }
        None => format!(in alloc;
            "constructed_type (codes \"{asn1_name}\") ({module}_components m)"
        ),
    }
}

// A component, as its list has it.
fn component_term(
    alloc: Global,
    component: &Component,
    parts: &[Part<'_>],
) -> Result<String, AllocError> {
    let part = part_name(parts, &component.definition).unwrap_or("");
    let meaning = type_term(alloc, &component.held, part)?;
    let subject = tagged_term(alloc, component.tagging, meaning.as_str())?;
    let subject = subject.as_str();
    let name = component.name.as_str();
    let field = field_term(alloc, component.field.as_str())?;
    let field = field.as_str();
    let word = usage_word(component);
    match &component.usage {
        Usage::Default(value) => {
            let value = value.term.as_str();
            format!(in alloc;
                "{word} (codes \"{name}\") (λ v. v.{field}) {value} {subject} {part}.equal"
            )
        }
        _ => format!(in alloc; "{word} (codes \"{name}\") (λ v. v.{field}) {subject}"),
    }
}

// The word for a component by whether it may be absent, and by its place.
fn usage_word(component: &Component) -> &'static str {
    match (&component.usage, component.is_addition) {
        (Usage::Required, _) => "required",
        (Usage::Default(_), false) => "with_default",
        (Usage::Default(_), true) => "addition_with_default",
        (_, false) => "optional",
        (_, true) => "addition",
    }
}

// The meaning of the type of a component or an alternative.
fn type_term(alloc: Global, held: &Option<Held>, part: &str) -> Result<String, AllocError> {
    match held {
        Some(held) => meaning_term(alloc, held, 0, "m"),
        None => format!(in alloc; "{part}.meaning"),
    }
}

// A list of entries in two parts, of which the second begins at an index.
fn parted_list(
    alloc: Global,
    word: &str,
    entries: &[String],
    index: usize,
) -> Result<String, AllocError> {
    let root = entries_term(alloc, entries, 0, index)?;
    let root = root.as_str();
    let additions = entries_term(alloc, entries, index, entries.len())?;
    let additions = additions.as_str();
    format!(in alloc; "{word} {root} {additions}")
}

// A list of entries.
fn whole_list(alloc: Global, word: &str, entries: &[String]) -> Result<String, AllocError> {
    let all = entries_term(alloc, entries, 0, entries.len())?;
    let all = all.as_str();
    format!(in alloc; "{word} {all}")
}

// The entries from one index to another, a line each.
fn entries_term(
    alloc: Global,
    entries: &[String],
    first: usize,
    end: usize,
) -> Result<String, AllocError> {
    let mut text = String::from_str(alloc, "(")?;
    for entry in entries.iter().take(end).skip(first) {
        text.push_str("\n    ")?;
        text.push_str(entry.as_str())?;
        text.push_str(" ∷")?;
    }
    if first < end {
        text.push_str(" ")?;
    }
    text.push_str("[])")?;
    Ok(text)
}

// The list of a CHOICE, the alternative of a value, and the meaning.
fn choice_lists(
    alloc: Global,
    file: &TypeFile,
    choice: &ChoiceType,
    parts: &[Part<'_>],
) -> Result<String, AllocError> {
    let list = choice_list(alloc, choice, parts)?;
    let list = list.as_str();
    let picks = pick_equations(alloc, file, choice)?;
    let picks = picks.as_str();
    let name = file.plain_name();
    let module = file.module.as_str();
    let asn1_name = file.asn1_name.as_str();
    format!(in alloc;
        "abbrev pub {module}_alternatives : {{T : Type 0}} → Meaning T → Alternatives
{module}_alternatives {{T}} m = {list}

abbrev pub {module}_pick : {{T : Type 0}} (m : Meaning T) → {name} T → OneOf (all_of ({module}_alternatives m))
{picks}
abbrev pub {module}_meaning : {{T : Type 0}} → Meaning T → Meaning ({name} T)
{module}_meaning m = choice_of (codes \"{asn1_name}\") ({module}_alternatives m) ({module}_pick m)
"
    )
}

// The list of the alternatives of a CHOICE.
fn choice_list(
    alloc: Global,
    choice: &ChoiceType,
    parts: &[Part<'_>],
) -> Result<String, AllocError> {
    let mut entries: Vec<String> = Vec::new(alloc);
    for alternative in &choice.alternatives {
        let entry = alternative_term(alloc, alternative, parts)?;
        entries.push(entry)?;
    }
    match choice.extension_index {
        Some(index) => parted_list(alloc, "extensible", entries.as_slice(), index),
        None => whole_list(alloc, "closed", entries.as_slice()),
    }
}

// The equations of the alternative of a value.
fn pick_equations(
    alloc: Global,
    file: &TypeFile,
    choice: &ChoiceType,
) -> Result<String, AllocError> {
    let mut text = String::new(alloc);
    for (index, alternative) in choice.alternatives.iter().enumerate() {
        let equation = pick_equation(alloc, file, alternative, index)?;
        text.push_str(equation.as_str())?;
    }
    Ok(text)
}

// The equation of the alternative with an index.
fn pick_equation(
    alloc: Global,
    file: &TypeFile,
    alternative: &Alternative,
    index: usize,
) -> Result<String, AllocError> {
    let own = variant_name(alloc, file, alternative.variant.as_str())?;
    let own = own.as_str();
    let place = place_term(alloc, index)?;
    let place = place.as_str();
    let module = file.module.as_str();
    format!(in alloc; "{module}_pick m ({own} v) = {place}\n")
}

// An alternative, as its list has it.
fn alternative_term(
    alloc: Global,
    alternative: &Alternative,
    parts: &[Part<'_>],
) -> Result<String, AllocError> {
    let part = part_name(parts, &alternative.definition).unwrap_or("");
    let meaning = type_term(alloc, &alternative.held, part)?;
    let subject = tagged_term(alloc, alternative.tagging, meaning.as_str())?;
    let subject = subject.as_str();
    let name = alternative.name.as_str();
    format!(in alloc; "alternative (codes \"{name}\") {subject}")
}

// The value of the alternative with an index.
fn place_term(alloc: Global, index: usize) -> Result<String, AllocError> {
    let mut term = String::from_str(alloc, "inl v")?;
    for _ in 0..index {
        let inner = term.as_str();
        term = format!(in alloc; "inr ({inner})")?;
    }
    Ok(term)
}
