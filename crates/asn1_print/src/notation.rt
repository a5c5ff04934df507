//! The text of definitions, as comments have it.
use crate::written::push_part;
use asn1_modules::Source;
use asn1_names::Place;
use asn1_notation::{
    Argument, Assignment, Class, Component, ComponentItem, Definition, FieldKind, Module, Type,
    TypeKind, Usage, Value,
};
use asn1_notation_text::{Printer, print_assignment, print_type, print_value};
use std::alloc::{AllocError, Global};

/// The greatest number of octets of a definition in one line.
const WIDTH: usize = 100;

/// Appends octets. White space becomes a space, and one that is not of ASCII a question mark.
pub(crate) fn push_octets(text: &mut String, octets: &[u8]) -> Result<(), AllocError> {
    for octet in octets {
        text.push(if octet.is_ascii_graphic() {
            char::from(*octet)
        } else if octet.is_ascii_whitespace() {
            ' '
        } else {
            '?'
        })?;
    }
    Ok(())
}

/// Octets as a text.
pub(crate) fn text_of(alloc: Global, octets: &[u8]) -> Result<String, AllocError> {
    let mut text = String::new(alloc);
    push_octets(&mut text, octets)?;
    Ok(text)
}

// The text of a type.
fn type_text(alloc: Global, source: &[u8], definition: &Type) -> Result<String, AllocError> {
    let mut printer = Printer::new(alloc, source);
    print_type(&mut printer, definition)?;
    let octets = printer.into_text();
    text_of(alloc, octets.as_slice())
}

// The text of a value.
fn value_text(alloc: Global, source: &[u8], value: &Value) -> Result<String, AllocError> {
    let mut printer = Printer::new(alloc, source);
    print_value(&mut printer, value)?;
    let octets = printer.into_text();
    text_of(alloc, octets.as_slice())
}

/// The text of an assignment.
pub(crate) fn assignment_text(
    alloc: Global,
    source: &[u8],
    assignment: &Assignment,
) -> Result<String, AllocError> {
    let mut printer = Printer::new(alloc, source);
    print_assignment(&mut printer, assignment)?;
    let octets = printer.into_text();
    text_of(alloc, octets.as_slice())
}

// The text of a component.
fn text_of_component(
    alloc: Global,
    source: &[u8],
    component: &Component,
) -> Result<String, AllocError> {
    let mut text = text_of(alloc, component.name.octets(source))?;
    text.push_str(" ")?;
    let definition = type_text(alloc, source, &component.definition)?;
    text.push_str(definition.as_str())?;
    match &component.usage {
        Usage::Required => {}
        Usage::Optional => text.push_str(" OPTIONAL")?,
        Usage::Default(value) => {
            text.push_str(" DEFAULT ")?;
            let value = value_text(alloc, source, value)?;
            text.push_str(value.as_str())?;
        }
    }
    Ok(text)
}

/// The text of the component or the alternative whose name is at a place.
pub(crate) fn component_text(
    alloc: Global,
    sources: &[Source<'_>],
    place: Place,
) -> Result<String, AllocError> {
    let mut text = String::new(alloc);
    if let Some(source) = sources.get(place.text) {
        let start = place.span.start;
        push_in_modules(alloc, &mut text, source.text, source.modules, start)?;
    }
    Ok(text)
}

// Appends the text of the component in modules whose name is at an offset: it is in the last module, and there in the last
// definition, whose name is before it.
fn push_in_modules(
    alloc: Global,
    text: &mut String,
    source: &[u8],
    modules: &[Module],
    start: usize,
) -> Result<(), AllocError> {
    let behind = modules.partition_point(|module| module.name.start <= start);
    match modules.get(behind.saturating_sub(1)) {
        Some(module) => {
            push_in_assignments(alloc, text, source, module.assignments.as_slice(), start)
        }
        None => Ok(()),
    }
}

// Appends the text of the component in definitions whose name is at an offset.
fn push_in_assignments(
    alloc: Global,
    text: &mut String,
    source: &[u8],
    assignments: &[Assignment],
    start: usize,
) -> Result<(), AllocError> {
    let behind = assignments.partition_point(|assignment| assignment.name.start <= start);
    let Some(assignment) = assignments.get(behind.saturating_sub(1)) else {
        return Ok(());
    };
    match &assignment.definition {
        Definition::Type(definition) => push_found(alloc, text, source, definition, start),
        Definition::Template(definition) => push_found(alloc, text, source, definition, start),
        Definition::Class(class) => push_in_class(alloc, text, source, class, start),
        Definition::Object(_, braces) => push_part(alloc, text, source, start, braces.end),
        _ => Ok(()),
    }
}

// Appends the text of the component in a type of a field whose name is at an offset.
fn push_in_class(
    alloc: Global,
    text: &mut String,
    source: &[u8],
    class: &Class,
    start: usize,
) -> Result<(), AllocError> {
    if let Class::Fields(fields, _) = class {
        for field in fields {
            if let FieldKind::Fixed(definition) = &field.kind {
                push_found(alloc, text, source, definition, start)?;
            }
        }
    }
    Ok(())
}

// Appends the text of the component in a type whose name is at an offset.
#[cycle(find)]
fn push_found(
    alloc: Global,
    text: &mut String,
    source: &[u8],
    definition: &Type,
    start: usize,
) -> Result<(), AllocError> {
    match &definition.kind {
        TypeKind::Sequence(items) => push_item(alloc, text, source, items.as_slice(), start),
        TypeKind::Set(items) => push_item(alloc, text, source, items.as_slice(), start),
        TypeKind::Choice(items) => push_item(alloc, text, source, items.as_slice(), start),
        TypeKind::SequenceOf(_, element) => push_found(alloc, text, source, element, start),
        TypeKind::SetOf(_, element) => push_found(alloc, text, source, element, start),
        TypeKind::Tagged(_, inner) => push_found(alloc, text, source, inner, start),
        TypeKind::Instance(_, arguments) => {
            push_in_arguments(alloc, text, source, arguments.as_slice(), start)
        }
        _ => Ok(()),
    }
}

// Appends the text of the component in arguments whose name is at an offset.
#[cycle(find)]
fn push_in_arguments(
    alloc: Global,
    text: &mut String,
    source: &[u8],
    arguments: &[Argument],
    start: usize,
) -> Result<(), AllocError> {
    for argument in arguments {
        if let Argument::Type(definition) = argument {
            push_found(alloc, text, source, definition, start)?;
        }
    }
    Ok(())
}

// Appends the text of the item whose name is at an offset.
#[cycle(find)]
fn push_item(
    alloc: Global,
    text: &mut String,
    source: &[u8],
    items: &[ComponentItem],
    start: usize,
) -> Result<(), AllocError> {
    for item in items {
        push_one(alloc, text, source, item, start)?;
    }
    Ok(())
}

// Appends the text of an item, if its name or one in it is at an offset.
#[cycle(find)]
fn push_one(
    alloc: Global,
    text: &mut String,
    source: &[u8],
    item: &ComponentItem,
    start: usize,
) -> Result<(), AllocError> {
    match item {
        ComponentItem::Component(component) => {
            if component.name.start == start {
                let found = text_of_component(alloc, source, component)?;
                return text.push_str(found.as_str());
            }
            push_found(alloc, text, source, &component.definition, start)
        }
        ComponentItem::Group(_, _, items) => {
            push_item(alloc, text, source, items.as_slice(), start)
        }
        _ => Ok(()),
    }
}

/// The lines of a comment with a definition: one line if it is short, or else one for each part in its braces.
pub(crate) fn definition_lines(
    alloc: Global,
    title: &str,
    definition: &str,
) -> Result<Vec<String>, AllocError> {
    let mut lines = Vec::new(alloc);
    if definition.len() <= WIDTH {
        lines.push(format!(in alloc; "`{definition}`")?)?;
        return Ok(lines);
    }
    lines.push(String::from_str(alloc, title)?)?;
    lines.push(String::new(alloc))?;
    lines.push(String::from_str(alloc, "```text")?)?;
    push_parts(alloc, &mut lines, definition)?;
    lines.push(String::from_str(alloc, "```")?)?;
    Ok(lines)
}

// The place of a character of a definition.
#[derive(Clone, Copy)]
struct Nesting {
    // In how many brackets of any kind.
    depth: usize,
    // Whether in a string of characters.
    is_quoted: bool,
}

impl Nesting {
    // Behind this character.
    fn after(self, character: char) -> Nesting {
        let Nesting { depth, is_quoted } = self;
        match character {
            '"' => Nesting {
                depth,
                is_quoted: !is_quoted,
            },
            '{' | '(' | '[' if !is_quoted => Nesting {
                depth: depth.saturating_add(1),
                is_quoted,
            },
            '}' | ')' | ']' if !is_quoted => Nesting {
                depth: depth.saturating_sub(1),
                is_quoted,
            },
            _ => self,
        }
    }

    // Whether in the outermost braces alone.
    fn is_outermost(self) -> bool {
        self.depth == 1 && !self.is_quoted
    }
}

// Appends the lines of a definition: a new one behind the first brace of its type, behind each comma in its braces, and at its last brace.
fn push_parts(alloc: Global, lines: &mut Vec<String>, definition: &str) -> Result<(), AllocError> {
    let mut line = String::new(alloc);
    let mut nesting = Nesting {
        depth: 0,
        is_quoted: false,
    };
    let mut rest = definition;
    if let Some((parameters, defined)) = definition.split_once("} ::= ") {
        line.push_str(parameters)?;
        line.push_str("} ::= ")?;
        rest = defined;
    }
    for character in rest.chars() {
        if character == '}' && nesting.is_outermost() {
            lines.push(take_line(alloc, &mut line)?)?;
        }
        nesting = nesting.after(character);
        if character != ' ' || !is_blank(line.as_str()) {
            line.push(character)?;
        }
        if nesting.is_outermost()
            && (character == '{' || character == ',')
            && !is_blank(line.as_str())
        {
            lines.push(take_line(alloc, &mut line)?)?;
            line.push_str("    ")?;
        }
    }
    lines.push(line)?;
    Ok(())
}

// A part of a definition in one line: of one that is too long, the braces have two dots in them.
fn part_line(alloc: Global, part: &str) -> Result<String, AllocError> {
    if part.len() <= WIDTH {
        return String::from_str(alloc, part);
    }
    let mut line = String::new(alloc);
    let mut depth = 0usize;
    for character in part.chars() {
        if character == '}' {
            depth = depth.saturating_sub(1);
        }
        if depth == 0 {
            line.push(character)?;
        }
        if character == '{' {
            if depth == 0 {
                line.push_str(" .. ")?;
            }
            depth = depth.saturating_add(1);
        }
    }
    Ok(line)
}

/// A part of a definition in one line, as code in a comment.
pub(crate) fn quoted_part(alloc: Global, part: &str) -> Result<String, AllocError> {
    let line = part_line(alloc, part)?;
    let line = line.as_str();
    format!(in alloc; "`{line}`")
}

// Whether a line has nothing but spaces.
fn is_blank(line: &str) -> bool {
    for octet in line.as_bytes() {
        if *octet != b' ' {
            return false;
        }
    }
    true
}

// The line without spaces at its end, with what is in its braces if it is short; it is empty afterwards.
fn take_line(alloc: Global, line: &mut String) -> Result<String, AllocError> {
    let done = part_line(alloc, line.as_str().trim_end())?;
    *line = String::new(alloc);
    Ok(done)
}
