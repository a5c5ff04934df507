//! Objects and object sets as lines.
use asn1_grammar::{Held, Setting};
use asn1_notation::Reference;
use asn1_objects::{
    Home, ObjectClass, ObjectDefinition, Objects, ReadDefinition, ReadElement, ReadObject, ReadSet,
};
use std::io::{self, Write};

/// Appends a line for each object and each object set.
pub(crate) fn append_objects(out: &mut Vec<u8>, objects: &Objects<'_>) -> io::Result<()> {
    for definition in &objects.definitions {
        append_definition(out, objects, definition)?;
    }
    Ok(())
}

// Appends the line of a definition.
fn append_definition(
    out: &mut Vec<u8>,
    objects: &Objects<'_>,
    definition: &ObjectDefinition<'_>,
) -> io::Result<()> {
    let home = definition.home;
    out.extend_from_slice(definition.name.octets(home.text))?;
    match &definition.contents {
        ReadDefinition::Unread => write!(out, " is not read")?,
        ReadDefinition::Object(object) => {
            write!(out, " is an object")?;
            append_object(out, objects, object)?;
        }
        ReadDefinition::Set(set) => append_set(out, objects, home, set)?,
    }
    writeln!(out)
}

// Appends the class of an object, and the fields that it has.
fn append_object(out: &mut Vec<u8>, objects: &Objects<'_>, object: &ReadObject) -> io::Result<()> {
    let Some(class) = objects.classes.get(object.class) else {
        return Ok(());
    };
    write!(out, " of ")?;
    out.extend_from_slice(class.name)?;
    for setting in &object.settings {
        append_setting(out, class, setting)?;
    }
    Ok(())
}

// Appends a field that an object has, and what is there.
fn append_setting(out: &mut Vec<u8>, class: &ObjectClass<'_>, setting: &Setting) -> io::Result<()> {
    write!(out, " &")?;
    if let Some(field) = class.fields.get(setting.field) {
        out.extend_from_slice(field.name)?;
    }
    match &setting.held {
        Held::Type(_) => write!(out, " type"),
        Held::Value(_) => write!(out, " value"),
        Held::Other(_) => write!(out, " other"),
    }
}

// Appends the class of a set, and its elements.
fn append_set(
    out: &mut Vec<u8>,
    objects: &Objects<'_>,
    home: Home<'_>,
    set: &ReadSet,
) -> io::Result<()> {
    write!(out, " is a set of ")?;
    if let Some(class) = objects.classes.get(set.class) {
        out.extend_from_slice(class.name)?;
    }
    for element in &set.elements {
        match element {
            ReadElement::Object(reference) => append_name(out, objects, home, reference)?,
            ReadElement::Set(reference) => append_name(out, objects, home, reference)?,
            ReadElement::Braces(object) => {
                write!(out, " {{")?;
                append_object(out, objects, object)?;
                write!(out, " }}")?;
            }
        }
    }
    match &set.unread {
        Some((_, operation)) => write!(out, ", {operation:?}"),
        None => Ok(()),
    }
}

// Appends the name of an element, and whether it is defined.
fn append_name(
    out: &mut Vec<u8>,
    objects: &Objects<'_>,
    home: Home<'_>,
    reference: &Reference,
) -> io::Result<()> {
    write!(out, " ")?;
    out.extend_from_slice(reference.name.octets(home.text))?;
    match objects.find_reference(home, reference) {
        Some(_) => Ok(()),
        None => write!(out, "?"),
    }
}
