//! What a command line says of the crate, and of types that exist already.
use crate::job::ExternModule;
use crate::message::{Message, push_octets};
use asn1_print::Extern;
use asn1_resolved::{Schema, Severity};
use asn1_rust_names::is_keyword;
use std::alloc::{AllocError, Global};

/// The crates that each crate of types names.
const OTHER_CRATES: &[&str] = &["asn1_schema", "asn1_tags", "core", "std"];

/// Whether a crate may have this name: it has lowercase letters, digits and underscores, and begins with a letter. It is no word
/// of Rust, and not the name of a crate that each crate of types names.
pub fn is_crate_name(name: &str) -> bool {
    match name.as_bytes() {
        [first, ..] if first.is_ascii_lowercase() => {
            name.as_bytes().iter().all(|octet| is_small(*octet))
                && !is_keyword(name)
                && !OTHER_CRATES.iter().any(|other| *other == name)
        }
        _ => false,
    }
}

// Whether an octet is a lowercase letter, a digit or an underscore.
fn is_small(octet: u8) -> bool {
    octet.is_ascii_lowercase() || octet.is_ascii_digit() || octet == b'_'
}

/// The type that an argument names, as `Name=asn1_x509::Name` or `Module.Name=asn1_x509::Name`; `None` if it has
/// another form.
pub fn extern_of(argument: &str) -> Option<Extern<'_>> {
    let (reference, target) = argument.split_once('=')?;
    let (path, rust_name) = target.rsplit_once("::")?;
    let (module, name) = match reference.split_once('.') {
        Some((module, name)) => (Some(module.as_bytes()), name),
        None => (None, reference),
    };
    if name.is_empty() || !is_path(path) || !is_identifier(rust_name) {
        return None;
    }
    Some(Extern {
        module,
        name: name.as_bytes(),
        path,
        rust_name,
    })
}

/// The module that an argument names, as `PKIX1Explicit88=certificates`; `None` if it has another form.
pub fn extern_module_of(argument: &str) -> Option<ExternModule<'_>> {
    let (name, path) = argument.split_once('=')?;
    if name.is_empty() || !is_path(path) {
        return None;
    }
    Some(ExternModule {
        name: name.as_bytes(),
        path,
    })
}

// Whether a text is identifiers with `::` between.
fn is_path(text: &str) -> bool {
    text.split("::").all(|part| is_identifier(part))
}

// Whether a text is letters, digits and underscores, does not begin with a digit, and is no word of Rust.
fn is_identifier(text: &str) -> bool {
    match text.as_bytes() {
        [first, ..] if !first.is_ascii_digit() => {
            text.as_bytes()
                .iter()
                .all(|octet| octet.is_ascii_alphanumeric() || *octet == b'_')
                && !is_keyword(text)
        }
        _ => false,
    }
}

/// The errors for types that exist already, each of which has to be for one type of the modules.
pub(crate) fn extern_errors(
    alloc: Global,
    externs: &[Extern<'_>],
    schema: &Schema<'_>,
) -> Result<Vec<Message>, AllocError> {
    let mut messages = Vec::new(alloc);
    for known in externs {
        let count = schema
            .types
            .iter()
            .take(schema.defined)
            .filter(|defined| known.is_for(defined.module, defined.name))
            .count();
        match count {
            0 => messages.push(unknown_extern(alloc, known.name)?)?,
            1 => {}
            _ => messages.push(doubled_extern(alloc, known.name)?)?,
        }
    }
    Ok(messages)
}

// The error that no module defines the type of this name.
fn unknown_extern(alloc: Global, name: &[u8]) -> Result<Message, AllocError> {
    let mut line = String::from_str(alloc, "error: no module defines the type '")?;
    push_octets(&mut line, name)?;
    line.push_str("'")?;
    Ok(error_of(line))
}

// The error that several modules define the type of this name.
fn doubled_extern(alloc: Global, name: &[u8]) -> Result<Message, AllocError> {
    let mut line = String::from_str(alloc, "error: several modules define the type '")?;
    push_octets(&mut line, name)?;
    line.push_str("'; name one as MODULE.")?;
    push_octets(&mut line, name)?;
    Ok(error_of(line))
}

/// The errors for modules whose types exist already, each of which has to define a type.
pub(crate) fn extern_module_errors(
    alloc: Global,
    modules: &[ExternModule<'_>],
    schema: &Schema<'_>,
) -> Result<Vec<Message>, AllocError> {
    let mut messages = Vec::new(alloc);
    for known in modules {
        if !schema
            .types
            .iter()
            .any(|defined| defined.module == known.name)
        {
            messages.push(unknown_module(alloc, known.name)?)?;
        }
    }
    Ok(messages)
}

// The error that no module of this name defines a type.
fn unknown_module(alloc: Global, name: &[u8]) -> Result<Message, AllocError> {
    let mut line = String::from_str(alloc, "error: no module '")?;
    push_octets(&mut line, name)?;
    line.push_str("' defines a type")?;
    Ok(error_of(line))
}

// An error with this line.
fn error_of(line: String) -> Message {
    Message {
        severity: Severity::Error,
        line,
    }
}
