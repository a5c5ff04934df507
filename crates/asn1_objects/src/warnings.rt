//! Warnings of what is wrong with objects.
use crate::classes::{Home, ObjectClass};
use asn1_grammar::{ObjectFault, SyntaxError, append_cause};
use asn1_names::Place;
use asn1_notation::Span;
use asn1_resolved::{Problem, Severity};
use std::alloc::{AllocError, Global};

/// The warnings of a run.
#[derive(Drop)]
pub(crate) struct Warnings {
    alloc: Global,
    list: Vec<Problem>,
}

impl Warnings {
    /// No warnings yet.
    pub(crate) fn new(alloc: Global) -> Warnings {
        Warnings {
            alloc,
            list: Vec::new(alloc),
        }
    }

    /// The warnings.
    pub(crate) fn into_list(self) -> Vec<Problem> {
        let Warnings { list, .. } = self;
        list
    }

    // Adds a warning.
    fn add(&mut self, source: usize, span: Span, text: Vec<u8>) -> Result<(), AllocError> {
        self.list.push(Problem {
            place: Place { text: source, span },
            severity: Severity::Warning,
            text,
        })?;
        Ok(())
    }

    /// Warns of a part of a text that is not understood.
    pub(crate) fn syntax(
        &mut self,
        text: &[u8],
        source: usize,
        error: SyntaxError,
    ) -> Result<(), AllocError> {
        let mut words = Vec::new(self.alloc);
        append_cause(self.alloc, &mut words, text, error.cause)?;
        self.add(source, error.found, words)
    }

    /// Warns of an object that is not written as its class asks.
    pub(crate) fn object(
        &mut self,
        home: Home<'_>,
        class: &ObjectClass<'_>,
        fault: ObjectFault<'_>,
    ) -> Result<(), AllocError> {
        let alloc = self.alloc;
        let (span, text) = match fault {
            ObjectFault::Memory => return Err(AllocError),
            ObjectFault::Syntax(error) => return self.syntax(home.text, home.source, error),
            ObjectFault::Word(span, word) => {
                let front = joined(alloc, &[b"expected ", word])?;
                (
                    span,
                    joined(
                        alloc,
                        &[&front, b" in an object of class '", class.name, b"'"],
                    )?,
                )
            }
            ObjectFault::More(span) => {
                (
                    span,
                    joined(
                        alloc,
                        &[b"expected '}' in an object of class '", class.name, b"'"],
                    )?,
                )
            }
            ObjectFault::NoField(span) => {
                let name = span.octets(home.text);
                let front = joined(alloc, &[b"class '", class.name])?;
                (
                    span,
                    joined(alloc, &[&front, b"' has no field '&", name, b"'"])?,
                )
            }
            ObjectFault::Twice(span, field) => {
                (
                    span,
                    joined(alloc, &[b"&", field_name(class, field), b" stands twice"])?,
                )
            }
        };
        self.add(home.source, span, text)
    }

    /// Warns of an object that lacks a field. It has a name, or else is in braces.
    pub(crate) fn lack(
        &mut self,
        home: Home<'_>,
        span: Span,
        name: Option<&[u8]>,
        field: &[u8],
    ) -> Result<(), AllocError> {
        let text = match name {
            Some(name) => joined(self.alloc, &[b"object '", name, b"' lacks &", field])?,
            None => joined(self.alloc, &[b"the object lacks &", field])?,
        };
        self.add(home.source, span, text)
    }
}

// The name of a field.
fn field_name<'a>(class: &ObjectClass<'a>, field: usize) -> &'a [u8] {
    match class.fields.get(field) {
        Some(field) => field.name,
        None => &[],
    }
}

// The text of some parts.
fn joined(alloc: Global, parts: &[&[u8]]) -> Result<Vec<u8>, AllocError> {
    let mut text = Vec::new(alloc);
    for part in parts {
        text.extend_from_slice(part)?;
    }
    Ok(text)
}
