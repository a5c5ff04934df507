//! Reads the information objects of a text, which is standard input, by the notation of their classes.
//!
//! The program writes a line for each error of the notation, for each object with the fields that it has, for each object set with its
//! elements, and for each warning. An error and a warning have their position, a line and a column from 1 on; a question mark follows
//! a name that no definition has. The stored run is the test: its text and its lines were written by hand, after X.681.
#![tactic(auto)]

mod objects;

use asn1_grammar::{append_cause, parse};
use asn1_modules::{Source, collect_names};
use asn1_objects::objects_of;
use asn1_tokens::position_of;
use objects::append_objects;
use std::io::{self, Read, Write};

fn main(rt: HostRuntime) -> io::Result<()> {
    let alloc = rt.alloc();
    let mut text = Vec::new(alloc);
    rt.reader().read_to_end(&mut text)?;
    let mut out = Vec::new(alloc);
    let parsed = parse(alloc, &text)?;
    for error in &parsed.errors {
        append_position(&mut out, &text, error.found.start)?;
        append_cause(alloc, &mut out, &text, error.cause)?;
        out.push(b'\n')?;
    }
    let sources = [Source {
        text: &text,
        modules: &parsed.modules,
    }];
    let names = collect_names(alloc, &sources)?;
    let objects = objects_of(alloc, &sources, &names)?;
    append_objects(&mut out, &objects)?;
    for warning in &objects.warnings {
        append_position(&mut out, &text, warning.place.span.start)?;
        out.extend_from_slice(&warning.text)?;
        out.push(b'\n')?;
    }
    io::writer(&rt).write_all(&out)
}

// Appends the position of an offset.
fn append_position(out: &mut Vec<u8>, text: &[u8], offset: usize) -> io::Result<()> {
    let position = position_of(text, offset);
    write!(out, "{}:{}: ", position.line, position.column)
}
