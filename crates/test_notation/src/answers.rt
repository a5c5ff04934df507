//! The answers to a text.
use crate::errors::{append_errors, append_position, append_problems};
use crate::rust_names::{append_forms, append_taken};
use crate::work::{Text, Work};
use asn1_grammar::{AssociatedModule, Parsed, associated_modules, parse};
use asn1_module_check::{check_extensible_choices, check_tags};
use asn1_modules::{NameMessages, Source, collect_names};
use asn1_names::check_names;
use asn1_notation_text::{Printer, print_module};
use asn1_objects::objects_of;
use asn1_resolver::resolve;
use asn1_tokens::{TokenError, tokens};
use std::alloc::{AllocError, Global};
use std::io::{self, Write};

/// Appends the line before a text, and the answer.
pub(crate) fn answer(alloc: Global, out: &mut Vec<u8>, text: &Text<'_>) -> io::Result<()> {
    out.extend_from_slice(text.title)?;
    out.push(b'\n')?;
    match text.work {
        Work::Tokens => answer_tokens(alloc, out, text.text),
        Work::Module => answer_module(alloc, out, text.text),
        Work::Names => answer_names(alloc, out, text.text),
        Work::Schema => answer_schema(alloc, out, text.text),
        Work::Rust => append_forms(alloc, out, text.text),
        Work::Taken => append_taken(alloc, out, text.text),
    }
}

// Appends the tokens of a text, or why it has none.
fn answer_tokens(alloc: Global, out: &mut Vec<u8>, text: &[u8]) -> io::Result<()> {
    match tokens(alloc, text) {
        Ok(tokens) => {
            for token in &tokens {
                write!(out, "{:?} ", token.kind)?;
                out.extend_from_slice(token.text)?;
                out.push(b'\n')?;
            }
            append_position(out, text, text.len())?;
            writeln!(out, "end")
        }
        Err(TokenError::Refused(refusal, at)) => {
            append_position(out, text, at)?;
            writeln!(out, "{refusal}")
        }
        Err(TokenError::Memory) => writeln!(out, "no memory"),
    }
}

// Appends the errors of a text, and the text of its trees.
fn answer_module(alloc: Global, out: &mut Vec<u8>, text: &[u8]) -> io::Result<()> {
    let parsed = parse(alloc, text)?;
    append_errors(alloc, out, text, &parsed.errors)?;
    let printed = printed(alloc, text, &parsed)?;
    out.extend_from_slice(&printed)?;
    let again = parse(alloc, &printed)?;
    append_errors(alloc, out, &printed, &again.errors)?;
    if printed_again(alloc, &printed, &again)? {
        Ok(())
    } else {
        writeln!(out, "read as other trees")
    }
}

// Whether the text of trees is that from which they were read.
fn printed_again(alloc: Global, text: &[u8], parsed: &Parsed) -> Result<bool, AllocError> {
    let printed = printed(alloc, text, parsed)?;
    Ok(printed.as_slice() == text)
}

// The text of the trees that were read from a text.
fn printed(alloc: Global, text: &[u8], parsed: &Parsed) -> Result<Vec<u8>, AllocError> {
    let mut printer = Printer::new(alloc, text);
    for module in &parsed.modules {
        print_module(&mut printer, module)?;
    }
    Ok(printer.into_text())
}

// Appends the errors of a text, and what is wrong with its names.
fn answer_names(alloc: Global, out: &mut Vec<u8>, text: &[u8]) -> io::Result<()> {
    let parsed = parse(alloc, text)?;
    append_errors(alloc, out, text, &parsed.errors)?;
    let parsed = [parsed];
    let associated = associated_modules(alloc, &parsed)?;
    let names = collect_names(alloc, &sources_of(alloc, text, &parsed, &associated)?)?;
    let mut messages = NameMessages::new(alloc, &names)?;
    for problem in &check_names(alloc, &names)? {
        append_position(out, text, problem.place().span.start)?;
        messages.append(out, problem)?;
        out.push(b'\n')?;
    }
    Ok(())
}

// A text with its modules, and those that define types of the language.
fn sources_of<'a>(
    alloc: Global,
    text: &'a [u8],
    parsed: &'a [Parsed],
    associated: &'a [AssociatedModule],
) -> Result<Vec<Source<'a>>, AllocError> {
    let mut sources = Vec::new(alloc);
    for part in parsed {
        sources.push(Source {
            text,
            modules: &part.modules,
        })?;
    }
    for part in associated {
        sources.push(Source {
            text: part.text,
            modules: &part.modules,
        })?;
    }
    Ok(sources)
}

// Appends the errors of a text, and the problems of its modules; or that there is no error.
fn answer_schema(alloc: Global, out: &mut Vec<u8>, text: &[u8]) -> io::Result<()> {
    let parsed = parse(alloc, text)?;
    append_errors(alloc, out, text, &parsed.errors)?;
    let parsed = [parsed];
    let associated = associated_modules(alloc, &parsed)?;
    let sources = sources_of(alloc, text, &parsed, &associated)?;
    let names = collect_names(alloc, &sources)?;
    let objects = objects_of(alloc, &sources, &names)?;
    let resolution = resolve(alloc, &sources, &objects)?;
    append_problems(out, text, &resolution.problems)?;
    if !resolution.is_accepted() {
        return Ok(());
    }
    let mut clashes = check_tags(alloc, &resolution.schema)?;
    clashes.append(&mut check_extensible_choices(alloc, &resolution.schema)?)?;
    append_problems(out, text, &clashes)?;
    if clashes.is_empty() {
        writeln!(out, "accepted")?;
    }
    Ok(())
}
