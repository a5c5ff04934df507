//! The list of the crates of a repository.
use crate::arguments::{crate_name_of, extern_modules_of, externs_of};
use crate::failure::Failure;
use asn1_print::PrintedFile;
use clap::ArgMatches;
use std::alloc::AllocError;
use std::fmt::Write;
use std::fs;

// Words of a file, and a library that the crate needs then: for types whose values are kept as their contents octets, for values of open
// types, and for laws of one spelling.
const LIBRARIES: &[(&str, &str)] = &[
    ("asn1_contents::", "asn1_contents"),
    ("asn1_tables::", "asn1_tables"),
    (LAW, "asn1_model"),
    (LAW, "asn1_slots"),
    (LAW, "asn1_spelling"),
];

// A file with a law of one spelling names the first of the libraries for these. The others are listed with it, since a module that grows
// needs them.
const LAW: &str = "Rattle.asn1_model.";

// The library of the types that hold themselves.
const CIRCLES: &str = "asn1_circles";

/// Adds the lines of the crate that was written as these files, of its program and of its exports, to crates.txt, if the folder is
/// crates/CRATE beside that file.
pub(crate) fn list_crates<'a>(
    rt: &HostRuntime,
    folder: &str,
    matches: &ArgMatches<'a>,
    files: &[PrintedFile],
) -> Result<(), Failure<'a>> {
    let crate_name = crate_name_of(matches)?;
    let Some(list) = list_beside(rt, folder, crate_name)? else {
        return Ok(());
    };
    let Ok(text) = fs::read_to_string(rt, list.as_str()) else {
        return Ok(());
    };
    let lines = missing_lines(rt, matches, files, text.as_str())?;
    if lines.is_empty() {
        return Ok(());
    }
    let whole = joined(rt, text.as_str(), lines.as_str())?;
    match fs::write(rt, list.as_str(), whole.as_str()) {
        Ok(()) => Ok(()),
        Err(error) => Err(Failure::Output(list, error)),
    }
}

// The path of crates.txt, if the folder is crates/CRATE beside it.
fn list_beside(
    rt: &HostRuntime,
    folder: &str,
    crate_name: &str,
) -> Result<Option<String>, AllocError> {
    let folder = folder.trim_end_matches('/');
    let Some((parent, name)) = folder.rsplit_once('/') else {
        return Ok(None);
    };
    if name != crate_name {
        return Ok(None);
    }
    if parent == "crates" {
        return Ok(Some(String::from_str(rt.alloc(), "crates.txt")?));
    }
    match parent.strip_suffix("/crates") {
        Some(root) => Ok(Some(format!(in rt.alloc(); "{root}/crates.txt")?)),
        None => Ok(None),
    }
}

// The lines that a list of crates does not have.
fn missing_lines<'a>(
    rt: &HostRuntime,
    matches: &ArgMatches<'a>,
    files: &[PrintedFile],
    list: &str,
) -> Result<String, Failure<'a>> {
    let crate_name = crate_name_of(matches)?;
    let mut lines = String::new(rt.alloc());
    if !is_listed(list, crate_name) {
        write!(&mut lines, "{crate_name}: asn1_schema asn1_tags")?;
        for (words, library) in LIBRARIES {
            if files.iter().any(|file| has_words(file, words)) {
                push_library(&mut lines, library)?;
            }
        }
        if files.iter().any(is_definition) {
            push_library(&mut lines, CIRCLES)?;
        }
        push_externs(rt, &mut lines, matches)?;
        lines.push('\n')?;
    }
    let program = format!(in rt.alloc(); "{crate_name}_convert")?;
    if matches.get_flag("program") && !is_listed(list, program.as_str()) {
        writeln!(&mut lines, "{program}: asn1_convert {crate_name}")?;
    }
    let exports = format!(in rt.alloc(); "{crate_name}_c")?;
    if matches.get_flag("exports") && !is_listed(list, exports.as_str()) {
        writeln!(
            &mut lines,
            "{exports} staticlib: asn1_schema fan_calls fan_types {crate_name}"
        )?;
    }
    Ok(lines)
}

// Whether a file has these words.
fn has_words(file: &PrintedFile, words: &str) -> bool {
    file.text.as_str().contains(words)
}

// Whether a file has definitions: a crate has them for types that hold themselves.
fn is_definition(file: &PrintedFile) -> bool {
    file.path.as_str().starts_with("specs/")
}

// Appends the crates of types that exist already, each once.
fn push_externs<'a>(
    rt: &HostRuntime,
    line: &mut String,
    matches: &ArgMatches<'a>,
) -> Result<(), Failure<'a>> {
    for external in &externs_of(rt.alloc(), matches)? {
        push_library(line, external.path)?;
    }
    for module in &extern_modules_of(rt.alloc(), matches)? {
        push_library(line, module.path)?;
    }
    Ok(())
}

// Appends the crate of a path, unless the line has it.
fn push_library(line: &mut String, path: &str) -> Result<(), AllocError> {
    let library = match path.split_once("::") {
        Some((library, _)) => library,
        None => path,
    };
    if !line.split(' ').any(|word| word == library) {
        write!(line, " {library}")?;
    }
    Ok(())
}

// Whether a list has a line for a crate.
fn is_listed(list: &str, crate_name: &str) -> bool {
    for line in list.lines() {
        if let Some((head, _)) = line.split_once(':')
            && head.split(' ').next() == Some(crate_name)
        {
            return true;
        }
    }
    false
}

// A list with further lines.
fn joined(rt: &HostRuntime, list: &str, lines: &str) -> Result<String, AllocError> {
    let separator = if list.is_empty() || list.ends_with('\n') {
        ""
    } else {
        "\n"
    };
    format!(in rt.alloc(); "{list}{separator}{lines}")
}
