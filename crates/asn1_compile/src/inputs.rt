//! The texts of a run.
use crate::failure::Failure;
use asn1_compilation::Input;
use clap::ArgMatches;
use std::alloc::{AllocError, Global};
use std::fs::File;
use std::io::{self, Read};

/// Reads the files that the arguments name, and standard input for `-` or if they name none.
pub(crate) fn read_inputs<'a>(
    rt: &HostRuntime,
    matches: &ArgMatches<'a>,
) -> Result<Vec<Input>, Failure<'a>> {
    let mut inputs = Vec::new(rt.alloc());
    match matches.get_strs("FILE") {
        Some(names) if !names.is_empty() => {
            for name in names {
                push_input(rt, &mut inputs, name)?;
            }
        }
        _ => push_input(rt, &mut inputs, "-")?,
    }
    Ok(inputs)
}

// Reads a file, and appends it.
fn push_input<'a>(
    rt: &HostRuntime,
    inputs: &mut Vec<Input>,
    name: &'a str,
) -> Result<(), Failure<'a>> {
    match read_input(rt, name) {
        Ok(input) => {
            inputs.push(input)?;
            Ok(())
        }
        Err(error) => Err(Failure::Input(name, error)),
    }
}

// Reads a file, or standard input for `-`.
fn read_input(rt: &HostRuntime, name: &str) -> io::Result<Input> {
    let mut text = Vec::new(rt.alloc());
    if name == "-" {
        let _count = rt.reader().read_to_end(&mut text)?;
    } else {
        let mut file = File::open(rt, name)?;
        let _count = file.read_to_end(&mut text)?;
    }
    Ok(Input {
        name: String::from_str(rt.alloc(), name)?,
        text: without_mark(rt.alloc(), text)?,
    })
}

// A text without the byte order mark of UTF-8 at its start.
fn without_mark(alloc: Global, text: Vec<u8>) -> Result<Vec<u8>, AllocError> {
    match text.as_slice() {
        [0xEF, 0xBB, 0xBF, rest @ ..] => Vec::from_slice(alloc, rest),
        _ => Ok(text),
    }
}
