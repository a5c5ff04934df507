//! Compiles modules of ASN.1 to a crate of Rust types, for the check to prove.
//!
//! `asn1_compilation` does the work: its contract says that there are files if and only if no message is an error. The program
//! reads the arguments and the files, and writes the messages and the files. docs/COMPILER.md says what of X.680 is taken.
//!
//! | Argument | Effect |
//! |---|---|
//! | `CRATE` | the name of the crate |
//! | `FILE`.. | reads these files as one set of modules, or standard input for `-` or if there is none |
//! | `--out DIR` | writes the files into this folder; otherwise they go to standard output, each behind a line `=== PATH`. For a folder crates/NAME beside a file crates.txt, the lines of the crate, of its program and of its exports are added to that file, if they are not there |
//! | `--extern NAME=PATH` | a type that exists already, as `Name=asn1_x509::Name`, or with its module, `Module.Name=..` |
//! | `--extern-module MODULE=CRATE` | a module that was compiled already, as `PKIX1Explicit88=certificates` |
//! | `--program` | writes, beside the crate, the program CRATE_convert, which converts values of the types (docs/USING.md) |
//! | `--exports` | writes, beside the crate, the crate CRATE_c, which exports calls for the types to C, Rust and Python (docs/EMBEDDING.md) |
//! | `--check` | writes no file |
//! | `--help` | writes the usage |
//!
//! Errors and warnings go to standard error, one a line, as `FILE:LINE:COLUMN: TEXT`. If there is an error, no file is written.
//! The program ends with 0 if there is no error, with 1 if there is one, and with 2 if the arguments are wrong, a file cannot be
//! read or written, or memory runs out. The stored run compiles a module with every kind of type.
#![tactic(auto)]

ghost use Rattle.std.specs.Prelude.{◌≡◌};

mod arguments;
mod crate_list;
mod failure;
mod inputs;
mod outputs;

use arguments::{crate_name_of, extern_modules_of, externs_of, matches_of};
use asn1_compilation::{Compiled, Job, compile};
use clap::ArgMatches;
use crate_list::list_crates;
use failure::Failure;
use inputs::read_inputs;
use outputs::write_files;
use std::env;
use std::process::ExitCode;

/// The status of a run in which a module has an error.
const REFUSED: u8 = 1;

/// The status of a run that has failed.
const FAILED: u8 = 2;

fn main(rt: HostRuntime) -> ExitCode {
    let alloc = rt.alloc();
    let words: Vec<String> = match env::args(&rt).map(|words| words.collect(alloc)) {
        Ok(Ok(words)) => words,
        _ => {
            Failure::Memory.tell(&rt);
            return ExitCode::from(FAILED);
        }
    };
    let matches = match matches_of(alloc, words.as_slice()) {
        Ok(matches) => matches,
        Err(error) => {
            let _ = error.print(&rt);
            return ExitCode::from(error.exit_code() as u8);
        }
    };
    match run(&rt, &matches) {
        Ok(status) => ExitCode::from(status),
        Err(failure) => {
            failure.tell(&rt);
            ExitCode::from(FAILED)
        }
    }
}

// Compiles what the arguments ask for, and answers the status.
fn run<'a>(rt: &HostRuntime, matches: &ArgMatches<'a>) -> Result<u8, Failure<'a>> {
    let crate_name = crate_name_of(matches)?;
    let externs = externs_of(rt.alloc(), matches)?;
    let extern_modules = extern_modules_of(rt.alloc(), matches)?;
    let inputs = read_inputs(rt, matches)?;
    let job = Job {
        crate_name,
        inputs: inputs.as_slice(),
        externs: externs.as_slice(),
        extern_modules: extern_modules.as_slice(),
        has_program: matches.get_flag("program"),
        has_exports: matches.get_flag("exports"),
    };
    let compiled = compile(rt.alloc(), job)?;
    finish(rt, matches, &compiled)
}

// Writes what became of the texts, and answers the status.
fn finish<'a>(
    rt: &HostRuntime,
    matches: &ArgMatches<'a>,
    compiled: &Compiled,
) -> Result<u8, Failure<'a>>
    // The status is 1 if there are no files.
    ensures { compiled.now.files ≡ None → result ≡ Ok 1 }
{
    for message in &compiled.messages {
        let line = message.line.as_str();
        let _ = eprintln!(rt; "{line}");
    }
    let Some(files) = &compiled.files else {
        return Ok(REFUSED);
    };
    if matches.get_flag("check") {
        return Ok(0);
    }
    let folder = matches.get_str("out");
    write_files(rt, folder, files.as_slice())?;
    if let Some(folder) = folder {
        list_crates(rt, folder, matches, files.as_slice())?;
    }
    Ok(0)
}
