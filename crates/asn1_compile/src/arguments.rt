//! The arguments of the program.
use crate::failure::Failure;
use asn1_compilation::{ExternModule, extern_module_of, extern_of, is_crate_name};
use asn1_print::Extern;
use clap::{Arg, ArgAction, ArgMatches, Command, Error};
use std::alloc::{AllocError, Global};

/// The use of the program, in its help.
const ABOUT: &str =
    "Compiles modules of ASN.1 to a crate of Rust types, which the check proves as it is.";

/// The statuses, in its help.
const STATUSES: &str =
    "Errors and warnings go to standard error, as FILE:LINE:COLUMN: TEXT. If there is an error, no file is written.\nThe status is 0 if there is no error, 1 if there is one, and 2 if the arguments are wrong, a file cannot be read or written, or memory runs out.";

/// The arguments that the program takes.
fn command<'a>(alloc: Global) -> Result<Command<'a>, AllocError> {
    let name = Arg::new(alloc, "CRATE")
        .required(true)
        .action(ArgAction::Set)
        .help("The name of the crate");
    let files = Arg::new(alloc, "FILE")
        .action(ArgAction::Append)
        .num_args(0..)
        .help("The files with the modules; standard input if there is none, or for -");
    let out = Arg::new(alloc, "out")
        .long("out")
        .action(ArgAction::Set)
        .value_name("DIR")
        .help("Write the files into this folder, in place of standard output");
    let externs = Arg::new(alloc, "extern")
        .long("extern")
        .action(ArgAction::Append)
        .value_name("NAME=PATH")
        .help(
            "A type that exists already, as Name=asn1_x509::Name; if several modules define it, as Module.Name=..",
        );
    let extern_modules = Arg::new(alloc, "extern-module")
        .long("extern-module")
        .action(ArgAction::Append)
        .value_name("MODULE=CRATE")
        .help("A module that was compiled to a crate already, as PKIX1Explicit88=certificates");
    let command = Command::new(alloc, "asn1_compile")
        .about(ABOUT)
        .after_help(STATUSES)
        .arg(out)?
        .arg(externs)?
        .arg(extern_modules)?;
    with_flags(alloc, command)?.arg(name)?.arg(files)
}

// A command with the arguments that are there or not.
fn with_flags<'a>(alloc: Global, command: Command<'a>) -> Result<Command<'a>, AllocError> {
    let program = flag(
        alloc,
        "program",
        "Write, beside the crate, the program CRATE_convert, which converts values of its types",
    );
    let exports = flag(
        alloc,
        "exports",
        "Write, beside the crate, the crate CRATE_c, which exports calls for its types to C, Rust and Python",
    );
    let check = flag(alloc, "check", "Write no file, only errors and warnings");
    command.arg(program)?.arg(exports)?.arg(check)
}

// An argument that is there or not.
fn flag<'a>(alloc: Global, name: &'a str, help: &'a str) -> Arg<'a> {
    Arg::new(alloc, name)
        .long(name)
        .action(ArgAction::SetTrue)
        .help(help)
}

/// The request in these words of a command line.
pub(crate) fn matches_of(alloc: Global, words: &[String]) -> Result<ArgMatches<'_>, Error> {
    command(alloc)?.try_get_matches_from(words)
}

/// The name of the crate.
pub(crate) fn crate_name_of<'a>(matches: &ArgMatches<'a>) -> Result<&'a str, Failure<'a>> {
    match matches.get_str("CRATE") {
        Some(name) if is_crate_name(name) => Ok(name),
        Some(name) => Err(Failure::CrateName(name)),
        None => Err(Failure::CrateName("")),
    }
}

/// The types that exist already.
pub(crate) fn externs_of<'a>(
    alloc: Global,
    matches: &ArgMatches<'a>,
) -> Result<Vec<Extern<'a>>, Failure<'a>> {
    let mut externs = Vec::new(alloc);
    if let Some(arguments) = matches.get_strs("extern") {
        for argument in arguments {
            match extern_of(argument) {
                Some(found) => externs.push(found)?,
                None => return Err(Failure::Extern(argument)),
            }
        }
    }
    Ok(externs)
}

/// The modules whose types exist already.
pub(crate) fn extern_modules_of<'a>(
    alloc: Global,
    matches: &ArgMatches<'a>,
) -> Result<Vec<ExternModule<'a>>, Failure<'a>> {
    let mut modules = Vec::new(alloc);
    if let Some(arguments) = matches.get_strs("extern-module") {
        for argument in arguments {
            match extern_module_of(argument) {
                Some(found) => modules.push(found)?,
                None => return Err(Failure::ExternModule(argument)),
            }
        }
    }
    Ok(modules)
}
