//! The arguments of a program that converts.

use crate::form::{CodecForm, OutputForm};
use crate::task::Action;
use clap::{Arg, ArgAction, ArgMatches, Command, Error};
use std::alloc::{AllocError, Global};

const ABOUT: &str =
    "Converts values of a type from one form to another, from standard input to standard output.";

const CHECK_HELP: &str =
    "Tell whether the input is the DER of a value of TYPE, and if not where, and which section of X.690 is broken there. Where the type has them so, these pass: the forms of a time, a component with its DEFAULT value as an option, and escape sequences";

/// The arguments that a program of this name takes.
fn command<'a>(alloc: Global, program: &'a str, types: &'a str) -> Result<Command<'a>, AllocError> {
    let check = Arg::new(alloc, "check")
        .long("check")
        .action(ArgAction::SetTrue)
        .help(CHECK_HELP);
    let hex = Arg::new(alloc, "hex")
        .long("hex")
        .action(ArgAction::SetTrue)
        .help("Read hexadecimal digits, with white space anywhere");
    let name = Arg::new(alloc, "TYPE")
        .required(true)
        .action(ArgAction::Set)
        .help("The type of the values");
    let from = Arg::new(alloc, "FROM")
        .action(ArgAction::Set)
        .help("The form of the input: der, ber or packed");
    let to = Arg::new(alloc, "TO")
        .action(ArgAction::Set)
        .help("The form of the output: der, ber, packed, text or json");
    Command::new(alloc, program)
        .about(ABOUT)
        .after_help(types)
        .arg(check)?
        .arg(hex)?
        .arg(name)?
        .arg(from)?
        .arg(to)
}

/// The arguments that these words of a command line give.
pub(crate) fn matches_of<'a>(
    alloc: Global,
    program: &'a str,
    types: &'a str,
    words: &'a [String],
) -> Result<ArgMatches<'a>, Error> {
    command(alloc, program, types)?.try_get_matches_from(words)
}

/// The action that the arguments ask for, if they are complete.
pub(crate) fn action_of(matches: &ArgMatches<'_>) -> Option<Action> {
    let from = matches.get_str("FROM");
    let to = matches.get_str("TO");
    if matches.get_flag("check") {
        return if from.is_none() {
            Some(Action::Check)
        } else {
            None
        };
    }
    let from = CodecForm::from_word(from?)?;
    let to = OutputForm::from_word(to?)?;
    Some(Action::Convert { from, to })
}
