//! The arguments of the program.
use clap::{Arg, ArgMatches, Command, Error};
use std::alloc::{AllocError, Global};

/// What the program is for, in its help.
const ABOUT: &str = "Shows LDAP messages, in BER and one after another, as lines.";

/// The statuses, in its help.
const STATUSES: &str =
    "The status is 0 if each message was understood, 1 if one was not, or the input has something else or ends inside a message, and 2 after another error.";

/// The arguments that the program takes.
fn command<'a>(alloc: Global) -> Result<Command<'a>, AllocError> {
    let file = Arg::new(alloc, "FILE").help(
        "The file to read; standard input if there is none, or for -",
    );
    Command::new(alloc, "asn1_ldap_show")
        .about(ABOUT)
        .after_help(STATUSES)
        .arg(file)
}

/// What these words of a command line ask for.
pub(crate) fn matches_of(alloc: Global, words: &[String]) -> Result<ArgMatches<'_>, Error> {
    command(alloc)?.try_get_matches_from(words)
}
