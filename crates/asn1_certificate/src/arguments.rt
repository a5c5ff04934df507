//! The arguments of the program.
use asn1_certificate_input::{Options, OutputFormat};
use clap::{Arg, ArgAction, ArgMatches, Command, Error};
use std::alloc::{AllocError, Global};

/// What the program is for, in its help.
const ABOUT: &str =
    "Shows X.509 certificates, in DER or PEM, and tells where they depart from DER.";

/// The statuses, in its help.
const STATUSES: &str =
    "A certificate that departs from DER is shown, and a warning on standard error names the rule and the byte.\nA warning also names a PrintableString with characters outside its alphabet, which --strict does not refuse.\nThe status is 0 if each certificate was shown, 1 if one was refused, and 2 after another error.";

/// The arguments that the program takes.
fn command<'a>(alloc: Global) -> Result<Command<'a>, AllocError> {
    let der = Arg::new(alloc, "der")
        .long("der")
        .action(ArgAction::SetTrue)
        .help("Write the DER of the certificates, in place of reports");
    let strict = Arg::new(alloc, "strict")
        .long("strict")
        .action(ArgAction::SetTrue)
        .help("Refuse a certificate that departs from DER");
    let files = Arg::new(alloc, "FILE")
        .action(ArgAction::Append)
        .num_args(0..)
        .help("The files to read; standard input if there is none, or for -");
    Command::new(alloc, "asn1_certificate")
        .about(ABOUT)
        .after_help(STATUSES)
        .arg(der)?
        .arg(strict)?
        .arg(files)
}

/// What these words of a command line ask for.
pub(crate) fn matches_of(alloc: Global, words: &[String]) -> Result<ArgMatches<'_>, Error> {
    command(alloc)?.try_get_matches_from(words)
}

/// The options that were given.
pub(crate) fn options_of(matches: &ArgMatches<'_>) -> Options {
    let format = if matches.get_flag("der") {
        OutputFormat::Der
    } else {
        OutputFormat::Report
    };
    Options {
        format,
        is_strict: matches.get_flag("strict"),
        follows: false,
    }
}
