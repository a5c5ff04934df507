//! Shows LDAP messages (RFC 4511): reads the messages that a client and a server sent one another from a file or standard input, in
//! whatever pieces they come, and writes each to standard output as soon as it is whole, as lines for a person (`show_messages` of
//! `asn1_ldap_stream`, whose contract covers what is written).
//!
//! A message that is not understood has a line that says so and why, and the messages behind it are shown. Any other element, octets
//! that begin no element, and the end of the input inside an element end the display: a line on standard error tells which of these,
//! and the byte of the stream at which it begins, from 0. All that came before it is shown.
//!
//! | Argument | Effect |
//! |---|---|
//! | `FILE` | reads this file, or standard input for `-` or if there is none |
//! | `--help` | writes the usage |
//!
//! The program ends with 0 if the whole input was shown, and each message understood; with 1 after a message that was not, and if the
//! display ended before the input did; and with 2 if the arguments are none of these, the file was not opened, memory ran out, or
//! reading or writing failed. The stored run is three conversations of examples/ldap, and messages of each operation that are not
//! understood, among others that are, so its status is 1.
#![tactic(auto)]

mod arguments;

use asn1_ldap_stream::show_messages;
use std::fs::File;
use std::io::Read;
use std::process::ExitCode;
use std::{env, io};

fn main(rt: HostRuntime) -> ExitCode {
    let alloc = rt.alloc();
    let words: Vec<String> = match env::args(&rt).map(|words| words.collect(alloc)) {
        Ok(Ok(words)) => words,
        _ => {
            let _ = eprintln!(&rt; "error: the arguments were not read");
            return ExitCode::from(2);
        }
    };
    let matches = match arguments::matches_of(alloc, words.as_slice()) {
        Ok(matches) => matches,
        Err(error) => {
            let _ = error.print(&rt);
            return ExitCode::from(error.exit_code() as u8);
        }
    };
    match matches.get_str("FILE") {
        Some(name) if name != "-" => show_file(&rt, name),
        _ => show_input(&rt, &mut rt.reader()),
    }
}

/// Shows the messages of a file.
fn show_file(rt: &HostRuntime, name: &str) -> ExitCode {
    match File::open(rt, name) {
        Ok(mut file) => show_input(rt, &mut file),
        Err(error) => {
            let _ = eprintln!(rt; "{name}: error: {error}");
            ExitCode::from(2)
        }
    }
}

/// Shows the messages of an input.
fn show_input<R: Read>(rt: &HostRuntime, reader: &mut R) -> ExitCode {
    match show_messages(rt.alloc(), reader, &mut io::writer(rt)) {
        Ok(true) => ExitCode::SUCCESS,
        Ok(false) => ExitCode::from(1),
        Err(failure) => {
            let _ = eprintln!(rt; "{failure}");
            ExitCode::from(failure.status())
        }
    }
}
