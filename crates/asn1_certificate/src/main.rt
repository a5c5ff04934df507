//! Shows certificates: reads their DER, or texts with them in base64, from files or standard input, and writes a report of each to
//! standard output.
//!
//! It writes the texts of reports (`report_text` of `asn1_certificate_text`), which are the reports of the certificates
//! (`report_of` of `asn1_certificate_reader`), in the order of the inputs and with an empty line between two. A certificate
//! that departs from DER is shown, and a warning on standard error names a rule of X.690 and the position of the byte. Another names a
//! PrintableString in its issuer or its subject with characters outside its alphabet, which is no departure.
//!
//! | Argument | Effect |
//! |---|---|
//! | `FILE`.. | reads these files, or standard input for `-` or if there is none |
//! | `--strict` | refuses a certificate that departs from DER |
//! | `--der` | writes the DER of a certificate instead of a report: the octets that were read, or nothing, with the rule and the byte, if writing the certificate makes others |
//! | `--help` | writes the usage |
//!
//! The program ends with 0 if each certificate was shown, with 1 if an input or a certificate was refused, and with 2 if the arguments
//! are none of these, a file was not read, memory ran out, or reading or writing failed; the reasons are on standard error. The
//! contract of `run` of `asn1_certificate_input` covers the output and the messages of one input, and the statuses 0 and 1. The stored
//! run shows the certificates of standard input and of a PEM with `--strict`, and refuses one that departs from DER, so its status is
//! 1.
#![tactic(auto)]

mod arguments;
mod sources;

use std::env;
use std::process::ExitCode;

fn main(rt: HostRuntime) -> ExitCode {
    let alloc = rt.alloc();
    let words: Vec<String> = match env::args(&rt).map(|words| words.collect(alloc)) {
        Ok(Ok(words)) => words,
        _ => {
            let _ = eprintln!(&rt; "error: the arguments were not read");
            return ExitCode::from(2);
        }
    };
    let matches = match arguments::matches_of(alloc, words.as_slice()) {
        Ok(matches) => matches,
        Err(error) => {
            let _ = error.print(&rt);
            return ExitCode::from(error.exit_code() as u8);
        }
    };
    let options = arguments::options_of(&matches);
    let status = match matches.get_strs("FILE") {
        Some(names) if !names.is_empty() => sources::show_files(&rt, options, names),
        _ => sources::show_input(&rt, options),
    };
    ExitCode::from(status)
}
