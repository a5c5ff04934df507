//! The inputs of the program: files, and standard input.
use asn1_certificate_input::{Options, Outcome, run};
use std::fs::File;
use std::io;

/// What a run over some inputs came to.
#[derive(Clone, Copy)]
struct Progress {
    /// The greatest status so far.
    status: u8,
    /// Whether a certificate was written.
    has_output: bool,
}

impl From<&Outcome> for Progress {
    fn from(outcome: &Outcome) -> Progress {
        Progress {
            status: outcome.status,
            has_output: outcome.has_output,
        }
    }
}

/// Shows the certificates of standard input, and answers the status.
pub(crate) fn show_input(rt: &HostRuntime, options: Options) -> u8 {
    progress_of_input(rt, options).status
}

/// Shows the certificates of files, of standard input for `-`, and answers the greatest status.
pub(crate) fn show_files(rt: &HostRuntime, options: Options, names: &[&str]) -> u8 {
    let mut progress = Progress {
        status: 0,
        has_output: false,
    };
    for name in names {
        let own_options = Options {
            follows: progress.has_output,
            ..options
        };
        let own = if *name == "-" {
            progress_of_input(rt, own_options)
        } else {
            progress_of_file(rt, own_options, name)
        };
        progress = Progress {
            status: progress.status.max(own.status),
            has_output: progress.has_output || own.has_output,
        };
    }
    progress.status
}

/// Shows the certificates of standard input.
fn progress_of_input(rt: &HostRuntime, options: Options) -> Progress {
    let outcome = run(rt.alloc(), options, &mut rt.reader(), &mut io::writer(rt));
    outcome.print_messages(rt, None);
    Progress::from(&outcome)
}

/// Shows the certificates of a file.
fn progress_of_file(rt: &HostRuntime, options: Options, name: &str) -> Progress {
    let mut file = match File::open(rt, name) {
        Ok(file) => file,
        Err(error) => {
            let _ = eprintln!(rt; "{name}: error: {error}");
            return Progress {
                status: 2,
                has_output: false,
            };
        }
    };
    let outcome = run(rt.alloc(), options, &mut file, &mut io::writer(rt));
    outcome.print_messages(rt, Some(name));
    Progress::from(&outcome)
}
