//! How the work of a program ends.
ghost use Rattle.asn1_convert.specs.Runs.{status_of};
ghost use Rattle.std.specs.Prelude.{◌≡◌, ◌≤◌};

use std::io::Eprint;

/// How the work of a program on an input ends.
#[derive(Drop)]
pub enum Outcome {
    /// All of it was done.
    Done,
    /// A value was not converted, or the input refused. The line tells where and why.
    Refused(String),
    /// No type has the name.
    NoType,
    /// The input is no pairs of hexadecimal digits, at this position, from 0.
    NoDigits(usize),
    /// The input was not read.
    NotRead,
    /// The output was not written.
    NotWritten,
    /// Memory ran out.
    NoMemory,
}

impl Outcome {
    /// The status with which a program ends.
    pub fn status(&self) -> u8
        ensures status { result ≡ status_of self.now }
        ensures within { result ≤ 2 }
    {
        match self {
            Outcome::Done => 0,
            Outcome::Refused(_) => 1,
            Outcome::NoType
            | Outcome::NoDigits(_)
            | Outcome::NotRead
            | Outcome::NotWritten
            | Outcome::NoMemory => 2,
        }
    }

    /// Tells on standard error why not all was done.
    pub(crate) fn print_reason<R: Eprint>(&self, rt: &R) {
        let _ = match self {
            Outcome::Done => Ok(()),
            Outcome::Refused(line) => eprint!(rt; "{line}"),
            Outcome::NoType => eprintln!(rt; "error: the program has no type of this name"),
            Outcome::NoDigits(position) => eprintln!(rt;
                "error: the input is no pairs of hexadecimal digits, at octet {position}"
            ),
            Outcome::NotRead => eprintln!(rt; "error: standard input was not read"),
            Outcome::NotWritten => eprintln!(rt; "error: standard output was not written"),
            Outcome::NoMemory => eprintln!(rt; "error: no memory"),
        };
    }
}
