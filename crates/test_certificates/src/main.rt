//! Asks of certificates, of rules of DER and of texts, by lines that it reads from standard input, and writes the answers to standard
//! output.
//!
//! A line is a question, and after ` ; ` the source of its answer:
//!
//! | Words | Question | Answer |
//! |---|---|---|
//! | `file NAME BYTES` | the run of `asn1_certificate` over an input, with no option, with `--strict` and with `--der` | for each the status and the messages |
//! | `input BYTES` | the run over an input with no option | the status and the messages |
//! | `line WORD BYTES` | the report of a certificate | its first line that has this word |
//! | `rule PART BYTES` | a rule of DER that the bytes break, where the notation of a certificate has this part | the byte and the rule, or the byte at which elements lie inside more than eight others |
//! | `pem TEXT` | the certificates of a text | for each its octets, or why it has none |
//! | `escaped TEXT` | the value of an attribute | its text in a name |
//! | `octets BYTES`, `address BYTES`, `usages BITS` | octets, an IP address, the bits of a key usage | their text |
//! | `size BYTES` | the octets of a number | how many bits the number has |
//! | `utc TEXT`, `generalized TEXT` | a UTCTime, a GeneralizedTime | its moment |
//! | `object ARCS`, `curve ARCS` | an object identifier | its name, and of a curve the size of a key in bits |
//!
//! `BYTES` are in hexadecimal, with spaces wherever they help. `TEXT` is in percent-encoding (RFC 3986, 2.1). `NAME` is of a file in
//! `examples`, and `PART` one of the names in `rules.rt`. Lines that are empty or begin with `#` are written as they are.
//!
//! The stored run is the test. Each answer was made of the standard that its line names; those about files are made by
//! `examples/departures/make.py`, with the bytes.
#![tactic(auto)]

mod inputs;
mod rules;
mod texts;
mod words;

use crate::inputs::{DER, REPORT, STRICT, line_of_report, status_and_messages};
use crate::rules::broken_rule_of;
use crate::words::{arcs_of, bits_of, bytes_of, text_of};
use asn1_certificate_input::Options;
use std::alloc::Global;
use std::io::{self, BufRead, BufReader};

fn main(rt: HostRuntime) -> io::Result<()> {
    let alloc = rt.alloc();
    for line in BufReader::new(alloc, rt.reader())?.lines(alloc) {
        print_line(&rt, alloc, line?.as_str())?;
    }
    Ok(())
}

/// Prints a line, with its answer if it is a question.
fn print_line(rt: &impl Print, alloc: Global, line: &str) -> io::Result<()> {
    if line.is_empty() || line.starts_with('#') {
        return println!(rt; "{line}");
    }
    let (words, source) = match line.split_once(" ; ") {
        Some(parts) => parts,
        None => (line, ""),
    };
    let (question, subject) = match words.split_once(' ') {
        Some(parts) => parts,
        None => (words, ""),
    };
    if question == "file" {
        return print_file(rt, alloc, subject, source);
    }
    match answer_to(alloc, question, subject) {
        Some(answer) => println!(rt; "{words} -> {answer} ; {source}"),
        None => println!(rt; "{words} -> not understood"),
    }
}

/// Prints the name of a file, and the answers about it.
fn print_file(rt: &impl Print, alloc: Global, file: &str, source: &str) -> io::Result<()> {
    let (name, digits) = match file.split_once(' ') {
        Some(parts) => parts,
        None => (file, ""),
    };
    println!(rt; "file {name} ; {source}")?;
    print_run(rt, alloc, "no option", REPORT, digits)?;
    print_run(rt, alloc, "--strict", STRICT, digits)?;
    print_run(rt, alloc, "--der", DER, digits)
}

/// Prints the status and the messages of a run.
fn print_run(
    rt: &impl Print,
    alloc: Global,
    name: &str,
    options: Options,
    digits: &str,
) -> io::Result<()> {
    match bytes_of(alloc, digits) {
        Some(bytes) => match status_and_messages(alloc, options, &bytes) {
            Some(answer) => println!(rt; "    {name} -> {answer}"),
            None => println!(rt; "    {name} -> no memory"),
        },
        None => println!(rt; "    {name} -> not understood"),
    }
}

/// The answer to a question, if its words are some that the table above lists, and there is memory.
fn answer_to(alloc: Global, question: &str, subject: &str) -> Option<String> {
    match question {
        "input" => status_and_messages(alloc, REPORT, &bytes_of(alloc, subject)?),
        "line" => {
            let (word, digits) = subject.split_once(' ')?;
            line_of_report(alloc, word, &bytes_of(alloc, digits)?)
        }
        "rule" => {
            let (part, digits) = subject.split_once(' ')?;
            broken_rule_of(alloc, part, &bytes_of(alloc, digits)?)
        }
        "octets" => texts::octets(alloc, &bytes_of(alloc, subject)?),
        "address" => texts::address(alloc, &bytes_of(alloc, subject)?),
        "size" => texts::size(alloc, &bytes_of(alloc, subject)?),
        "usages" => texts::usages(alloc, &bits_of(alloc, subject)?),
        "object" => texts::object(alloc, &arcs_of(alloc, subject)?),
        "curve" => texts::curve(alloc, &arcs_of(alloc, subject)?),
        _ => answer_to_text(alloc, question, text_of(alloc, subject)?.as_str()),
    }
}

/// The answer to a question on a text.
fn answer_to_text(alloc: Global, question: &str, text: &str) -> Option<String> {
    match question {
        "pem" => texts::certificates(alloc, text.as_bytes()),
        "escaped" => texts::escaped(alloc, text),
        "utc" => texts::utc_time(alloc, text.as_bytes()),
        "generalized" => texts::generalized_time(alloc, text.as_bytes()),
        _ => None,
    }
}
