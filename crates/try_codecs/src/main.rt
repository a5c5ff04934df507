//! Tries codecs by damaged bytes, refused memory, cut streams and deep values, one request of standard input after another.
//!
//! `bench/run.py` runs the program: to measure how deep the machine's stack reaches, to damage bytes for as long as is wanted,
//! and to refuse each growth in turn.
//!
//! A request is a line `CODEC TYPE DEPTH ACTION WORD BYTES`. `BYTES` are those of a value, which the codec writes and reads with
//! at most `DEPTH` nested scopes:
//!
//! | Action and word | Work | Answer |
//! |---|---|---|
//! | `damage SEED` | the bytes are damaged, 300 times, and read; what is read is written and read again | `comes back` |
//! | `growths -` | the value is written and read: alone, canonically, in a list, in two pieces | `comes back`, or `no memory` |
//! | `pieces -` | two values come out of two pieces, wherever their bytes are cut | `comes back` |
//! | `begun -` | each beginning of the bytes is read | the number of beginnings that are too short, which all have to be |
//! | `changed -` | each byte is replaced by each byte; what is read has to be written as these bytes | places, with numbers |
//! | `recode -` | the bytes of the value are recoded to the tag form, and back | `comes back` |
//! | `nest LEVELS` | a value that holds itself is made, written, read and dropped | a line after each step |
//! | `long LENGTH` | an OCTET STRING of this length is written, whatever the type | its number of bytes, or the error |
//! | `drop LEVELS` | such a value is made and dropped | the same |
//! | `table -` | a list of tags is made with a table that does not fit, whatever the codec and the type | the error |
//!
//! The answer to `changed` has the places at which not one byte alone makes a value, each with the number of such bytes. If
//! `DEPTH` is too small to write the value of `nest`, it is written without a limit. `CODEC` and `TYPE` are as in `test_vectors`,
//! of the lists that `trial.rt` names; after `nest` and `drop` the type is `node`, `nested` or `open`. Lines that are empty or begin
//! with `#` are written as they are, and ` ; ` begins a comment.
//!
//! No contract covers the answers. The theorem of `round_trip` is that a valid value comes back, and each call is proved to panic
//! for nothing; the program asks both of what was built.
#![tactic(auto)]

mod bytes;
mod damage;
mod growths;
mod long;
mod nested;
mod recoded;
mod report;
mod source;
mod table;
mod trial;

use std::alloc::Global;
use std::io::{self, BufRead, BufReader};
use test_calls::Request;

fn main(rt: HostRuntime) -> io::Result<()> {
    let alloc = rt.alloc();
    for line in BufReader::new(alloc, rt.reader())?.lines(alloc) {
        print_answer(&rt, alloc, line?.as_str())?;
    }
    Ok(())
}

/// Prints a line, with the answer to it if it is a request.
fn print_answer(rt: &impl Print, alloc: Global, line: &str) -> io::Result<()> {
    if line.is_empty() || line.starts_with('#') {
        return println!(rt; "{line}");
    }
    let words = match line.split_once(" ; ") {
        Some((words, _)) => words,
        None => line,
    };
    match Request::of_words(alloc, words) {
        Some(request) => print_request(rt, alloc, line, &request),
        None => println!(rt; "not understood: {line}"),
    }
}

/// Prints the answer to a request, and then the line.
fn print_request(
    rt: &impl Print,
    alloc: Global,
    line: &str,
    request: &Request<'_>,
) -> io::Result<()> {
    if request.action == "nest" || request.action == "drop" {
        println!(rt; "{line}")?;
        return nested::run(rt, alloc, request);
    }
    if request.action == "long" {
        println!(rt; "{line}")?;
        return long::run(rt, alloc, request);
    }
    if request.action == "table" {
        println!(rt; "{line}")?;
        return table::run(rt, alloc);
    }
    match trial::answer_to(alloc, request) {
        Some(answer) => println!(rt; "{answer} <- {line}"),
        None => println!(rt; "not understood: {line}"),
    }
}
