//! Reads values of types that hold themselves, those of `expressions` and `folders`, by lines that it reads from standard input.
//!
//! | Words | Work |
//! |---|---|
//! | `CODEC TYPE DEPTH OCTETS` | the codec `der` or `ber` reads a value of the octets, in at most DEPTH scopes, and DER writes it |
//! | `levels COUNT DEPTH` | BER reads a `Chain` of that many links, each in an element of indefinite length |
//!
//! OCTETS are in hexadecimal. After ` ; ` comes the source of a line. The program writes the line, and behind an arrow the octets,
//! or the number of links, or why the value was refused. Lines that are empty or begin with `#` are written as they are. The stored
//! run is the test: Erlang's compiler made the octets, and the answer is to be these.
#![tactic(auto)]

mod answer;
mod request;

use crate::answer::{Answer, answer_to};
use crate::request::Request;
use std::alloc::Global;
use std::io::{self, BufRead, BufReader};

fn main(rt: HostRuntime) -> io::Result<()> {
    let alloc = rt.alloc();
    for line in BufReader::new(alloc, rt.reader())?.lines(alloc) {
        let line = line?;
        let line = line.as_str();
        if line.is_empty() || line.starts_with('#') {
            println!(&rt; "{line}")?;
        } else {
            let answer = answer_of(alloc, line);
            println!(&rt; "{line} -> {answer}")?;
        }
    }
    Ok(())
}

/// The answer to a line.
fn answer_of(alloc: Global, line: &str) -> Answer {
    let words = match line.split_once(" ; ") {
        Some((words, _source)) => words,
        None => line,
    };
    match Request::of_words(alloc, words) {
        Some(request) => answer_to(alloc, &request),
        None => Answer::NotUnderstood,
    }
}
