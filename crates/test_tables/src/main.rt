//! Reads the parts of messages of `signals` by the tables of their object sets, by lines that it reads from standard input.
//!
//! A line is the name of a message, `Request` or `Answer`, and its octets in hexadecimal. Each part is read by the set of the message,
//! in DER, and written again under its own number; then the message is. The program writes the line, and behind an arrow the parts and
//! `same`, if the octets that were written are those that were read, or why something was refused. Behind ` ; ` comes the source of a
//! line. Lines that are empty or begin with `#` are written as they are. The stored run is the test: Erlang's compiler made the octets.
#![tactic(auto)]

mod answer;
mod message;

use crate::answer::Answer;
use crate::message::{read_answer, read_request};
use std::alloc::Global;
use std::io::{self, BufRead, BufReader};

fn main(rt: HostRuntime) -> io::Result<()> {
    let alloc = rt.alloc();
    for line in BufReader::new(alloc, rt.reader())?.lines(alloc) {
        let line = line?;
        let line = line.as_str();
        if line.is_empty() || line.starts_with('#') {
            println!(&rt; "{line}")?;
        } else {
            let answer = answer_to(alloc, line);
            println!(&rt; "{line} -> {answer}")?;
        }
    }
    Ok(())
}

// The answer to a line.
fn answer_to(alloc: Global, line: &str) -> Answer {
    let words = match line.split_once(" ; ") {
        Some((words, _source)) => words,
        None => line,
    };
    let Some((name, digits)) = words.split_once(' ') else {
        return Answer::NotUnderstood;
    };
    let Ok(octets) = hex::decode(alloc, digits) else {
        return Answer::NotUnderstood;
    };
    match name {
        "Request" => read_request(alloc, &octets),
        "Answer" => read_answer(alloc, &octets),
        _ => Answer::NotUnderstood,
    }
}
