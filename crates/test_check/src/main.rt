//! Checks schema tables by cases, which it reads from standard input, and writes what each check wrote and answered.
//!
//! A case begins after a line `# WORK: title`. Its text ends before the line feed that is in front of the next such line.
//!
//! | `WORK` | What is tried | Answer |
//! |---|---|---|
//! | `check` | the text is an input | the report, and the end |
//! | `lines` | each line is an input, without a line feed and with one | the line, then the status and the report |
//! | `end` | the text is an input, and a buffer is in front of the writer | the end |
//! | `broken input`, `broken output` | the same, and the first read or write fails | the end |
//! | `pieces COUNT` | a read gives this many bytes at most, after one that is interrupted | the report, and the end |
//! | `flushes COUNT` | the same | the end, and the lengths of the report at each flush |
//! | `failing reads` | the read after each number of bytes fails | how much of the report is then written, and the end |
//! | `failing writes COUNT` | writes fail after each number of bytes up to this one | the end |
//! | `failing flush` | a flush fails | the end |
//! | `full read` | a read gives the text and line feeds to fill the buffer, and the next one fails | the report, and the flushes |
//! | `memory` | reads give a byte each, and memory may run out | the report; without memory, whether what is written is right |
//! | `texts` | nothing | the end after each error |
//!
//! An end is a status, and the text of the error: that of `Outcome` of `asn1_report`. In a text, `<13>` is the byte 13, and
//! `<3*a#>` is `a0a1a2`. Another line that begins with `# ` is a comment.
//!
//! The stored run is the test: cases and answers were written by hand, from the page of `asn1_report` and X.680.
#![tactic(auto)]

mod answers;
mod cases;
mod expansion;
mod failures;
mod lines;
mod page;
mod readers;

use answers::append_answer;
use std::alloc::Global;
use std::io::{self, Write};

fn main(rt: HostRuntime) -> io::Result<()> {
    let alloc = rt.alloc();
    let input = io::read_to_string(alloc, rt.reader())?;
    let mut answers = Vec::new(alloc);
    for case in cases_of(input.as_str()).split("\n# ") {
        append_case(alloc, &mut answers, case)?;
    }
    io::writer(&rt).write_all(&answers)
}

/// The cases of an input, without the sign of the first and the line feed after the last.
fn cases_of(input: &str) -> &str {
    let cases = input.strip_prefix("# ").unwrap_or(input);
    cases.strip_suffix('\n').unwrap_or(cases)
}

/// Appends the title of a case, and its answer.
fn append_case(alloc: Global, answers: &mut Vec<u8>, case: &str) -> io::Result<()> {
    let (title, text) = match case.split_once('\n') {
        Some(parts) => parts,
        None => (case, ""),
    };
    writeln!(answers, "# {title}")?;
    append_answer(alloc, answers, title, text)
}
