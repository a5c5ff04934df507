//! Inputs of one line.
use crate::expansion::expanded;
use crate::page::Page;
use asn1_report::{Outcome, check};
use std::alloc::Global;
use std::io::{self, Write};

/// Appends each line, and the answer to it as an input. A line feed at its end has to change nothing.
pub(crate) fn append_lines(alloc: Global, answers: &mut Vec<u8>, lines: &str) -> io::Result<()> {
    for line in lines.split('\n') {
        let mut input = expanded(alloc, line)?;
        let answer = answer_to(alloc, &input)?;
        input.push(b'\n')?;
        if answer_to(alloc, &input)? != answer {
            writeln!(answers, "otherwise with a line feed:")?;
        }
        write!(answers, "{line} -> ")?;
        answers.extend_from_slice(&answer)?;
        answers.push(b'\n')?;
    }
    Ok(())
}

/// The status after the check of an input, and the report.
fn answer_to(alloc: Global, input: &[u8]) -> io::Result<Vec<u8>> {
    let mut page = Page::new(alloc)?;
    let mut reader = input;
    let outcome = Outcome::of(check(alloc, &mut reader, &mut page));
    let mut answer = Vec::new(alloc);
    write!(answer, "{}", outcome.status)?;
    if let [text @ .., b'\n'] = page.bytes.as_slice() {
        answer.push(b' ')?;
        answer.extend_from_slice(text)?;
    }
    Ok(answer)
}
