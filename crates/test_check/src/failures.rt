//! Checks that fail on the way.
use crate::answers::append_report;
use crate::page::Page;
use crate::readers::Trickle;
use asn1_report::{CheckError, Outcome, check};
use std::alloc::Global;
use std::io::{self, Write};

/// Appends how much of the report is written where the next read fails: from each number of bytes on at which this changes.
pub(crate) fn append_failing_reads(
    alloc: Global,
    answers: &mut Vec<u8>,
    input: &[u8],
) -> io::Result<()> {
    let mut whole = Page::new(alloc)?;
    let mut reader = input;
    let answer = check(alloc, &mut reader, &mut whole);
    append_report(answers, &whole, answer)?;
    let mut last = None;
    for given in 0..=input.len() {
        let (page, answer) = read_in_part(alloc, input, given)?;
        let now = (page.bytes.len(), answer);
        if !whole.bytes.starts_with(&page.bytes) {
            writeln!(answers, "after {given} bytes another text")?;
        } else if last != Some(now) {
            let (length, outcome) = (page.bytes.len(), Outcome::of(answer));
            write!(answers, "after {given} bytes {length}, {outcome}")?;
        }
        last = Some(now);
    }
    Ok(())
}

/// What is written where the read after this many bytes fails, and the answer.
fn read_in_part(
    alloc: Global,
    input: &[u8],
    given: usize,
) -> io::Result<(Page, Result<bool, CheckError>)> {
    let mut page = Page::new(alloc)?;
    let answer = check(alloc, &mut Trickle::failing(input, given), &mut page);
    Ok((page, answer))
}

/// Appends the end of a check whose writer fails: from each number of bytes on at which this changes.
pub(crate) fn append_failing_writes(
    alloc: Global,
    answers: &mut Vec<u8>,
    input: &[u8],
    count: usize,
) -> io::Result<()> {
    let mut last = None;
    for fails_at in 0..=count {
        let mut page = Page::failing(alloc, fails_at, false)?;
        let mut reader = input;
        let answer = check(alloc, &mut reader, &mut page);
        if last != Some(answer) {
            let outcome = Outcome::of(answer);
            write!(answers, "after {fails_at} bytes {outcome}")?;
        }
        last = Some(answer);
    }
    Ok(())
}

/// Appends the report on an input that is read byte by byte. If memory runs out, that on the lines that ended before the last byte that
/// was read has to be written.
pub(crate) fn append_without_memory(
    alloc: Global,
    answers: &mut Vec<u8>,
    input: &[u8],
) -> io::Result<()> {
    let mut page = Page::new(alloc)?;
    let mut reader = Trickle::new(input, 1);
    let answer = check(alloc, &mut reader, &mut page);
    if answer == Err(CheckError::Memory) {
        let given = input.len().saturating_sub(reader.remaining());
        let (expected, _) = read_in_part(alloc, input, given.saturating_sub(1))?;
        let is_right = page.bytes == expected.bytes;
        writeln!(
            answers,
            "no memory after {given} bytes, as it has to be: {is_right}"
        )?;
        return Ok(());
    }
    append_report(answers, &page, answer)
}
