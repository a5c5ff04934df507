//! The answers to cases.
use crate::cases::Work;
use crate::expansion::expanded;
use crate::failures::{append_failing_reads, append_failing_writes, append_without_memory};
use crate::lines::append_lines;
use crate::page::Page;
use crate::readers::{Full, Trickle};
use asn1_report::{CheckError, Outcome, check, checked};
use std::alloc::Global;
use std::io::{self, Read, Write};

/// Appends the answer to a case, or a comment as it is.
pub(crate) fn append_answer(
    alloc: Global,
    answers: &mut Vec<u8>,
    title: &str,
    text: &str,
) -> io::Result<()> {
    match Work::of_title(title) {
        Some(Work::Lines) => append_lines(alloc, answers, text),
        Some(work) => append_work(alloc, answers, work, &expanded(alloc, text)?),
        None => Ok(answers.extend_from_slice(text.as_bytes())?),
    }
}

/// Appends the answer to an input.
fn append_work(alloc: Global, answers: &mut Vec<u8>, work: Work, input: &[u8]) -> io::Result<()> {
    match work {
        Work::Check | Work::Lines => append_check(alloc, answers, input),
        Work::End => append_buffered(alloc, answers, input, Page::new(alloc)?),
        Work::BrokenInput => append_buffered(
            alloc,
            answers,
            Trickle::failing(input, 0),
            Page::new(alloc)?,
        ),
        Work::BrokenOutput => {
            append_buffered(alloc, answers, input, Page::failing(alloc, 0, false)?)
        }
        Work::Pieces(count) => append_check(alloc, answers, Trickle::new(input, count)),
        Work::Flushes(count) => append_flushes(alloc, answers, Trickle::new(input, count)),
        Work::FailingReads => append_failing_reads(alloc, answers, input),
        Work::FailingWrites(count) => append_failing_writes(alloc, answers, input, count),
        Work::FailingFlush => append_failing_flush(alloc, answers, input),
        Work::FullRead => append_flushes(alloc, answers, Full::new(input)),
        Work::Memory => append_without_memory(alloc, answers, input),
        Work::Texts => append_texts(answers),
    }
}

/// Appends the report on an input, and the end of the check.
fn append_check<R: Read + Drop>(
    alloc: Global,
    answers: &mut Vec<u8>,
    mut reader: R,
) -> io::Result<()> {
    let mut page = Page::new(alloc)?;
    let answer = check(alloc, &mut reader, &mut page);
    append_report(answers, &page, answer)
}

/// Appends what is written, and the end of the check.
pub(crate) fn append_report(
    answers: &mut Vec<u8>,
    page: &Page,
    answer: Result<bool, CheckError>,
) -> io::Result<()> {
    answers.extend_from_slice(&page.bytes)?;
    append_end(answers, Outcome::of(answer))
}

/// Appends the end of a check behind a buffer.
fn append_buffered<R: Read + Drop>(
    alloc: Global,
    answers: &mut Vec<u8>,
    mut reader: R,
    page: Page,
) -> io::Result<()> {
    append_end(answers, checked(alloc, &mut reader, page))
}

/// Appends the report on an input, the end of the check, and how much was written at each flush.
fn append_flushes<R: Read + Drop>(
    alloc: Global,
    answers: &mut Vec<u8>,
    mut reader: R,
) -> io::Result<()> {
    let mut page = Page::new(alloc)?;
    let answer = check(alloc, &mut reader, &mut page);
    append_report(answers, &page, answer)?;
    for length in &page.flushes {
        writeln!(answers, "flushed after {length} bytes")?;
    }
    Ok(())
}

/// Appends the end of a check whose report is not flushed.
fn append_failing_flush(alloc: Global, answers: &mut Vec<u8>, input: &[u8]) -> io::Result<()> {
    let mut page = Page::failing(alloc, usize::MAX, true)?;
    let mut reader = input;
    append_end(answers, Outcome::of(check(alloc, &mut reader, &mut page)))
}

/// Appends the end after each error.
fn append_texts(answers: &mut Vec<u8>) -> io::Result<()> {
    for error in [CheckError::Reading, CheckError::Writing, CheckError::Memory] {
        append_end(answers, Outcome::of(Err(error)))?;
    }
    Ok(())
}

/// Appends the end of a check.
fn append_end(answers: &mut Vec<u8>, outcome: Outcome) -> io::Result<()> {
    writeln!(answers, "status {}", outcome.status)?;
    write!(answers, "{outcome}")
}
