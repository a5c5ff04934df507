//! What is tried of a case.

/// The work of a case.
#[derive(Clone, Copy, Drop)]
pub(crate) enum Work {
    /// To check the text.
    Check,
    /// To check each line.
    Lines,
    /// To check the text behind a buffer.
    End,
    /// To check where no read succeeds.
    BrokenInput,
    /// To check where no write succeeds.
    BrokenOutput,
    /// To read this many bytes at a time.
    Pieces(usize),
    /// To read so, and to tell the flushes.
    Flushes(usize),
    /// To fail after each number of bytes read.
    FailingReads,
    /// To fail after each number of bytes written, up to this one.
    FailingWrites(usize),
    /// To fail when the report is flushed.
    FailingFlush,
    /// To fill the buffer, and to fail then.
    FullRead,
    /// To run out of memory.
    Memory,
    /// To tell the texts of errors.
    Texts,
}

impl Work {
    /// The work of a title, if it names one.
    pub(crate) fn of_title(title: &str) -> Option<Work> {
        let (words, _) = title.split_once(": ")?;
        match words {
            "check" => Some(Work::Check),
            "lines" => Some(Work::Lines),
            "end" => Some(Work::End),
            "broken input" => Some(Work::BrokenInput),
            "broken output" => Some(Work::BrokenOutput),
            "failing reads" => Some(Work::FailingReads),
            "failing flush" => Some(Work::FailingFlush),
            "full read" => Some(Work::FullRead),
            "memory" => Some(Work::Memory),
            "texts" => Some(Work::Texts),
            _ => Work::of_count(words),
        }
    }

    /// The work that has a number.
    fn of_count(words: &str) -> Option<Work> {
        let (name, digits) = words.rsplit_once(' ')?;
        let count = digits.parse::<usize>().ok()?;
        match name {
            "pieces" => Some(Work::Pieces(count)),
            "flushes" => Some(Work::Flushes(count)),
            "failing writes" => Some(Work::FailingWrites(count)),
            _ => None,
        }
    }
}
