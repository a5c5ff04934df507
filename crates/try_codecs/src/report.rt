//! The answers to requests.
use std::fmt;
use test_calls::Failure;

/// The result of a trial that does not fail.
#[derive(Drop)]
pub(crate) enum Report {
    /// Each value that was read comes back.
    ComesBack,
    /// This many beginnings are too short.
    TooShort(usize),
    /// How many bytes make a value at each place.
    Changed(Vec<usize>),
}

/// The answer to a request.
#[derive(Drop)]
pub(crate) struct Answer(pub(crate) Result<Report, Failure>);

impl fmt::Display for Answer {
    fn fmt<W: fmt::Write>(&self, f: &mut fmt::Formatter<W>) -> fmt::Result {
        match &self.0 {
            Ok(Report::ComesBack) => write!(f, "comes back"),
            Ok(Report::TooShort(count)) => write!(f, "{count} beginnings are too short"),
            Ok(Report::Changed(counts)) => write_counts(f, counts),
            Err(Failure::Memory) => write!(f, "no memory"),
            Err(failure) => write!(f, "{failure:?}"),
        }
    }
}

/// Writes the places of which not one byte alone makes a value, and how many do.
fn write_counts<W: fmt::Write>(f: &mut fmt::Formatter<W>, counts: &[usize]) -> fmt::Result {
    write!(f, "values at")?;
    for (position, count) in counts.iter().enumerate() {
        if *count != 1 {
            write!(f, " {position}: {count}")?;
        }
    }
    Ok(())
}
