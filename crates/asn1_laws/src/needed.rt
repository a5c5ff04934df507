//! How much input is missing.

/// How much input is missing, at least.
#[derive(Clone, Copy, Debug, Drop, PartialEq, Eq)]
pub enum Needed {
    /// It is not known.
    Unknown,
    /// This many bytes.
    Size(usize),
}
