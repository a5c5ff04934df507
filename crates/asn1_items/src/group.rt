//! The groups of additions that are open.

/// A group of additions that is open.
#[derive(Clone, Copy, Drop)]
pub(crate) struct Group {
    /// The index at which its bytes begin.
    pub(crate) start: usize,
    /// If the list around it is that of a group too: whether there is a record in that list that is no presence mark.
    pub(crate) outer_has_records: bool,
}
