//! The scopes and groups that are open.

/// The kind of a scope or a group.
#[derive(Clone, Copy, PartialEq, Eq)]
pub(crate) enum ScopeKind {
    /// The components of a SEQUENCE or a SET.
    Components,
    /// The elements of a SEQUENCE OF or a SET OF.
    Elements,
    /// The chosen alternative of a CHOICE.
    Alternative,
    /// The value after an explicit tag.
    Tagged,
    /// The components of a group of additions, which are written as those around it.
    Group,
}

/// A scope or a group that is open.
#[derive(Clone, Copy)]
pub(crate) struct Scope {
    /// Its kind.
    pub(crate) kind: ScopeKind,
    /// The index of its first name among those of all scopes.
    pub(crate) names: usize,
    /// The index of the name of its next component among those of all scopes.
    pub(crate) next: usize,
}
