//! On which side of an extension marker a component is.

/// The part of its definition that has a component: the root, or the additions after the extension marker (X.680, 25.1).
#[derive(Clone, Copy, Debug, PartialEq, Eq)]
pub enum Side {
    /// In the root.
    Root,
    /// Among the additions.
    Additions,
}
