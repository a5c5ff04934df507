//! The order of the elements inside a record.

/// The order of the elements inside a record that holds others.
#[derive(Clone, Copy, Debug, PartialEq, Eq)]
pub enum ContentOrder {
    /// An element, with what is inside in its order: a SEQUENCE, a SEQUENCE OF, and what is under an explicit tag.
    AsDefined,
    /// An element, with what is inside by its tags: a SET.
    ByTag,
    /// An element, with what is inside by its encodings: a SET OF.
    ByEncoding,
    /// No element of its own, but one element of the chosen tag: a CHOICE.
    Chosen,
}
