//! The scopes that are open.
use asn1_der_items::ContentOrder;
use asn1_tags::Tag;

/// A scope that is open.
#[derive(Clone, Copy, Drop)]
pub(crate) struct Frame {
    /// The index at which the bytes inside begin.
    pub(crate) start: usize,
    /// Its tag; of a CHOICE that of the alternative.
    pub(crate) tag: Tag,
    /// The order of its contents.
    pub(crate) content_order: ContentOrder,
}
