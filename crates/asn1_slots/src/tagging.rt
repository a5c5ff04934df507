//! How the type of a component is tagged.
use asn1_tags::Tag;

/// How the type of a component is tagged (X.680, 31).
#[derive(Drop)]
pub enum Tagging {
    /// The type's own tag.
    Untagged,
    /// This tag in the place of the type's own; before it, for a CHOICE.
    Tagged(Tag),
    /// This tag before the type's own.
    Explicit(Tag),
}
