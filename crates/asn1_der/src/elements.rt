//! Whether bytes are one element at most, and the bytes from an index on.
ghost use Rattle.asn1_der_items.specs.Series.{IsElementOf, is_one_element};
ghost use Rattle.std.specs.Prelude.{◌≡◌, ◌↔◌, ◌⊎◌, ◌++◌, [], IsSomeAnd, IsTrue, List, length, ℕ};

use asn1_der_items::{find_element, is_one_element};
use asn1_tags::Tag;

/// The bytes from an index on, if there are as many before it.
pub(crate) fn bytes_from(bytes: &[u8], start: usize) -> Option<&[u8]>
    ensures { (before inside : List ℕ) → bytes.now ≡ before ++ inside → start ≡ length before →
        IsSomeAnd result (λ part. part.now ≡ inside) }
{
    let Some((_, inside)) = bytes.split_at_checked(start) else {
        return None;
    };
    Some(inside)
}

/// Whether there are no bytes, or they are one element.
pub(crate) fn is_at_most_one(bytes: &[u8]) -> bool
    ensures { IsTrue result → (bytes.now ≡ []) ⊎ IsTrue (is_one_element bytes.now) }
{
    bytes.is_empty() || is_one_element(bytes)
}

/// Whether the bytes are one element of this tag.
pub(crate) fn is_element_of(bytes: &[u8], tag: Tag) -> bool
    ensures { IsTrue result ↔ IsElementOf tag bytes.now }
{
    match find_element(bytes) {
        Ok(element) => element.rest.is_empty() && element.tag == tag,
        Err(_) => false,
    }
}
