//! The order of elements inside sets.
ghost use Rattle.asn1_der.specs.Ascending.{HasItsTag, IsAscending, precedes as is_before};
ghost use Rattle.asn1_der_items.specs.Series.{AreElements};
ghost use Rattle.std.specs.Prelude.{◌≡◌, Decides};

use asn1_der_items::{ContentOrder, find_element};
use asn1_tags::Tag;

/// The sort key of an element: its tag and its bytes.
#[derive(Clone, Copy)]
struct Key<'a> {
    tag: Tag,
    bytes: &'a [u8],
}

/// Whether the bytes are elements in ascending order: by their tags in a SET, and by their encodings in a SET OF.
pub(crate) fn is_ascending(contents: &[u8], order: ContentOrder) -> bool
    ensures { Decides result (AreElements (IsAscending order) contents.now) }
{
    let mut before = Key {
        tag: Tag::CHOICE,
        bytes: &[],
    };
    let mut left = contents;
    while !left.is_empty() {
        let Ok(element) = find_element(left) else {
            return false;
        };
        let own = Key {
            tag: element.tag,
            bytes: &left[..left.len() - element.rest.len()],
        };
        if precedes(own, before, order) {
            return false;
        }
        before = own;
        left = element.rest;
    }
    true
}

/// Whether an element is below the one before it.
fn precedes(own: Key<'_>, before: Key<'_>, order: ContentOrder) -> bool
    ensures { HasItsTag own.entry → HasItsTag before.entry →
        result ≡ is_before order own.entry.bytes.now before.entry.bytes.now }
{
    match order {
        ContentOrder::ByTag => own.tag.const_cmp(&before.tag).is_lt(),
        ContentOrder::ByEncoding => own.bytes.cmp(before.bytes).is_lt(),
        ContentOrder::AsDefined | ContentOrder::Chosen => false,
    }
}
