//! The positions of elements that are inside others.
ghost use Rattle.std.specs.Prelude.{◌≡◌, MatchOption, None, Some};
ghost use Rattle.asn1_der_items.specs.Paths.{after_elements, position_at_path};

use crate::find_element;

/// The position, from 0, to which a path leads. A path has a number for each element that the wanted one is inside of, from the outermost
/// on: how many elements are before it there. There is no position where an element on the way is missing, or one before the wanted one;
/// whether an element begins at the position is not asked.
pub fn position_at_path(bytes: &[u8], path: &[usize]) -> Option<usize>
    ensures { result ≡ position_at_path bytes.now path.now }
{
    let [number, rest @ ..] = path else {
        return Some(0);
    };
    let Ok(element) = find_element(bytes) else {
        return None;
    };
    let Some(left) = after_elements(element.contents, *number) else {
        return None;
    };
    let Some(position) = position_at_path(left, rest) else {
        return None;
    };
    Some(bytes.len() - element.rest.len() - left.len() + position)
}

/// The bytes after this many elements, if there are as many.
fn after_elements(bytes: &[u8], number: usize) -> Option<&[u8]>
    ensures { MatchOption result (after_elements number bytes.now ≡ None)
        (λ left. after_elements number bytes.now ≡ Some left.now) }
{
    let mut left = bytes;
    let mut before = number;
    while before > 0 {
        let Ok(element) = find_element(left) else {
            return None;
        };
        left = element.rest;
        before -= 1;
    }
    Some(left)
}
