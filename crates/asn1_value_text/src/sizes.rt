//! The sizes that constraints leave.

use asn1_bounds::Constraints;

/// How many units the strings of a type have, if all have as many.
pub(crate) fn only_length(constraints: &Constraints<'_>) -> Option<usize> {
    let size = constraints.size()?;
    if size.extensible.is_some() || constraints.extensible() {
        return None;
    }
    match size.constraint.bounded().start_and_end() {
        (Some(start), Some(end)) if start == end => Some(*start),
        _ => None,
    }
}
