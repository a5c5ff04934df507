//! The cases of all calls.
use crate::call_rules::CallRules;
use crate::calls::additions::{additions_come_back, additions_with_defaults_come_back};
use crate::calls::choices::choices_come_back_under_a_tag;
use crate::calls::defaults::{a_default_without_memory_is_an_error, defaults_come_back};
use crate::calls::entry_points::comes_back_by_entry_points;
use crate::calls::explicit_tags::explicit_tags_come_back;
use crate::calls::options::options_come_back;
use crate::calls::own_errors::own_errors_are_answered_as_they_are;
use crate::failure::Failure;
use crate::made::{letters, text};
use asn1_samples::Plate;
use std::alloc::Global;

/// Whether each call reads what was written for it, and the errors of types and of defaults are answered as they are.
///
/// # Errors
/// The reason why one did not.
pub fn each_call_comes_back<R: CallRules>(rules: &R, alloc: Global) -> Result<(), Failure> {
    entry_points_come_back(rules, alloc)
        .and(components_come_back(rules, alloc))
        .and(additions_come_back(rules))
        .and(additions_with_defaults_come_back(rules))
        .and(choices_come_back_under_a_tag(rules))
        .and(own_errors_are_answered_as_they_are(rules))
}

/// The entry points of a text, and of a type whose own constraints take memory.
fn entry_points_come_back<R: CallRules>(rules: &R, alloc: Global) -> Result<(), Failure> {
    let text = text(alloc, "7")?;
    let plate = Plate(letters(alloc, b"AB")?);
    comes_back_by_entry_points(rules, text).and(comes_back_by_entry_points(rules, plate))
}

fn components_come_back<R: CallRules>(rules: &R, alloc: Global) -> Result<(), Failure> {
    explicit_tags_come_back(rules, alloc)
        .and(options_come_back(rules, alloc))
        .and(defaults_come_back(rules, alloc))
        .and(a_default_without_memory_is_an_error(rules))
}
