//! Laws for canonical reading: equal values of a type are written alike, and the components of each SET in a value have distinct
//! tags (X.680, 27.3). `well_tagged_types_have_one_spelling` of `asn1_der` has what follows.
//!
//! | Type | Laws |
//! |---|---|
//! | one whose equal values are one value | [`values_that_are_one_are_written_alike`] |
//! | SEQUENCE, SET | those of `asn1_slots` |
//! | CHOICE | [`equal_choices_are_written_alike`], [`sets_in_choices_are_distinct`] |
//! | SEQUENCE OF, SET OF | [`equal_lists_are_written_alike`], [`equal_sets_of_are_written_alike`], [`sets_in_lists_are_distinct`], [`sets_in_sets_of_are_distinct`] |
//!
//! `proofs/` has the lemmas for a type's own proof: of groups of additions, and of a derived equality of a CHOICE.
#![tactic(auto)]

mod choices;
mod leaves;
mod lists;

pub use choices::{equal_choices_are_written_alike, sets_in_choices_are_distinct};
pub use leaves::values_that_are_one_are_written_alike;
pub use lists::{
    equal_lists_are_written_alike, equal_sets_of_are_written_alike, sets_in_lists_are_distinct,
    sets_in_sets_of_are_distinct,
};
