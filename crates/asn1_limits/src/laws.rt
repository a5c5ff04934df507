//! Laws of what no other contract names: what types within limits mean and refuse, what constraints see of values, what markers
//! admit, and what tables allow.
mod facets;
mod markers;
mod meanings;
mod tables;

pub use facets::{constraints_see_sizes_and_characters, constraints_see_whole_numbers};
pub use markers::{
    combined_markers_admit_what_the_notation_says, extensible_and_stated_markers_admit_all,
    letters_admit_strings_of_their_characters, numbers_are_admitted_between_their_ends,
    sizes_are_admitted_between_their_ends,
};
pub use meanings::{
    types_within_limits_mean_what_they_hold, types_within_limits_refuse_what_is_outside,
    values_within_limits_are_compared_and_shown_as_values,
};
pub use tables::tables_allow_what_is_within;
