//! Types that are other types under names of their own.

use crate::part::Part;
use asn1_schema::ConstrainedInteger;

/// `Parts {PART : Known} ::= SEQUENCE (SIZE (0..255)) OF Part {{Known}}`
pub type Parts = Vec<Part>;

/// `Route ::= SEQUENCE OF INTEGER (0..503)`
pub type Route = Vec<ConstrainedInteger<0, 503>>;
