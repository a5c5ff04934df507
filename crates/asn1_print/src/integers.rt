//! The Rust types of INTEGER types.
use crate::plan::Plan;
use asn1_resolved::{Constraint, ConstraintKind, Range};
use asn1_rust_code::TypeName;
use std::alloc::AllocError;

/// The integers of the language, with their ranges.
const INTEGERS: &[(&str, i128, i128)] = &[
    ("u8", 0, 255),
    ("u16", 0, 65535),
    ("u32", 0, 4294967295),
    ("u64", 0, 18446744073709551615),
    ("i8", -128, 127),
    ("i16", -32768, 32767),
    ("i32", -2147483648, 2147483647),
    ("i64", -9223372036854775808, 9223372036854775807),
];

/// The range that the constraints of an INTEGER leave, if they have no extension marker.
pub(crate) fn range_of(constraints: &[Constraint]) -> Range {
    let mut range = Range {
        lower: None,
        upper: None,
    };
    for constraint in constraints {
        if let ConstraintKind::Value(own) = &constraint.kind {
            if !constraint.is_extensible {
                range = Range {
                    lower: greater(range.lower, own.lower),
                    upper: less(range.upper, own.upper),
                };
            }
        }
    }
    range
}

// The greater of two least numbers.
fn greater(one: Option<i128>, other: Option<i128>) -> Option<i128> {
    match (one, other) {
        (Some(left), Some(right)) => Some(if left < right { right } else { left }),
        (None, known) => known,
        (known, None) => known,
    }
}

// The less of two greatest numbers.
fn less(one: Option<i128>, other: Option<i128>) -> Option<i128> {
    match (one, other) {
        (Some(left), Some(right)) => Some(if left < right { left } else { right }),
        (None, known) => known,
        (known, None) => known,
    }
}

/// The integer of the language with a range, if there is one.
pub(crate) fn built_in(range: Range) -> Option<&'static str> {
    for (name, lower, upper) in INTEGERS {
        if range.lower == Some(*lower) && range.upper == Some(*upper) {
            return Some(name);
        }
    }
    None
}

/// Whether a number is one of the integer of the language with this name.
pub(crate) fn is_of_integer(name: &str, number: i128) -> bool {
    for (known, lower, upper) in INTEGERS {
        if *known == name {
            return *lower <= number && number <= *upper;
        }
    }
    false
}

/// Whether numbers of a range are of a type with these limits.
pub(crate) fn has_limits(range: Range) -> Option<(i128, i128)> {
    match (range.lower, range.upper) {
        (Some(lower), Some(upper)) => {
            let fits = -9223372036854775808 <= lower && upper <= 9223372036854775807;
            if fits && lower <= upper {
                Some((lower, upper))
            } else {
                None
            }
        }
        _ => None,
    }
}

impl Plan<'_, '_> {
    /// The type of an INTEGER of a range.
    pub(crate) fn integer_type(&self, range: Range) -> Result<TypeName, AllocError> {
        if let Some(name) = built_in(range) {
            return self.plain_type(name);
        }
        match has_limits(range) {
            Some((lower, upper)) => {
                let mut name = self.library_type("ConstrainedInteger")?;
                let lower = self.limit(lower)?;
                let upper = self.limit(upper)?;
                let lower = lower.as_str();
                let upper = upper.as_str();
                name.text = format!(in self.alloc; "ConstrainedInteger<{lower}, {upper}>")?;
                Ok(name)
            }
            None => self.library_type("Integer"),
        }
    }

    // A number as an argument.
    fn limit(&self, number: i128) -> Result<String, AllocError> {
        if number < 0 {
            format!(in self.alloc; "{{ {number} }}")
        } else {
            format!(in self.alloc; "{number}")
        }
    }
}
