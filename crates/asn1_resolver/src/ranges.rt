//! Ranges of whole numbers.
use crate::fault::Fault;
use crate::governed::{Governed, Scope, Written};
use crate::object_fields::span_of_field;
use crate::resolver::Resolver;
use asn1_notation::{Constraint, ConstraintKind, EndPoint, EndValue, NumberName, ValueKind};
use asn1_resolved::{Range, Value};

impl<'r, 'a> Resolver<'r, 'a> {
    /// The range that a constraint on whole numbers is, if it is one. The base is the type of the numbers; sizes have none.
    pub(crate) fn range(
        &mut self,
        base: Option<Governed<'r, 'a>>,
        scope: Scope<'a>,
        constraint: &'r Constraint,
    ) -> Result<Option<Range>, Fault> {
        match &constraint.kind {
            ConstraintKind::Value(value) if self.is_open_field(scope, value) => Ok(None),
            ConstraintKind::Range(lower, upper)
                if self.is_open_end(scope, lower) || self.is_open_end(scope, upper) => { Ok(None) }
            ConstraintKind::Value(value) => {
                let number = self.bound(base, Written { scope, value })?;
                Ok(Some(Range {
                    lower: Some(number),
                    upper: Some(number),
                }))
            }
            ConstraintKind::Range(lower, upper) => {
                let lower = self.end_point(base, scope, lower, 1)?;
                let upper = self.end_point(base, scope, upper, -1)?;
                self.ordered(scope, constraint, Range { lower, upper })
            }
            ConstraintKind::Union(parts) => {
                let mut union = None;
                for (index, part) in parts.iter().enumerate() {
                    let range = self.range(base, scope, part)?;
                    union = if index == 0 {
                        range
                    } else {
                        join(union, range)
                    };
                }
                Ok(union)
            }
            _ => Ok(None),
        }
    }

    // Refuses a range that has no number.
    fn ordered(
        &mut self,
        scope: Scope<'a>,
        constraint: &Constraint,
        range: Range,
    ) -> Result<Option<Range>, Fault> {
        match (range.lower, range.upper) {
            (Some(lower), Some(upper)) if upper < lower => Err(self.refuse(
                scope.place_at(constraint.start),
                &[b"the range has no number: its upper end is below its lower end"],
            )),
            _ => Ok(Some(range)),
        }
    }

    // Whether an end of a range is a field that only an argument tells.
    fn is_open_end(&self, scope: Scope<'a>, end: &EndPoint) -> bool {
        match &end.value {
            EndValue::Value(value) => self.is_open_field(scope, value),
            _ => false,
        }
    }

    // The number at an end of a range. One that is left out is a step away from the end.
    fn end_point(
        &mut self,
        base: Option<Governed<'r, 'a>>,
        scope: Scope<'a>,
        end: &'r EndPoint,
        step: i128,
    ) -> Result<Option<i128>, Fault> {
        match &end.value {
            EndValue::Min | EndValue::Max => Ok(None),
            EndValue::Value(value) => {
                let number = self.bound(base, Written { scope, value })?;
                Ok(Some(if end.is_open {
                    number.saturating_add(step)
                } else {
                    number
                }))
            }
        }
    }

    // The whole number that a value is.
    fn bound(
        &mut self,
        base: Option<Governed<'r, 'a>>,
        written: Written<'r, 'a>,
    ) -> Result<i128, Fault> {
        match base {
            Some(base) => match self.value(base, written)? {
                Value::Integer(number) => Ok(number),
                _ => Err(self.refuse_bound(written)),
            },
            None => match &written.value.kind {
                ValueKind::Number(number) => self.number(written.scope, number),
                ValueKind::Reference(reference) => self.number_name(
                    written.scope,
                    NumberName::Reference(*reference),
                ),
                ValueKind::Field(object, names) => {
                    let scope = written.scope;
                    let name = span_of_field(object, names.as_slice());
                    let (governed, written) = self.field_value(scope, object, names.as_slice())?;
                    self.followed_number(governed, written, scope, name)
                }
                _ => Err(self.refuse_bound(written)),
            },
        }
    }

    // Refuses a value that is no whole number.
    fn refuse_bound(&mut self, written: Written<'r, 'a>) -> Fault {
        self.refuse(written.place(), &[b"a value of INTEGER is expected here"])
    }
}

// The range of the numbers of two, if no number is between them.
fn join(first: Option<Range>, second: Option<Range>) -> Option<Range> {
    match (first, second) {
        (Some(first), Some(second)) => {
            if is_apart(first, second) || is_apart(second, first) {
                None
            } else {
                Some(Range {
                    lower: lesser_start(first.lower, second.lower),
                    upper: greater_end(first.upper, second.upper),
                })
            }
        }
        _ => None,
    }
}

// Whether a number is behind the first range and before the second.
fn is_apart(first: Range, second: Range) -> bool {
    match (first.upper, second.lower) {
        (Some(upper), Some(lower)) => upper.saturating_add(1) < lower,
        _ => false,
    }
}

// The lesser of two lower ends.
fn lesser_start(first: Option<i128>, second: Option<i128>) -> Option<i128> {
    match (first, second) {
        (Some(first), Some(second)) => Some(if first < second { first } else { second }),
        _ => None,
    }
}

// The greater of two upper ends.
fn greater_end(first: Option<i128>, second: Option<i128>) -> Option<i128> {
    match (first, second) {
        (Some(first), Some(second)) => Some(if first < second { second } else { first }),
        _ => None,
    }
}
