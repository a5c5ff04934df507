//! The iterators of a table.
ghost use Rattle.std.specs.Prelude.{◌≡◌, ◌≤◌, Some, IfSome, length, ⊤};
ghost use Rattle.std.specs.Iterator.{UpTo, YieldsFirst, YieldsFirstBy, item_count};
ghost use Rattle.std.specs.Slice.Iter.{iter_rest};
ghost use Rattle.asn1_fields.specs.FieldLists.{fields_left, names_of, names_left, optional_fields, optional_left};

use crate::field::Field;
use std::alloc::AllocError;
use std::slice;

/// The fields of a table, in order.
#[derive(Debug, Drop)]
pub struct FieldIter<'a> {
    left: slice::Iter<'a, Field<'a>>,
}

impl<'a> FieldIter<'a> {
    pub(crate) fn new(fields: &'a [Field<'a>]) -> Self
        ensures { fields_left result ≡ fields.now }
    {
        FieldIter {
            left: fields.iter(),
        }
    }
}

/// A clone has the same fields left. Takes no memory, and never fails.
impl Clone for FieldIter<'_> {
    ghost is_clone = { λ it clone. fields_left clone ≡ fields_left it };

    ghost is_infallible = { λ _. ⊤ };

    fn clone(&self) -> Result<Self, AllocError> {
        Ok(FieldIter {
            left: self.left.clone()?,
        })
    }
}

impl<'a> Iterator for FieldIter<'a> {
    type Item = Field<'a>;

    ghost next_gives = { YieldsFirst fields_left };

    ghost remaining = { item_count fields_left };

    fn next(&mut self) -> Option<Field<'a>> {
        self.left.next().copied()
    }

    /// As many as are left, twice.
    fn size_hint(&self) -> (usize, Option<usize>)
        ensures lower { result.0 ≤ length (fields_left self.now) }
        ensures upper { IfSome result.1 (UpTo (item_count fields_left self.now)) }
        ensures exact { result ≡
            (length (fields_left self.now), Some (length (fields_left self.now))) }
    {
        let count = self.len();
        (count, Some(count))
    }
}

impl ExactSizeIterator for FieldIter<'_> {
    fn len(&self) -> usize {
        self.left.len()
    }
}

/// The fields of a table that may be absent, in order.
#[derive(Debug, Drop)]
pub struct OptionalFieldIter<'a> {
    left: slice::Iter<'a, Field<'a>>,
}

impl<'a> OptionalFieldIter<'a> {
    pub(crate) fn new(fields: &'a [Field<'a>]) -> Self
        ensures { optional_left result ≡ optional_fields fields.now }
    {
        OptionalFieldIter {
            left: fields.iter(),
        }
    }
}

/// A clone has the same fields left. Takes no memory, and never fails.
impl Clone for OptionalFieldIter<'_> {
    ghost is_clone = { λ it clone. optional_left clone ≡ optional_left it };

    ghost is_infallible = { λ _. ⊤ };

    fn clone(&self) -> Result<Self, AllocError> {
        Ok(OptionalFieldIter {
            left: self.left.clone()?,
        })
    }
}

impl<'a> Iterator for OptionalFieldIter<'a> {
    type Item = Field<'a>;

    ghost next_gives = { YieldsFirst optional_left };

    ghost remaining = { item_count optional_left };

    fn next(&mut self) -> Option<Field<'a>> {
        while let Some(field) = self.left.next() {
            if field.is_optional_or_default() {
                return Some(*field);
            }
        }
        None
    }

    /// As many as are left, twice. Looks at each field that is left.
    fn size_hint(&self) -> (usize, Option<usize>)
        ensures lower { result.0 ≤ length (optional_left self.now) }
        ensures upper { IfSome result.1 (UpTo (item_count optional_left self.now)) }
        ensures exact { result ≡
            (length (optional_left self.now), Some (length (optional_left self.now))) }
    {
        let count = self.len();
        (count, Some(count))
    }
}

/// The length is counted: looks at each field that is left.
impl ExactSizeIterator for OptionalFieldIter<'_> {
    fn len(&self) -> usize {
        self.left
            .as_slice()
            .iter()
            .filter(|field| field.is_optional_or_default())
            .count()
    }
}

/// The names of the fields of a table, in order.
#[derive(Debug, Drop)]
pub struct IdentifierIter<'a> {
    left: slice::Iter<'a, Field<'a>>,
}

impl<'a> IdentifierIter<'a> {
    pub(crate) fn new(fields: &'a [Field<'a>]) -> Self
        ensures { names_left result ≡ names_of fields.now }
    {
        IdentifierIter {
            left: fields.iter(),
        }
    }
}

/// A clone has the same names left. Takes no memory, and never fails.
impl Clone for IdentifierIter<'_> {
    ghost is_clone = { λ it clone. names_left clone ≡ names_left it };

    ghost is_infallible = { λ _. ⊤ };

    fn clone(&self) -> Result<Self, AllocError> {
        Ok(IdentifierIter {
            left: self.left.clone()?,
        })
    }
}

impl<'a> Iterator for IdentifierIter<'a> {
    type Item = &'a str;

    ghost next_gives = { YieldsFirstBy (λ name. name.now) names_left };

    ghost remaining = { item_count names_left };

    fn next(&mut self) -> Option<&'a str> {
        let field = self.left.next()?;
        Some(field.name)
    }

    /// As many as are left, twice.
    fn size_hint(&self) -> (usize, Option<usize>)
        ensures lower { result.0 ≤ length (names_left self.now) }
        ensures upper { IfSome result.1 (UpTo (item_count names_left self.now)) }
        ensures exact { result ≡
            (length (names_left self.now), Some (length (names_left self.now))) }
    {
        let count = self.len();
        (count, Some(count))
    }
}

impl ExactSizeIterator for IdentifierIter<'_> {
    fn len(&self) -> usize {
        self.left.len()
    }
}
