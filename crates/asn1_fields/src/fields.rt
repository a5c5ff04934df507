//! Tables of a known number of fields.
ghost use Rattle.std.specs.Prelude.{◌≡◌, length, not};
ghost use Rattle.std.specs.List.{list_any};
ghost use Rattle.asn1_fields.specs.FieldViews.{may_be_absent};

use crate::field::Field;
use crate::iterators::{FieldIter, IdentifierIter, OptionalFieldIter};
use crate::presence::FieldPresence;
use crate::table_field::TableField;
use crate::{canonical_order, distinct_tags};

/// The fields of a SEQUENCE or a SET type, `N` of them, in the order of its table.
///
/// The table is borrowed, and the value is copied as a reference is. No call takes memory.
#[derive(Clone, Copy, Debug)]
pub struct Fields<'a, const N: usize> {
    fields: &'a [Field<'a>],
    ghost count: { length fields.now ≡ N },
}

impl<'a, const N: usize> Fields<'a, N> {
    ghost use Rattle.std.specs.Prelude.{◌≡◌, ◌↔◌, ◌<◌, Any, IfSome, IsSome, IsTrue, length};
    ghost use Rattle.asn1_fields.specs.CanonicalOrder.{IsCanonical, canonical};
    ghost use Rattle.asn1_fields.specs.DistinctTags.{IsLeast, IsSequenceClash, IsSetClash, sequence_clash, set_clash};
    ghost use Rattle.asn1_fields.specs.FieldViews.{components};
    ghost use Rattle.asn1_fields.specs.FieldLists.{fields_left, fields_of, names_left, names_of, optional_fields, optional_left};

    /// The table of the fields in an array.
    pub fn from_static<F: TableField<'a>>(fields: &'a [F; N]) -> Self
        ensures { fields_of result ≡ F.fields fields.now }
    {
        Fields {
            fields: F::as_fields(fields),
        }
    }

    /// The table of the fields in a slice, and `None` if these are not `N`.
    pub fn from_slice(fields: &'a [Field<'a>]) -> Option<Self>
        ensures counted { IsSome result ↔ (length fields.now ≡ N) }
        ensures table { IfSome result (λ table. fields_of table ≡ fields.now) }
    {
        if fields.len() == N {
            Some(Fields { fields })
        } else {
            None
        }
    }

    /// The number of fields.
    pub fn len(&self) -> usize
        ensures { result ≡ length (fields_of self.now) }
    {
        self.as_slice().len()
    }

    /// Whether there are no fields.
    pub fn is_empty(&self) -> bool
        ensures { IsTrue result ↔ (length (fields_of self.now) ≡ 0) }
    {
        self.as_slice().is_empty()
    }

    /// Whether there are fields.
    pub fn is_not_empty(&self) -> bool
        ensures { IsTrue result ↔ (0 < length (fields_of self.now)) }
    {
        !self.is_empty()
    }

    /// Whether a field is always there.
    #[tactic(auto, using(crate::proofs::RequiredFields::required_fields))]
    pub fn has_required_field(&self) -> bool
        ensures { IsTrue result ↔
            Any (λ field. field.presence ≡ FieldPresence.Required) (fields_of self.now) }
    {
        have_required_field(self.fields)
    }

    /// How many fields may be absent.
    pub fn number_of_optional_and_default_fields(&self) -> usize
        ensures { result ≡ length (optional_fields (fields_of self.now)) }
    {
        self.optional_and_default_fields().len()
    }

    /// The fields in order, each once.
    pub fn iter(&self) -> FieldIter<'a>
        ensures { fields_left result ≡ fields_of self.now }
    {
        FieldIter::new(self.fields)
    }

    /// The fields that may be absent in order, each once.
    pub fn optional_and_default_fields(&self) -> OptionalFieldIter<'a>
        ensures { optional_left result ≡ optional_fields (fields_of self.now) }
    {
        OptionalFieldIter::new(self.fields)
    }

    /// The names of the fields in order.
    pub fn identifiers(&self) -> IdentifierIter<'a>
        ensures { names_left result ≡ names_of (fields_of self.now) }
    {
        IdentifierIter::new(self.fields)
    }

    /// The fields as a slice.
    pub fn as_slice(&self) -> &'a [Field<'a>]
        ensures { result.now ≡ fields_of self.now }
    {
        self.fields
    }

    /// As the function [`is_canonical`](crate::is_canonical).
    pub fn is_canonical(&self) -> bool
        ensures ordered { IsTrue result ↔ IsCanonical (components (fields_of self.now)) }
        ensures report { result ≡ canonical (components (fields_of self.now)) }
    {
        canonical_order::is_canonical(self.fields)
    }

    /// As the function [`first_sequence_clash`](crate::first_sequence_clash).
    pub fn first_sequence_clash(&self) -> Option<(usize, usize)>
        ensures least { IsLeast (IsSequenceClash (components (fields_of self.now))) result }
        ensures report { result ≡ sequence_clash (components (fields_of self.now)) }
    {
        distinct_tags::first_sequence_clash(self.fields)
    }

    /// As the function [`first_set_clash`](crate::first_set_clash).
    pub fn first_set_clash(&self) -> Option<(usize, usize)>
        ensures least { IsLeast (IsSetClash (components (fields_of self.now))) result }
        ensures report { result ≡ set_clash (components (fields_of self.now)) }
    {
        distinct_tags::first_set_clash(self.fields)
    }
}

/// The fields in order, each once, as those of [`Fields::iter`].
impl<'a, const N: usize> IntoIterator for Fields<'a, N> {
    ghost use Rattle.asn1_fields.specs.FieldLists.{fields_left, fields_of};

    type Item = Field<'a>;

    type IntoIter = FieldIter<'a>;

    ghost into_iter_gives = { λ table fields. fields_left fields ≡ fields_of table };

    fn into_iter(self) -> FieldIter<'a> {
        self.iter()
    }
}

/// The fields in order, each once, as those of [`Fields::iter`].
impl<'a, const N: usize> IntoIterator for &Fields<'a, N> {
    ghost use Rattle.asn1_fields.specs.FieldLists.{fields_left, fields_of};

    type Item = Field<'a>;

    type IntoIter = FieldIter<'a>;

    ghost into_iter_gives = { λ table fields. fields_left fields ≡ fields_of table.now };

    fn into_iter(self) -> FieldIter<'a> {
        self.iter()
    }
}

// Whether one of the fields is always there.
fn have_required_field(fields: &[Field<'_>]) -> bool
    ensures { result ≡ list_any (λ field. not (may_be_absent field.presence)) fields.now }
{
    fields
        .iter()
        .any(|field| field.is_not_optional_or_default())
}
