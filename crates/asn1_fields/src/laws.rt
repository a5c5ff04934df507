//! Laws of the traits that are derived, or written beside a derive, and of loops.
ghost use Rattle.std.specs.Iterator.{YieldsFirst, YieldsFirstBy};
ghost use Rattle.std.specs.Prelude.{◌≡◌, ◌↔◌, IsTrue, List};
ghost use Rattle.asn1_tags.specs.Derives.{ClonesAll};
ghost use Rattle.asn1_fields.specs.FieldViews.{view_of};
ghost use Rattle.asn1_fields.specs.FieldOrder.{view_cmp, presence_cmp};
ghost use Rattle.asn1_fields.specs.FieldLists.{fields_left, fields_of, names_left, optional_left};
ghost use Rattle.asn1_fields.specs.declared.field.Field.{Field};
ghost use Rattle.asn1_fields.specs.declared.iterators.FieldIter.{FieldIter};
ghost use Rattle.asn1_fields.specs.declared.iterators.IdentifierIter.{IdentifierIter};
ghost use Rattle.asn1_fields.specs.declared.iterators.OptionalFieldIter.{OptionalFieldIter};
ghost use Rattle.asn1_fields.specs.declared.presence.FieldPresence.{FieldPresence};
ghost use Rattle.asn1_fields.specs.declared.presence.FieldPresence.TheVariants as presences;

use crate::field::Field;
use crate::fields::Fields;
use crate::iterators::{FieldIter, IdentifierIter, OptionalFieldIter};
use crate::presence::FieldPresence;
use crate::table_field::TableField;

/// Laws of the derived traits. Presences are equal if they are the same, and go as they are listed. Fields are equal if
/// they say the same, and go by what they say, part after part. A clone is its source, and none fails; one of an
/// iterator has the same items left.
pub fn derives_take_every_part()
    ensures presence_equal { (p q : FieldPresence) →
        IsTrue (⟦<FieldPresence as PartialEq>⟧.eq p q) ↔ (p ≡ q) }
    ensures presence_order { (p q : FieldPresence) → ⟦<FieldPresence as Ord>⟧.cmp p q ≡
        presence_cmp p q }
    ensures presence_default { (p : FieldPresence) → ⟦<FieldPresence as Default>⟧.is_default p →
        p ≡ presences.Default }
    ensures presence_clone { ClonesAll ⟦<FieldPresence as Clone>⟧.is_clone
        ⟦<FieldPresence as Clone>⟧.is_infallible }
    ensures field_equal { (f g : Field) → IsTrue (⟦<Field<'static> as PartialEq>⟧.eq f g) ↔
        (view_of f ≡ view_of g) }
    ensures field_order { (f g : Field) → ⟦<Field<'static> as Ord>⟧.cmp f g ≡
        view_cmp (view_of f) (view_of g) }
    ensures field_clone { ClonesAll ⟦<Field<'static> as Clone>⟧.is_clone
        ⟦<Field<'static> as Clone>⟧.is_infallible }
    ensures iter_clone { (i j : FieldIter) → ⟦<FieldIter<'static> as Clone>⟧.is_clone i j →
        fields_left j ≡ fields_left i }
    ensures optional_iter_clone { (i j : OptionalFieldIter) →
        ⟦<OptionalFieldIter<'static> as Clone>⟧.is_clone i j → optional_left j ≡ optional_left i }
    ensures identifier_iter_clone { (i j : IdentifierIter) →
        ⟦<IdentifierIter<'static> as Clone>⟧.is_clone i j → names_left j ≡ names_left i }
    ensures iter_clone_succeeds { (i : FieldIter) →
        ⟦<FieldIter<'static> as Clone>⟧.is_infallible i }
    ensures optional_iter_clone_succeeds { (i : OptionalFieldIter) →
        ⟦<OptionalFieldIter<'static> as Clone>⟧.is_infallible i }
    ensures identifier_iter_clone_succeeds { (i : IdentifierIter) →
        ⟦<IdentifierIter<'static> as Clone>⟧.is_infallible i }
{}

/// A law of tables: a clone is its source, and none fails.
pub fn tables_are_cloned_as_they_are<'a, const N: usize>()
    ensures { ClonesAll ⟦<Fields<'a, N> as Clone>⟧.is_clone
        ⟦<Fields<'a, N> as Clone>⟧.is_infallible }
{}

/// A law of tables: one that is made of an array has the array's fields.
pub fn tables_have_the_fields_of_their_arrays<'a>()
    ensures { (fields : List Field) → ⟦<Field<'a> as TableField<'a>>⟧.fields fields ≡ fields }
{}

/// A law of loops: `for` over a table, or over a reference to it, gives its fields in order, each once.
pub fn loops_give_every_field<'a, const N: usize>(_table: &'a Fields<'a, N>)
    ensures by_value { (fields : FieldIter) →
        ⟦<Fields<'a, N> as IntoIterator>⟧.into_iter_gives _table.entry.now fields →
        fields_left fields ≡ fields_of _table.entry.now }
    ensures by_reference { (fields : FieldIter) →
        ⟦<&'a Fields<'a, N> as IntoIterator>⟧.into_iter_gives _table.entry fields →
        fields_left fields ≡ fields_of _table.entry.now }
{}

/// A law of the iterators of a table: each gives the first of what is left, and the next time what follows.
pub fn iterators_give_what_is_left()
    ensures fields { (s t : FieldIter) (item : _) →
        ⟦<FieldIter<'static> as Iterator>⟧.next_gives s item t → YieldsFirst fields_left s item t }
    ensures optional { (s t : OptionalFieldIter) (item : _) →
        ⟦<OptionalFieldIter<'static> as Iterator>⟧.next_gives s item t →
        YieldsFirst optional_left s item t }
    ensures names { (s t : IdentifierIter) (item : _) →
        ⟦<IdentifierIter<'static> as Iterator>⟧.next_gives s item t →
        YieldsFirstBy (λ name. name.now) names_left s item t }
{}
