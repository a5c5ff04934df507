//! Laws of what no other contract names: definitions, and what derives give.
ghost use Rattle.asn1_der_items.specs.Bytes.{HasDer, HasNoDer, HaveDer};
ghost use Rattle.asn1_der_items.specs.DistinctTags.{HasDistinctSets};
ghost use Rattle.asn1_der_items.specs.Existence.{HasDerOrNone, IsInRange};
ghost use Rattle.asn1_der_items.specs.RecordElements.{IsElementOfRecord};
ghost use Rattle.asn1_der_items.specs.Series.{IsElementOf};
ghost use Rattle.asn1_model.specs.ConstraintSets.{ConstraintSet};
ghost use Rattle.asn1_model.specs.Orders.{SameRecord};
ghost use Rattle.asn1_model.specs.Records.{Name, PresenceMark, Record, alternative, held, holding, is_presence_mark, presence_mark};
ghost use Rattle.asn1_model.specs.RecordTables.{Row, Table};
ghost use Rattle.asn1_tags.specs.Derives.{ClonesAll, ComparesAll};
ghost use Rattle.asn1_tags.specs.declared.tags.Tag.{Tag};
ghost use Rattle.std.specs.Prelude.{◌≡◌, ◌↔◌, ◌∷◌, List, ℕ, false};
ghost use Rattle.std.specs.Int.Digits.{AllBelowBase};

use crate::content_order::ContentOrder;

/// A law of a CHOICE: it has the bytes of the chosen alternative, which are one element of the chosen tag, and no others.
pub fn a_choice_has_no_element_of_its_own()
    ensures { (t : Tag) (c : ConstraintSet) (table : Table Row) (n : Name) (rs : List Record)
        (bytes : List ℕ) → HasDer (holding (alternative t c table n) rs) bytes ↔
        (HaveDer (held rs) bytes × IsElementOf t bytes) }
{}

/// A law of presence marks: with one in front, records have the same bytes.
pub fn presence_marks_have_no_bytes()
    ensures { (m : PresenceMark) (rs : List Record) (bytes : List ℕ) →
        HaveDer (held (presence_mark m ∷ rs)) bytes ↔ HaveDer (held rs) bytes }
{}

/// A law of elements: a record that is no presence mark is one element, whose tag is one with which the record can begin.
pub fn a_record_is_one_element()
    ensures { (r : Record) (bytes : List ℕ) → is_presence_mark r ≡ false → HasDer r bytes →
        IsElementOfRecord r bytes }
{}

/// A law of what there is: each record, in some order inside sets, has DER or has none, where its numbers are within
/// the types that hold them.
pub fn a_record_has_der_or_none()
    ensures { (r : Record) → IsInRange r → HasDerOrNone r }
{}

/// A law of what there is: no record has DER and has none, also in another order inside sets.
pub fn no_record_has_both()
    ensures { (r s : Record) → SameRecord r s → (bytes : List ℕ) → AllBelowBase 256 bytes →
        HasDer r bytes → ¬ HasNoDer s }
{}

/// A law of encodings: a record, in one order inside sets, has one.
pub fn der_is_unique()
    ensures { (r : Record) (own other : List ℕ) → AllBelowBase 256 own → AllBelowBase 256 other →
        HasDer r own → HasDer r other → own ≡ other }
{}

/// A law of encodings: records that are the same up to the order inside sets have one, where the components of each SET
/// have distinct tags.
pub fn der_is_canonical()
    ensures { (r s : Record) → SameRecord r s → HasDistinctSets r → (own other : List ℕ) →
        AllBelowBase 256 own → AllBelowBase 256 other → HasDer r own → HasDer s other →
        own ≡ other }
{}

/// A law of sets: where the components of each SET in a record have distinct tags, they have them in each order inside sets.
pub fn distinct_tags_do_not_depend_on_order()
    ensures { (r s : Record) → SameRecord r s → HasDistinctSets r → HasDistinctSets s }
{}

/// A law of the derives: two orders are equal if and only if they are the same, and clones are their sources.
pub fn derives_keep_what_an_order_is()
    ensures same { ComparesAll ⟦<ContentOrder as PartialEq>⟧.eq }
    ensures clones { ClonesAll ⟦<ContentOrder as Clone>⟧.is_clone
        ⟦<ContentOrder as Clone>⟧.is_infallible }
{}
