//! Laws of the tables of an `Open`, and of its equality.
ghost use Rattle.asn1_components.specs.Alternatives.{all_of, chosen, names_of, trees_of, variance_of};
ghost use Rattle.asn1_model.specs.ConstraintSets.{values_of};
ghost use Rattle.asn1_model.specs.Tags.{universal};
ghost use Rattle.asn1_open.specs.OpenAlternatives.{open_names};
ghost use Rattle.asn1_open.specs.declared.open_value.Open.{Open};
ghost use Rattle.asn1_open.specs.declared.open_value.Open.TheVariants as open_value;
ghost use Rattle.asn1_ranges.specs.declared.bounded.Bounded.TheVariants.{Range};
ghost use Rattle.asn1_tags.specs.Trees.{leaves_of};
ghost use Rattle.asn1_model.specs.declared.tag.Marker.{Marker};
ghost use Rattle.asn1_types.specs.declared.implicit.Implicit.{Implicit};
ghost use Rattle.asn1_types.specs.declared.instance_of.InstanceOf.{InstanceOf as Instance};
ghost use Rattle.std.specs.String.{string_bytes};
ghost use Rattle.std.specs.declared.alloc.Global.{Global};
ghost use Rattle.std.specs.declared.boxed.Box.{Box};
ghost use Rattle.std.specs.declared.string.String.{String};
ghost use Rattle.std.specs.Prelude.{◌≡◌, ◌↔◌, ℕ, ℤ, [], ◌∷◌, Bool, IsTrue, List, Some, codes, pos, true};

use crate::open_value::Open;
use asn1_types::{AsnType, Choice};

/// A law of the names: those of the alternatives are rasn's words for them, and the type's own is
/// `Open`.
pub fn alternatives_have_their_names()
    ensures alternatives { names_of (all_of ⟦<Open as Choice>⟧.alternatives) ≡ open_names }
    ensures own { ⟦<Open as AsnType>⟧.meaning.name ≡ Some (codes "Open") }
{}

/// A law of the trees: each alternative has the tag that X.680 assigns to its type (8.4, table 1),
/// an INSTANCE OF that of EXTERNAL.
pub fn alternatives_have_their_tags()
    ensures { leaves_of (trees_of (all_of ⟦<Open as Choice>⟧.alternatives)) ≡ universal 3 ∷
        universal 1 ∷ universal 2 ∷ universal 5 ∷ universal 6 ∷ universal 4 ∷ universal 28 ∷
        universal 26 ∷ universal 8 ∷ [] }
{}

/// A law of the indices: they are from 0 to 8, and there is no extension marker.
pub fn indices_are_from_0_to_8()
    ensures { variance_of ⟦<Open as Choice>⟧.alternatives ≡
        values_of (Range (Some (pos 0)) (Some (pos 8))) }
{}

/// A law of equality: two values are equal if and only if they are of one alternative (`one_alternative`), and what they hold is
/// equal: the same bits, octets, arcs, number or text; and of an INSTANCE OF the same name of a type, and an equal value.
pub fn values_are_equal_by_their_contents()
    ensures one_alternative { (v w : Open) → ⟦<Open as PartialEq>⟧.eq v w ≡ true →
        (chosen (all_of ⟦<Open as Choice>⟧.alternatives) (⟦<Open as Choice>⟧.pick v)).name ≡
        (chosen (all_of ⟦<Open as Choice>⟧.alternatives) (⟦<Open as Choice>⟧.pick w)).name }
    ensures bit_string { (a b : List Bool) →
        IsTrue (⟦<Open as PartialEq>⟧.eq (open_value.BitString a) (open_value.BitString b)) ↔
        (a ≡ b) }
    ensures boolean { (a b : Bool) →
        IsTrue (⟦<Open as PartialEq>⟧.eq (open_value.Bool a) (open_value.Bool b)) ↔ (a ≡ b) }
    ensures integer { (a b : ℤ) →
        IsTrue (⟦<Open as PartialEq>⟧.eq (open_value.Integer a) (open_value.Integer b)) ↔ (a ≡ b) }
    ensures null { IsTrue (⟦<Open as PartialEq>⟧.eq open_value.Null open_value.Null) }
    ensures identifier { (a b : List ℕ) →
        IsTrue (⟦<Open as PartialEq>⟧.eq (open_value.ObjectIdentifier a)
        (open_value.ObjectIdentifier b)) ↔ (a ≡ b) }
    ensures octet_string { (a b : List ℕ) →
        IsTrue (⟦<Open as PartialEq>⟧.eq (open_value.OctetString a) (open_value.OctetString b)) ↔
        (a ≡ b) }
    ensures universal_string { (a b : Implicit (Marker 28) (String Global)) →
        IsTrue (⟦<Open as PartialEq>⟧.eq (open_value.UniversalString a)
        (open_value.UniversalString b)) ↔ (string_bytes a.value ≡ string_bytes b.value) }
    ensures visible_string { (a b : List ℕ) →
        IsTrue (⟦<Open as PartialEq>⟧.eq (open_value.VisibleString a) (open_value.VisibleString b))
        ↔ (a ≡ b) }
    ensures instance { (a b : Box (Instance Open) Global) →
        IsTrue (⟦<Open as PartialEq>⟧.eq (open_value.InstanceOf a) (open_value.InstanceOf b)) ↔
        ((a.value.type_id ≡ b.value.type_id) ×
        IsTrue (⟦<Open as PartialEq>⟧.eq a.value.value b.value.value)) }
{}
