//! The values of definitions for a few CHOICE types, written out by hand.
//!
//! The clauses of the functions without a body are worked examples: the prover computes the definitions on them.
ghost use Rattle.std.specs.Prelude.{◌≡◌, ℕ, Bool, List, pos, true, [], ◌∷◌, Some, codes};
ghost use Rattle.asn1_ranges.specs.declared.bounded.Bounded.TheVariants.{Range};
ghost use Rattle.asn1_model.specs.ConstraintSets.{values_of};
ghost use Rattle.asn1_model.specs.Meaning.{IsWellTagged, own_records};
ghost use Rattle.asn1_model.specs.TaggedTypes.{tagged, untagged};
ghost use Rattle.asn1_model.specs.Tags.{context};
ghost use Rattle.asn1_components.specs.Alternatives.{alternative, closed, extensible, table_of, variance_of};
ghost use Rattle.asn1_components.specs.ChoiceTypes.{choice_of};
ghost use Rattle.asn1_recursive.specs.declared.nested.Nested.TheVariants.{Flag, Inner};
ghost use Rattle.test_types.specs.ChainExample.{chain_meaning};
ghost use Rattle.test_types.specs.ChoiceExamples.{inner_flag_true, later_nine, reply_table, two_places_and_more};
ghost use Rattle.test_types.specs.declared.choices.reply.Reply.TheVariants as reply;
ghost use Rattle.asn1_samples.specs.declared.shape.Shape.TheVariants as shape;

mod reply;

use asn1_bounds::{Bounded, Value};
use asn1_components::Choice;
use asn1_model::AsnType;
use asn1_recursive::Nested;
use asn1_samples::{Corner, Shape};
use reply::Reply;
use std::alloc::Global;
use std::process::Abort;

/// A CHOICE cannot be inside others with the same tag twice: in the root, on both sides of the extension marker, or in an
/// untagged CHOICE and beside it.
fn same_tag_twice()
    ensures root { ¬ IsWellTagged (choice_of (codes "Twice") (closed (
        alternative (codes "a") (tagged (context 1) ⟦<bool as AsnType>⟧.meaning) ∷
        alternative (codes "b") (tagged (context 1) ⟦<() as AsnType>⟧.meaning) ∷ [])) (λ x. x)) }
    ensures added { ¬ IsWellTagged (choice_of (codes "Twice") (extensible (
        alternative (codes "a") (untagged ⟦<bool as AsnType>⟧.meaning) ∷ []) (
        alternative (codes "b") (untagged ⟦<bool as AsnType>⟧.meaning) ∷ [])) (λ x. x)) }
    ensures inside { ¬ IsWellTagged (choice_of (codes "Twice") (closed (
        alternative (codes "inner") (untagged ⟦<Corner as AsnType>⟧.meaning) ∷
        alternative (codes "flag") (untagged ⟦<bool as AsnType>⟧.meaning) ∷ [])) (λ x. x)) }
{}

/// A CHOICE that holds itself without a tag, in a SET among its alternatives, can be inside others where its neighbour there has
/// a tag of none of its alternatives.
fn a_choice_in_a_set_of_its_own()
    ensures apart { IsWellTagged (chain_meaning (context 5)) }
    ensures shared { ¬ IsWellTagged (chain_meaning (context 1)) }
{}

/// `later : 9`, of an alternative after the extension marker.
fn records()
    ensures { own_records ⟦<Reply as AsnType>⟧.meaning (reply.Later 9) ≡ later_nine }
{}

/// `inner : flag : TRUE`, whose inner value is under an explicit tag.
fn nested(inner: Box<Nested>)
    ensures { inner.value ≡ Flag true → own_records ⟦<Nested as AsnType>⟧.meaning (Inner inner) ≡
        inner_flag_true (table_of ⟦<Nested as Choice>⟧.alternatives) }
{}

/// The table beside a chosen alternative: the names and tags of those in the root, and of those after the extension marker.
fn table_of_replies()
    ensures { table_of ⟦<Reply as Choice>⟧.alternatives ≡ reply_table }
{}

/// The constraint of an alternative's place counts those of the root, and is extensible where there is a marker.
fn indices()
    ensures closed { variance_of ⟦<Corner as Choice>⟧.alternatives ≡
        values_of (Range (Some (pos 0)) (Some (pos 1))) }
    ensures extensible { (variance_of ⟦<Reply as Choice>⟧.alternatives).value ≡
        Some two_places_and_more }
{}

/// A reply is well tagged, and each is valid, also one after the extension marker.
fn replies()
    ensures is_well_tagged { IsWellTagged ⟦<Reply as AsnType>⟧.meaning }
    ensures accepted { (accepts : List ℕ → Bool) (b : Bool) →
        ⟦<Reply as AsnType>⟧.meaning.IsValid accepts (reply.Accepted b) }
    ensures refused { (accepts : List ℕ → Bool) →
        ⟦<Reply as AsnType>⟧.meaning.IsValid accepts reply.Refused }
    ensures later { (accepts : List ℕ → Bool) (n : ℕ) →
        ⟦<Reply as AsnType>⟧.meaning.IsValid accepts (reply.Later n) }
{}

/// Asserts that a type's constraint of an alternative's place is a range from 0 to here, with a marker or none.
fn assert_places<T: Choice>(rt: &impl Abort, alloc: Global, last: i128, extensible: bool) {
    let set = T::variance_constraint(alloc).expect(rt, "memory");
    let indices = set.value().expect(rt, "a constraint of values");
    assert!(rt; indices.constraint == Value::new(Bounded::const_new(0, last)));
    assert!(rt; indices.extensible.is_some() == extensible && set.size().is_none());
}

#[test]
fn places_are_constrained(rt: HostRuntime) {
    assert_places::<Shape>(&rt, rt.alloc(), 2, false);
    assert_places::<Corner>(&rt, rt.alloc(), 1, false);
    assert_places::<Reply>(&rt, rt.alloc(), 1, true);
}

/// The number that an alternative holds is within its type.
fn values_of_types()
    ensures within { ⟦<Shape as AsnType>⟧.meaning.IsOfType (shape.Ring 65535) }
    ensures above { ¬ ⟦<Shape as AsnType>⟧.meaning.IsOfType (shape.Ring 65536) }
{}
