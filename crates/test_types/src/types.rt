//! Worked sets, and what the definitions give for a value of each type, written out by hand.
//!
//! The clauses of the functions without a body are worked examples: the prover computes the definitions on them.
ghost use Rattle.std.specs.Prelude.{◌≡◌, ℕ, true, false, [], ◌∷◌, None, Some, nat_eq, codes};
ghost use Rattle.std.specs.String.{string_bytes};
ghost use Rattle.asn1_tags.specs.declared.tags.Tag.{Tag};
ghost use Rattle.asn1_model.specs.ConstraintSets.{unconstrained};
ghost use Rattle.asn1_model.specs.Meaning.{own_records, tags};
ghost use Rattle.asn1_model.specs.Records.{open_type, holding, set_of};
ghost use Rattle.asn1_model.specs.Tags.{universal, context, CHOICE, every};
ghost use Rattle.asn1_components.specs.Components.{rows};
ghost use Rattle.asn1_types.specs.Multisets.{same_counts};
ghost use Rattle.test_types.specs.TypeExamples.{ann_under, explicit_true, instance_of_true, sequence_of_true, set_of_true_and_false};

use asn1_components::FieldTable;
use asn1_types::{Any, AsnType, Explicit, Implicit, InstanceOf, SequenceOf, SetOf, tag};
use std::alloc::Global;
use std::process::Abort;

/// How often an element is in a set counts, and its place does not. One that is not equal to itself is nowhere.
fn sets_by_definition()
    ensures turned { same_counts nat_eq (1 ∷ 2 ∷ 3 ∷ 4 ∷ 5 ∷ []) (5 ∷ 4 ∷ 3 ∷ 2 ∷ 1 ∷ []) ≡ true }
    ensures another { same_counts nat_eq (1 ∷ 2 ∷ 3 ∷ 4 ∷ 5 ∷ []) (1 ∷ 2 ∷ 3 ∷ 4 ∷ 6 ∷ []) ≡ false }
    ensures as_often { same_counts nat_eq (1 ∷ 1 ∷ 2 ∷ []) (1 ∷ 2 ∷ 2 ∷ []) ≡ false }
    ensures twice { same_counts nat_eq (1 ∷ 2 ∷ 3 ∷ []) (1 ∷ 1 ∷ 2 ∷ 2 ∷ 3 ∷ 3 ∷ []) ≡ false }
    ensures not_itself { same_counts (λ (x y : ℕ). false) (1 ∷ []) (1 ∷ []) ≡ false }
{}

/// The set of `true` and `false`, and of nothing under another tag and name.
fn set_of_booleans(set: &SetOf<bool>)
    ensures own { set.now ≡ true ∷ false ∷ [] →
        own_records ⟦<SetOf<bool> as AsnType>⟧.meaning set.now ≡ set_of_true_and_false }
    ensures named { set.now ≡ [] → ⟦<SetOf<bool> as AsnType>⟧.meaning.records set.now (context 3)
        unconstrained (Some (codes "s")) ≡ holding (set_of (context 3) unconstrained
        (Some (codes "s"))) [] ∷ [] }
{}

/// A SEQUENCE OF is what a vector is.
fn sequence_of_truths(list: &SequenceOf<bool>, vector: &Vec<bool>)
    ensures { list.now.items ≡ true ∷ [] → vector.now ≡ list.now →
        own_records ⟦<Vec<bool> as AsnType>⟧.meaning vector.now ≡ sequence_of_true }
{}

/// An open type is its bytes under whatever tag, and can begin with every tag.
fn open_type(null: &Any)
    ensures own { null.now ≡ 5 ∷ 0 ∷ [] →
        own_records ⟦<Any as AsnType>⟧.meaning null.now ≡ open_type None (5 ∷ 0 ∷ []) ∷ [] }
    ensures named { null.now ≡ 5 ∷ 0 ∷ [] →
        ⟦<Any as AsnType>⟧.meaning.records null.now (context 3) unconstrained (Some (codes "n")) ≡
        open_type (Some (codes "n")) (5 ∷ 0 ∷ []) ∷ [] }
    ensures begins { (t : Tag) → tags ⟦<Any as AsnType>⟧.meaning t ≡ every }
{}

/// The text `Ann` under the tag of UniversalString.
fn implicit_text(text: &Implicit<tag::UNIVERSAL_STRING, String>)
    ensures own { string_bytes text.now.value ≡ codes "Ann" →
        own_records ⟦<Implicit<tag::UNIVERSAL_STRING, String> as AsnType>⟧.meaning text.now ≡
        ann_under (universal 28) (codes "UTF8String") }
    ensures named { string_bytes text.now.value ≡ codes "Ann" →
        ⟦<Implicit<tag::UNIVERSAL_STRING, String> as AsnType>⟧.meaning.records text.now (context 3)
        unconstrained (Some (codes "n")) ≡ ann_under (context 3) (codes "n") }
{}

/// `true` under an explicit tag, and under another in its place.
fn explicit_truth(truth: &Explicit<tag::SET, bool>)
    ensures own { truth.now.value ≡ true →
        own_records ⟦<Explicit<tag::SET, bool> as AsnType>⟧.meaning truth.now ≡
        explicit_true (universal 17) None }
    ensures named { truth.now.value ≡ true →
        ⟦<Explicit<tag::SET, bool> as AsnType>⟧.meaning.records truth.now (context 3) unconstrained
        (Some (codes "n")) ≡ explicit_true (context 3) (Some (codes "n")) }
{}

/// `true` beside the name 1.2 of its type.
fn instance_of_truth(instance: &InstanceOf<bool>)
    ensures { instance.now.type_id ≡ 1 ∷ 2 ∷ [] → instance.now.value ≡ true →
        own_records ⟦<InstanceOf<bool> as AsnType>⟧.meaning instance.now ≡
        instance_of_true (rows ⟦<InstanceOf<bool> as FieldTable>⟧.components) }
{}

/// The tags that a wrapper may have: none that means no tag, and an implicit one no open type.
fn wrappers_under_tags()
    ensures tagged { ⟦<Implicit<tag::SET, bool> as AsnType>⟧.meaning.HasDistinctTags (context 1) }
    ensures untagged { ⟦<Implicit<tag::SET, bool> as AsnType>⟧.meaning.HasDistinctTags CHOICE → ⊥ }
    ensures open { (t : Tag) → ⟦<Implicit<tag::SET, Any> as AsnType>⟧.meaning.HasDistinctTags t →
        ⊥ }
    ensures explicit_open { ⟦<Explicit<tag::SET, Any> as AsnType>⟧.meaning.HasDistinctTags
        (context 1) }
    ensures explicit_untagged { ⟦<Explicit<tag::SET, bool> as AsnType>⟧.meaning.HasDistinctTags
        CHOICE
        → ⊥ }
{}

/// Asserts that the bytes are these.
fn assert_bytes(rt: &impl Abort, bytes: &[u8], wanted: &[u8]) {
    assert!(rt; bytes == wanted);
}

/// Puts the number into the set.
fn put(rt: &impl Abort, numbers: &mut SetOf<u8>, number: u8) {
    numbers.try_insert(number).expect(rt, "memory");
}

/// Puts the number into the set. If there is no room for it, it comes back, and the set is as it was; then it is put again.
fn put_again(rt: &impl Abort, numbers: &mut SetOf<u8>, number: u8, before: &[u8], after: &[u8]) {
    if let Err(back) = numbers.insert(number) {
        assert!(rt; back == number && numbers.eq_slice(before));
        put(rt, numbers, back);
    }
    assert!(rt; numbers.eq_slice(after));
}

/// The set of these numbers, in this order.
fn set_of(rt: &impl Abort, alloc: Global, numbers: &[u8]) -> SetOf<u8> {
    SetOf::from_slice(alloc, numbers).expect(rt, "memory")
}

/// Asserts that the set has these elements in this order, and so has a copy of it.
fn assert_copied(rt: &impl Abort, alloc: Global, set: SetOf<u8>, expected: &[u8]) {
    let copy = set.try_clone(alloc).expect(rt, "memory");
    assert_bytes(rt, copy.into_vec().as_slice(), expected);
    assert_bytes(rt, set.into_vec().as_slice(), expected);
}

/// Asserts that a list of references to the elements of the set has these, in this order.
fn assert_listed(rt: &impl Abort, alloc: Global, set: &SetOf<u8>, expected: &[u8]) {
    let list = set.to_vec(alloc).expect(rt, "memory");
    assert!(rt; list.len() == expected.len());
    assert!(rt;
        list.iter()
            .zip(expected.iter())
            .all(|(listed, number)| **listed == *number)
    );
}

#[test]
fn sets_are_made_and_copied(rt: HostRuntime) {
    let mut numbers = SetOf::with_capacity(rt.alloc(), 1).expect(&rt, "memory");
    put(&rt, &mut numbers, 3);
    put(&rt, &mut numbers, 1);
    assert_listed(&rt, rt.alloc(), &numbers, &[3, 1]);
    assert_copied(&rt, rt.alloc(), numbers, &[3, 1]);
}

/// Under `rt try --test --fail-alloc N` the Nth growth is refused.
#[test]
fn a_number_without_room_comes_back(rt: HostRuntime) {
    let mut numbers = SetOf::new(rt.alloc());
    put_again(&rt, &mut numbers, 3, &[], &[3]);
    put(&rt, &mut numbers, 1);
    put(&rt, &mut numbers, 4);
    put(&rt, &mut numbers, 1);
    put_again(&rt, &mut numbers, 5, &[3, 1, 4, 1], &[3, 1, 4, 1, 5]);
}

#[test]
fn sets_are_made_of_slices_and_arrays(rt: HostRuntime) {
    let set = set_of(&rt, rt.alloc(), &[3, 1, 3]);
    assert_copied(&rt, rt.alloc(), set, &[3, 1, 3]);
    let set = SetOf::from_array(rt.alloc(), &[3u8, 1, 3]).expect(&rt, "memory");
    assert_copied(&rt, rt.alloc(), set, &[3, 1, 3]);
}

/// Asserts whether the sets of these numbers are equal.
fn assert_equality(rt: &impl Abort, alloc: Global, left: &[u8], right: &[u8], is_equal: bool) {
    let set = set_of(rt, alloc, left);
    let other = set_of(rt, alloc, right);
    assert!(rt; (set == other) == is_equal && (other == set) == is_equal);
    assert!(rt; set.eq_slice(right) == is_equal && other.eq_slice(left) == is_equal);
}

#[test]
fn sets_are_equal_by_how_often_each_element_is_there(rt: HostRuntime) {
    assert_equality(&rt, rt.alloc(), &[1, 2, 3, 4, 5], &[5, 4, 3, 2, 1], true);
    assert_equality(&rt, rt.alloc(), &[1, 2, 3, 4, 5], &[1, 2, 3, 4, 6], false);
    assert_equality(&rt, rt.alloc(), &[1, 1, 2], &[1, 2, 2], false);
    assert_equality(&rt, rt.alloc(), &[1, 2, 3], &[1, 1, 2, 2, 3, 3], false);
}

/// Asserts whether the number is found in the set of these, and what is left once it is taken.
fn assert_removed(
    rt: &impl Abort,
    alloc: Global,
    numbers: &[u8],
    number: u8,
    is_found: bool,
    left: &[u8],
) {
    let mut set = set_of(rt, alloc, numbers);
    assert!(rt; set.contains(&number) == is_found);
    assert!(rt; set.remove(&number) == is_found);
    assert!(rt; set.len() == left.len() && set.contains(&number) == left.contains(&number));
    assert_bytes(rt, set.into_vec().as_slice(), left);
}

#[test]
fn the_first_equal_element_is_taken(rt: HostRuntime) {
    assert_removed(&rt, rt.alloc(), &[1, 1, 2], 1, true, &[2, 1]);
    assert_removed(&rt, rt.alloc(), &[3, 1], 7, false, &[3, 1]);
}

#[test]
fn open_types_are_copied(rt: HostRuntime) {
    let bytes = [5u8, 0].to_vec(rt.alloc()).expect(&rt, "memory");
    let copy = Any::new(bytes).try_clone(rt.alloc()).expect(&rt, "memory");
    assert_bytes(&rt, copy.as_bytes(), &[5, 0]);
}
