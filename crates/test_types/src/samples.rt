//! A type whose constraints take memory, and sets of values that are equal by a part of them.
use asn1_samples::{Labelled, Plate};
use asn1_types::{AsnType, SetOf};
use std::alloc::Global;
use std::process::Abort;

/// Asserts that a type's constraints permit these characters.
fn assert_characters<T: AsnType>(rt: &impl Abort, alloc: Global, characters: &[u32]) {
    let constraints = T::constraints(alloc).expect(rt, "memory");
    match constraints.permitted_alphabet() {
        Some(part) => assert!(rt; part.constraint.as_inner() == characters),
        None => panic!(rt; "no alphabet"),
    }
}

#[test]
fn plates_have_three_letters(rt: HostRuntime) {
    assert_characters::<Plate>(&rt, rt.alloc(), &[65, 66, 67]);
}

/// Asserts that the sets of values of this key with these notes are equal, and that a value of the key with another note takes
/// one of them.
fn assert_equal_by_key(rt: &impl Abort, alloc: Global, notes: &[u8; 2], others: &[u8; 2]) {
    let [first, second] = *notes;
    let [third, fourth] = *others;
    let mut set = SetOf::from_array(alloc, &[labelled(first), labelled(second)]).expect(
        rt, "memory",
    );
    let other = SetOf::from_array(alloc, &[labelled(third), labelled(fourth)]).expect(rt, "memory");
    assert!(rt; set == other);
    assert!(rt; set.remove(&labelled(100)) && set.len() == 1);
    assert!(rt; set != other);
}

/// A value of the key 1 with this note.
fn labelled(note: u8) -> Labelled {
    Labelled { key: 1, note }
}

#[test]
fn sets_are_equal_by_the_equality_of_their_elements(rt: HostRuntime) {
    assert_equal_by_key(&rt, rt.alloc(), &[0, 9], &[5, 6]);
}
