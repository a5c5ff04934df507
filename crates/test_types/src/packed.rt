//! Bytes of types that are not read, and of the entry point with a tag and a name.
ghost use Rattle.std.specs.Prelude.{◌≡◌, [], ◌∷◌, Some, codes, pos};
ghost use Rattle.asn1_laws.specs.GivenTypes.{with_tag};
ghost use Rattle.asn1_model.specs.ConstraintSets.{values_of};
ghost use Rattle.asn1_model.specs.Records.{number, scalar};
ghost use Rattle.asn1_model.specs.Tags.{context};
ghost use Rattle.asn1_ranges.specs.declared.bounded.Bounded.TheVariants.{Range};

use asn1_bench::{BenchRules, ItemBuffer, PresenceMarks};
use asn1_buffers::BufferEncoder;
use asn1_enc::Encode;
use asn1_rules::Rules;
use asn1_tags::{Identifier, Tag};
use asn1_types::AsnType;
use std::alloc::Global;
use std::borrow::Cow;
use std::process::Abort;

/// Asserts that the value is written as these bytes.
fn assert_written<T: Encode>(rt: &impl Abort, alloc: Global, value: &T, expected: &[u8]) {
    let written = BenchRules::new(alloc).write_value(value, 0);
    assert!(rt; written.expect(rt, "memory").as_slice() == expected);
}

#[test]
fn types_that_are_not_read_are_written(rt: HostRuntime) {
    let alloc = rt.alloc();
    assert_written(
        &rt,
        alloc,
        &u128::MAX,
        &[
            1, 0, 0, 0, 0, 2, 2, 0, 0, 0, 17, 0, 255, 255, 255, 255, 255, 255, 255, 255, 255, 255,
            255, 255, 255, 255, 255, 255,
        ],
    );
    assert_written(
        &rt,
        alloc,
        &"Ann",
        &[1, 0, 0, 0, 0, 12, 8, 0, 0, 0, 3, 65, 110, 110],
    );
    assert_written(&rt, alloc, &&true, &[1, 0, 0, 0, 0, 1, 1, 0, 0, 0, 1, 1]);
    let borrowed: Cow<'_, u8> = Cow::Borrowed(&7);
    assert_written(
        &rt,
        alloc,
        &borrowed,
        &[1, 0, 0, 0, 0, 2, 2, 0, 0, 0, 2, 0, 7],
    );
}

/// 9 in a box, under a tag and a name: it has the constraints of its type.
fn boxed_nine(boxed: &Box<u8>)
    ensures { boxed.now.value ≡ 9 →
        (with_tag (context 3) ⟦<Box<u8> as AsnType>⟧.meaning (Some (codes "n"))).records boxed.now ≡
        scalar (context 3) (values_of (Range (Some (pos 0)) (Some (pos 255)))) (Some (codes "n"))
        (number (pos 9)) ∷ [] }
{}

/// Asserts what a number in a box is written as, under the tag Context 3 and a name.
fn assert_boxed(rt: &impl Abort, alloc: Global, number: u8, expected: &[u8]) {
    let boxed = Box::new(alloc, number).expect(rt, "memory");
    let mut encoder = BufferEncoder::<ItemBuffer<PresenceMarks>>::new(alloc, 0);
    let tag = Tag::new_context(3);
    let answer = boxed.encode_with_tag_and_identifier(&mut encoder, tag, Identifier(Some("n")));
    assert!(rt; answer.is_ok());
    assert!(rt; encoder.finish().as_slice() == expected);
}

#[test]
fn a_box_is_written_under_a_tag_and_a_name(rt: HostRuntime) {
    assert_boxed(&rt, rt.alloc(), 9, &[1, 2, 0, 0, 0, 3, 2, 0, 0, 0, 2, 0, 9]);
}
