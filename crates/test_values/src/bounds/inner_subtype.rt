//! Types that constrain their components, and what validation answers for their values.
ghost use Rattle.std.specs.Prelude.{◌≡◌, ◌==◌, Ok, Err, IfOk, IsNone, is_none, is_some, codes, if◌then◌else◌};
ghost use Rattle.asn1_bounds.specs.InnerSubtype.{outcome, missing, unexpected, wrong_value};

use crate::assertions::assert_that;
use asn1_bounds::{Codec, InnerSubtypeConstraint, InnerSubtypeConstraintError};
use std::alloc::{AllocError, Global};
use std::process::Abort;

/// A SEQUENCE of two numbers that may be there or not, `WITH COMPONENTS { a PRESENT, b ABSENT }`.
#[derive(Drop, PartialEq)]
struct Pair {
    a: Option<u8>,
    b: Option<u8>,
}

impl InnerSubtypeConstraint for Pair {
    ghost validation_gives = { λ pair _ answer. outcome answer ≡
        (if is_none pair.a then Err (missing (codes "a")) else
        if is_some pair.b then Err (unexpected (codes "b")) else Ok pair) };

    fn validate_and_decode_containing(
        self,
        _alloc: Global,
        _decode_containing_with: Option<Codec>,
    ) -> Result<Self, InnerSubtypeConstraintError> {
        if self.a.is_none() {
            return Err(InnerSubtypeConstraintError::Missing("a"));
        }
        if self.b.is_some() {
            return Err(InnerSubtypeConstraintError::Unexpected("b"));
        }
        Ok(self)
    }
}

/// A SEQUENCE of a number and an OCTET STRING, `WITH COMPONENTS { version (3), content (CONTAINING BOOLEAN (TRUE)) }`.
#[derive(Drop)]
struct Letter {
    version: u8,
    content: Vec<u8>,
}

impl InnerSubtypeConstraint for Letter {
    ghost validation_gives = { λ letter codec answer. IfOk answer (λ same. same ≡ letter) ×
        (IsNone codec → outcome answer ≡ (if letter.version == 3 then Ok letter else Err (wrong_value (codes "version")))) };

    fn validate_and_decode_containing(
        self,
        alloc: Global,
        decode_containing_with: Option<Codec>,
    ) -> Result<Self, InnerSubtypeConstraintError> {
        if self.version != 3 {
            return Err(InnerSubtypeConstraintError::Value("version"));
        }
        if let Some(codec) = decode_containing_with {
            let truth = truth_in(alloc, codec).map_err(|_| InnerSubtypeConstraintError::Memory)?;
            if self.content != truth {
                return Err(InnerSubtypeConstraintError::Contained("content"));
            }
        }
        Ok(self)
    }
}

// TRUE in the bytes of a codec (X.690, 11.1 and X.697); of any other codec, more than a memory can hold.
fn truth_in(alloc: Global, codec: Codec) -> Result<Vec<u8>, AllocError> {
    match codec {
        Codec::Der => Vec::from_slice(alloc, &[1, 1, 255]),
        Codec::Jer => Vec::from_slice(alloc, b"true"),
        _ => Vec::with_capacity(alloc, usize::MAX),
    }
}

// A caller who knows the type knows the answer.
fn lacks_a(alloc: Global, b: Option<u8>) -> Result<Pair, InnerSubtypeConstraintError>
    ensures { outcome result ≡ Err (missing (codes "a")) }
{
    Pair { a: None, b }.validate_components(alloc)
}

fn assert_answer(
    rt: &impl Abort,
    answer: Result<Pair, InnerSubtypeConstraintError>,
    wanted: Result<Pair, InnerSubtypeConstraintError>,
) {
    assert_that(rt, answer == wanted, "the answer");
}

fn validated(
    alloc: Global,
    a: Option<u8>,
    b: Option<u8>,
) -> Result<Pair, InnerSubtypeConstraintError> {
    Pair { a, b }.validate_components(alloc)
}

#[test]
fn names_the_first_component_at_fault(rt: HostRuntime) {
    let alloc = rt.alloc();
    let both = Some(1);
    assert_answer(
        &rt,
        lacks_a(alloc, both),
        Err(InnerSubtypeConstraintError::Missing("a")),
    );
    assert_answer(
        &rt,
        validated(alloc, both, both),
        Err(InnerSubtypeConstraintError::Unexpected("b")),
    );
    assert_answer(
        &rt,
        validated(alloc, both, None),
        Ok(Pair { a: both, b: None }),
    );
}

/// The answer of validation for a letter of this version that contains TRUE in DER.
fn letter_validated(
    rt: &impl Abort,
    alloc: Global,
    version: u8,
    codec: Option<Codec>,
) -> Result<Letter, InnerSubtypeConstraintError> {
    let content = truth_in(alloc, Codec::Der).expect(rt, "memory");
    Letter { version, content }.validate_and_decode_containing(alloc, codec)
}

/// Asserts why a letter of this version is refused.
fn assert_refused(
    rt: &impl Abort,
    alloc: Global,
    version: u8,
    codec: Option<Codec>,
    error: InnerSubtypeConstraintError,
) {
    let found = letter_validated(rt, alloc, version, codec).err();
    assert_that(rt, found == Some(error), "the error");
}

/// Asserts that a letter of version 3 comes back as it was.
fn assert_kept(rt: &impl Abort, alloc: Global, codec: Option<Codec>) {
    let letter = letter_validated(rt, alloc, 3, codec).ok();
    let kept = letter.expect(rt, "a letter");
    assert_that(rt, kept.version == 3, "the version");
    assert_that(
        rt,
        kept.content.as_slice() == [1u8, 1, 255].as_slice(),
        "the content",
    );
}

#[test]
fn looks_into_contents_with_a_codec(rt: HostRuntime) {
    let alloc = rt.alloc();
    let wrong_value = InnerSubtypeConstraintError::Value("version");
    assert_refused(&rt, alloc, 2, None, wrong_value);
    assert_kept(&rt, alloc, None);
    assert_kept(&rt, alloc, Some(Codec::Der));
    let wrong_content = InnerSubtypeConstraintError::Contained("content");
    assert_refused(&rt, alloc, 3, Some(Codec::Jer), wrong_content);
    let no_memory = InnerSubtypeConstraintError::Memory;
    assert_refused(&rt, alloc, 3, Some(Codec::Other(0)), no_memory);
}
