//! A value that goes from one codec to another.
use crate::cases::{PERSON, PERSON_IN_DER};
use asn1_bench::BenchRules;
use asn1_ber::BerRules;
use asn1_dec::{Decode, DecodeError};
use asn1_der::DerRules;
use asn1_enc::Encode;
use asn1_rules::{RecodeError, Rules, recode};
use asn1_samples::Person;
use asn1_tagform::TagRules;
use std::alloc::Global;
use std::process::Abort;
use test_calls::made::list;

/// The person Ann, of age 30, in BER, with an indefinite length (X.690, 8.1.3.6).
const PERSON_IN_BER: &[u8] = &[0x30, 0x80, 2, 1, 30, 0x0c, 3, 0x41, 0x6e, 0x6e, 0, 0];

/// Asserts that the bytes of a value in one codec are these in another.
fn assert_recoded<T: Encode + Decode, A: Rules<Output = Vec<u8>>, B: Rules<Output = Vec<u8>>>(
    rt: &impl Abort,
    alloc: Global,
    from: &A,
    to: &B,
    bytes: &[u8],
    expected: &[u8],
) {
    let bytes = list(alloc, bytes).expect(rt, "memory");
    let recoded = recode::<T, A, B>(from, &bytes, to, 4).expect(rt, "a value");
    assert!(rt; recoded.as_slice() == expected);
}

/// Asserts that a byte that begins no value goes nowhere.
fn assert_not_recoded<A: Rules<Output = Vec<u8>>, B: Rules<Output = Vec<u8>>>(
    rt: &impl Abort,
    alloc: Global,
    from: &A,
    to: &B,
) {
    let bytes = list(alloc, &[8]).expect(rt, "memory");
    let error = RecodeError::Read(DecodeError::Custom("bad item"));
    assert!(rt; recode::<bool, A, B>(from, &bytes, to, 4).err() == Some(error));
}

#[test]
fn a_person_goes_to_other_codecs(rt: HostRuntime) {
    let alloc = rt.alloc();
    let (packed, tag) = (BenchRules::new(alloc), TagRules::new(alloc));
    let (der, ber) = (DerRules::new(alloc), BerRules::new(alloc));
    assert_recoded::<Person, _, _>(&rt, alloc, &packed, &der, PERSON, PERSON_IN_DER);
    assert_recoded::<Person, _, _>(&rt, alloc, &der, &tag, PERSON_IN_DER, PERSON);
    assert_recoded::<Person, _, _>(&rt, alloc, &tag, &packed, PERSON, PERSON);
    assert_recoded::<Person, _, _>(&rt, alloc, &ber, &packed, PERSON_IN_BER, PERSON);
    assert_recoded::<Person, _, _>(&rt, alloc, &packed, &ber, PERSON, PERSON_IN_DER);
    assert_not_recoded(&rt, alloc, &packed, &tag);
    assert_not_recoded(&rt, alloc, &tag, &packed);
}
