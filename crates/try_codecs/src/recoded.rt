//! A value that goes from a codec to the tag form and back.
use crate::report::Report;
use crate::trial::Trial;
use asn1_bench::BenchRules;
use asn1_ber::BerRules;
use asn1_dec::Decode;
use asn1_der::DerRules;
use asn1_enc::Encode;
use asn1_rules::{RecodeError, Rules, recode};
use asn1_tagform::TagRules;
use test_calls::{Codec, Failure, is_same};

/// Whether the bytes of a value are recoded to those that the tag form writes, and these to the first bytes.
pub(crate) fn try_recoding<T: Encode + Decode>(
    trial: &Trial<'_>,
    value: &T,
) -> Result<Report, Failure> {
    let there = in_tag_form(trial, value)?;
    match trial.codec {
        Codec::Packed => go_and_return::<T, _>(trial, &BenchRules::new(trial.alloc), &there)?,
        Codec::TagForm => go_and_return::<T, _>(trial, &TagRules::new(trial.alloc), &there)?,
        Codec::Der => go_and_return::<T, _>(trial, &DerRules::new(trial.alloc), &there)?,
        Codec::Ber => go_and_return::<T, _>(trial, &BerRules::new(trial.alloc), &there)?,
    }
    Ok(Report::ComesBack)
}

/// The bytes of a value in the tag form.
fn in_tag_form<T: Encode>(trial: &Trial<'_>, value: &T) -> Result<Vec<u8>, Failure> {
    match Codec::TagForm.write(trial.alloc, value, trial.depth) {
        Ok(bytes) => Ok(bytes),
        Err(error) => Err(Failure::of_writing(error)),
    }
}

fn go_and_return<T: Encode + Decode, R: Rules<Output = Vec<u8>>>(
    trial: &Trial<'_>,
    rules: &R,
    there: &Vec<u8>,
) -> Result<(), Failure> {
    let tags = TagRules::new(trial.alloc);
    is_same(
        &recoded::<T, _, _>(trial, rules, trial.bytes, &tags)?,
        there,
    )?;
    is_same(
        &recoded::<T, _, _>(trial, &tags, there, rules)?,
        trial.bytes,
    )
}

fn recoded<T: Encode + Decode, A: Rules<Output = Vec<u8>>, B: Rules<Output = Vec<u8>>>(
    trial: &Trial<'_>,
    from: &A,
    bytes: &Vec<u8>,
    to: &B,
) -> Result<Vec<u8>, Failure> {
    match recode::<T, A, B>(from, bytes, to, trial.depth) {
        Ok(output) => Ok(output),
        Err(RecodeError::Read(error)) => Err(Failure::of_reading(error)),
        Err(RecodeError::Write(error)) => Err(Failure::of_writing(error)),
    }
}
