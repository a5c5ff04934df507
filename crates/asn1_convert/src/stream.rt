//! Values one after another.
ghost use Rattle.asn1_convert.specs.Forms.{IsFront};
ghost use Rattle.asn1_convert.specs.Conversions.{HasAppended, HasConverted, HaveConverted, IsCause, IsStop, IsValueCause};
ghost use Rattle.std.specs.Prelude.{◌≡◌, [], IfOk, IfSome, MatchOption, MatchResult};

use crate::form::{CodecForm, OutputForm};
use crate::fronts::front_length;
use crate::recoding::convert_value;
use asn1_dec::Decode;
use asn1_enc::Encode;
use asn1_items::ItemError;
use asn1_rules::RecodeError;
use std::alloc::{AllocError, Global};
use thiserror::Error;

/// Why a value was not converted.
#[derive(Clone, Copy, Debug, Drop, PartialEq, Eq, Error)]
pub enum Cause {
    /// The octets begin no value of the codec, or end inside one.
    #[error("{0}")]
    NoFront(ItemError),
    /// It was not read, or not written.
    #[error("{0}")]
    NotRecoded(RecodeError),
    /// There was no memory for the output.
    #[error("no memory")]
    Memory,
}

/// A value that was not converted.
#[derive(Clone, Copy, Debug, Drop, PartialEq, Eq)]
pub struct Stop {
    /// How many values were converted before it.
    pub before: usize,
    /// The position of its first octet.
    pub start: usize,
    /// How many octets it has, if that is known.
    pub length: Option<usize>,
    /// Why it was not.
    pub cause: Cause,
}

/// The conversion of the values of an input, and its stop, if it did not come to the end.
#[derive(Debug, Drop)]
pub struct Conversion {
    /// How many values were converted.
    pub count: usize,
    /// The conversions of the values, one after another.
    pub output: Vec<u8>,
    /// The value that was not converted.
    pub stop: Option<Stop>,
}

/// The conversions of the values of an input, one after another, until one is not converted.
pub fn convert_values<T: Encode + Decode>(
    alloc: Global,
    from: CodecForm,
    input: &[u8],
    to: OutputForm,
    depth: usize,
) -> Conversion
    ensures { MatchOption result.stop
        (HaveConverted T.meaning T.eq T.refusals depth from to input.now [] result.output.items
        result.count)
        (λ stop. IsStop T.meaning T.eq T.refusals depth from to input.now result.output.items stop ×
        (stop.before ≡ result.count)) }
{
    let mut rest = input;
    let mut before = 0;
    let mut output = Vec::new(alloc);
    while !rest.is_empty() {
        match convert_front::<T>(alloc, from, rest, to, depth, &mut output) {
            Ok(behind) => rest = behind,
            Err(refused) => {
                let start = input.len() - rest.len();
                let stop = Stop {
                    before,
                    start,
                    length: refused.length,
                    cause: refused.cause,
                };
                return Conversion {
                    count: before,
                    output,
                    stop: Some(stop),
                };
            }
        }
        before += 1;
    }
    Conversion {
        count: before,
        output,
        stop: None,
    }
}

/// A value that was not converted.
#[derive(Clone, Copy)]
struct Refused {
    /// How many octets it has, if that is known.
    length: Option<usize>,
    /// Why it was not.
    cause: Cause,
}

/// Appends what is written of the value at the front of an input, and answers what is left.
fn convert_front<'a, T: Encode + Decode>(
    alloc: Global,
    from: CodecForm,
    input: &'a [u8],
    to: OutputForm,
    depth: usize,
    output: &mut Vec<u8>,
) -> Result<&'a [u8], Refused>
    ensures { MatchResult result
        (λ left. HasConverted T.meaning T.eq T.refusals depth from to input.now output.old.items left.now
        output.new.items)
        (λ refused. (output.new.items ≡ output.old.items) ×
        IfSome refused.length (IsFront from input.now) ×
        IsCause T.meaning T.eq T.refusals depth from to input.now refused.cause) }
{
    let length = match front_length(alloc, from, input) {
        Ok(length) => length,
        Err(error) => {
            return Err(Refused {
                length: None,
                cause: Cause::NoFront(error),
            });
        }
    };
    let (octets, left) = input.split_at(length);
    match append_value::<T>(alloc, from, octets, to, depth, output) {
        Ok(()) => Ok(left),
        Err(cause) => Err(Refused {
            length: Some(length),
            cause,
        }),
    }
}

/// Appends what is written of the value whose octets these are.
fn append_value<T: Encode + Decode>(
    alloc: Global,
    from: CodecForm,
    octets: &[u8],
    to: OutputForm,
    depth: usize,
    output: &mut Vec<u8>,
) -> Result<(), Cause>
    ensures { MatchResult result
        (λ _. HasAppended T.meaning T.eq T.refusals depth from to octets.now output.old.items
        output.new.items)
        (λ cause. (output.new.items ≡ output.old.items) ×
        IsValueCause T.meaning T.eq T.refusals depth from to octets.now cause) }
{
    let Ok(own) = owned(alloc, octets) else {
        return Err(Cause::Memory);
    };
    let written = match convert_value::<T>(alloc, from, &own, to, depth) {
        Ok(written) => written,
        Err(error) => return Err(Cause::NotRecoded(error)),
    };
    match output.extend_from_slice(written.as_slice()) {
        Ok(()) => Ok(()),
        Err(_) => Err(Cause::Memory),
    }
}

/// Octets of their own memory.
fn owned(alloc: Global, octets: &[u8]) -> Result<Vec<u8>, AllocError>
    ensures { IfOk result (λ own. own.items ≡ octets.now) }
{
    let mut own = Vec::new(alloc);
    own.extend_from_slice(octets)?;
    Ok(own)
}
