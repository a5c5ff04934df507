//! A value that is written and read, alone, in a list and out of pieces, where a growth may be refused.
use crate::report::Report;
use crate::trial::Trial;
use asn1_bench::{BenchReader, BenchRules};
use asn1_ber::{BerReader, BerRules};
use asn1_dec::Decode;
use asn1_der::{DerReader, DerRules};
use asn1_enc::Encode;
use asn1_rules::{FrontReader, Pieces, read_pieces, write_list};
use asn1_tagform::TagRules;
use test_calls::{Codec, Failure, is_same};

/// Whether a value comes back, also as what is written again, is written in a list, and comes out of two pieces.
pub(crate) fn try_growths<T: Encode + Decode>(
    trial: &Trial<'_>,
    value: T,
) -> Result<Report, Failure> {
    is_canonical(trial, &value)?;
    let values = twice(trial, value)?;
    let bytes = list_of(trial, &values)?;
    are_one_after_another(trial, &values, &bytes)?;
    come_out_of_pieces(trial, &values, &bytes, bytes.len() / 2)?;
    Ok(Report::ComesBack)
}

/// Whether a value and what is read of it come out of two pieces, wherever their bytes are cut.
pub(crate) fn try_pieces<T: Encode + Decode>(
    trial: &Trial<'_>,
    value: T,
) -> Result<Report, Failure> {
    let values = twice(trial, value)?;
    let bytes = list_of(trial, &values)?;
    for position in 0..=bytes.len() {
        come_out_of_pieces(trial, &values, &bytes, position)?;
    }
    Ok(Report::ComesBack)
}

/// Whether a value is read back if writing it makes the same bytes.
fn is_canonical<T: Encode + Decode>(trial: &Trial<'_>, value: &T) -> Result<(), Failure> {
    let bytes = trial.written(value)?;
    match trial
        .codec
        .read_canonical::<T>(trial.alloc, &bytes, trial.depth)
    {
        Ok(back) => is_same(&back, value),
        Err(error) => Err(Failure::of_canonical_reading(error)),
    }
}

/// A list of a value and of what comes back of it, which has to be the same.
fn twice<T: Encode + Decode>(trial: &Trial<'_>, value: T) -> Result<Vec<T>, Failure> {
    let back = match trial.read::<T>(&trial.written(&value)?) {
        Ok(back) => back,
        Err(error) => return Err(Failure::of_reading(error)),
    };
    is_same(&back, &value)?;
    let mut values = Vec::new(trial.alloc);
    push(&mut values, value)?;
    push(&mut values, back)?;
    Ok(values)
}

fn push<T: Drop>(values: &mut Vec<T>, value: T) -> Result<(), Failure> {
    match values.push(value) {
        Ok(()) => Ok(()),
        Err(_) => Err(Failure::Memory),
    }
}

/// The bytes of the values, one value after another.
fn list_of<T: Encode>(trial: &Trial<'_>, values: &[T]) -> Result<Vec<u8>, Failure> {
    let (alloc, depth) = (trial.alloc, trial.depth);
    let written = match trial.codec {
        Codec::Packed => write_list(alloc, &BenchRules::new(alloc), values, depth),
        Codec::TagForm => write_list(alloc, &TagRules::new(alloc), values, depth),
        Codec::Der => write_list(alloc, &DerRules::new(alloc), values, depth),
        Codec::Ber => write_list(alloc, &BerRules::new(alloc), values, depth),
    };
    match written {
        Ok(bytes) => Ok(bytes),
        Err(error) => Err(Failure::of_writing(error)),
    }
}

/// Whether the bytes are those of the values, one value after another.
fn are_one_after_another<T: Encode>(
    trial: &Trial<'_>,
    values: &[T],
    bytes: &[u8],
) -> Result<(), Failure> {
    let mut rest = bytes;
    for value in values {
        let one = trial.written(value)?;
        let (first, others) = rest.split_at(one.len().min(rest.len()));
        is_same(&(first == one.as_slice()), &true)?;
        rest = others;
    }
    is_same(&rest.is_empty(), &true)
}

/// Whether these values are read of these bytes, which are cut at a place. The tag form has no reader of streams.
fn come_out_of_pieces<T: Decode>(
    trial: &Trial<'_>,
    values: &[T],
    bytes: &[u8],
    position: usize,
) -> Result<(), Failure> {
    match trial.codec {
        Codec::Packed => are_read(
            trial,
            BenchReader::new(trial.alloc, trial.depth),
            values,
            bytes,
            position,
        ),
        Codec::TagForm => Ok(()),
        Codec::Der => are_read(
            trial,
            DerReader::new(trial.alloc, trial.depth),
            values,
            bytes,
            position,
        ),
        Codec::Ber => are_read(
            trial,
            BerReader::new(trial.alloc, trial.depth),
            values,
            bytes,
            position,
        ),
    }
}

fn are_read<T: Decode, F: FrontReader<T> + Drop>(
    trial: &Trial<'_>,
    reader: F,
    values: &[T],
    bytes: &[u8],
    position: usize,
) -> Result<(), Failure> {
    let (first, second) = bytes.split_at(position.min(bytes.len()));
    match read_pieces::<T, F>(trial.alloc, reader, &[first, second], values.len()) {
        Ok(read) => are_all(&read, values),
        Err(error) => Err(Failure::of_reading(error)),
    }
}

/// Whether these values were read. If some are missing, the others are a beginning, and the last error is the answer.
fn are_all<T: Decode>(read: &Pieces<T>, values: &[T]) -> Result<(), Failure> {
    is_same(&values.starts_with(&read.values), &true)?;
    match read.last {
        Some(error) => Err(Failure::of_reading(error)),
        None => is_same(&read.values.len(), &values.len()),
    }
}
