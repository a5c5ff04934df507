//! Bytes of a value of which the end is missing, or one is another.
use crate::report::Report;
use crate::trial::Trial;
use asn1_dec::{Decode, DecodeError, Needed};
use asn1_enc::Encode;
use test_calls::{Failure, is_same};

/// Whether each beginning of these bytes is refused since bytes are missing, also at the front of a stream.
pub(crate) fn beginnings_are_too_short<T: Decode>(
    trial: &Trial<'_>,
    bytes: &[u8],
) -> Result<Report, Failure> {
    for end in 0..bytes.len() {
        if let Some((begun, _rest)) = bytes.split_at_checked(end) {
            is_too_short::<T>(trial, &Vec::from_slice(trial.alloc, begun)?)?;
        }
    }
    Ok(Report::TooShort(bytes.len()))
}

fn is_too_short<T: Decode>(trial: &Trial<'_>, begun: &Vec<u8>) -> Result<(), Failure> {
    let whole = trial.read::<T>(begun).err();
    let front = trial
        .codec
        .read_front::<T>(trial.alloc, begun, trial.depth)
        .err();
    match whole {
        Some(DecodeError::Incomplete(Needed::Size(_))) => is_same(&front, &whole),
        _ => Err(Failure::Another),
    }
}

/// How many bytes make a value at each place of these bytes, beside the others. Each is written as its bytes.
pub(crate) fn values_with_one_other_byte<T: Encode + Decode>(
    trial: &Trial<'_>,
    bytes: &[u8],
) -> Result<Report, Failure> {
    let mut counts = Vec::new(trial.alloc);
    for position in 0..bytes.len() {
        let count = values_at::<T>(trial, bytes, position)?;
        if counts.push(count).is_err() {
            return Err(Failure::Memory);
        }
    }
    Ok(Report::Changed(counts))
}

/// How many bytes make a value at a place.
fn values_at<T: Encode + Decode>(
    trial: &Trial<'_>,
    bytes: &[u8],
    position: usize,
) -> Result<usize, Failure> {
    let mut count = 0usize;
    for byte in 0..=255u8 {
        let mut copy = Vec::from_slice(trial.alloc, bytes)?;
        if let Some(changed) = copy.get_mut(position) {
            *changed = byte;
        }
        if is_value::<T>(trial, &copy)? {
            count = count.saturating_add(1);
        }
    }
    Ok(count)
}

/// Whether these bytes are a value, which is then written as they are, and is read at the front with all of them.
fn is_value<T: Encode + Decode>(trial: &Trial<'_>, bytes: &Vec<u8>) -> Result<bool, Failure> {
    let front = trial.codec.read_front::<T>(trial.alloc, bytes, trial.depth);
    match trial.read::<T>(bytes) {
        Ok(value) => {
            is_same(&trial.written(&value)?, bytes)?;
            is_whole(front, bytes.len())?;
            Ok(true)
        }
        Err(DecodeError::Memory) => Err(Failure::Memory),
        Err(_) => Ok(false),
    }
}

/// Whether a value at the front has this length.
fn is_whole<T: Drop>(front: Result<(T, usize), DecodeError>, length: usize) -> Result<(), Failure> {
    match front {
        Ok((_, read)) => is_same(&read, &length),
        Err(error) => Err(Failure::of_reading(error)),
    }
}
