//! Bytes that are damaged, and what is read of them. Undamaged, they are read as the value that was written.
use crate::report::Report;
use crate::source::Source;
use crate::trial::Trial;
use asn1_dec::Decode;
use asn1_enc::Encode;
use std::alloc::Global;
use test_calls::Failure;

/// How often the bytes are damaged.
const TRIES: u32 = 300;

/// Damages the bytes of a value by this seed, and tries what is read of them.
pub(crate) fn try_damage<T: Encode + Decode>(
    trial: &Trial<'_>,
    value: &T,
    seed: u32,
) -> Result<Report, Failure> {
    let bytes = trial.written(value)?;
    trial.is_read(&bytes, value)?;
    let mut source = Source::new(seed);
    for _try in 0..TRIES {
        try_damaged::<T>(trial, &damaged(trial.alloc, &bytes, &mut source)?)?;
    }
    Ok(Report::ComesBack)
}

/// Whether what is read of these bytes comes back, if something is.
fn try_damaged<T: Encode + Decode>(trial: &Trial<'_>, bytes: &Vec<u8>) -> Result<(), Failure> {
    match trial.read::<T>(bytes) {
        Ok(value) => {
            let again = trial.written(&value)?;
            trial.is_read(&again, &value)
        }
        Err(_) => Ok(()),
    }
}

/// The bytes, damaged at up to three places.
fn damaged(alloc: Global, bytes: &[u8], source: &mut Source) -> Result<Vec<u8>, Failure> {
    let mut copy = Vec::from_slice(alloc, bytes)?;
    for _place in 0..source.below(4) {
        damage_once(&mut copy, source)?;
    }
    Ok(copy)
}

/// Damages bytes at one place: they are cut off there, or a byte is taken away, put in, changed by one or replaced.
fn damage_once(bytes: &mut Vec<u8>, source: &mut Source) -> Result<(), Failure> {
    let position = source.below(bytes.len());
    let byte = source.byte();
    let Some(old) = bytes.get(position).copied() else {
        return Ok(bytes.extend_from_slice(&[byte])?);
    };
    match source.below(8) {
        0 => bytes.truncate(position),
        1 => {
            bytes.remove(position);
        }
        2 => insert(bytes, position, byte)?,
        3 => bytes[position] = old.wrapping_add(1),
        4 => bytes[position] = old.wrapping_sub(1),
        _ => bytes[position] = byte,
    }
    Ok(())
}

/// Puts a byte in at a place, if this many are before it.
fn insert(bytes: &mut Vec<u8>, position: usize, byte: u8) -> Result<(), Failure> {
    if bytes.len() < position {
        return Ok(());
    }
    match bytes.insert(position, byte) {
        Ok(()) => Ok(()),
        Err(_) => Err(Failure::Memory),
    }
}
