//! Lists that are written and read over and over.
use crate::numbered::{Numbered, list};
use crate::request::Request;
use asn1_dec::Decode;
use asn1_enc::Encode;
use asn1_rules::{Rules, read_canonical};
use asn1_samples::{Badge, Person, Profile};
use std::alloc::Global;
use std::io;
use test_calls::{Failure, node_chain};

/// Makes what is asked for, and writes or reads it over and over.
pub(crate) fn run<R: Rules<Output = Vec<u8>>>(
    rt: &impl Print,
    alloc: Global,
    rules: &R,
    request: Request<'_>,
) -> io::Result<()> {
    match request.word(2) {
        "person" => run_list::<Person, R>(rt, alloc, rules, request),
        "profile" => run_list::<Profile, R>(rt, alloc, rules, request),
        "badge" => run_list::<Badge, R>(rt, alloc, rules, request),
        "node" => run_nodes(rt, alloc, rules, request),
        _ => println!(rt; "not understood"),
    }
}

/// Does a request with a list of numbered values.
fn run_list<T: Encode + Decode + Numbered, R: Rules<Output = Vec<u8>>>(
    rt: &impl Print,
    alloc: Global,
    rules: &R,
    request: Request<'_>,
) -> io::Result<()> {
    match list::<T>(alloc, request.number(3)) {
        Ok(list) => run_value(rt, rules, &list, request),
        Err(failure) => println!(rt; "not made: {failure:?}"),
    }
}

/// Does a request with a chain of nodes.
fn run_nodes<R: Rules<Output = Vec<u8>>>(
    rt: &impl Print,
    alloc: Global,
    rules: &R,
    request: Request<'_>,
) -> io::Result<()> {
    match node_chain(alloc, request.number(3) as usize) {
        Ok(node) => run_value(rt, rules, &node, request),
        Err(_) => println!(rt; "not made"),
    }
}

/// Writes or reads a value over and over, and prints how many bytes it has, and their checksum.
fn run_value<T: Encode + Decode, R: Rules<Output = Vec<u8>>>(
    rt: &impl Print,
    rules: &R,
    value: &T,
    request: Request<'_>,
) -> io::Result<()> {
    match repeated(rules, value, request) {
        Ok(bytes) => println!(rt; "{} bytes, checksum {}", bytes.len(), checksum(&bytes)),
        Err(failure) => println!(rt; "{failure:?}"),
    }
}

/// The bytes of a value, which was written or read over and over.
fn repeated<T: Encode + Decode, R: Rules<Output = Vec<u8>>>(
    rules: &R,
    value: &T,
    request: Request<'_>,
) -> Result<Vec<u8>, Failure> {
    let bytes = written(rules, value)?;
    for _time in 0..request.number(4) {
        match request.word(1) {
            "read" => is_read::<T, R>(rules, &bytes)?,
            "canonical" => is_canonical::<T, R>(rules, &bytes)?,
            _ => is_written(rules, value)?,
        }
    }
    Ok(bytes)
}

/// The bytes of a value, with as many nested scopes as it takes.
fn written<T: Encode, R: Rules<Output = Vec<u8>>>(
    rules: &R,
    value: &T,
) -> Result<Vec<u8>, Failure> {
    rules
        .write_value(value, usize::MAX)
        .map_err(Failure::of_writing)
}

/// Whether a value is written.
fn is_written<T: Encode, R: Rules<Output = Vec<u8>>>(rules: &R, value: &T) -> Result<(), Failure> {
    match rules.write_value(value, usize::MAX) {
        Ok(_) => Ok(()),
        Err(error) => Err(Failure::of_writing(error)),
    }
}

/// Whether a value is read.
fn is_read<T: Decode, R: Rules<Output = Vec<u8>>>(
    rules: &R,
    bytes: &Vec<u8>,
) -> Result<(), Failure> {
    match rules.read_value::<T>(bytes, usize::MAX) {
        Ok(_) => Ok(()),
        Err(error) => Err(Failure::of_reading(error)),
    }
}

/// Whether a value is read of the very bytes that writing it makes.
fn is_canonical<T: Encode + Decode, R: Rules<Output = Vec<u8>>>(
    rules: &R,
    bytes: &Vec<u8>,
) -> Result<(), Failure> {
    match read_canonical::<T, R>(rules, bytes, usize::MAX) {
        Ok(_) => Ok(()),
        Err(error) => Err(Failure::of_canonical_reading(error)),
    }
}

/// A sum of bytes that tells in which order they are.
fn checksum(bytes: &[u8]) -> u32 {
    let mut sum = 0u32;
    for byte in bytes {
        sum = sum.wrapping_mul(31).wrapping_add(u32::from(*byte));
    }
    sum
}
