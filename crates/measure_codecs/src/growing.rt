//! A list of an indefinite length that comes in pieces.
use crate::request::Request;
use asn1_ber::BerReader;
use asn1_rules::{Iter, iter_of};
use std::alloc::{AllocError, Global};
use std::io;

/// Reads a list that comes in pieces, and prints how many elements it has.
pub(crate) fn run(rt: &impl Print, alloc: Global, request: Request<'_>) -> io::Result<()> {
    let count = request.number(1) as usize;
    let size = request.number(2) as usize;
    match read_list(alloc, count, size) {
        Ok(read) => println!(rt; "{read} elements"),
        Err(error) => println!(rt; "{error}"),
    }
}

/// Appends the octets of a list of this many elements in pieces of this size, tries to read it after each, and answers how many
/// elements were read.
fn read_list(alloc: Global, count: usize, size: usize) -> Result<usize, AllocError> {
    let octets = list_in_ber(alloc, count)?;
    if size == 0 {
        return Ok(0);
    }
    let mut iter = iter_of::<Vec<bool>, BerReader>(alloc, &[], BerReader::new(alloc, 1));
    let mut read = 0usize;
    for piece in octets.chunks(size) {
        iter.append_bytes(piece)?;
        read = read.saturating_add(elements_of_next(&mut iter));
    }
    Ok(read)
}

/// How many elements the next list has, or 0 where it is not whole.
fn elements_of_next(iter: &mut Iter<'_, Vec<bool>, BerReader>) -> usize {
    match iter.next() {
        Some(Ok(list)) => list.len(),
        _ => 0,
    }
}

/// A SEQUENCE OF of an indefinite length, with TRUE this many times, in BER.
fn list_in_ber(alloc: Global, count: usize) -> Result<Vec<u8>, AllocError> {
    let mut octets = Vec::new(alloc);
    octets.extend_from_slice(&[0x30, 0x80])?;
    for _ in 0..count {
        octets.extend_from_slice(&[1, 1, 0xff])?;
    }
    octets.extend_from_slice(&[0, 0])?;
    Ok(octets)
}
