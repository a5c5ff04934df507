//! Bytes that are appended to a stream in pieces, and blocks that are taken from it.
use crate::blocks::BlockReader;
use crate::request::Request;
use asn1_rules::{Iter, iter_of};
use std::alloc::{AllocError, Global};
use std::io;

/// Appends bytes in pieces, and prints how many blocks were taken.
pub(crate) fn run(rt: &impl Print, alloc: Global, request: Request<'_>) -> io::Result<()> {
    let total = request.number(1) as usize;
    let size = request.number(2) as usize;
    match append_all(alloc, total, size, request.word(3) == "late") {
        Ok(blocks) => println!(rt; "{blocks} blocks"),
        Err(error) => println!(rt; "{error}"),
    }
}

/// Appends this many bytes in pieces of this size, and answers how many blocks were taken of them.
fn append_all(
    alloc: Global,
    total: usize,
    size: usize,
    takes_late: bool,
) -> Result<usize, AllocError> {
    let bytes = vec![in alloc; 7u8; total]?;
    if size == 0 {
        return Ok(0);
    }
    let mut iter = iter_of::<(), BlockReader>(alloc, &[], BlockReader);
    let mut blocks = 0usize;
    for piece in bytes.chunks(size) {
        iter.append_bytes(piece)?;
        if !takes_late {
            blocks = blocks.saturating_add(take_blocks(&mut iter, total));
        }
    }
    Ok(blocks.saturating_add(take_blocks(&mut iter, total)))
}

/// Takes the blocks that have come, at most this many, and answers how many there were.
fn take_blocks(iter: &mut Iter<'_, (), BlockReader>, most: usize) -> usize {
    let mut blocks = 0usize;
    while blocks < most && takes_block(iter) {
        blocks += 1;
    }
    blocks
}

/// Takes a block, and answers whether there was one.
fn takes_block(iter: &mut Iter<'_, (), BlockReader>) -> bool {
    matches!(iter.next(), Some(Ok(())))
}
