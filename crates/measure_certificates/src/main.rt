//! Reads a certificate and writes it again, over and over, so that `bench/certificates.py` can measure the time.
//!
//! The program reads the DER of the certificate from standard input. Its arguments are three numbers:
//!
//! | Argument | Work |
//! |---|---|
//! | the first | how often the certificate is read |
//! | the second | how often it is written |
//! | the third | how often it is read by `read_canonical` |
//!
//! After that it is read and written once more. The output is the number of these bytes with a checksum, or the error. The
//! contract of `repeated` promises that the bytes are the DER of some certificate. The stored run has one set of arguments.
#![tactic(auto)]

mod repeated;

use repeated::{Counts, repeated};
use std::env;
use std::io::{self, Read};

fn main(rt: HostRuntime) -> io::Result<()> {
    let mut words = env::args(&rt)?;
    let _program = words.next();
    let counts = Counts {
        reads: number(words.next()),
        writes: number(words.next()),
        canonical_reads: number(words.next()),
    };
    let mut input = Vec::new(rt.alloc());
    rt.reader().read_to_end(&mut input)?;
    match repeated(rt.alloc(), &input, counts) {
        Ok(bytes) => println!(rt; "{} bytes, checksum {}", bytes.len(), checksum(&bytes)),
        Err(failure) => println!(rt; "{failure}"),
    }
}

/// The number that a word is, or 0.
fn number(word: Option<String>) -> u32 {
    match word {
        Some(word) => word.parse::<u32>().unwrap_or(0),
        None => 0,
    }
}

/// A sum of bytes that tells in which order they are.
fn checksum(bytes: &[u8]) -> u32 {
    let mut sum = 0u32;
    for byte in bytes {
        sum = sum.wrapping_mul(31).wrapping_add(u32::from(*byte));
    }
    sum
}
