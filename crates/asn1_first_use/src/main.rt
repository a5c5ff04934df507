//! A first program: writes a value as bytes, and reads it back from a stream of them that comes in two pieces.
//!
//! `rt try` in this folder runs the program; `rt run` proves it and all crates below it first. It takes no arguments and no
//! input, and prints two lines: the 37 bytes of a `Person` of `asn1_samples` in the packed codec (`asn1_bench`), and `true`,
//! since the value that was read equals the one that was written. The stored run has both.
//!
//! If writing or reading fails, it prints the error. `main` has no contract; those of `write_value` and `read_pieces` are in
//! `asn1_rules`.
#![tactic(auto)]

use asn1_bench::{BenchReader, BenchRules};
use asn1_samples::Person;
use asn1_schema::{Integer, Rules, read_pieces};
use std::io;

fn main(rt: HostRuntime) -> io::Result<()> {
    let alloc = rt.alloc();
    let name = String::from_str(alloc, "Ann")?;
    let ann = Person {
        age: Integer::from(30u8),
        name,
    };
    let bytes = match BenchRules::new(alloc).write_value(&ann, 1) {
        Ok(bytes) => bytes,
        Err(error) => return println!(rt; "{error}"),
    };
    for byte in &bytes {
        print!(rt; "{byte:02x} ")?;
    }
    println!(rt; "")?;
    let (first, second) = bytes.split_at(20.min(bytes.len()));
    match read_pieces(alloc, BenchReader::new(alloc, 1), &[first, second], 1) {
        Ok(read) => println!(rt; "{}", read.values.first() == Some(&ann)),
        Err(error) => println!(rt; "{error}"),
    }
}
