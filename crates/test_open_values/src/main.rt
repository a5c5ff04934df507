//! Reads octets of open types by the calls of `asn1_tables`, in DER, by lines that it reads from standard input.
//!
//! A line is a type, `BOOLEAN`, `INTEGER` or `UTF8String`, and octets in hexadecimal; behind ` ; ` comes its source. The program writes
//! the line, and behind an arrow the value, and whether it comes back of the octets that are written of it; or why it is refused. Lines
//! that are empty or begin with `#` are written as they are. The stored run is the test.
#![tactic(auto)]

use asn1_dec::{Decode, DecodeError};
use asn1_der::DerRules;
use asn1_enc::Encode;
use asn1_tables::{open_round_trip, read_open};
use asn1_values::Integer;
use std::alloc::Global;
use std::fmt::Debug;
use std::io::{self, BufRead, BufReader};

// As many scopes as a value may nest.
const DEPTH: usize = 4;

fn main(rt: HostRuntime) -> io::Result<()> {
    let alloc = rt.alloc();
    for line in BufReader::new(alloc, rt.reader())?.lines(alloc) {
        let line = line?;
        let line = line.as_str();
        if line.is_empty() || line.starts_with('#') {
            println!(&rt; "{line}")?;
        } else {
            match answer_to(alloc, line) {
                Ok(answer) => println!(&rt; "{line} -> {answer}")?,
                Err(error) => println!(&rt; "{line} -> refused: {error}")?,
            }
        }
    }
    Ok(())
}

// The answer to a line.
fn answer_to(alloc: Global, line: &str) -> Result<String, DecodeError> {
    let words = match line.split_once(" ; ") {
        Some((words, _source)) => words,
        None => line,
    };
    let (name, digits) = words.split_once(' ').unwrap_or((words, ""));
    let Ok(octets) = hex::decode(alloc, digits) else {
        return Ok(String::from_str(alloc, "not understood")?);
    };
    match name {
        "BOOLEAN" => shown::<bool>(alloc, &octets),
        "INTEGER" => shown::<Integer>(alloc, &octets),
        "UTF8String" => shown::<String>(alloc, &octets),
        _ => Ok(String::from_str(alloc, "not understood")?),
    }
}

// The value of the octets, and whether it comes back.
fn shown<T: Encode + Decode + Debug + Drop>(
    alloc: Global,
    octets: &[u8],
) -> Result<String, DecodeError> {
    let rules = DerRules::new(alloc);
    let value: T = read_open(&rules, alloc, octets, DEPTH)?;
    let comes_back = match open_round_trip(&rules, alloc, &value, DEPTH, DEPTH) {
        Ok(again) => again == value,
        Err(_) => false,
    };
    let end = if comes_back { "comes back" } else { "is lost" };
    Ok(format!(in alloc; "{value:?} {end}")?)
}
