//! Writes and reads lists over and over, or appends bytes to a stream, so that benchmarks can measure the time.
//!
//! `bench/run.py` runs the program beside `bench/plain_codecs.rs`, which writes the same, and `bench/append.py` measures the cost
//! of appending. The arguments are a request:
//!
//! | Words | Work | Output |
//! |---|---|---|
//! | `packed write LIST COUNT TIMES` | writes a list of `COUNT` values this many times | its number of bytes, and a checksum |
//! | `packed read LIST COUNT TIMES` | writes such a list once, and reads it this many times | the same |
//! | `packed canonical LIST COUNT TIMES` | writes it once, and reads it by `read_canonical` this many times | the same |
//! | `grow COUNT SIZE` | reads a list of an indefinite length in BER that comes in pieces of this size | its number of elements |
//! | `append TOTAL SIZE WHEN` | appends bytes in pieces of this size, and takes blocks of 1000 | the number of blocks |
//!
//! The codec is `packed`, `tag`, `der` or `ber`, or `each` for all of them. `LIST` is `person`, `profile` or `badge`, or `node` for a
//! chain of `COUNT` nodes, which is written and read as a list is. Blocks are taken after each piece, or when all is appended if
//! `WHEN` is `late`; with the size 0 nothing is appended. Requests may follow one another in this order: `grow`, `append`, lists. The
//! stored run of `grow` ends in time only if a list in pieces costs time linear in its octets.
//!
//! `specs/Blocks` defines the blocks of a stream. No contract covers the output.
#![tactic(auto)]

mod appending;
mod blocks;
mod codecs;
mod growing;
mod lists;
mod numbered;
mod request;

use request::Request;
use std::{env, io};

fn main(rt: HostRuntime) -> io::Result<()> {
    let words: Vec<String> = env::args(&rt)?.skip(1).collect(rt.alloc())?;
    let mut request = Request { words: &words };
    if request.word(0) == "grow" {
        growing::run(&rt, rt.alloc(), request)?;
        request = request.after(3);
    }
    if request.word(0) == "append" {
        appending::run(&rt, rt.alloc(), request)?;
        request = request.after(4);
    }
    codecs::run(&rt, rt.alloc(), request)
}
