//! Asks codecs of bytes, by lines that it reads from standard input, and writes a line for each to standard output.
//!
//! A line is a request, and after ` ; ` the source of its answer:
//!
//! | Words | Work | Answer |
//! |---|---|---|
//! | `CODEC TYPE DEPTH read OTHER BYTES` | the codec reads a value from all of the bytes | its bytes in the other codec |
//! | `CODEC TYPE DEPTH front OTHER BYTES` | the codec reads the value with which the bytes begin | its bytes in the other codec, and its length |
//! | `CODEC TYPE DEPTH canonical OTHER BYTES` | the codec reads a value from all of the bytes, if writing it makes the same bytes | its bytes in the other codec |
//! | `CODEC TYPE DEPTH stream OTHER BYTES` | the codec reads values one after another, as long as writing each makes the same bytes | their bytes in the other codec, how many they are, and why no more came |
//! | `CODEC TYPE DEPTH write OTHER BYTES` | the codec writes the value that the other one reads | the bytes |
//!
//! `CODEC` and `OTHER` are `packed`, `tag`, `der` or `ber`; the first of them may open `DEPTH` nested scopes. `TYPE` is a name of a list
//! in `test_calls`; `answers.rt` has the lists for each pair of codecs. `BYTES` are in hexadecimal, with spaces wherever they help.
//! Lines that are empty or begin with `#` are written as they are.
//!
//! The program is compiled for each type with each codec that is asked of it, which takes half a second or more. So the tag form,
//! whose items are those of the packed form, is asked of a type of each kind and of the sample types, and the lists of other actions
//! than `read` and `write` are short.
//!
//! The stored run is the test. The answers in `stdout` were made by hand or with another tool: X.690's examples, OpenSSL, and a
//! model of three codecs in Python, `bench/vectors.py`, which checks each line that has a value in two forms. Other spellings of BER
//! are those of `bench/spellings.py`, and those that Erlang's asn1ct, asn1c and OpenSSL write (`bench/encoders.py`, which compares
//! what these read, too). The answer to bytes that are refused is the text of the error.
#![tactic(auto)]

mod answers;

use answers::Pairs;
use std::io::{self, BufRead, BufReader};
use test_calls::print_answer;

fn main(rt: HostRuntime) -> io::Result<()> {
    let alloc = rt.alloc();
    for line in BufReader::new(alloc, rt.reader())?.lines(alloc) {
        print_answer(&rt, alloc, &Pairs, line?.as_str())?;
    }
    Ok(())
}
