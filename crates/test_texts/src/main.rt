//! Writes values as texts, and does the work of a program of `asn1_convert`, by lines that it reads from standard input.
//!
//! | Words | Work |
//! |---|---|
//! | `TYPE OCTETS` | the value of which these are the DER, in X.680's notation and as JSON |
//! | `FROM TO TYPE OCTETS` | values of the type by the codec FROM, written in the form TO |
//! | `check TYPE OCTETS` | whether the octets are the DER of a value |
//! | `pieces N FROM TO TYPE OCTETS` | the second work, of octets that come in pieces of N; before each answer, how many have come |
//!
//! FROM and TO are words of a program of `asn1_convert`. TYPE is a name of the lists of `test_calls` or of `others.rt` in the first
//! work, of `types.rt` in the others. OCTETS are in hexadecimal, with spaces wherever they help, and after ` ; ` comes what is in them or
//! what is asked. The program writes the line, the output (octets in hexadecimal), and the line of a value that was refused. Lines that
//! are empty or begin with `#` are written as they are.
//!
//! The stored run is the test. Octets and positions of the lines of `asn1_convert` were made by hand from X.690, those of the packed
//! codec from the page of asn1_items, and two are what the line before them writes. bench/texts.py compares the texts of the first work
//! with Erlang's compiler, where it makes the value: the JSON with what that writes of the DER, and the notation with the DER of the value
//! that it makes of it.
#![tactic(auto)]

mod conversions;
mod mask;
mod others;
mod request;
mod texts;
mod types;

use crate::conversions::answers_of;
use crate::request::Request;
use crate::texts::texts_of;
use std::io::{self, BufRead, BufReader};

fn main(rt: HostRuntime) -> io::Result<()> {
    let alloc = rt.alloc();
    for line in BufReader::new(alloc, rt.reader())?.lines(alloc) {
        let line = line?;
        println!(&rt; "{line}")?;
        if let Some(request) = Request::of_line(alloc, line.as_str())? {
            match request.action {
                None => println!(&rt; "{}", texts_of(alloc, &request)?)?,
                Some(action) => print!(&rt; "{}", answers_of(alloc, &request, action)?)?,
            }
        }
    }
    Ok(())
}
