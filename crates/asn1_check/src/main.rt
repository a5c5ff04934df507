//! Checks schema tables: reads lines on trees of tags, on bounds and on the components of types from standard input, and
//! writes a verdict on each to standard output.
//!
//! The work is done by [`asn1_report::check`], whose contract is the theorem: what is written is the report of what was
//! read. `main` answers the outcome of the check of standard input ([`asn1_report::checked`], over any reader and writer):
//! the program ends with 0 if every line was understood and every table had its `end`, with 1 if not, and with 2 after an
//! error, whose text is then on standard error. The stored run is of one tree, which is understood; `test_check` has the cases.
#![tactic(auto)]

use asn1_report::{Outcome, checked};
use std::io;

fn main(rt: HostRuntime) -> Outcome {
    checked(rt.alloc(), &mut rt.reader(), io::writer(&rt))
}
