//! Asks codecs of types of modules, by lines that it reads from standard input, and writes a line for each to standard output.
//!
//! The lines are those of `test_vectors`. The types are written over `asn1_schema`, most by `asn1_compile`: the messages of LDAP and
//! their filters, the names of certificates, and the first type of docs/TYPES.md. So `test_calls`, which most tests of codecs use,
//! waits for none of them. The stored run is the test: octets and answers were made as those of `test_vectors`, as each line says.
#![tactic(auto)]

mod module_types;

use module_types::ModuleTypes;
use std::io::{self, BufRead, BufReader};
use test_calls::print_answer;

fn main(rt: HostRuntime) -> io::Result<()> {
    let alloc = rt.alloc();
    for line in BufReader::new(alloc, rt.reader())?.lines(alloc) {
        print_answer(&rt, alloc, &ModuleTypes, line?.as_str())?;
    }
    Ok(())
}
