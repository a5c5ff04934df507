//! Names in the forms of Rust.
use asn1_rust_names::{KnownWords, TakenNames, camel_case, snake_case, upper_case};
use std::alloc::Global;
use std::io::{self, Write};

/// Appends each name of ASN.1, a line each, and its forms beside the words of the others.
pub(crate) fn append_forms(alloc: Global, out: &mut Vec<u8>, names: &[u8]) -> io::Result<()> {
    let mut words = KnownWords::new(alloc);
    for name in names.split(|octet| *octet == b'\n') {
        words.add(name)?;
    }
    for name in names.split(|octet| *octet == b'\n') {
        let separated = words.separated(name)?;
        let parts = separated.as_slice();
        out.extend_from_slice(name)?;
        write!(out, ": {}", camel_case(alloc, parts)?)?;
        write!(out, " {}", snake_case(alloc, parts)?)?;
        writeln!(out, " {}", upper_case(alloc, parts)?)?;
    }
    Ok(())
}

/// Appends each name of a scope, a line each, as it is taken.
pub(crate) fn append_taken(alloc: Global, out: &mut Vec<u8>, names: &[u8]) -> io::Result<()> {
    let mut taken = TakenNames::new(alloc);
    for name in names.split(|octet| *octet == b'\n') {
        if let Ok(name) = str::from_utf8(name) {
            writeln!(out, "{}", taken.take(name)?)?;
        }
    }
    Ok(())
}
