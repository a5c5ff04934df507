//! Contents of many octets.
use asn1_values::OctetString;
use std::alloc::Global;
use std::io;
use test_calls::Request;

/// Writes an OCTET STRING of as many octets as the word says, and prints how many bytes it has, or the error.
pub(crate) fn run(rt: &impl Print, alloc: Global, request: &Request<'_>) -> io::Result<()> {
    let Ok(length) = request.word.parse::<usize>() else {
        return println!(rt; "not understood");
    };
    let Ok(octets) = zeros(alloc, length) else {
        return println!(rt; "no memory");
    };
    let value = OctetString::new(octets);
    match request.codec.write(alloc, &value, request.depth) {
        Ok(bytes) => println!(rt; "written: {} bytes", bytes.len()),
        Err(error) => println!(rt; "{error}"),
    }
}

fn zeros(alloc: Global, length: usize) -> Result<Vec<u8>, std::alloc::AllocError> {
    vec![in alloc; 0; length]
}
