//! Texts that are written in short.
use std::alloc::Global;
use std::io::{self, Write};

/// The bytes of a text: `<13>` is the byte 13, and `<3*a#>` is `a0a1a2`.
pub(crate) fn expanded(alloc: Global, text: &str) -> io::Result<Vec<u8>> {
    let mut bytes = Vec::new(alloc);
    let mut parts = text.split('<');
    if let Some(first) = parts.next() {
        bytes.extend_from_slice(first.as_bytes())?;
    }
    for part in parts {
        let (short, plain) = part.split_once('>').unwrap_or((part, ""));
        append_short(&mut bytes, short)?;
        bytes.extend_from_slice(plain.as_bytes())?;
    }
    Ok(bytes)
}

/// Appends a byte of this number, or a text so often.
fn append_short(bytes: &mut Vec<u8>, short: &str) -> io::Result<()> {
    let Some((count, part)) = short.split_once('*') else {
        return Ok(bytes.push(short.parse::<u8>().unwrap_or(b'?'))?);
    };
    for index in 0..count.parse::<usize>().unwrap_or(0) {
        match part.split_once('#') {
            Some((before, after)) => write!(bytes, "{before}{index}{after}")?,
            None => bytes.extend_from_slice(part.as_bytes())?,
        }
    }
    Ok(())
}
