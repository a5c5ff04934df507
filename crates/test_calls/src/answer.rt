//! The answer of a codec to a request.
use asn1_dec::{DecodeError, Needed};
use asn1_enc::EncodeError;
use asn1_rules::CanonicalError;
use std::fmt;

/// The answer of a codec to a request.
#[derive(Drop)]
pub enum Answer {
    /// The bytes of the value, by the codec that writes it.
    Written(Vec<u8>),
    /// The bytes of the value with which the bytes of the request begin, and how many these are.
    Front {
        /// The bytes of the value.
        written: Vec<u8>,
        /// The length of what was read.
        length: usize,
    },
    /// The bytes of the values of a stream, one after another, how many values these are, and why no more came.
    Stream {
        /// The bytes of the values.
        written: Vec<u8>,
        /// The number of the values.
        count: usize,
        /// The reason why no more came.
        last: Option<DecodeError>,
    },
    /// The codec that is asked reads no value.
    NotRead(DecodeError),
    /// The codec that is asked reads no value whose writing makes the same bytes.
    NotCanonical(CanonicalError),
    /// The codec that is asked does not write the value.
    NotWritten(EncodeError),
    /// The other codec reads no value.
    NoValue(DecodeError),
    /// The other codec does not write the value.
    NotWrittenByOther(EncodeError),
}

impl fmt::Display for Answer {
    fn fmt<W: fmt::Write>(&self, f: &mut fmt::Formatter<W>) -> fmt::Result {
        match self {
            Answer::Written(bytes) => write_bytes(f, bytes),
            Answer::Front { written, length } => {
                write_bytes(f, written)?;
                write!(f, " of {length} bytes")
            }
            Answer::Stream {
                written,
                count,
                last,
            } => {
                write_bytes(f, written)?;
                write!(f, " of {count} values")?;
                match last {
                    Some(error) => write_refusal(f, ", then refused", *error),
                    None => Ok(()),
                }
            }
            Answer::NotRead(error) => write_refusal(f, "refused", *error),
            Answer::NotCanonical(error) => write!(f, "refused: {error}"),
            Answer::NotWritten(error) => write!(f, "not written: {error}"),
            Answer::NoValue(error) => write_refusal(f, "no value", *error),
            Answer::NotWrittenByOther(error) => write!(
                f,
                "a value that the other codec does not write: {error}"
            ),
        }
    }
}

/// Writes bytes in hexadecimal, with a space between two.
fn write_bytes<W: fmt::Write>(f: &mut fmt::Formatter<W>, bytes: &[u8]) -> fmt::Result {
    let [first, rest @ ..] = bytes else {
        return write!(f, "nothing");
    };
    write!(f, "{first:02x}")?;
    for byte in rest {
        write!(f, " {byte:02x}")?;
    }
    Ok(())
}

/// Writes why a value was not read, and how many bytes are missing.
fn write_refusal<W: fmt::Write>(
    f: &mut fmt::Formatter<W>,
    word: &str,
    error: DecodeError,
) -> fmt::Result {
    write!(f, "{word}: {error}")?;
    match error {
        DecodeError::Incomplete(Needed::Size(count)) => write!(f, ", {count} bytes"),
        _ => Ok(()),
    }
}
