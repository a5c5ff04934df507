//! A value that is read of the very bytes that writing it makes.
ghost use Rattle.asn1_model.specs.Meaning.{IsWellTagged, own_records};
ghost use Rattle.asn1_rules.specs.CanonicalReading.{AreOctets, DepartsAs, HasOneSpelling, IsFirstDifference, IsRefusedFor, IsWrittenAs, MayAnswer};
ghost use Rattle.std.specs.Prelude.{◌≡◌, true, IfErr, IfOk, MatchOption, MatchResult, Ok};

use crate::rules::Rules;
use asn1_dec::{Decode, DecodeError};
use asn1_enc::{Encode, EncodeError};
use thiserror::Error;

/// Why bytes were not read as a value whose writing makes the same bytes.
#[derive(Clone, Copy, Debug, Drop, PartialEq, Eq, Error)]
pub enum CanonicalError {
    /// The bytes were not read.
    #[error("{0}")]
    Read(DecodeError),
    /// The value that was read was not written.
    #[error("{0}")]
    Write(EncodeError),
    /// The value that was read is written as other bytes.
    #[error("not canonical at byte {at}")]
    NotCanonical {
        /// The position of the first byte in which the two differ, or at which one of them ends.
        at: usize,
    },
}

/// Reads a value, writes it again, and compares: the value is answered only if the two byte strings are the same.
///
/// A value that is answered is one that `read_value` may answer of the input, so one that was read of records which the input carries
/// (`answered`), and writing it makes the input (`canonical`), which are octets (`octets`). Reading and writing open at most this many
/// nested scopes.
///
/// A valid value of a well-tagged type whose only spelling is the input is read back equal, unless memory runs out or its records are
/// nested deeper than the depth (`read`). The law `what_is_written_is_the_only_spelling` of a codec's crate says of which values the
/// codec's output is the only spelling: equal values have the same records and, in DER, the components of each SET in the value have
/// distinct tags.
///
/// # Errors
/// Each error says why (`departs`); what `read_value` answers of an input is known by its contract alone.
/// - [`CanonicalError::Read`]: `read_value` may answer this error of the input.
/// - [`CanonicalError::Write`]: it may answer a value, which `write_value` may refuse with this error.
/// - [`CanonicalError::NotCanonical`]: it may answer a value that is written as other bytes, which first differ at this position.
///
/// Where the input is the only spelling of a valid value, the error is [`DecodeError::Memory`], [`EncodeError::Memory`], or
/// [`DecodeError::Depth`] where the value's records are nested deeper than the depth (`read`).
pub fn read_canonical<T: Encode + Decode, R: Rules<Output = Vec<u8>>>(
    rules: &R,
    input: &Vec<u8>,
    depth: usize,
) -> Result<T, CanonicalError>
    ensures answered { IfOk result (λ w. MayAnswer R.format T.meaning T.eq T.refusals depth
        input.now (Ok w)) }
    ensures canonical { IfOk result (λ w. IsWrittenAs R.format T.meaning depth w input.now.items) }
    ensures octets { IfOk result (λ _. AreOctets input.now.items) }
    ensures departs { IfErr result (DepartsAs R.format T.meaning T.eq T.refusals depth input.now) }
    ensures read { (v : T) → IsWellTagged T.meaning → T.meaning.IsOfType v →
        T.meaning.IsValid R.format.accepts v → R.format.carries input.now (own_records T.meaning v) →
        HasOneSpelling R.format T.meaning T.eq v input.now.items →
        MatchResult result (λ w. T.eq w v ≡ true) (IsRefusedFor R.format T.meaning depth v) }
{
    let value: T = match rules.read_value(input, depth) {
        Ok(value) => value,
        Err(error) => return Err(CanonicalError::Read(error)),
    };
    let output = match rules.write_value(&value, depth) {
        Ok(output) => output,
        Err(error) => return Err(CanonicalError::Write(error)),
    };
    match first_difference(input, &output) {
        None => Ok(value),
        Some(at) => Err(CanonicalError::NotCanonical { at }),
    }
}

/// The position of the first byte in which two byte strings differ, or at which one of them ends; `None` where they are equal.
pub(crate) fn first_difference(left: &[u8], right: &[u8]) -> Option<usize>
    ensures first { MatchOption result (left.now ≡ right.now)
        (IsFirstDifference left.now right.now) }
    ensures left { AreOctets left.now }
    ensures right { AreOctets right.now }
{
    let shorter = left.len().min(right.len());
    for index in 0..shorter {
        if left[index] != right[index] {
            return Some(index);
        }
    }
    if left.len() == right.len() {
        None
    } else {
        Some(shorter)
    }
}
