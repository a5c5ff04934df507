//! The round trip: a written value is read back.
ghost use Rattle.asn1_model.specs.Meaning.{IsWellTagged, own_records};
ghost use Rattle.asn1_model.specs.Records.{highest};
ghost use Rattle.asn1_rules.specs.RoundTrips.{FailsAs, IsReadBack, WritesFirst};
ghost use Rattle.std.specs.Prelude.{◌≡◌, ◌≤◌, true, IfOk, MatchResult, OnOk};

use crate::rules::Rules;
use asn1_dec::{Decode, DecodeError};
use asn1_enc::{Encode, EncodeError};
use thiserror::Error;

/// Writing or reading failed.
#[derive(Clone, Copy, Debug, Drop, PartialEq, Eq, Error)]
pub enum RoundTripError {
    /// The value was not written.
    #[error("not written: {0}")]
    Writing(EncodeError),
    /// The written value was not read.
    #[error("not read back: {0}")]
    Reading(DecodeError),
}

/// Writes a value and reads it back.
///
/// The round trip: for every codec, and every type that is well tagged, a valid value whose writing succeeds is read back
/// equal, by the type's own equality, unless memory runs out or the value's records are nested deeper than the depth of reading
/// (`back`). A value that is read back was nested no deeper than that (`within_depth`). Whatever the type and the value, one that was
/// written is nested no deeper than the depth of writing, and writing fails as it may (`written`); and the answer was read of an output
/// that carries the own records of the value (`only`).
///
/// # Errors
/// [`RoundTripError::Writing`] with the error of writing, and [`RoundTripError::Reading`] with that of reading.
pub fn round_trip<R: Rules, T: Encode + Decode>(
    rules: &R,
    value: &T,
    write_depth: usize,
    read_depth: usize,
) -> Result<T, RoundTripError>
    ensures back { IsWellTagged T.meaning → T.meaning.IsValid R.format.accepts value.now →
        MatchResult result (λ w. T.eq w value.now ≡ true)
        (FailsAs R.format (own_records T.meaning value.now) write_depth read_depth) }
    ensures within_depth { IsWellTagged T.meaning → T.meaning.IsValid R.format.accepts value.now →
        OnOk result (highest (own_records T.meaning value.now) ≤ read_depth) }
    ensures written { WritesFirst R.format (own_records T.meaning value.now) write_depth result }
    ensures only { IfOk result (IsReadBack R.format T.meaning value.now write_depth) }
{
    let output = rules
        .write_value(value, write_depth)
        .map_err(RoundTripError::Writing)?;
    rules
        .read_value(&output, read_depth)
        .map_err(RoundTripError::Reading)
}
