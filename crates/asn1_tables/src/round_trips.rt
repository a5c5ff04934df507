//! The round trip of a value inside an open type.
ghost use Rattle.asn1_model.specs.Meaning.{IsWellTagged, own_records};
ghost use Rattle.asn1_rules.specs.RoundTrips.{FailsAs, IsReadBack};
ghost use Rattle.asn1_tables.specs.OpenValues.{BytesTellAll};
ghost use Rattle.std.specs.Prelude.{◌≡◌, true, IfOk, MatchResult};

use crate::reading::read_open;
use asn1_dec::Decode;
use asn1_enc::Encode;
use asn1_rules::{RoundTripError, Rules};
use std::alloc::Global;

/// Writes a value as the octets of an open type, and reads it of these.
///
/// A valid value of a well-tagged type whose writing succeeds is read back equal, by the type's own equality, unless memory runs out
/// or the value's records are nested deeper than the depth of reading (`back`). Whatever the type and the value, the answer was read of
/// an output that carries the own records of the value (`only`). The codec is one of which the bytes of an output tell what it carries,
/// as DER, BER and the packed codec.
///
/// # Errors
/// [`RoundTripError::Writing`] with the error of writing, and [`RoundTripError::Reading`] with that of reading.
#[tactic(auto, unfolding(crate::specs::OpenValues::MayAnswerOf))]
pub fn open_round_trip<R: Rules<Output = Vec<u8>>, T: Encode + Decode>(
    rules: &R,
    alloc: Global,
    value: &T,
    write_depth: usize,
    read_depth: usize,
) -> Result<T, RoundTripError>
    ensures back { BytesTellAll R.format → IsWellTagged T.meaning →
        T.meaning.IsValid R.format.accepts value.now →
        MatchResult result (λ w. T.eq w value.now ≡ true)
        (FailsAs R.format (own_records T.meaning value.now) write_depth read_depth) }
    ensures only { BytesTellAll R.format →
        IfOk result (IsReadBack R.format T.meaning value.now write_depth) }
{
    let octets = rules
        .write_value(value, write_depth)
        .map_err(RoundTripError::Writing)?;
    read_open(rules, alloc, &octets, read_depth).map_err(RoundTripError::Reading)
}
