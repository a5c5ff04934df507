//! The value inside an open type.
ghost use Rattle.asn1_tables.specs.OpenValues.{MayAnswerOf};

use asn1_dec::{Decode, DecodeError};
use asn1_rules::Rules;
use std::alloc::Global;

/// Reads the octets of an open type as a value of this type, with at most `depth` nested scopes.
///
/// # Errors
/// Those that [`Rules::read_value`] may answer of an output of these octets, and [`DecodeError::Memory`].
#[tactic(auto, unfolding(crate::specs::OpenValues::MayAnswerOf))]
pub fn read_open<T: Decode, R: Rules<Output = Vec<u8>>>(
    rules: &R,
    alloc: Global,
    octets: &[u8],
    depth: usize,
) -> Result<T, DecodeError>
    ensures answered { MayAnswerOf R.format T.meaning T.eq T.refusals depth octets.now result }
{
    match Vec::from_slice(alloc, octets) {
        Ok(kept) => rules.read_value(&kept, depth),
        Err(_) => Err(DecodeError::Memory),
    }
}
