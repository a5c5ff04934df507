//! The values inside open types and octets.
ghost use Rattle.std.specs.Prelude.{IfOk};
ghost use Rattle.asn1_certificate_reader.specs.Inside.{AreReadAs};
ghost use Rattle.asn1_model.specs.Meaning.{IsWellTagged};

use asn1_dec::{Decode, DecodeError};
use asn1_rules::Rules;
use std::alloc::{AllocError, Global};

/// The greatest depth of a certificate. The deepest ones that RFC 5280 allows are less than half as deep, unless a name is nested in a
/// name.
pub const MAX_DEPTH: usize = 64;

/// The value that these octets are read as, if they are read as one. Octets of a value of the type are.
pub fn read_inside<R: Rules<Output = Vec<u8>>, T: Decode>(
    rules: &R,
    alloc: Global,
    octets: &[u8],
) -> Result<Option<T>, AllocError>
    ensures { IsWellTagged T.meaning →
        IfOk result (AreReadAs R.format T.meaning T.eq octets.now) }
{
    let owned = Vec::from_slice(alloc, octets)?;
    match rules.read_value(&owned, MAX_DEPTH) {
        Ok(value) => Ok(Some(value)),
        Err(error) => match error {
            DecodeError::Memory => Err(AllocError),
            _ => Ok(None),
        },
    }
}
