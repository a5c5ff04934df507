//! Values written one after another.
ghost use Rattle.asn1_rules.specs.Outputs.{AreOutputs, OneIsNotWritten};
ghost use Rattle.std.specs.Prelude.{IfErr, IfOk};

use crate::Rules;
use asn1_enc::{Encode, EncodeError};
use std::alloc::Global;

/// Writes values one after another, each with at most `depth` nested scopes, and answers their
/// outputs, joined in this order.
///
/// # Errors
/// [`EncodeError::Memory`], or the error of [`Rules::write_value`] for one of the values. Of no
/// values nothing fails.
pub fn write_list<T: Encode, R: Rules<Output = Vec<u8>>>(
    alloc: Global,
    rules: &R,
    values: &[T],
    depth: usize,
) -> Result<Vec<u8>, EncodeError>
    ensures outputs { IfOk result
        (λ bytes. AreOutputs R.format T.meaning depth values.now bytes.items) }
    ensures not_written { IfErr result (OneIsNotWritten R.format T.meaning depth values.now) }
{
    let mut bytes = Vec::new(alloc);
    for value in values {
        let mut output = rules.write_value(value, depth)?;
        bytes.append(&mut output)?;
    }
    Ok(bytes)
}
