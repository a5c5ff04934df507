//! From one codec to another.
ghost use Rattle.asn1_rules.specs.Recoding.{IsRecodedFrom, Recodes, WritingFailsAsItMay};
ghost use Rattle.std.specs.Prelude.{IfErr, IfOk};

use crate::rules::Rules;
use asn1_dec::{Decode, DecodeError};
use asn1_enc::{Encode, EncodeError};
use thiserror::Error;

/// Reading or writing failed. The text is that of the error inside.
#[derive(Clone, Copy, Debug, Drop, PartialEq, Eq, Error)]
pub enum RecodeError {
    /// The input was not read.
    #[error("{0}")]
    Read(DecodeError),
    /// The value that was read was not written.
    #[error("{0}")]
    Write(EncodeError),
}

/// Reads a value by the rules of one codec and writes it by those of another, each with at most this many nested scopes.
///
/// If the input carries the own records of a valid value of a type that is well tagged, the output carries those of a value that
/// is equal, by the type's own equality (`recoded`). Whatever the input is, the output carries the own records of a value that was
/// read of it (`only`), or writing such a value fails as it may (`writing`).
///
/// # Errors
/// [`RecodeError::Read`] with the error of reading: of such an input [`DecodeError::Depth`] only where the value's records are
/// nested deeper than the depth, and else [`DecodeError::Memory`]. [`RecodeError::Write`] with the error of writing the value that
/// was read.
pub fn recode<T: Encode + Decode, A: Rules, B: Rules>(
    from: &A,
    input: &A::Output,
    to: &B,
    depth: usize,
) -> Result<B::Output, RecodeError>
    ensures recoded { Recodes B.format T.meaning A.format input.now T.eq depth result }
    ensures only { IfOk result (IsRecodedFrom B.format T.meaning A.format input.now depth) }
    ensures writing { IfErr result (WritingFailsAsItMay B.format T.meaning A.format input.now
        depth) }
{
    let value: T = from.read_value(input, depth).map_err(RecodeError::Read)?;
    to.write_value(&value, depth).map_err(RecodeError::Write)
}
