//! Calls of the writer.
ghost use Rattle.std.specs.Prelude.{◌≡◌, OnOk, IfErr};
ghost use Rattle.std.specs.Io.KnownBytes.{Appends, Keeps};

use crate::error::CheckError;
use std::io::Write;

/// Writes the text.
pub(crate) fn write_text<W: Write>(text: &[u8], writer: &mut W) -> Result<(), CheckError>
    ensures written { OnOk result
        (Appends (W.contents writer.old) (W.contents writer.new) text.now) }
    ensures failed { IfErr result (λ error. error ≡ CheckError.Writing) }
{
    writer.write_all(text).map_err(|_| CheckError::Writing)
}

/// Flushes the writer.
pub(crate) fn flush<W: Write>(writer: &mut W) -> Result<(), CheckError>
    ensures kept { Keeps (W.contents writer.old) (W.contents writer.new) }
    ensures failed { IfErr result (λ error. error ≡ CheckError.Writing) }
{
    writer.flush().map_err(|_| CheckError::Writing)
}
