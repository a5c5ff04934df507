//! The check of an input.
ghost use Rattle.std.specs.Prelude.{◌≡◌, ◌≤◌, ◌++◌, ℕ, List, length, IfSome, IfOk, OnOk, IsErrOf};
ghost use Rattle.std.specs.Io.KnownBytes.{Appends, Consumes, IsAtEnd};
ghost use Rattle.asn1_report.specs.Lines.{whole_lines};
ghost use Rattle.asn1_report.specs.Reading.{ReadInPart, ReadSoFar, ReadToEnd, one_read};
ghost use Rattle.asn1_report.specs.Report.{report, all_understood, text_for};

use crate::checker::Checker;
use crate::error::CheckError;
use std::alloc::Global;
use std::io::{ErrorKind, Read, Write};

// The greatest number of bytes of a read.
const BUFFER_LENGTH: usize = 32 * 1024;

/// Reads schema tables line by line, writes the verdicts, and says whether every line was understood and every table had
/// its `end`.
///
/// The check keeps at most 4096 bytes of a line, and the leaves of the table that is open. Each line's text is one call of
/// the writer, so give it a writer with a buffer. It is flushed after each read, so that a reader who waits for the answers
/// to the lines that have ended sees them, and before the check ends, unless a write failed.
///
/// An interrupted read is tried again. A read that fails, or 2^64 - 1 reads that meet no end of the input, answer
/// [`CheckError::Reading`]; then the text for all lines that had ended is written. If memory runs out, the answer is
/// [`CheckError::Memory`]; then the text for the lines before the one for which it ran out is written. The clause `memory`
/// covers all bytes that were read but the last 32 KiB at most, since no clause can name the last read; tests show the exact
/// text. A table that is open then has neither its verdict nor `not checked`. After [`CheckError::Writing`] nothing is known
/// of the text that was written.
pub fn check<R: Read, W: Write>(
    alloc: Global,
    reader: &mut R,
    writer: &mut W,
) -> Result<bool, CheckError>
    // The report on the whole input is written.
    ensures report { OnOk result (IfSome (R.remaining reader.old) (λ input.
        Appends (W.contents writer.old) (W.contents writer.new) (report input))) }
    ensures understood { IfOk result (λ answer.
        IfSome (R.remaining reader.old) (λ input. answer ≡ all_understood input)) }
    ensures read { OnOk result (IsAtEnd (R.remaining reader.new)) }

    // After an error it is the text for the lines that had ended among the bytes that were read, or, if memory ran out, among
    // all of them but the last ones, at most those of one read.
    ensures reading { IsErrOf result CheckError.Reading → (given : List ℕ)
        × Consumes (R.remaining reader.old) (R.remaining reader.new) given
        × Appends (W.contents writer.old) (W.contents writer.new) (text_for (whole_lines given)) }
    ensures memory { IsErrOf result CheckError.Memory → (given : List ℕ) × (more : List ℕ)
        × Consumes (R.remaining reader.old) (R.remaining reader.new) (given ++ more)
        × (length more ≤ one_read)
        × Appends (W.contents writer.old) (W.contents writer.new) (text_for (whole_lines given)) }
{
    let mut buffer = vec![in alloc; 0; BUFFER_LENGTH]?;
    let answer = read_to_end(alloc, reader, &mut buffer, writer);
    if matches!(answer, Err(CheckError::Writing)) || writer.flush().is_err() {
        return Err(CheckError::Writing);
    }
    answer
}

// Reads to the end of the input, writes the text for each line, and says whether all was understood. After each read
// the writer is flushed.
//
// An interrupted read is tried again. After an error some of the input may be read.
fn read_to_end<R: Read, W: Write>(
    alloc: Global,
    reader: &mut R,
    buffer: &mut [u8],
    writer: &mut W,
) -> Result<bool, CheckError>
    requires room { length buffer.old ≡ one_read }
    ensures finished { IfOk result (ReadToEnd (R.remaining reader.old) (R.remaining reader.new)
        (W.contents writer.old) (W.contents writer.new)) }
    ensures reading { IsErrOf result CheckError.Reading →
        ReadSoFar (R.remaining reader.old) (R.remaining reader.new)
        (W.contents writer.old) (W.contents writer.new) }
    ensures memory { IsErrOf result CheckError.Memory →
        ReadInPart (R.remaining reader.old) (R.remaining reader.new)
        (W.contents writer.old) (W.contents writer.new) }
{
    let mut checker = Checker::new(alloc)?;
    for _ in 0..u64::MAX {
        match reader.read(buffer) {
            Ok(0) => return checker.end_input(writer),
            Ok(count) => checker.take(&buffer[..count], writer)?,
            Err(error) => {
                if error.kind() != ErrorKind::Interrupted {
                    return Err(CheckError::Reading);
                }
            }
        }
    }
    Err(CheckError::Reading)
}
