//! A check under way.
ghost use Rattle.std.specs.Prelude.{◌∷◌, [], ℕ, List, Option, IfOk, OnOk, IsErrOf};
ghost use Rattle.std.specs.Io.KnownBytes.{Keeps};

use crate::error::CheckError;
use crate::line::Line;
use crate::output::{flush, write_text};
use crate::reporter::Reporter;
use memchr::memchr;
use std::alloc::{AllocError, Global};
use std::io::Write;

/// The state of a check: the line that has not ended, and the state on which the answers to the next lines depend.
#[derive(Drop)]
pub(crate) struct Checker {
    line: Line,
    reporter: Reporter,
}

impl Checker {
    ghost use Rattle.asn1_report.specs.Reading.{Ends, HasNoFeed, HasTaken, Takes, TakesSome};

    /// A check that has taken no byte.
    pub(crate) fn new(alloc: Global) -> Result<Checker, AllocError>
        ensures begun { IfOk result (λ checker.
            (written : Option (List ℕ)) → HasTaken [] written written checker) }
    {
        Ok(Checker {
            line: Line::new(alloc)?,
            reporter: Reporter::new(alloc),
        })
    }

    // Takes bytes without a line feed.
    fn extend_line(&mut self, bytes: &[u8]) -> Result<(), AllocError>
        requires no_feed { HasNoFeed bytes.now }
        ensures taken { OnOk result ((written : Option (List ℕ)) →
            Takes bytes.now written written self.old self.new) }
    {
        self.line.extend(bytes)
    }

    // Takes a line feed: answers the line that it ends, and writes the text. If memory runs out, nothing is written.
    fn end_line<W: Write>(&mut self, writer: &mut W) -> Result<(), CheckError>
        ensures taken { OnOk result
            (Takes (10 ∷ []) (W.contents writer.old) (W.contents writer.new) self.old self.new) }
        ensures memory { IsErrOf result CheckError.Memory →
            Keeps (W.contents writer.old) (W.contents writer.new) }
        ensures no_read { ¬ IsErrOf result CheckError.Reading }
    {
        self.reporter.answer(self.line.as_slice())?;
        self.line.clear();
        write_text(self.reporter.text(), writer)
    }

    /// Answers the last line and the end of the input, and says whether all was understood. If memory runs out, nothing
    /// is written.
    pub(crate) fn end_input<W: Write>(&mut self, writer: &mut W) -> Result<bool, CheckError>
        ensures ended { IfOk result (Ends (W.contents writer.old) (W.contents writer.new)
            self.old) }
        ensures memory { IsErrOf result CheckError.Memory →
            Keeps (W.contents writer.old) (W.contents writer.new) }
        ensures no_read { ¬ IsErrOf result CheckError.Reading }
    {
        self.reporter.answer(self.line.as_slice())?;
        self.reporter.answer_end()?;
        write_text(self.reporter.text(), writer)?;
        Ok(self.reporter.all_understood())
    }

    /// Takes the bytes of a read: writes the text for each line that ends among them, and flushes the writer, so that a
    /// reader who waits for the answer to a line sees it.
    pub(crate) fn take<W: Write>(&mut self, bytes: &[u8], writer: &mut W) -> Result<(), CheckError>
        ensures taken { OnOk result
            (Takes bytes.now (W.contents writer.old) (W.contents writer.new) self.old self.new) }
        ensures memory { IsErrOf result CheckError.Memory →
            TakesSome bytes.now (W.contents writer.old) (W.contents writer.new) self.old }
        ensures no_read { ¬ IsErrOf result CheckError.Reading }
    {
        let mut rest = bytes;
        while let Some(end) = memchr(b'\n', rest) {
            self.extend_line(&rest[..end])?;
            self.end_line(writer)?;
            rest = &rest[end + 1..];
        }
        self.extend_line(rest)?;
        flush(writer)
    }
}
