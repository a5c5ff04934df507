//! The line that is being read.
ghost use Rattle.std.specs.Prelude.{◌≡◌, ◌≤◌, ◌++◌, [], Some, length, IfOk, OnOk, option_map, option_and_then};
ghost use Rattle.asn1_report.specs.Lines.{within_limit};

use std::alloc::{AllocError, Global};

// The greatest number of bytes of a line.
const LONGEST: usize = 4096;

/// The bytes of a line as they come. A line that is too long keeps no further bytes.
#[derive(Drop)]
pub(crate) struct Line {
    bytes: Vec<u8>,
    is_too_long: bool,
    ghost within: { length bytes.items ≤ 4096 },
}

impl Line {
    ghost use Rattle.asn1_report.specs.Views.{line_view};

    /// A line of no bytes yet, with room for the longest.
    pub(crate) fn new(alloc: Global) -> Result<Line, AllocError>
        ensures empty { IfOk result (λ line. line_view line ≡ Some []) }
    {
        let bytes = Vec::with_capacity(alloc, LONGEST)?;
        Ok(Line {
            bytes,
            is_too_long: false,
        })
    }

    /// The bytes so far, unless they are too many.
    pub(crate) fn as_slice(&self) -> Option<&[u8]>
        ensures bytes { option_map (λ bytes. bytes.now) result ≡ line_view self.now }
    {
        if self.is_too_long {
            None
        } else {
            Some(self.bytes.as_slice())
        }
    }

    /// Adds bytes after the others.
    pub(crate) fn extend(&mut self, more: &[u8]) -> Result<(), AllocError>
        ensures longer { OnOk result (line_view self.new
            ≡ option_and_then (λ bytes. within_limit (bytes ++ more.now)) (line_view self.old)) }
    {
        if self.bytes.len() + more.len() <= LONGEST {
            self.bytes.extend_from_slice(more)?;
        } else {
            self.is_too_long = true;
        }
        Ok(())
    }

    /// Begins the next line.
    pub(crate) fn clear(&mut self)
        ensures empty { line_view self.new ≡ Some [] }
    {
        self.bytes.clear();
        self.is_too_long = false;
    }
}
