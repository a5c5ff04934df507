//! The text that is made.
use crate::words::words_behind;
use asn1_notation::Span;
use std::alloc::{AllocError, Global};

/// The text of a tree, as far as it was made.
#[derive(Drop)]
pub struct Printer<'a> {
    source: &'a [u8],
    out: Vec<u8>,
}

impl<'a> Printer<'a> {
    /// No text yet, for trees that were read from this source.
    pub fn new(alloc: Global, source: &'a [u8]) -> Printer<'a> {
        Printer {
            source,
            out: Vec::new(alloc),
        }
    }

    /// The text.
    pub fn into_text(self) -> Vec<u8> {
        let Printer { source: _, out } = self;
        out
    }

    // Appends octets.
    pub(crate) fn push(&mut self, octets: &[u8]) -> Result<(), AllocError> {
        self.out.extend_from_slice(octets)?;
        Ok(())
    }

    // Appends octets of the source.
    pub(crate) fn push_span(&mut self, span: Span) -> Result<(), AllocError> {
        let octets = span.octets(self.source);
        self.push(octets)
    }

    // Appends the words behind the first in the name of a type of the language.
    pub(crate) fn push_words_behind(&mut self, name: Span) -> Result<(), AllocError> {
        let words = words_behind(name.octets(self.source));
        self.push(words)
    }

    // Whether the octets of the source are these.
    pub(crate) fn has(&self, span: Span, octets: &[u8]) -> bool {
        span.octets(self.source) == octets
    }

    // Appends a separator, but before the first.
    pub(crate) fn push_between(&mut self, index: usize, octets: &[u8]) -> Result<(), AllocError> {
        if index == 0 {
            Ok(())
        } else {
            self.push(octets)
        }
    }
}
