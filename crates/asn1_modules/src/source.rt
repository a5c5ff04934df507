//! Texts with their modules.
use asn1_notation::Module;

/// A text, and the modules that were read of it.
#[derive(Clone, Copy)]
pub struct Source<'a> {
    /// The text.
    pub text: &'a [u8],
    /// Its modules.
    pub modules: &'a [Module],
}
