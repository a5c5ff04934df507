//! The test of a text of JSON.
ghost use Rattle.asn1_laws.specs.declared.encode_error.EncodeError.TheVariants.{Depth, Failed};
ghost use Rattle.json.specs.Json.{document};
ghost use Rattle.json.specs.Strict.{HasUniqueKeys};
ghost use Rattle.asn1_value_text.specs.Texts.{IsOneLine};
ghost use Rattle.std.specs.Prelude.{◌↔◌, ◌≢◌, Err, IsSomeAnd, IsTrue, OnOk};

use asn1_enc::EncodeError;
use json::{Error, Scratch, Tape};
use std::alloc::Global;

/// Succeeds if a text is one document of JSON in one line, no object of which has a name twice.
pub(crate) fn check_document(alloc: Global, text: &str) -> Result<(), EncodeError>
    ensures one_document { OnOk result (IsSomeAnd (document text.now) HasUniqueKeys) }
    ensures one_line { OnOk result (IsOneLine text.now) }
    ensures not_too_deep { result ≢ Err Depth }
    ensures not_failed { result ≢ Err Failed }
{
    if !is_one_line(text) {
        return Err(EncodeError::Custom("JSON of several lines"));
    }
    let mut scratch = Scratch::new(alloc);
    match Tape::parse_strict(text, &mut scratch, Vec::new(alloc)) {
        Ok(_tape) => Ok(()),
        Err(Error::OutOfMemory) => Err(EncodeError::Memory),
        Err(Error::DuplicateKey) => Err(EncodeError::Custom("two components of one name")),
        Err(Error::TooLong) => Err(EncodeError::Custom("too long for JSON")),
        Err(Error::Invalid) => Err(EncodeError::Custom("nested too deep for JSON")),
    }
}

// Whether a text is one line.
fn is_one_line(text: &str) -> bool
    ensures { IsTrue result ↔ IsOneLine text.now }
{
    text.as_bytes().iter().all(|octet| *octet >= b' ')
}
