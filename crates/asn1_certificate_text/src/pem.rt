//! The certificates of a text (RFC 7468).
ghost use Rattle.std.specs.Prelude.{◌≡◌, ◌+◌, ◌<◌, ◌≤◌, ◌^◌, Err, IfOk, false, filter, length, true};
ghost use Rattle.base64.specs.Engines.{standard};
ghost use Rattle.base64.specs.GeneralPurpose.{decode_of};
ghost use Rattle.asn1_certificate_text.specs.Pem.{AreCertificatesFrom, IsFound};
ghost use Rattle.asn1_certificate_text.specs.PemLines.{HasBegin, HasNoBegin, is_symbol};
ghost use Rattle.asn1_certificate_text.specs.PemRefusals.{IsAboutBase64, IsPositionOfSymbol};

use base64::engine::general_purpose::STANDARD;
use base64::{DecodeAllocError, DecodeError};
use memchr::memmem;
use std::alloc::{AllocError, Global};
use thiserror::Error;

/// The line before a certificate.
const BEGIN: &[u8] = b"-----BEGIN CERTIFICATE-----";

/// The line after it.
const END: &[u8] = b"-----END CERTIFICATE-----";

/// A certificate of a text.
#[derive(Debug, Drop)]
pub enum PemCertificate {
    /// The octets that its base64 encodes.
    Octets(Vec<u8>),
    /// The reason that there are none.
    Refused(PemError),
}

/// The reasons for which a certificate of a text has no octets. Positions are those of bytes in the text, from 0.
#[derive(Clone, Copy, Debug, Drop, PartialEq, Eq, Error)]
pub enum PemError {
    /// The line before it ends at this position, and no line after it ends one.
    #[error("there is no line -----END CERTIFICATE----- after byte {0}")]
    NoEnd(usize),
    /// base64 refuses the symbol at this position.
    #[error("byte {0} is not base64")]
    BadSymbol(usize),
    /// The base64 that ends at this position is not whole.
    #[error("the base64 before byte {0} is not whole")]
    NotWhole(usize),
}

/// Whether there is a line before a certificate.
pub fn is_pem(input: &[u8]) -> bool
    ensures found { result ≡ true → HasBegin input.now }
    ensures not_found { result ≡ false → HasNoBegin input.now }
{
    match memmem::find(input, BEGIN) {
        Some(_) => true,
        None => false,
    }
}

/// The certificates of a text, each between a line before one and the next line after one, in their order. White space in the base64 is
/// left out. The text after the last line after a certificate has none if it has no line before one.
///
/// # Errors
/// [`AllocError`], if memory runs out.
pub fn certificates_in(alloc: Global, text: &[u8]) -> Result<Vec<PemCertificate>, AllocError>
    ensures { IfOk result (λ found. AreCertificatesFrom 0 text.now found.items) }
{
    let mut found = Vec::new(alloc);
    let mut start = 0;
    while let Some(begin) = memmem::find(&text[start..], BEGIN) {
        let place = start + begin + BEGIN.len();
        let rest = &text[place..];
        let Some(size) = memmem::find(rest, END) else {
            found.push(PemCertificate::Refused(PemError::NoEnd(place)))?;
            return Ok(found);
        };
        found.push(certificate_of(alloc, place, &rest[..size])?)?;
        start = place + size + END.len();
    }
    Ok(found)
}

/// The certificate whose base64 is this body, which begins at `start` in the text.
fn certificate_of(alloc: Global, start: usize, body: &[u8]) -> Result<PemCertificate, AllocError>
    requires { start + length body.now < 2 ^ 64 }
    ensures { IfOk result (IsFound start body.now) }
{
    let symbols = symbols_of(alloc, body)?;
    match STANDARD.decode(alloc, symbols.as_slice()) {
        Ok(octets) => Ok(PemCertificate::Octets(octets)),
        Err(DecodeAllocError::OutOfMemory) => Err(AllocError),
        Err(DecodeAllocError::DecodeError(error)) => {
            Ok(PemCertificate::Refused(error_at(start, body, error)))
        }
    }
}

/// The bytes that are not white space.
fn symbols_of(alloc: Global, body: &[u8]) -> Result<Vec<u8>, AllocError>
    ensures { IfOk result (λ symbols. symbols.items ≡ filter is_symbol body.now) }
{
    body.iter()
        .copied()
        .filter(|byte| !byte.is_ascii_whitespace())
        .collect(alloc)
}

/// The error about the symbols of a body, with its position in the text. The body begins at `start` there.
fn error_at(start: usize, body: &[u8], error: DecodeError) -> PemError
    requires fits { start + length body.now < 2 ^ 64 }
    requires refused { decode_of standard (filter is_symbol body.now) ≡ Err error }
    ensures { IsAboutBase64 start body.now result }
{
    match error {
        DecodeError::InvalidByte(symbol, _) => {
            PemError::BadSymbol(start + position_of_symbol(body, symbol))
        }
        DecodeError::InvalidLastSymbol { offset, .. } => {
            PemError::BadSymbol(start + position_of_symbol(body, offset))
        }
        DecodeError::InvalidLength(_) | DecodeError::InvalidPadding => {
            PemError::NotWhole(start + body.len())
        }
    }
}

/// The position of the symbol after this many others: the length if there are no more.
fn position_of_symbol(body: &[u8], before: usize) -> usize
    ensures within { result ≤ length body.now }
    ensures found { before < length (filter is_symbol body.now) →
        IsPositionOfSymbol body.now before result }
{
    let mut left = before;
    for (position, byte) in body.iter().enumerate() {
        if !byte.is_ascii_whitespace() {
            if left == 0 {
                return position;
            }
            left -= 1;
        }
    }
    body.len()
}
