//! The reasons for which an input has no output.
ghost use Rattle.std.specs.Prelude.{◌≡◌};
ghost use Rattle.asn1_certificate_input.specs.declared.error.InputError.TheVariants.{Memory};

use crate::departure::Departure;
use asn1_certificate_reader::{NameFault, ParameterType};
use asn1_certificate_rules::BrokenRule;
use asn1_certificate_text::PemError;
use asn1_dec::DecodeError;
use std::alloc::AllocError;
use thiserror::Error;

/// The reason that there is no output for a certificate, or for an input. Positions are those of bytes, from 0.
#[derive(Clone, Copy, Debug, Drop, Error)]
pub enum InputError {
    /// No SEQUENCE begins the input, and it has no line before a certificate.
    #[error("neither DER nor PEM: no SEQUENCE begins it, and there is no line -----BEGIN CERTIFICATE-----")]
    Neither,
    /// The input is a text, and this certificate of it has no octets.
    #[error("no certificate: {0}")]
    Text(PemError),
    /// The octets begin with a certificate, and trailing bytes are left from this position on.
    #[error("trailing bytes: the certificate ends before byte {0} of its DER")]
    TrailingBytes(usize),
    /// The octets are no certificate, and they break a rule of DER that reading looks at.
    #[error("no certificate: {0}")]
    NotDer(BrokenRule),
    /// No element begins at this position of the octets, although one is due. The error is that of reading them.
    #[error("no certificate: byte {0} of its DER begins no element ({1})")]
    NoElement(usize, DecodeError),
    /// The octets are elements, and those of no certificate, since this component is invalid. They were read up to this position, with
    /// the element that was refused.
    #[error("no certificate: {1} is not as it has to be (its DER was read up to byte {0})")]
    BadComponent(usize, &'static str),
    /// The octets are elements, and those of no certificate for another reason. They were read up to this position.
    #[error("no certificate: {1} (its DER was read up to byte {0})")]
    NoCertificate(usize, DecodeError),
    /// The name of the issuer has a value, at this position, that no name can have.
    #[error("no certificate: in its issuer {1} (byte {0} of its DER)")]
    BadIssuer(usize, NameFault),
    /// The name of the subject has one.
    #[error("no certificate: in its subject {1} (byte {0} of its DER)")]
    BadSubject(usize, NameFault),
    /// The parameters of the key's algorithm, at this position, have to be of this type by their tag, and are not.
    #[error("no certificate: the parameters of its key's algorithm are no valid {1} (byte {0} of its DER)")]
    BadKeyParameters(usize, ParameterType),
    /// The parameters of the signature's algorithm are not.
    #[error("no certificate: the parameters of its signature's algorithm are no valid {1} (byte {0} of its DER)")]
    BadSignatureParameters(usize, ParameterType),
    /// The octets of the certificate depart from its DER, and such a certificate is refused.
    #[error("{0}")]
    Departs(Departure),
    /// The DER of the certificate was asked for, and its octets are not those that writing it makes: they depart from its DER so.
    #[error("not written: {0}")]
    OtherDer(Departure),
    /// There was no memory.
    #[error("no memory")]
    Memory,
}

impl From<AllocError> for InputError {
    ghost from_gives = { λ _ e. e ≡ Memory };

    fn from(_refused: AllocError) -> InputError {
        InputError::Memory
    }
}
