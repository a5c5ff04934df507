//! The messages about an input, for standard error.
ghost use Rattle.std.specs.Prelude.{◌≡◌, ◌<◌};
ghost use Rattle.asn1_certificate_input.specs.Answers.{number_of, refusal};

use crate::alphabets::OutsideAlphabet;
use crate::departure::Departure;
use crate::error::InputError;
use std::fmt;

/// A message about an input, beside its certificates.
#[derive(Clone, Copy, Debug, Drop)]
pub struct Message {
    /// The number of the certificate in its input, from 1, if the input has several.
    pub number: Option<usize>,
    /// The subject of the message.
    pub notice: Notice,
}

/// A warning, or a refusal.
#[derive(Clone, Copy, Debug, Drop)]
pub enum Notice {
    /// A certificate that is shown departs from DER.
    Departs(Departure),
    /// A name of a certificate that is shown has a PrintableString with characters outside its alphabet.
    Alphabet(OutsideAlphabet),
    /// A certificate or an input is refused.
    Refusal(InputError),
}

impl Message {
    /// A refusal.
    pub(crate) fn refusal(number: Option<usize>, error: InputError) -> Message
        ensures { result ≡ refusal number error }
    {
        Message {
            number,
            notice: Notice::Refusal(error),
        }
    }
}

impl fmt::Display for Message {
    fn fmt<W: fmt::Write>(&self, f: &mut fmt::Formatter<W>) -> fmt::Result {
        if let Some(number) = self.number {
            write!(f, "certificate {number}: ")?;
        }
        match self.notice {
            Notice::Departs(departure) => write!(f, "warning: {departure}"),
            Notice::Alphabet(outside) => write!(f, "warning: {outside}"),
            Notice::Refusal(error) => write!(f, "error: {error}"),
        }
    }
}

/// The number of the certificate at an index, from 1, if there are several.
pub(crate) fn number_of(index: usize, count: usize) -> Option<usize>
    requires { index < count }
    ensures { result ≡ number_of index count }
{
    if count == 1 { None } else { Some(index + 1) }
}
