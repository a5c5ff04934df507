//! PrintableStrings in the names of a certificate with characters outside their alphabet.
ghost use Rattle.std.specs.Prelude.{◌≡◌};
ghost use Rattle.asn1_certificate_input.specs.Alphabets.{AnswersAlphabet, index_of_name};

use crate::positions::{ISSUER, SUBJECT, position_of_value};
use asn1_certificate_reader::{AlphabetFault, first_alphabet_fault};
use asn1_x509::Name;
use std::fmt;

/// A component of a certificate that is a name.
#[derive(Clone, Copy, Debug, Drop, PartialEq, Eq)]
pub enum NameField {
    /// The issuer.
    Issuer,
    /// The subject.
    Subject,
}

impl fmt::Display for NameField {
    fn fmt<W: fmt::Write>(&self, f: &mut fmt::Formatter<W>) -> fmt::Result {
        f.write_str(match self {
            NameField::Issuer => "issuer",
            NameField::Subject => "subject",
        })
    }
}

/// A PrintableString in a name of a certificate with characters outside its alphabet (X.680, 41.4). No rule of X.690 is broken.
#[derive(Clone, Copy, Debug, Drop)]
pub struct OutsideAlphabet {
    /// The component that is the name.
    pub field: NameField,
    /// The position of the value, from 0.
    pub position: usize,
    /// The value in the name, its fault, and the kind of its attribute.
    pub string: AlphabetFault,
}

impl fmt::Display for OutsideAlphabet {
    fn fmt<W: fmt::Write>(&self, f: &mut fmt::Formatter<W>) -> fmt::Result {
        let fault = self.string.fault;
        write!(
            f,
            "byte {} of its DER: in its {} ",
            self.position, self.field
        )?;
        write!(
            f,
            "the value of attribute {} in part {}",
            fault.attribute, fault.part
        )?;
        if let Some(kind) = self.string.kind {
            write!(f, " ({kind})")?;
        }
        write!(f, " {}", fault.fault)
    }
}

/// The first such string in the name that a component of a certificate with these octets is, if there is one.
pub(crate) fn outside_alphabet(
    octets: &[u8],
    field: NameField,
    name: &Name,
) -> Option<OutsideAlphabet>
    ensures { AnswersAlphabet octets.now field name.now result }
{
    match first_alphabet_fault(name) {
        Some(string) => Some(OutsideAlphabet {
            field,
            position: position_of_value(octets, index_of_name(field), string.fault),
            string,
        }),
        None => None,
    }
}

/// The index of the component, in a certificate with a version.
fn index_of_name(field: NameField) -> usize
    ensures { result ≡ index_of_name field }
{
    match field {
        NameField::Issuer => ISSUER,
        NameField::Subject => SUBJECT,
    }
}
