//! Numbers.
ghost use Rattle.asn1_certificate_text.specs.Numbers.{octet_number_text, version_text};

use crate::append_text::AppendText;
use crate::octets::push_octets;
use asn1_values::Integer;
use std::alloc::AllocError;
use std::fmt::Write;

/// A number, by its sign and the octets of its magnitude, the most significant first and without leading zeros.
#[derive(Drop)]
pub struct OctetNumber {
    /// Whether it is below 0.
    pub is_negative: bool,
    /// The octets: 0 has none.
    pub octets: Vec<u8>,
}

/// Its octets in hexadecimal, with a colon between each two, after a `-` if it is negative; `00` for 0.
impl AppendText for OctetNumber {
    ghost text_of = { octet_number_text };

    fn append_to(&self, text: &mut String) -> Result<(), AllocError> {
        if self.is_negative {
            text.push_str("-")?;
        }
        if self.octets.is_empty() {
            return text.push_str("00");
        }
        push_octets(text, self.octets.as_slice())
    }
}

/// The version of a certificate (RFC 5280, 4.1.2.1).
#[derive(Drop)]
pub enum Version {
    /// The first, whose number is 0.
    First,
    /// The second, whose number is 1.
    Second,
    /// The third, whose number is 2.
    Third,
    /// A version that RFC 5280 does not define, by its number.
    Unknown(Integer),
}

impl AppendText for Version {
    ghost text_of = { version_text };

    fn append_to(&self, text: &mut String) -> Result<(), AllocError> {
        match self {
            Version::First => text.push_str("1"),
            Version::Second => text.push_str("2"),
            Version::Third => text.push_str("3"),
            Version::Unknown(number) => write!(text, "unknown, number {number}"),
        }
    }
}
