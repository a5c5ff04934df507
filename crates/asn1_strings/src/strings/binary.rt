//! Strings of bits and of octets.
use crate::kind::{Bits, Octets};
use crate::strings::unit_string::UnitString;

/// A BIT STRING: any bits, from the first one on (X.680, 22).
pub type BitString = UnitString<bool, Bits>;

/// The bits of a BIT STRING, borrowed.
pub type BitStr<'a> = &'a [bool];

/// An OCTET STRING: any octets (X.680, 23).
pub type OctetString = UnitString<u8, Octets>;
