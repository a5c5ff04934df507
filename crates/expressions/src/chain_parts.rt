//! The types in the circle of `Chain` that hold no type of it.

use asn1_circles::Meant;
use asn1_schema::AsnType;

/// The meaning of `()`.
pub(crate) struct ChainOfEndPart;

impl Meant for ChainOfEndPart {
    type Value = ();

    ghost meaning = { ⟦<() as AsnType>⟧.meaning };

    ghost equal = { ⟦<() as PartialEq>⟧.eq };
}
