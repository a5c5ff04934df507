//! The types in the circle of `Category` that hold no type of it.

use asn1_circles::Meant;
use asn1_schema::{AsnType, Utf8String};

/// The meaning of `Utf8String`.
pub(crate) struct CategoryOfNamePart;

impl Meant for CategoryOfNamePart {
    type Value = Utf8String;

    ghost meaning = { ⟦<Utf8String as AsnType>⟧.meaning };

    ghost equal = { ⟦<Utf8String as PartialEq>⟧.eq };
}
