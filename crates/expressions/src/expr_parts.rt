//! The types in the circle of `Expr` that hold no type of it.

use asn1_circles::Meant;
use asn1_schema::{AsnType, Integer, Utf8String};

/// The meaning of `Utf8String`.
pub(crate) struct CallNamePart;

impl Meant for CallNamePart {
    type Value = Utf8String;

    ghost meaning = { ⟦<Utf8String as AsnType>⟧.meaning };

    ghost equal = { ⟦<Utf8String as PartialEq>⟧.eq };
}

/// The meaning of `bool`.
pub(crate) struct CallIsPurePart;

impl Meant for CallIsPurePart {
    type Value = bool;

    ghost meaning = { ⟦<bool as AsnType>⟧.meaning };

    ghost equal = { ⟦<bool as PartialEq>⟧.eq };
}

/// The meaning of `Integer`.
pub(crate) struct ExprOfNumberPart;

impl Meant for ExprOfNumberPart {
    type Value = Integer;

    ghost meaning = { ⟦<Integer as AsnType>⟧.meaning };

    ghost equal = { ⟦<Integer as PartialEq>⟧.eq };
}
