//! Markers of tags, for types under a tag.
ghost use Rattle.asn1_model.specs.Kinds.{marker_type};
ghost use Rattle.asn1_model.specs.Tags.{application, context, private};

use asn1_model::{AsnType, TypeTable};
use asn1_tags::{Identifier, Tag};

/// The marker of a tag of the class `Context`, by its number.
#[derive(Clone, Copy, Debug, PartialEq, Eq)]
pub struct ContextTag<const NUMBER: u32>;

impl<const NUMBER: u32> AsnType for ContextTag<NUMBER> {
    ghost meaning = { marker_type (context NUMBER) };

    fn table() -> TypeTable {
        TypeTable::new(Tag::new_context(NUMBER), Identifier::EMPTY)
    }

    fn is_present(&self) -> bool {
        true
    }
}

/// The marker of a tag of the class `Application`, by its number.
#[derive(Clone, Copy, Debug, PartialEq, Eq)]
pub struct ApplicationTag<const NUMBER: u32>;

impl<const NUMBER: u32> AsnType for ApplicationTag<NUMBER> {
    ghost meaning = { marker_type (application NUMBER) };

    fn table() -> TypeTable {
        TypeTable::new(Tag::new_application(NUMBER), Identifier::EMPTY)
    }

    fn is_present(&self) -> bool {
        true
    }
}

/// The marker of a tag of the class `Private`, by its number.
#[derive(Clone, Copy, Debug, PartialEq, Eq)]
pub struct PrivateTag<const NUMBER: u32>;

impl<const NUMBER: u32> AsnType for PrivateTag<NUMBER> {
    ghost meaning = { marker_type (private NUMBER) };

    fn table() -> TypeTable {
        TypeTable::new(Tag::new_private(NUMBER), Identifier::EMPTY)
    }

    fn is_present(&self) -> bool {
        true
    }
}
