//! The tags that types name by a type.
ghost use Rattle.asn1_schema.specs.Words.{application};
ghost use Rattle.asn1_schema.specs.model.Kinds.{marker_type};

use asn1_schema::{AsnType, Identifier, TypeTable};
use asn1_tags::tag;

/// The tag 2 of the class application.
#[derive(Clone, Copy, Debug, PartialEq, Eq)]
pub struct Application2;

impl AsnType for Application2 {
    ghost meaning = { marker_type (application 2) };

    fn table() -> TypeTable {
        TypeTable::new(tag!(application 2), Identifier::EMPTY)
    }

    fn is_present(&self) -> bool {
        true
    }
}

/// The tag 19 of the class application.
#[derive(Clone, Copy, Debug, PartialEq, Eq)]
pub struct Application19;

impl AsnType for Application19 {
    ghost meaning = { marker_type (application 19) };

    fn table() -> TypeTable {
        TypeTable::new(tag!(application 19), Identifier::EMPTY)
    }

    fn is_present(&self) -> bool {
        true
    }
}

/// The tag 5 of the class application.
#[derive(Clone, Copy, Debug, PartialEq, Eq)]
pub struct Application5;

impl AsnType for Application5 {
    ghost meaning = { marker_type (application 5) };

    fn table() -> TypeTable {
        TypeTable::new(tag!(application 5), Identifier::EMPTY)
    }

    fn is_present(&self) -> bool {
        true
    }
}

/// The tag 7 of the class application.
#[derive(Clone, Copy, Debug, PartialEq, Eq)]
pub struct Application7;

impl AsnType for Application7 {
    ghost meaning = { marker_type (application 7) };

    fn table() -> TypeTable {
        TypeTable::new(tag!(application 7), Identifier::EMPTY)
    }

    fn is_present(&self) -> bool {
        true
    }
}

/// The tag 9 of the class application.
#[derive(Clone, Copy, Debug, PartialEq, Eq)]
pub struct Application9;

impl AsnType for Application9 {
    ghost meaning = { marker_type (application 9) };

    fn table() -> TypeTable {
        TypeTable::new(tag!(application 9), Identifier::EMPTY)
    }

    fn is_present(&self) -> bool {
        true
    }
}

/// The tag 10 of the class application.
#[derive(Clone, Copy, Debug, PartialEq, Eq)]
pub struct Application10;

impl AsnType for Application10 {
    ghost meaning = { marker_type (application 10) };

    fn table() -> TypeTable {
        TypeTable::new(tag!(application 10), Identifier::EMPTY)
    }

    fn is_present(&self) -> bool {
        true
    }
}

/// The tag 11 of the class application.
#[derive(Clone, Copy, Debug, PartialEq, Eq)]
pub struct Application11;

impl AsnType for Application11 {
    ghost meaning = { marker_type (application 11) };

    fn table() -> TypeTable {
        TypeTable::new(tag!(application 11), Identifier::EMPTY)
    }

    fn is_present(&self) -> bool {
        true
    }
}

/// The tag 13 of the class application.
#[derive(Clone, Copy, Debug, PartialEq, Eq)]
pub struct Application13;

impl AsnType for Application13 {
    ghost meaning = { marker_type (application 13) };

    fn table() -> TypeTable {
        TypeTable::new(tag!(application 13), Identifier::EMPTY)
    }

    fn is_present(&self) -> bool {
        true
    }
}

/// The tag 15 of the class application.
#[derive(Clone, Copy, Debug, PartialEq, Eq)]
pub struct Application15;

impl AsnType for Application15 {
    ghost meaning = { marker_type (application 15) };

    fn table() -> TypeTable {
        TypeTable::new(tag!(application 15), Identifier::EMPTY)
    }

    fn is_present(&self) -> bool {
        true
    }
}

/// The tag 16 of the class application.
#[derive(Clone, Copy, Debug, PartialEq, Eq)]
pub struct Application16;

impl AsnType for Application16 {
    ghost meaning = { marker_type (application 16) };

    fn table() -> TypeTable {
        TypeTable::new(tag!(application 16), Identifier::EMPTY)
    }

    fn is_present(&self) -> bool {
        true
    }
}
