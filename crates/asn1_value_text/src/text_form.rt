//! A notation in which values are written.
ghost use Rattle.asn1_value_text.specs.Refusals.{MayFail};

use asn1_buffers::WriteError;
use asn1_types::AnyStr;
use std::alloc::Global;

/// The contents of a value that has no parts.
#[derive(Clone, Copy)]
pub(crate) enum Scalar<'a> {
    /// A BOOLEAN.
    Boolean(bool),
    /// A NULL.
    Null,
    /// An INTEGER, by its decimal digits.
    Number(&'a str),
    /// An item of an ENUMERATED, by its name.
    Item(&'a str),
    /// An OBJECT IDENTIFIER, by its arcs.
    Arcs(&'a [u32]),
    /// A string, and the number of its units if its type has strings of this length alone.
    String(AnyStr<'a>, Option<usize>),
    /// The octets of an open type.
    Open(&'a [u8]),
}

/// The parts between brackets.
#[derive(Clone, Copy, PartialEq, Eq)]
pub(crate) enum Brackets {
    /// Components with their names.
    Components,
    /// Elements.
    Elements,
}

/// A notation in which values are written, part by part.
///
/// Each call fails only if memory runs out, or if the notation may refuse values.
pub(crate) trait TextForm: Sized + Drop {
    // The notation has no form for some values.
    ghost MayRefuse: { Type 0 };

    /// A text that is empty.
    fn new(alloc: Global) -> Self;

    /// Appends a value that has no parts.
    fn scalar(&mut self, scalar: Scalar<'_>) -> Result<(), WriteError>
        ensures { MayFail MayRefuse result };

    /// Begins a value in brackets.
    fn begin(&mut self, brackets: Brackets) -> Result<(), WriteError>
        ensures { MayFail MayRefuse result };

    /// Ends a value in brackets.
    fn end(&mut self, brackets: Brackets) -> Result<(), WriteError>
        ensures { MayFail MayRefuse result };

    /// Begins a component by its name, if there is one.
    fn component(&mut self, name: Option<&str>) -> Result<(), WriteError>
        ensures { MayFail MayRefuse result };

    /// Begins an element.
    fn element(&mut self) -> Result<(), WriteError>
        ensures { MayFail MayRefuse result };

    /// Begins the chosen alternative of a CHOICE by its name, if there is one.
    fn alternative(&mut self, name: Option<&str>) -> Result<(), WriteError>
        ensures { MayFail MayRefuse result };

    /// Ends the chosen alternative of a CHOICE.
    fn end_alternative(&mut self) -> Result<(), WriteError>
        ensures { MayFail MayRefuse result };

    /// The text of all that was written.
    fn into_text(self) -> Result<String, WriteError>
        ensures { MayFail MayRefuse result };
}
