//! X.680's notation of values.

mod strings;

use crate::digits::{push_binary, push_hexadecimal};
use crate::text_form::{Brackets, Scalar, TextForm};
use asn1_buffers::WriteError;
use asn1_values::BitVec;
use std::alloc::{AllocError, Global};
use std::fmt::Write;

/// The text before the place at which it goes on.
#[derive(Clone, Copy)]
enum Before {
    /// Nothing, or a name that its value follows on the same line.
    Name,
    /// A bracket that opens.
    Opening,
    /// A value in a list.
    Value,
}

/// A text in X.680's notation of values: a line for each component and each element, indented.
#[derive(Drop)]
pub(crate) struct ValueNotation {
    alloc: Global,
    text: String,
    before: Before,
    indent: usize,
}

impl ValueNotation {
    /// Begins a component or an element on a line of its own.
    fn begin_line(&mut self) -> Result<(), AllocError> {
        match self.before {
            Before::Name => return Ok(()),
            Before::Opening => {}
            Before::Value => self.text.push(',')?,
        }
        self.before = Before::Name;
        self.break_line()
    }

    /// Goes on in a line of its own.
    fn break_line(&mut self) -> Result<(), AllocError> {
        self.text.push('\n')?;
        for _ in 0..self.indent {
            self.text.push_str("  ")?;
        }
        Ok(())
    }

    fn write_scalar(&mut self, scalar: Scalar<'_>) -> Result<(), AllocError> {
        match scalar {
            Scalar::Boolean(true) => self.text.push_str("TRUE"),
            Scalar::Boolean(false) => self.text.push_str("FALSE"),
            Scalar::Null => self.text.push_str("NULL"),
            Scalar::Number(digits) => self.text.push_str(digits),
            Scalar::Item(name) => self.text.push_str(name),
            Scalar::Arcs(arcs) => push_arcs(&mut self.text, arcs),
            Scalar::String(string, _) => strings::push_string(self.alloc, &mut self.text, string),
            Scalar::Open(octets) => push_octets(&mut self.text, octets),
        }
    }
}

impl TextForm for ValueNotation {
    ghost MayRefuse = { ⊥ };

    fn new(alloc: Global) -> ValueNotation {
        ValueNotation {
            alloc,
            text: String::new(alloc),
            before: Before::Name,
            indent: 0,
        }
    }

    fn scalar(&mut self, scalar: Scalar<'_>) -> Result<(), WriteError> {
        self.write_scalar(scalar)?;
        self.before = Before::Value;
        Ok(())
    }

    fn begin(&mut self, _brackets: Brackets) -> Result<(), WriteError> {
        self.text.push('{')?;
        self.before = Before::Opening;
        self.indent = self.indent.saturating_add(1);
        Ok(())
    }

    fn end(&mut self, _brackets: Brackets) -> Result<(), WriteError> {
        self.indent = self.indent.saturating_sub(1);
        if matches!(self.before, Before::Value) {
            self.break_line()?;
        }
        self.text.push('}')?;
        self.before = Before::Value;
        Ok(())
    }

    fn component(&mut self, name: Option<&str>) -> Result<(), WriteError> {
        self.begin_line()?;
        if let Some(name) = name {
            self.text.push_str(name)?;
            self.text.push(' ')?;
        }
        Ok(())
    }

    fn element(&mut self) -> Result<(), WriteError> {
        self.begin_line()?;
        Ok(())
    }

    fn alternative(&mut self, name: Option<&str>) -> Result<(), WriteError> {
        if let Some(name) = name {
            self.text.push_str(name)?;
            self.text.push_str(" : ")?;
        }
        Ok(())
    }

    fn end_alternative(&mut self) -> Result<(), WriteError> {
        Ok(())
    }

    fn into_text(self) -> Result<String, WriteError> {
        Ok(self.text)
    }
}

/// Appends an object identifier (X.680, 32.3).
fn push_arcs(text: &mut String, arcs: &[u32]) -> Result<(), AllocError> {
    text.push('{')?;
    let mut separator = "";
    for arc in arcs {
        write!(text, "{separator}{arc}")?;
        separator = " ";
    }
    text.push('}')
}

/// Appends octets as an hstring (X.680, 12.12).
fn push_octets(text: &mut String, octets: &[u8]) -> Result<(), AllocError> {
    text.push('\'')?;
    push_hexadecimal(text, octets)?;
    text.push_str("'H")
}

/// Appends bits that lie in octets as a bstring.
fn push_packed_bits(text: &mut String, bits: &BitVec) -> Result<(), AllocError> {
    text.push('\'')?;
    for bit in bits.iter() {
        text.push(if bit { '1' } else { '0' })?;
    }
    text.push_str("'B")
}

/// Appends bits as a bstring (X.680, 12.10).
fn push_bits(text: &mut String, bits: &[bool]) -> Result<(), AllocError> {
    text.push('\'')?;
    push_binary(text, bits)?;
    text.push_str("'B")
}
