//! JSON, by the JSON encoding rules (X.697).
ghost use Rattle.std.specs.Prelude.{⊤};

use crate::characters::character_numbers;
use crate::digits::{octets_of_bits, push_hexadecimal};
use crate::text_form::{Brackets, Scalar, TextForm};
use asn1_buffers::WriteError;
use asn1_types::{AnyStr, OctetKind};
use json::{Token, Writer, is_number};
use std::alloc::{AllocError, Global};
use std::fmt::Write;

/// A text of JSON, by the kit's writer.
#[derive(Drop)]
pub(crate) struct JsonText {
    alloc: Global,
    writer: Writer,
}

impl JsonText {
    fn write_number(&mut self, digits: &str) -> Result<(), WriteError> {
        if !is_number(digits) {
            return Err(WriteError::Rejected("a number without digits"));
        }
        self.writer.number(digits)?;
        Ok(())
    }

    fn write_arcs(&mut self, arcs: &[u32]) -> Result<(), AllocError> {
        let mut text = String::new(self.alloc);
        let mut separator = "";
        for arc in arcs {
            write!(&mut text, "{separator}{arc}")?;
            separator = ".";
        }
        self.writer.string(text.as_str())
    }

    fn write_octets(&mut self, octets: &[u8]) -> Result<(), AllocError> {
        let mut text = String::new(self.alloc);
        push_hexadecimal(&mut text, octets)?;
        self.writer.string(text.as_str())
    }

    fn write_string(
        &mut self,
        string: AnyStr<'_>,
        length: Option<usize>,
    ) -> Result<(), WriteError> {
        match string {
            AnyStr::Bits(bits) => {
                let octets = octets_of_bits(self.alloc, bits)?;
                self.write_bits(octets.as_slice(), bits.len(), length)?;
            }
            AnyStr::PackedBits(bits) => self.write_bits(bits.octets(), bits.len(), length)?,
            AnyStr::Octets(OctetKind::OctetString, octets) => self.write_octets(octets)?,
            AnyStr::Bmp(units) => {
                let Ok(text) = String::from_utf16(self.alloc, units)? else {
                    return Err(WriteError::Rejected("half of a surrogate pair"));
                };
                self.writer.string(text.as_str())?;
            }
            AnyStr::Octets(_, _) | AnyStr::Teletex(_) => self.write_characters(string)?,
        }
        Ok(())
    }

    fn write_characters(&mut self, string: AnyStr<'_>) -> Result<(), WriteError> {
        let Some(numbers) = character_numbers(self.alloc, string)? else {
            return Err(WriteError::Rejected("no character"));
        };
        let mut text = String::new(self.alloc);
        for number in numbers.as_slice() {
            let Some(character) = char::from_u32(*number) else {
                return Err(WriteError::Rejected("no character"));
            };
            text.push(character)?;
        }
        self.writer.string(text.as_str())?;
        Ok(())
    }

    /// Appends this number of bits, by their octets: of strings of one length the octets, of others the octets and the number of bits (X.697, 24).
    fn write_bits(
        &mut self,
        octets: &[u8],
        count: usize,
        length: Option<usize>,
    ) -> Result<(), AllocError> {
        if length == Some(count) {
            return self.write_octets(octets);
        }
        self.writer.begin_object()?;
        self.writer.key("value")?;
        self.write_octets(octets)?;
        self.writer.key("length")?;
        self.writer.u64(count as u64)?;
        self.writer.end_object()
    }
}

impl TextForm for JsonText {
    ghost MayRefuse = { ⊤ };

    fn new(alloc: Global) -> JsonText {
        JsonText {
            alloc,
            writer: Writer::new(Vec::new(alloc)),
        }
    }

    fn scalar(&mut self, scalar: Scalar<'_>) -> Result<(), WriteError> {
        match scalar {
            Scalar::Boolean(value) => self.writer.boolean(value)?,
            Scalar::Null => self.writer.null()?,
            Scalar::Number(digits) => return self.write_number(digits),
            Scalar::Item(name) => self.writer.string(name)?,
            Scalar::Arcs(arcs) => self.write_arcs(arcs)?,
            Scalar::String(string, length) => return self.write_string(string, length),
            Scalar::Open(octets) => self.write_octets(octets)?,
        }
        Ok(())
    }

    fn begin(&mut self, brackets: Brackets) -> Result<(), WriteError> {
        match brackets {
            Brackets::Components => self.writer.begin_object()?,
            Brackets::Elements => self.writer.begin_array()?,
        }
        Ok(())
    }

    fn end(&mut self, brackets: Brackets) -> Result<(), WriteError> {
        match brackets {
            Brackets::Components => self.writer.end_object()?,
            Brackets::Elements => self.writer.end_array()?,
        }
        Ok(())
    }

    fn component(&mut self, name: Option<&str>) -> Result<(), WriteError> {
        let Some(name) = name else {
            return Err(WriteError::Rejected("a component without a name"));
        };
        self.writer.key(name)?;
        Ok(())
    }

    fn element(&mut self) -> Result<(), WriteError> {
        Ok(())
    }

    fn alternative(&mut self, name: Option<&str>) -> Result<(), WriteError> {
        let Some(name) = name else {
            return Err(WriteError::Rejected("an alternative without a name"));
        };
        self.writer.begin_object()?;
        self.writer.key(name)?;
        Ok(())
    }

    fn end_alternative(&mut self) -> Result<(), WriteError> {
        self.writer.end_object()?;
        Ok(())
    }

    fn into_text(self) -> Result<String, WriteError> {
        let JsonText { alloc, writer } = self;
        match String::from_utf8(writer.into_inner()) {
            Ok(text) => Ok(text),
            Err(_) => Err(WriteError::Rejected("no text")),
        }
    }
}
