//! Values that hold no others.
use crate::bits::{binary_bits, characters, hex_bits, octets_of_bits};
use crate::fault::Fault;
use crate::governed::{Governed, Scope, Written};
use crate::resolver::Resolver;
use asn1_notation::{ListItem, Span, TypeKind, ValueKind};
use asn1_resolved::Value;

impl<'r, 'a> Resolver<'r, 'a> {
    /// A value that holds no other and is no name.
    pub(crate) fn plain_literal(
        &mut self,
        base: Governed<'r, 'a>,
        written: Written<'r, 'a>,
    ) -> Result<Value<'a>, Fault> {
        match &base.definition.kind {
            TypeKind::Boolean => match &written.value.kind {
                ValueKind::Boolean(value) => Ok(Value::Boolean(*value)),
                _ => Err(self.refuse_kind(base, written)),
            },
            TypeKind::Null => match &written.value.kind {
                ValueKind::Null => Ok(Value::Null),
                _ => Err(self.refuse_kind(base, written)),
            },
            TypeKind::Integer(_) => match &written.value.kind {
                ValueKind::Number(number) => {
                    let number = self.number(written.scope, number)?;
                    Ok(Value::Integer(number))
                }
                _ => Err(self.refuse_kind(base, written)),
            },
            _ => self.string_literal(base, written),
        }
    }

    // A value of a string.
    fn string_literal(
        &mut self,
        base: Governed<'r, 'a>,
        written: Written<'r, 'a>,
    ) -> Result<Value<'a>, Fault> {
        match &base.definition.kind {
            TypeKind::BitString(_) => {
                let bits = self.bits(base, written)?;
                Ok(Value::Bits(bits))
            }
            TypeKind::OctetString => {
                let bits = self.bits(base, written)?;
                let octets = octets_of_bits(self.alloc, bits.as_slice())?;
                Ok(Value::Octets(octets))
            }
            TypeKind::String(_) => match &written.value.kind {
                ValueKind::Text(span) => self.text_value(base, written, *span),
                _ => Err(self.refuse_kind(base, written)),
            },
            _ => Err(self.refuse_kind(base, written)),
        }
    }

    // The characters of a cstring, if the type has each of them.
    fn text_value(
        &mut self,
        base: Governed<'r, 'a>,
        written: Written<'r, 'a>,
        span: Span,
    ) -> Result<Value<'a>, Fault> {
        let text = characters(self.alloc, written.scope.octets(span))?;
        for character in &text {
            self.require_character(base, written.place(), *character)?;
        }
        Ok(Value::Text(text))
    }

    /// The code of a character that is written by numbers: a column and a row of the table of ASCII, or the group, plane, row and
    /// cell of Unicode (X.680, 41.8).
    pub(crate) fn code_of(
        &mut self,
        scope: Scope<'a>,
        values: &'r [ListItem],
    ) -> Result<Option<i128>, Fault> {
        let (size, most) = match values.len() {
            2 => (16, 15),
            4 => (256, 255),
            _ => return Ok(None),
        };
        let mut code = 0i128;
        for item in values {
            let number = match item.values.as_slice() {
                [value] => match &value.kind {
                    ValueKind::Number(number) => self.number(scope, number)?,
                    _ => return Ok(None),
                },
                _ => return Ok(None),
            };
            if number < 0 || most < number {
                return Ok(Some(-1));
            }
            code = code.saturating_mul(size).saturating_add(number);
        }
        Ok(Some(code))
    }

    /// The string of the character with a code.
    pub(crate) fn character_value(
        &mut self,
        written: Written<'r, 'a>,
        code: i128,
    ) -> Result<Value<'a>, Fault> {
        let character = match u32::try_from(code) {
            Ok(code) => char::from_u32(code),
            Err(_) => None,
        };
        match character {
            Some(character) => {
                let mut text = String::new(self.alloc);
                text.push(character)?;
                Ok(Value::Text(text.into_bytes()))
            }
            None => Err(self.refuse(written.place(), &[b"no character has these numbers"])),
        }
    }

    // The bits of a bstring or an hstring.
    fn bits(
        &mut self,
        base: Governed<'r, 'a>,
        written: Written<'r, 'a>,
    ) -> Result<Vec<bool>, Fault> {
        match &written.value.kind {
            ValueKind::Binary(span) => {
                let bits = binary_bits(self.alloc, written.scope.octets(*span))?;
                Ok(bits)
            }
            ValueKind::Hex(span) => {
                let bits = hex_bits(self.alloc, written.scope.octets(*span))?;
                Ok(bits)
            }
            _ => Err(self.refuse_kind(base, written)),
        }
    }
}
