//! Values of open types (X.681, 14.6).
use crate::bits::{binary_bits, characters, hex_bits, octets_of_bits};
use crate::fault::Fault;
use crate::followed::Followed;
use crate::governed::{Governed, Written};
use crate::resolver::Resolver;
use asn1_notation::{TypeKind, ValueKind};
use asn1_resolved::{Severity, Value};
use std::alloc::{AllocError, Global};

impl<'r, 'a> Resolver<'r, 'a> {
    /// Refuses a value of a type whose values are kept as their contents octets.
    pub(crate) fn refuse_contents(&mut self, word: &[u8], written: Written<'r, 'a>) -> Fault {
        self.refuse(
            written.place(),
            &[b"a value of ", word, b" is not supported"],
        )
    }

    /// Whether a value is one of a type whose values are kept as their contents octets, and so is what its name stands for.
    pub(crate) fn is_of_contents(
        &mut self,
        governed: Governed<'r, 'a>,
        written: Written<'r, 'a>,
    ) -> Result<bool, Fault> {
        let base = self.base(governed)?;
        if !is_contents(base) {
            return Ok(false);
        }
        match self.follow(base, written)? {
            Followed::Literal(base, _) => Ok(is_contents(base)),
            _ => Ok(false),
        }
    }

    /// Warns of a DEFAULT of such a type.
    pub(crate) fn warn_of_contents(&mut self, written: Written<'r, 'a>) -> Result<(), AllocError> {
        self.report(
            written.place(),
            Severity::Warning,
            &[b"the DEFAULT of this component is not in Rust: it is an option there"],
        )
    }

    /// A literal of the type of this word, which holds no other and is no name.
    pub(crate) fn literal_of_word(
        &mut self,
        word: &[u8],
        written: Written<'r, 'a>,
    ) -> Result<Value<'a>, Fault> {
        let scope = written.scope;
        match &written.value.kind {
            ValueKind::Null => Ok(Value::Null),
            ValueKind::Boolean(value) => Ok(Value::Boolean(*value)),
            ValueKind::Number(number) => {
                let number = self.number(scope, number)?;
                Ok(Value::Integer(number))
            }
            ValueKind::Binary(span) => {
                let bits = binary_bits(self.alloc, scope.octets(*span))?;
                bits_of_word(self.alloc, word, bits)
            }
            ValueKind::Hex(span) => {
                let bits = hex_bits(self.alloc, scope.octets(*span))?;
                bits_of_word(self.alloc, word, bits)
            }
            ValueKind::Text(span) => {
                let text = characters(self.alloc, scope.octets(*span))?;
                Ok(Value::Text(text))
            }
            _ => Err(self.refuse_word(word, written)),
        }
    }

    /// Refuses a value that is not of the type of this word.
    pub(crate) fn require_word(
        &mut self,
        word: &[u8],
        written: Written<'r, 'a>,
        value: &Value<'a>,
    ) -> Result<(), Fault> {
        if suits_word(word, value) {
            Ok(())
        } else {
            Err(self.refuse_word(word, written))
        }
    }

    // The error that a value is not of the type of this word.
    fn refuse_word(&mut self, word: &[u8], written: Written<'r, 'a>) -> Fault {
        self.refuse(
            written.place(),
            &[b"a value of ", whole_word(word), b" is expected here"],
        )
    }
}

/// Whether a type is one whose values are kept as their contents octets.
pub(crate) fn is_contents(base: Governed<'_, '_>) -> bool {
    match &base.definition.kind {
        TypeKind::Contents(_) => true,
        _ => false,
    }
}

// The value of these bits, or of the octets that they are.
fn bits_of_word<'a>(alloc: Global, word: &[u8], bits: Vec<bool>) -> Result<Value<'a>, Fault> {
    if word.starts_with(b"OCTET") {
        let octets = octets_of_bits(alloc, bits.as_slice())?;
        Ok(Value::Octets(octets))
    } else {
        Ok(Value::Bits(bits))
    }
}

// Whether a value is of the type of this word.
fn suits_word(word: &[u8], value: &Value<'_>) -> bool {
    match value {
        Value::Boolean(_) => matches!(word, b"BOOLEAN"),
        Value::Null => matches!(word, b"NULL"),
        Value::Integer(_) => matches!(word, b"INTEGER"),
        Value::Bits(_) => word.starts_with(b"BIT"),
        Value::Octets(_) => word.starts_with(b"OCTET"),
        Value::ObjectIdentifier(_) => word.starts_with(b"OBJECT"),
        Value::Text(_) => is_string_word(word),
        _ => false,
    }
}

// The words of a type, by the first.
fn whole_word(first: &[u8]) -> &[u8] {
    match first {
        b"BIT" => b"BIT STRING",
        b"OCTET" => b"OCTET STRING",
        b"OBJECT" => b"OBJECT IDENTIFIER",
        _ => first,
    }
}

/// Whether a word is that of a type whose values are kept as their contents octets.
pub(crate) fn is_contents_word(word: &[u8]) -> bool {
    matches!(
        word,
        b"REAL" | b"RELATIVE-OID" | b"DATE" | b"TIME-OF-DAY" | b"DATE-TIME" | b"DURATION"
    )
}

// Whether a word is that of a string of characters, or of a time.
fn is_string_word(word: &[u8]) -> bool {
    matches!(word, b"ObjectDescriptor") || word.ends_with(b"String") || word.ends_with(b"Time")
}
