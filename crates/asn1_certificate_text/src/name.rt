//! Names, as RFC 4514 writes them.
ghost use Rattle.asn1_certificate_text.specs.Names.{attribute_text, name_text, part_text, value_text};

use crate::append_text::{AppendText, push_joined};
use crate::escapes::push_escaped;
use crate::object::Object;
use crate::octets::push_digits;
use std::alloc::AllocError;

/// A name by its parts, the last part first.
#[derive(Drop)]
pub struct ShownName {
    /// The parts.
    pub parts: Vec<NamePart>,
}

/// Its parts, with a comma between each two.
impl AppendText for ShownName {
    ghost text_of = { name_text };

    fn append_to(&self, text: &mut String) -> Result<(), AllocError> {
        push_joined(text, ",", self.parts.as_slice())
    }
}

/// A part of a name: attributes that belong together.
#[derive(Drop)]
pub struct NamePart {
    /// The attributes.
    pub attributes: Vec<Attribute>,
}

/// Its attributes, with a `+` between each two.
impl AppendText for NamePart {
    ghost text_of = { part_text };

    fn append_to(&self, text: &mut String) -> Result<(), AllocError> {
        push_joined(text, "+", self.attributes.as_slice())
    }
}

/// An attribute of a name.
#[derive(Drop)]
pub struct Attribute {
    /// Its kind.
    pub kind: Object,
    /// Its value.
    pub value: AttributeValue,
}

/// Its kind, and its value after a `=`.
impl AppendText for Attribute {
    ghost text_of = { attribute_text };

    fn append_to(&self, text: &mut String) -> Result<(), AllocError> {
        self.kind.append_to(text)?;
        text.push_str("=")?;
        self.value.append_to(text)
    }
}

/// The value of an attribute.
#[derive(Drop)]
pub enum AttributeValue {
    /// The characters of a value that is a text.
    Text(Vec<char>),
    /// The octets of any other.
    Octets(Vec<u8>),
}

/// Its characters, of which some have a backslash before them, or its octets in hexadecimal after a `#` (RFC 4514, 2.4).
impl AppendText for AttributeValue {
    ghost text_of = { value_text };

    fn append_to(&self, text: &mut String) -> Result<(), AllocError> {
        match self {
            AttributeValue::Text(characters) => push_escaped(text, characters.as_slice()),
            AttributeValue::Octets(octets) => {
                text.push_str("#")?;
                push_digits(text, octets.as_slice())
            }
        }
    }
}
