//! Objects and their names.
ghost use Rattle.asn1_certificate_text.specs.Objects.{object_text};

use crate::append_text::AppendText;
use asn1_values::ObjectIdentifier;
use std::alloc::AllocError;
use std::fmt::Write;

/// An object: an algorithm, a kind of attribute or of extension, or a purpose of a key.
#[derive(Drop)]
pub struct Object {
    /// Its identifier.
    pub identifier: ObjectIdentifier,
    /// Its name, if the table has one.
    pub name: Option<&'static str>,
}

/// Its name, or its arcs with a dot between each two.
impl AppendText for Object {
    ghost text_of = { object_text };

    fn append_to(&self, text: &mut String) -> Result<(), AllocError> {
        match self.name {
            Some(name) => text.push_str(name),
            None => write!(text, "{}", self.identifier),
        }
    }
}
