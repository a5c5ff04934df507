//! Types as code names them.
use crate::imports::Import;
use std::alloc::{AllocError, Global};

/// A type as code names it.
#[derive(Drop)]
pub struct TypeName {
    /// The name, with arguments, as `Vec<Utf8String>`.
    pub text: String,
    /// The names that a file imports to write it.
    pub imports: Vec<Import>,
    /// Whether it is `Explicit`, a type behind a tag of its own, which has no name.
    pub is_explicit: bool,
}

impl TypeName {
    /// The type, as the path of a call has it: in angle brackets, if it has arguments.
    pub fn in_path(&self, alloc: Global) -> Result<String, AllocError> {
        let text = self.text.as_str();
        if text.bytes().all(|octet| octet.is_ascii_alphanumeric()) {
            String::from_str(alloc, text)
        } else {
            format!(in alloc; "<{text}>")
        }
    }
}
