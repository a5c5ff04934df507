//! Objects and object sets.
use crate::classes::Home;
use asn1_grammar::{SetOperation, Setting};
use asn1_notation::{Reference, Span};

/// A definition of an object or an object set.
#[derive(Drop)]
pub struct ObjectDefinition<'a> {
    /// The module that it is in.
    pub home: Home<'a>,
    /// The name.
    pub name: Span,
    /// The object or the set.
    pub contents: ReadDefinition,
}

/// The object or the set of a definition.
#[derive(Drop)]
pub enum ReadDefinition {
    /// An object.
    Object(ReadObject),
    /// An object set.
    Set(ReadSet),
    /// Neither was read: the definition has parameters, its class is not among the files, or it is not written as its class asks.
    Unread,
}

/// An object.
#[derive(Drop)]
pub struct ReadObject {
    /// The index of the class.
    pub class: usize,
    /// The braces in which it is written.
    pub braces: Span,
    /// The settings of its fields, in the order of the text, each field once.
    pub settings: Vec<Setting>,
}

impl ReadObject {
    /// The setting of the field of this index.
    pub fn setting(&self, field: usize) -> Option<&Setting> {
        for setting in &self.settings {
            if setting.field == field {
                return Some(setting);
            }
        }
        None
    }
}

/// An object set.
#[derive(Drop)]
pub struct ReadSet {
    /// The index of the class.
    pub class: usize,
    /// The elements, in the order of the text.
    pub elements: Vec<ReadElement>,
    /// The offset and the kind of an element that is not read, if there is one.
    pub unread: Option<(usize, SetOperation)>,
}

/// An element of an object set.
#[derive(Drop)]
pub enum ReadElement {
    /// The object of this name.
    Object(Reference),
    /// An object in braces.
    Braces(ReadObject),
    /// The objects of the set of this name.
    Set(Reference),
}
