//! Reads definitions of objects and object sets.
use crate::class_list::ClassList;
use crate::classes::{Home, ObjectClass};
use crate::definitions::{ReadDefinition, ReadElement, ReadObject, ReadSet};
use crate::warnings::Warnings;
use asn1_grammar::{ObjectElement, Setting, parse_object, parse_object_set};
use asn1_modules::ClassIndex;
use asn1_notation::{Assignment, FieldUsage, Reference, Span};
use std::alloc::{AllocError, Global};

/// The reader of the definitions of a run, with the classes that were met and what is wrong.
#[derive(Drop)]
pub(crate) struct ObjectReader<'a> {
    alloc: Global,
    /// The classes.
    pub(crate) classes: ClassList<'a>,
    /// The warnings.
    pub(crate) warnings: Warnings,
}

impl<'a> ObjectReader<'a> {
    /// A reader that has read nothing, over the classes that modules define.
    pub(crate) fn new(alloc: Global, defined: ClassIndex<'a>) -> ObjectReader<'a> {
        ObjectReader {
            alloc,
            classes: ClassList::new(alloc, defined),
            warnings: Warnings::new(alloc),
        }
    }

    /// The object or the set of a definition. One with parameters is not read.
    pub(crate) fn contents(
        &mut self,
        home: Home<'a>,
        assignment: &Assignment,
        class: &Reference,
        braces: Span,
    ) -> Result<ReadDefinition, AllocError> {
        if !assignment.parameters.is_empty() {
            return Ok(ReadDefinition::Unread);
        }
        let alloc = self.alloc;
        let Some(index) = self.classes.class_of(&mut self.warnings, home, class)? else {
            return Ok(ReadDefinition::Unread);
        };
        let Some(class) = self.classes.get(index) else {
            return Ok(ReadDefinition::Unread);
        };
        let reader = Reader {
            alloc,
            home,
            index,
            class,
        };
        reader.definition(&mut self.warnings, assignment.name, braces)
    }
}

// The reader of the objects of a class in a module.
#[derive(Clone, Copy)]
struct Reader<'c, 'a> {
    alloc: Global,
    home: Home<'a>,
    index: usize,
    class: &'c ObjectClass<'a>,
}

impl<'a> Reader<'_, 'a> {
    // Reads an object, or a set: the name of a set has a capital.
    fn definition(
        self,
        warnings: &mut Warnings,
        name: Span,
        braces: Span,
    ) -> Result<ReadDefinition, AllocError> {
        let is_set = match name.octets(self.home.text) {
            [first, ..] => first.is_ascii_uppercase(),
            [] => false,
        };
        if is_set {
            return self.set(warnings, braces);
        }
        match self.object(warnings, Some(name), braces)? {
            Some(object) => Ok(ReadDefinition::Object(object)),
            None => Ok(ReadDefinition::Unread),
        }
    }

    // Reads an object.
    fn object(
        self,
        warnings: &mut Warnings,
        name: Option<Span>,
        braces: Span,
    ) -> Result<Option<ReadObject>, AllocError> {
        let notation = self.class.notation();
        match parse_object(self.alloc, self.home.text, braces, notation) {
            Err(fault) => {
                warnings.object(self.home, self.class, fault)?;
                Ok(None)
            }
            Ok(settings) => {
                if let Some(field) = self.lacking(settings.as_slice()) {
                    let text = self.home.text;
                    match name {
                        Some(span) => {
                            warnings.lack(self.home, span, Some(span.octets(text)), field)?;
                        }
                        None => warnings.lack(self.home, braces, None, field)?,
                    }
                    return Ok(None);
                }
                Ok(Some(ReadObject {
                    class: self.index,
                    braces,
                    settings,
                }))
            }
        }
    }

    // The name of a field that an object must have, and that none of these settings is of.
    fn lacking(self, settings: &[Setting]) -> Option<&'a [u8]> {
        for (index, field) in self.class.fields.iter().enumerate() {
            let is_set = settings.iter().any(|setting| setting.field == index);
            if field.usage == FieldUsage::Required && !is_set {
                return Some(field.name);
            }
        }
        None
    }

    // Reads an object set.
    fn set(self, warnings: &mut Warnings, braces: Span) -> Result<ReadDefinition, AllocError> {
        let set = match parse_object_set(self.alloc, self.home.text, braces)? {
            Ok(set) => set,
            Err(error) => {
                warnings.syntax(self.home.text, self.home.source, error)?;
                return Ok(ReadDefinition::Unread);
            }
        };
        let mut elements = Vec::new(self.alloc);
        for element in &set.elements {
            match element {
                ObjectElement::Object(reference) => {
                    elements.push(ReadElement::Object(*reference))?;
                }
                ObjectElement::Set(reference) => elements.push(ReadElement::Set(*reference))?,
                ObjectElement::Braces(span) => {
                    if let Some(object) = self.object(warnings, None, *span)? {
                        elements.push(ReadElement::Braces(object))?;
                    }
                }
            }
        }
        Ok(ReadDefinition::Set(ReadSet {
            class: self.index,
            elements,
            unread: set.unread,
        }))
    }
}
