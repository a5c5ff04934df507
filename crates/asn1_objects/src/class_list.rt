//! The classes that objects are of, as far as they were met.
use crate::classes::{Home, ObjectClass, known_class, listed_class};
use crate::warnings::Warnings;
use asn1_modules::{ClassIndex, FoundClass, is_known_class};
use asn1_notation::{Class, Reference};
use std::alloc::{AllocError, Global};
use std::collections::HashMap;

/// How many names a class may have.
const MAX_ALIASES: usize = 100;

/// The classes, and those that are defined.
#[derive(Drop)]
pub(crate) struct ClassList<'a> {
    alloc: Global,
    defined: ClassIndex<'a>,
    classes: Vec<ObjectClass<'a>>,
    // The index of a class, by its text and the offset of its name.
    listed: HashMap<(usize, usize), usize>,
    // The index of a class of the language, by its name.
    known: HashMap<&'a [u8], usize>,
}

// A class, behind other names.
#[derive(Clone, Copy)]
enum Named<'a> {
    // A class of the language.
    Known(&'a [u8]),
    // A class of a module.
    Listed(FoundClass<'a>),
}

impl<'a> ClassList<'a> {
    /// No classes yet.
    pub(crate) fn new(alloc: Global, defined: ClassIndex<'a>) -> ClassList<'a> {
        ClassList {
            alloc,
            defined,
            classes: Vec::new(alloc),
            listed: HashMap::new(alloc),
            known: HashMap::new(alloc),
        }
    }

    /// The class of this index.
    pub(crate) fn get(&self, index: usize) -> Option<&ObjectClass<'a>> {
        self.classes.get(index)
    }

    /// The classes.
    pub(crate) fn into_classes(self) -> Vec<ObjectClass<'a>> {
        let ClassList { classes, .. } = self;
        classes
    }

    /// The index of the class of this name in a module, behind other names.
    pub(crate) fn class_of(
        &mut self,
        warnings: &mut Warnings,
        home: Home<'a>,
        reference: &Reference,
    ) -> Result<Option<usize>, AllocError> {
        match self.named(home, reference) {
            None => Ok(None),
            Some(Named::Known(name)) => {
                let index = self.known_index(name)?;
                Ok(Some(index))
            }
            Some(Named::Listed(found)) => self.listed_index(warnings, found),
        }
    }

    // The class of a name.
    fn named(&self, home: Home<'a>, reference: &Reference) -> Option<Named<'a>> {
        let mut home = home;
        let mut reference = *reference;
        for _ in 0..MAX_ALIASES {
            let name = reference.name.octets(home.text);
            if reference.module.is_none() && is_known_class(name) {
                return Some(Named::Known(name));
            }
            let qualifier = match reference.module {
                Some(module) => Some(module.octets(home.text)),
                None => None,
            };
            let found = self.defined.find(home.name(), qualifier, name)?;
            match found.class {
                Class::Fields(_, _) => return Some(Named::Listed(found)),
                Class::Alias(class) => {
                    home = Home {
                        text: found.text,
                        source: found.source,
                        module: found.module,
                    };
                    reference = *class;
                }
            }
        }
        None
    }

    // The index of a class of the language.
    fn known_index(&mut self, name: &'a [u8]) -> Result<usize, AllocError> {
        if let Some(index) = self.known.get(&name) {
            return Ok(*index);
        }
        let index = self.classes.len();
        let class = known_class(self.alloc, name)?;
        self.classes.push(class)?;
        self.known.insert(name, index)?;
        Ok(index)
    }

    // The index of a class of a module.
    fn listed_index(
        &mut self,
        warnings: &mut Warnings,
        found: FoundClass<'a>,
    ) -> Result<Option<usize>, AllocError> {
        let place = (found.source, found.place.start);
        if let Some(index) = self.listed.get(&place) {
            return Ok(Some(*index));
        }
        let Class::Fields(fields, syntax) = found.class else {
            return Ok(None);
        };
        let (class, error) = listed_class(self.alloc, &self.defined, found, fields, *syntax)?;
        if let Some(error) = error {
            warnings.syntax(found.text, found.source, error)?;
        }
        let index = self.classes.len();
        self.classes.push(class)?;
        self.listed.insert(place, index)?;
        Ok(Some(index))
    }
}
