//! The references of definitions, as far as they were listed.
use crate::class_index::{ClassIndex, is_known_class};
use crate::references::{type_of_open_value, used_name};
use asn1_names::UsedName;
use asn1_notation::{NumberName, Parameter, Reference, Span, Type, TypeKind};
use std::alloc::{AllocError, Global};
use std::collections::HashSet;

/// The references of the modules that were passed.
#[derive(Drop)]
pub(crate) struct Collector<'a> {
    // The text that is passed, and its index.
    text: &'a [u8],
    index: usize,
    // The module that is passed.
    module: &'a [u8],
    // The parameters of the definition that is passed, which hide definitions of their names.
    parameters: HashSet<&'a [u8]>,
    used: Vec<UsedName<'a>>,
    // The names of numbers, bits and items.
    items: HashSet<&'a [u8]>,
    // References to values, of which some are the names of items.
    values: Vec<UsedName<'a>>,
}

impl<'a> Collector<'a> {
    /// No references yet.
    pub(crate) fn new(alloc: Global) -> Collector<'a> {
        Collector {
            text: &[],
            index: 0,
            module: &[],
            parameters: HashSet::new(alloc),
            used: Vec::new(alloc),
            items: HashSet::new(alloc),
            values: Vec::new(alloc),
        }
    }

    /// Goes on with a module of a text.
    pub(crate) fn enter(&mut self, text: &'a [u8], index: usize, name: Span) {
        self.text = text;
        self.index = index;
        self.module = name.octets(text);
    }

    /// Goes on with a definition that has these parameters.
    pub(crate) fn enter_definition(
        &mut self,
        alloc: Global,
        parameters: &[Parameter],
    ) -> Result<(), AllocError> {
        if !self.parameters.is_empty() {
            self.parameters = HashSet::new(alloc);
        }
        for parameter in parameters {
            self.parameters.insert(parameter.name.octets(self.text))?;
        }
        Ok(())
    }

    // Whether a reference is to a parameter of the definition that is passed.
    fn is_parameter(&self, reference: &Reference) -> bool {
        reference.module.is_none() && self.parameters.contains(reference.name.octets(self.text))
    }

    // A reference with its place.
    fn used(&self, reference: &Reference) -> UsedName<'a> {
        used_name(self.text, self.index, self.module, reference)
    }

    /// Adds a reference to a definition.
    pub(crate) fn refer(&mut self, reference: &Reference) -> Result<(), AllocError> {
        if !self.is_parameter(reference) {
            let used = self.used(reference);
            self.used.push(used)?;
        }
        Ok(())
    }

    /// Adds a reference to a type or a class, unless it is a class of the language.
    pub(crate) fn refer_to_type(&mut self, reference: &Reference) -> Result<(), AllocError> {
        if is_known_class(reference.name.octets(self.text)) {
            Ok(())
        } else {
            self.refer(reference)
        }
    }

    /// Adds the reference to the type of a value of an open type, if the name of an alternative is one.
    pub(crate) fn refer_to_open_type(&mut self, name: Span) -> Result<(), AllocError> {
        match type_of_open_value(self.text, name) {
            Some(reference) => self.refer(&reference),
            None => Ok(()),
        }
    }

    /// Adds a name of the module that is passed, as a reference.
    pub(crate) fn refer_to(&mut self, name: Span) -> Result<(), AllocError> {
        self.refer(&Reference { module: None, name })
    }

    /// Adds the reference to a value, if a number is one.
    pub(crate) fn refer_to_number(&mut self, number: &NumberName) -> Result<(), AllocError> {
        match number {
            NumberName::Number(_) => Ok(()),
            NumberName::Reference(reference) => self.refer(reference),
        }
    }

    /// Adds a name that is that of a value, or of an item of the value's type.
    pub(crate) fn refer_or_name_item(&mut self, reference: &Reference) -> Result<(), AllocError> {
        if !self.is_parameter(reference) {
            let used = self.used(reference);
            self.values.push(used)?;
        }
        Ok(())
    }

    /// Adds the name of an item.
    pub(crate) fn name_item(&mut self, name: Span) -> Result<(), AllocError> {
        self.items.insert(name.octets(self.text))?;
        Ok(())
    }

    /// Whether a type is the name of a class, so that a value of it is an object.
    pub(crate) fn is_object(&self, classes: &ClassIndex<'_>, governor: &Type) -> bool {
        match &governor.kind {
            TypeKind::Reference(reference) => {
                let used = self.used(reference);
                classes
                    .find(used.module, used.qualifier, used.name)
                    .is_some()
            }
            _ => false,
        }
    }

    /// The octets of a name of the text that is passed.
    pub(crate) fn octets(&self, name: Span) -> &'a [u8] {
        name.octets(self.text)
    }

    /// The references. A name of a value that is one of an item is no reference.
    pub(crate) fn finish(self) -> Result<Vec<UsedName<'a>>, AllocError> {
        let Collector {
            text: _,
            index: _,
            module: _,
            parameters: _,
            mut used,
            items,
            values,
        } = self;
        for value in &values {
            if !is_item(&items, value) {
                used.push(*value)?;
            }
        }
        Ok(used)
    }
}

// Whether a name of a value is the name of an item.
fn is_item(items: &HashSet<&[u8]>, value: &UsedName<'_>) -> bool {
    value.qualifier.is_none() && items.contains(value.name)
}
