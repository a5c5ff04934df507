//! Types that arguments complete (X.683, 9).
use crate::definitions::Defined;
use crate::governed::{Governed, Scope};
use asn1_notation::{Argument, Parameter, Reference};
use std::alloc::{AllocError, Global};
use std::collections::HashMap;

/// The greatest depth of types with arguments.
const MAX_DEPTH: usize = 100;

// How many of them a run may have.
const MAX_INSTANCES: usize = 10_000;

/// A template with arguments.
#[derive(Clone, Copy)]
pub(crate) struct Instance<'r, 'a> {
    /// The template.
    pub(crate) template: Defined<'a>,
    /// The module that the arguments are in.
    pub(crate) scope: Scope<'a>,
    /// The arguments.
    pub(crate) arguments: &'r [Argument],
    /// The definition that is this type, if one is.
    pub(crate) home: Option<usize>,
    /// The index of the type in the schema.
    pub(crate) reference: usize,
    // In how many others it was met.
    depth: usize,
}

/// An argument with its parameter.
#[derive(Clone, Copy)]
pub(crate) struct Bound<'r, 'a> {
    /// The parameter.
    pub(crate) parameter: &'r Parameter,
    /// The module that the argument is in.
    pub(crate) scope: Scope<'a>,
    /// The argument.
    pub(crate) argument: &'r Argument,
}

/// The types that arguments complete, as far as they were met.
#[derive(Drop)]
pub(crate) struct Instances<'r, 'a> {
    list: Vec<Instance<'r, 'a>>,
    // The index of an instance, by its key.
    keys: HashMap<Vec<u8>, usize>,
    // The index of the instance that a definition is.
    homes: HashMap<usize, usize>,
    // The index in the schema of the next that no definition is.
    next_reference: usize,
}

impl<'r, 'a: 'r> Instances<'r, 'a> {
    /// None yet, in a schema with this number of definitions of types.
    pub(crate) fn new(alloc: Global, definitions: usize) -> Instances<'r, 'a> {
        Instances {
            list: Vec::new(alloc),
            keys: HashMap::new(alloc),
            homes: HashMap::new(alloc),
            next_reference: definitions,
        }
    }

    /// The instance of this index.
    pub(crate) fn get(&self, index: usize) -> Option<Instance<'r, 'a>> {
        self.list.get(index).copied()
    }

    /// The index of the instance with a key.
    pub(crate) fn find(&self, key: &[u8]) -> Option<usize> {
        self.keys.get(key).copied()
    }

    /// The index of the instance that the definition of this index is.
    pub(crate) fn of_definition(&self, definition: usize) -> Option<usize> {
        self.homes.get(&definition).copied()
    }

    /// Whether no further instance may be met in this module: it is in too many others, or there are too many.
    pub(crate) fn is_full(&self, scope: Scope<'a>) -> bool {
        MAX_DEPTH <= self.depth_of(scope) || MAX_INSTANCES <= self.list.len()
    }

    // In how many instances a module is.
    fn depth_of(&self, scope: Scope<'a>) -> usize {
        match scope.instance {
            Some(index) => match self.list.get(index) {
                Some(outer) => outer.depth.saturating_add(1),
                None => 0,
            },
            None => 0,
        }
    }

    /// Adds an instance under its key, and answers its index.
    pub(crate) fn add(
        &mut self,
        key: Vec<u8>,
        template: Defined<'a>,
        scope: Scope<'a>,
        arguments: &'r [Argument],
        home: Option<usize>,
    ) -> Result<usize, AllocError> {
        let index = self.list.len();
        let depth = self.depth_of(scope);
        let reference = match home {
            Some(definition) => {
                self.homes.insert(definition, index)?;
                definition
            }
            None => {
                let reference = self.next_reference;
                self.next_reference = reference.saturating_add(1);
                reference
            }
        };
        self.keys.insert(key, index)?;
        self.list.push(Instance {
            template,
            scope,
            arguments,
            home,
            reference,
            depth,
        })?;
        Ok(index)
    }

    /// The type of an instance, with the module that its template is in.
    pub(crate) fn body(&self, index: usize) -> Option<Governed<'r, 'a>> {
        let template = self.list.get(index)?.template;
        Some(Governed {
            scope: template.scope.within(index),
            definition: template.definition,
        })
    }

    /// The argument of a name that is that of a parameter.
    pub(crate) fn argument(
        &self,
        scope: Scope<'a>,
        reference: &Reference,
    ) -> Option<Bound<'r, 'a>> {
        if reference.module.is_some() {
            return None;
        }
        let instance = self.get(scope.instance?)?;
        let name = scope.octets(reference.name);
        for (parameter, argument) in instance.template.parameters.iter().zip(instance.arguments) {
            if scope.octets(parameter.name) == name {
                return Some(Bound {
                    parameter,
                    scope: instance.scope,
                    argument,
                });
            }
        }
        None
    }
}
