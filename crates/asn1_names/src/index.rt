//! Definitions that are found by their names.
ghost use Rattle.std.specs.Prelude.{◌≡◌, ◌++◌, List, [], ◌∷◌, length, IfOk, OnOk};
ghost use Rattle.std.specs.List.{position};
ghost use Rattle.asn1_names.specs.Definitions as spec;
ghost use Rattle.asn1_names.specs.Definitions.{has_name};
ghost use Rattle.asn1_names.specs.Index.{IsIndexOf};
ghost use Rattle.asn1_names.specs.declared.names.DefinedName.{DefinedName};

use crate::names::DefinedName;
use std::alloc::{AllocError, Global};
use std::collections::HashMap;

/// The position of the first definition of each name.
#[derive(Drop)]
pub struct NameIndex<'a> {
    // The index of the first definition, by its module and its name.
    first: HashMap<(&'a [u8], &'a [u8]), usize>,
}

impl<'a> NameIndex<'a> {
    /// The index of no definition.
    pub fn empty(alloc: Global) -> NameIndex<'a>
        ensures { IsIndexOf [] result }
    {
        NameIndex {
            first: HashMap::new(alloc),
        }
    }

    /// The index of these definitions. The error is that of memory.
    pub fn of(alloc: Global, defined: &[DefinedName<'a>]) -> Result<NameIndex<'a>, AllocError>
        ensures { IfOk result (IsIndexOf defined.now) }
    {
        let mut index = NameIndex::empty(alloc);
        for (place, definition) in defined.iter().enumerate() {
            index.add(definition, place)?;
        }
        Ok(index)
    }

    /// Adds the definition that follows those of the index, of which there are `count`.
    pub fn add(&mut self, definition: &DefinedName<'a>, count: usize) -> Result<(), AllocError>
        ensures { OnOk result ((defined : List DefinedName) → length defined ≡ count →
            IsIndexOf defined self.old → IsIndexOf (defined ++ definition.now ∷ []) self.new) }
    {
        if self.position(definition.module, definition.name).is_none() {
            self.first
                .insert((definition.module, definition.name), count)?;
        }
        Ok(())
    }

    /// Whether a module defines a name.
    pub fn is_defined(&self, module: &[u8], name: &[u8]) -> bool
        ensures { (defined : List DefinedName) → IsIndexOf defined self.now →
            result ≡ spec.is_defined defined «module».now name.now }
    {
        self.position(module, name).is_some()
    }

    /// The index of the first definition of a name in a module.
    pub fn position(&self, module: &[u8], name: &[u8]) -> Option<usize>
        ensures { (defined : List DefinedName) → IsIndexOf defined self.now →
            result ≡ position (has_name «module».now name.now) defined }
    {
        self.first.get(&(module, name)).copied()
    }
}
