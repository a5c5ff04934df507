//! How many parts types have.
use asn1_rust_code::TypeName;
use asn1_rust_components::{Alias, Alternative, Component, TypeBody, TypeFile};
use std::alloc::{AllocError, Global};
use std::collections::HashMap;

// From so many parts on the check may not find by itself that a part is written.
const MANY: usize = 9;

/// The number of parts of each type of a crate, with those of the types of its parts, but for elements of lists.
#[derive(Drop)]
pub struct Weights {
    // By the names of the types. A number above `MANY` may be less than that of the parts.
    parts: HashMap<String, usize>,
}

impl Weights {
    /// The weights of no type.
    pub fn new(alloc: Global) -> Weights {
        Weights {
            parts: HashMap::new(alloc),
        }
    }

    /// The weights of these types and of these names for types.
    pub fn of(alloc: Global, files: &[TypeFile], aliases: &[Alias]) -> Result<Weights, AllocError> {
        let mut weights = Weights::new(alloc);
        // A type that is inside `MANY` others makes each of them heavy.
        for _ in 0..MANY {
            weights.add(alloc, files, aliases)?;
        }
        Ok(weights)
    }

    // Weighs each type by the weights that are known.
    fn add(
        &mut self,
        alloc: Global,
        files: &[TypeFile],
        aliases: &[Alias],
    ) -> Result<(), AllocError> {
        for file in files {
            let weight = self.of_body(&file.body);
            let name = String::from_str(alloc, file.plain_name())?;
            self.parts.insert(name, weight)?;
        }
        for alias in aliases {
            let weight = self.of_type(&alias.definition);
            let name = String::from_str(alloc, alias.name.as_str())?;
            self.parts.insert(name, weight)?;
        }
        Ok(())
    }

    /// Whether a part of this type is heavy: the check may not find by itself that it is written.
    pub(crate) fn is_heavy(&self, definition: &TypeName) -> bool {
        self.of_type(definition) >= MANY
    }

    // The weight of a type; of one of another crate nothing is known, so it is heavy.
    fn of_type(&self, definition: &TypeName) -> usize {
        match self.parts.get(definition.text.as_str()) {
            Some(weight) => *weight,
            None if is_of_other_crate(definition) => MANY,
            None => 0,
        }
    }

    // The weight of a body.
    fn of_body(&self, body: &TypeBody) -> usize {
        match body {
            TypeBody::Choice(choice) => self.of_alternatives(choice.alternatives.as_slice()),
            TypeBody::Sequence(body) => self.of_components(body.components.as_slice()),
            TypeBody::Set(body) => self.of_components(body.components.as_slice()),
            TypeBody::Group(body) => self.of_components(body.components.as_slice()),
            TypeBody::Enumerated(_) | TypeBody::RestrictedString(_) => 0,
        }
    }

    // The weight of alternatives.
    fn of_alternatives(&self, alternatives: &[Alternative]) -> usize {
        let mut weight: usize = 0;
        for alternative in alternatives {
            weight = weight
                .saturating_add(1)
                .saturating_add(self.of_type(&alternative.definition));
        }
        weight
    }

    // The weight of components.
    fn of_components(&self, components: &[Component]) -> usize {
        let mut weight: usize = 0;
        for component in components {
            weight = weight
                .saturating_add(1)
                .saturating_add(self.of_type(&component.definition));
        }
        weight
    }
}

/// Whether a type is one that another crate has, beside those of the library of types and of contents.
pub(crate) fn is_of_other_crate(definition: &TypeName) -> bool {
    for import in &definition.imports {
        let path = import.path.as_str();
        if import.is_foreign && path != "asn1_schema" && path != "asn1_contents" {
            return true;
        }
    }
    false
}
