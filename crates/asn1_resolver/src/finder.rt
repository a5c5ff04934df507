//! The definitions to which names may refer.
use crate::definitions::Defined;
use asn1_names::{DefinedName, ImportedName, NameIndex, Place, UsedName};
use std::alloc::{AllocError, Global};

/// A definition that a reference may be to.
#[derive(Clone, Copy)]
pub(crate) struct Candidate {
    /// The index of the definition.
    pub(crate) definition: usize,
    /// The index of the import of its name, if it is of another module.
    pub(crate) import: Option<usize>,
}

/// The definitions that references may be to, by their names.
#[derive(Drop)]
pub(crate) struct Finder<'a> {
    // The definitions, by their modules.
    own: NameIndex<'a>,
    // The names that modules import from modules that define them, by the modules that import them.
    brought_in: NameIndex<'a>,
    // The definition of each name that is brought in.
    candidates: Vec<Candidate>,
}

impl<'a> Finder<'a> {
    /// The finder of these definitions.
    pub(crate) fn of(
        alloc: Global,
        list: &[Defined<'a>],
        imported: &[ImportedName<'a>],
    ) -> Result<Finder<'a>, AllocError> {
        let own = NameIndex::of(alloc, &names_of(alloc, list)?)?;
        let mut names = Vec::new(alloc);
        let mut candidates = Vec::new(alloc);
        for (index, import) in imported.iter().enumerate() {
            if let Some(definition) = own.position(import.from, import.name) {
                names.push(name_of(import.module, import.name, import.place))?;
                candidates.push(Candidate {
                    definition,
                    import: Some(index),
                })?;
            }
        }
        Ok(Finder {
            own,
            brought_in: NameIndex::of(alloc, &names)?,
            candidates,
        })
    }

    /// The definition that a reference is to, if it is defined.
    pub(crate) fn candidate(&self, used: &UsedName<'_>) -> Option<Candidate> {
        match used.qualifier {
            Some(module) => self.own_candidate(module, used.name),
            None => match self.own_candidate(used.module, used.name) {
                Some(candidate) => Some(candidate),
                None => self.imported_candidate(used),
            },
        }
    }

    // The definition of a name in a module.
    fn own_candidate(&self, module: &[u8], name: &[u8]) -> Option<Candidate> {
        let definition = self.own.position(module, name)?;
        Some(Candidate {
            definition,
            import: None,
        })
    }

    // The definition of a name that the module of a reference imports.
    fn imported_candidate(&self, used: &UsedName<'_>) -> Option<Candidate> {
        let index = self.brought_in.position(used.module, used.name)?;
        self.candidates.get(index).copied()
    }
}

// The names of definitions.
fn names_of<'a>(alloc: Global, list: &[Defined<'a>]) -> Result<Vec<DefinedName<'a>>, AllocError> {
    let mut names = Vec::new(alloc);
    for defined in list {
        names.push(name_of(defined.scope.name, defined.name, defined.place))?;
    }
    Ok(names)
}

// A name of a module.
fn name_of<'a>(module: &'a [u8], name: &'a [u8], place: Place) -> DefinedName<'a> {
    DefinedName {
        module,
        name,
        place,
    }
}
