//! Definitions with which more may be wrong for the sole reason that others are in error.
use asn1_modules::Source;
use asn1_names::{DefinedName, NameIndex, Names, Place, UsedName};
use asn1_resolved::{Problem, Severity};
use std::alloc::{AllocError, Global};

/// The definitions that are in error, those that refer to them, and those with parameters.
#[derive(Drop)]
pub(crate) struct Doubtful<'n, 'a> {
    // The definitions.
    defined: &'n [DefinedName<'a>],
    // Whether the definition of an index is one of these.
    marks: Vec<bool>,
}

impl<'n, 'a> Doubtful<'n, 'a> {
    /// Those of modules that have these problems.
    pub(crate) fn of(
        alloc: Global,
        sources: &[Source<'a>],
        names: &'n Names<'a>,
        problems: &[Problem],
    ) -> Result<Doubtful<'n, 'a>, AllocError> {
        let mut doubtful = Doubtful {
            defined: names.defined.as_slice(),
            marks: Vec::new(alloc),
        };
        for _ in &names.defined {
            doubtful.marks.push(false)?;
        }
        let users = doubtful.users_of(alloc, names)?;
        for problem in problems {
            if problem.severity == Severity::Error {
                doubtful.mark_from(alloc, &users, problem.place)?;
            }
        }
        doubtful.mark_templates(sources);
        Ok(doubtful)
    }

    /// Whether a place is in one of these definitions.
    pub(crate) fn has(&self, place: Place) -> bool {
        match self.index_at(place) {
            Some(index) => self.is_marked(index),
            None => false,
        }
    }

    // Whether the definition of an index is marked.
    fn is_marked(&self, index: usize) -> bool {
        self.marks.get(index).copied().unwrap_or(true)
    }

    // Marks the definition of an index, and answers whether it was not.
    fn mark(&mut self, index: usize) -> bool {
        match self.marks.get_mut(index) {
            Some(mark) => {
                let is_new = !*mark;
                *mark = true;
                is_new
            }
            None => false,
        }
    }

    // The index of the definition in which a place is: the last one that begins before it, or there.
    fn index_at(&self, place: Place) -> Option<usize> {
        let count = self.defined.partition_point(|definition| {
            (definition.place.text, definition.place.span.start) <= (place.text, place.span.start)
        });
        let index = count.checked_sub(1)?;
        match self.defined.get(index) {
            Some(definition) if definition.place.text == place.text => Some(index),
            _ => None,
        }
    }

    // For each definition, those that refer to it.
    fn users_of(&self, alloc: Global, names: &Names<'a>) -> Result<Vec<Vec<usize>>, AllocError> {
        let index = NameIndex::of(alloc, self.defined)?;
        let imports = imports_of(alloc, names)?;
        let mut users = Vec::new(alloc);
        for _ in self.defined {
            users.push(Vec::new(alloc))?;
        }
        for used in &names.used {
            let target = target_of(&index, &imports, names, used);
            if let (Some(user), Some(target)) = (self.index_at(used.place), target) {
                add_user(&mut users, target, user)?;
            }
        }
        Ok(users)
    }

    // Marks the definition in which a place is, and those that refer to it, by others too.
    fn mark_from(
        &mut self,
        alloc: Global,
        users: &[Vec<usize>],
        place: Place,
    ) -> Result<(), AllocError> {
        let mut left = Vec::new(alloc);
        if let Some(first) = self.index_at(place) {
            if self.mark(first) {
                left.push(first)?;
            }
        }
        for _ in 0..self.defined.len() {
            let Some(next) = left.pop() else {
                break;
            };
            if let Some(found) = users.get(next) {
                for user in found {
                    if self.mark(*user) {
                        left.push(*user)?;
                    }
                }
            }
        }
        Ok(())
    }

    // Marks the definitions that have parameters: an argument may be in error.
    fn mark_templates(&mut self, sources: &[Source<'a>]) {
        let mut index = 0usize;
        for source in sources {
            for module in source.modules {
                for assignment in &module.assignments {
                    if !assignment.parameters.is_empty() {
                        let _ = self.mark(index);
                    }
                    index = index.saturating_add(1);
                }
            }
        }
    }
}

// Adds a definition that refers to another.
fn add_user(users: &mut [Vec<usize>], target: usize, user: usize) -> Result<(), AllocError> {
    if let Some(known) = users.get_mut(target) {
        known.push(user)?;
    }
    Ok(())
}

// The index of the imports, by the modules that import the names.
fn imports_of<'a>(alloc: Global, names: &Names<'a>) -> Result<NameIndex<'a>, AllocError> {
    let mut list = Vec::new(alloc);
    for import in &names.imported {
        list.push(DefinedName {
            module: import.module,
            name: import.name,
            place: import.place,
        })?;
    }
    NameIndex::of(alloc, list.as_slice())
}

// The definition that a reference is to.
fn target_of(
    index: &NameIndex<'_>,
    imports: &NameIndex<'_>,
    names: &Names<'_>,
    used: &UsedName<'_>,
) -> Option<usize> {
    if let Some(module) = used.qualifier {
        return index.position(module, used.name);
    }
    match index.position(used.module, used.name) {
        Some(found) => Some(found),
        None => {
            let import = imports.position(used.module, used.name)?;
            index.position(names.imported.get(import)?.from, used.name)
        }
    }
}
