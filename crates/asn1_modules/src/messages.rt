//! Messages about names.
use crate::built_in::nearest_built_in;
use crate::similar::similar_names;
use asn1_names::{
    DefinedName, DoubledName, ImportedName, NameIndex, NameProblem, Names, UsedName, nearest_name,
};
use std::alloc::{AllocError, Global};
use std::collections::HashSet;

/// For how many names a name that may be meant is looked for.
const MAX_SUGGESTIONS: usize = 100;

/// How many octets of a name a message has.
const MAX_NAME: usize = 100;

/// The messages about the names of a set of modules.
#[derive(Drop)]
pub struct NameMessages<'n, 'a> {
    alloc: Global,
    names: &'n Names<'a>,
    // The modules that define a name.
    modules: HashSet<&'a [u8]>,
    // The imported names, by the modules that import them.
    imports: NameIndex<'a>,
    suggestions_left: usize,
}

impl<'n, 'a> NameMessages<'n, 'a> {
    /// Those about these names. The error is that of memory.
    pub fn new(alloc: Global, names: &'n Names<'a>) -> Result<NameMessages<'n, 'a>, AllocError> {
        let mut modules = HashSet::new(alloc);
        for definition in &names.defined {
            modules.insert(definition.module)?;
        }
        Ok(NameMessages {
            alloc,
            names,
            modules,
            imports: index_of_imports(alloc, &names.imported)?,
            suggestions_left: MAX_SUGGESTIONS,
        })
    }

    /// Whether a definition is in a module of this name.
    pub fn has_module(&self, name: &[u8]) -> bool {
        self.modules.contains(name)
    }

    /// Appends what is wrong with a name, with a name that may be meant for the first hundred.
    pub fn append(
        &mut self,
        out: &mut Vec<u8>,
        problem: &NameProblem<'_>,
    ) -> Result<(), AllocError> {
        match problem {
            NameProblem::Doubled(doubled) => append_doubled(out, doubled),
            NameProblem::UnknownImport(import) => self.append_import(out, import),
            NameProblem::Undefined(used) => self.append_undefined(out, used),
        }
    }

    // Appends that a name is imported that is not defined.
    fn append_import(
        &mut self,
        out: &mut Vec<u8>,
        import: &ImportedName<'_>,
    ) -> Result<(), AllocError> {
        out.extend_from_slice(b"module ")?;
        append_name(out, import.from)?;
        if !self.has_module(import.from) {
            out.extend_from_slice(b" is not among the files")?;
            return Ok(());
        }
        out.extend_from_slice(b" does not define ")?;
        append_name(out, import.name)?;
        self.append_suggestion(out, import.name)
    }

    // Appends that a name is used that is not defined.
    fn append_undefined(
        &mut self,
        out: &mut Vec<u8>,
        used: &UsedName<'_>,
    ) -> Result<(), AllocError> {
        append_name(out, used.name)?;
        match used.qualifier {
            Some(module) if !self.has_module(module) => return append_missing(out, module),
            _ => {}
        }
        if let Some(from) = self.missing_module(used) {
            return append_missing(out, from);
        }
        out.extend_from_slice(b" is not defined in module ")?;
        append_name(out, module_of(used))?;
        self.append_suggestion(out, used.name)
    }

    // The module that is not among the files and from which that of a reference imports its name.
    fn missing_module(&self, used: &UsedName<'_>) -> Option<&'a [u8]> {
        let index = self.imports.position(module_of(used), used.name)?;
        let import = self.names.imported.get(index)?;
        if self.has_module(import.from) {
            None
        } else {
            Some(import.from)
        }
    }

    // Appends the name that may be meant: that of another module, one that is like it, or that of a type of the language.
    fn append_suggestion(&mut self, out: &mut Vec<u8>, name: &[u8]) -> Result<(), AllocError> {
        let Some(left) = self.suggestions_left.checked_sub(1) else {
            return Ok(());
        };
        self.suggestions_left = left;
        let similar = similar_names(self.alloc, &self.names.defined, name)?;
        match nearest_name(self.alloc, &similar, name)? {
            Some(nearest) if nearest.name == name => {
                out.extend_from_slice(b"; it can be imported from module ")?;
                append_name(out, nearest.module)
            }
            Some(nearest) => append_meant(out, nearest.name),
            None => match nearest_built_in(self.alloc, name)? {
                Some(built_in) => append_meant(out, built_in),
                None => Ok(()),
            },
        }
    }
}

// The module that a reference names, or else that in which it is.
fn module_of<'a>(used: &UsedName<'a>) -> &'a [u8] {
    match used.qualifier {
        Some(module) => module,
        None => used.module,
    }
}

// The index of imported names, by the modules that import them.
fn index_of_imports<'a>(
    alloc: Global,
    imported: &[ImportedName<'a>],
) -> Result<NameIndex<'a>, AllocError> {
    let mut names = Vec::new(alloc);
    for import in imported {
        names.push(DefinedName {
            module: import.module,
            name: import.name,
            place: import.place,
        })?;
    }
    NameIndex::of(alloc, &names)
}

// Appends a name in apostrophes. A long one is cut.
fn append_name(out: &mut Vec<u8>, name: &[u8]) -> Result<(), AllocError> {
    out.push(b'\'')?;
    match name.get(..MAX_NAME) {
        Some(front) => {
            out.extend_from_slice(front)?;
            out.extend_from_slice(b"..")?;
        }
        None => out.extend_from_slice(name)?,
    }
    out.push(b'\'')?;
    Ok(())
}

// Appends the module that a name is imported from.
fn append_missing(out: &mut Vec<u8>, module: &[u8]) -> Result<(), AllocError> {
    out.extend_from_slice(b" is imported from module ")?;
    append_name(out, module)?;
    out.extend_from_slice(b", which is not among the files")?;
    Ok(())
}

// Appends a name that may be meant.
fn append_meant(out: &mut Vec<u8>, name: &[u8]) -> Result<(), AllocError> {
    out.extend_from_slice(b"; did you mean ")?;
    append_name(out, name)?;
    out.push(b'?')?;
    Ok(())
}

// Appends that a module defines a name again.
fn append_doubled(out: &mut Vec<u8>, doubled: &DoubledName<'_>) -> Result<(), AllocError> {
    append_name(out, doubled.again.name)?;
    out.extend_from_slice(b" is defined twice in module ")?;
    append_name(out, doubled.again.module)
}
