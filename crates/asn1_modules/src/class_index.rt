//! The information object classes to which references are.
use crate::identifiers::ModuleNames;
use crate::source::Source;
use asn1_notation::{Assignment, Class, Definition, Module, Span};
use std::alloc::{AllocError, Global};
use std::collections::{HashMap, HashSet};

/// A class with its module.
#[derive(Clone, Copy)]
pub struct FoundClass<'a> {
    /// The index of the text.
    pub source: usize,
    /// The text.
    pub text: &'a [u8],
    /// The module.
    pub module: &'a Module,
    /// The place of the name in the text.
    pub place: Span,
    /// The class.
    pub class: &'a Class,
}

/// The classes of some texts, by their names, and the names of objects, object sets and macros, which are not read.
#[derive(Drop)]
pub struct ClassIndex<'a> {
    classes: Vec<FoundClass<'a>>,
    // The index of a class, by its module and its name.
    own: HashMap<(&'a [u8], &'a [u8]), usize>,
    // The names that are not read, with their modules.
    skipped: HashSet<(&'a [u8], &'a [u8])>,
    // The module from which such a name is imported, by the module that imports it.
    imported: HashMap<(&'a [u8], &'a [u8]), &'a [u8]>,
}

/// Whether a class with this name is one of the language (X.681, annexes A and B).
pub fn is_known_class(name: &[u8]) -> bool {
    matches!(name, b"TYPE-IDENTIFIER" | b"ABSTRACT-SYNTAX")
}

impl<'a> ClassIndex<'a> {
    /// Those of these texts. The error is that of memory.
    pub fn of(alloc: Global, sources: &[Source<'a>]) -> Result<ClassIndex<'a>, AllocError> {
        let mut index = ClassIndex {
            classes: Vec::new(alloc),
            own: HashMap::new(alloc),
            skipped: HashSet::new(alloc),
            imported: HashMap::new(alloc),
        };
        for (source_index, source) in sources.iter().enumerate() {
            for module in source.modules {
                index.add_module(*source, source_index, module)?;
            }
        }
        if !index.classes.is_empty() || !index.skipped.is_empty() {
            index.add_imports(alloc, sources)?;
        }
        Ok(index)
    }

    // Adds the classes of a module.
    fn add_module(
        &mut self,
        source: Source<'a>,
        source_index: usize,
        module: &'a Module,
    ) -> Result<(), AllocError> {
        for assignment in &module.assignments {
            if let Some(class) = class_of(assignment) {
                let name = assignment.name.octets(source.text);
                self.own.insert((module.name.octets(source.text), name), self.classes.len())?;
                self.classes.push(FoundClass {
                    source: source_index,
                    text: source.text,
                    module,
                    place: assignment.name,
                    class,
                })?;
            } else if is_skipped(assignment) {
                self.skipped.insert((
                    module.name.octets(source.text),
                    assignment.name.octets(source.text),
                ))?;
            }
        }
        Ok(())
    }

    // Adds the names that modules import, if they are those of classes.
    fn add_imports(&mut self, alloc: Global, sources: &[Source<'a>]) -> Result<(), AllocError> {
        let modules = ModuleNames::of(alloc, sources)?;
        for source in sources {
            for module in source.modules {
                for import in &module.imports {
                    let from = modules.imported(alloc, source.text, import)?;
                    for name in &import.names {
                        let name = name.octets(source.text);
                        if self.has(from, name) {
                            self.imported
                                .insert((module.name.octets(source.text), name), from)?;
                        }
                    }
                }
            }
        }
        Ok(())
    }

    // Whether a module has a class of this name, or does not read it.
    fn has(&self, module: &[u8], name: &[u8]) -> bool {
        self.position(module, name).is_some() || self.leaves_out(module, name)
    }

    // Whether a module does not read the definition of this name.
    fn leaves_out(&self, module: &[u8], name: &[u8]) -> bool {
        self.skipped.contains(&(module, name))
    }

    // The index of the class of this name in a module.
    fn position(&self, module: &[u8], name: &[u8]) -> Option<usize> {
        self.own.get(&(module, name)).copied()
    }

    // The module from which a module imports a name.
    fn source_of(&self, module: &[u8], name: &[u8]) -> Option<&'a [u8]> {
        self.imported.get(&(module, name)).copied()
    }

    /// Whether a name in a module is that of an object, an object set or a macro, behind the name of another module or alone.
    pub fn is_skipped(&self, module: &[u8], qualifier: Option<&[u8]>, name: &[u8]) -> bool {
        match qualifier {
            Some(other) => self.leaves_out(other, name),
            None => {
                self.leaves_out(module, name)
                    || match self.source_of(module, name) {
                        Some(from) => self.leaves_out(from, name),
                        None => false,
                    }
            }
        }
    }

    /// The class that a name in a module refers to, behind the name of another module or alone.
    pub fn find(
        &self,
        module: &[u8],
        qualifier: Option<&[u8]>,
        name: &[u8],
    ) -> Option<FoundClass<'a>> {
        let index = match qualifier {
            Some(other) => self.position(other, name)?,
            None => match self.position(module, name) {
                Some(index) => index,
                None => self.position(self.source_of(module, name)?, name)?,
            },
        };
        self.classes.get(index).copied()
    }
}

// Whether a definition is not read: one of an object or a macro.
fn is_skipped(assignment: &Assignment) -> bool {
    match &assignment.definition {
        Definition::Object(_, _) => true,
        Definition::Macro(_) => true,
        _ => false,
    }
}

// The class that is defined.
fn class_of(assignment: &Assignment) -> Option<&Class> {
    match &assignment.definition {
        Definition::Class(class) => Some(class),
        _ => None,
    }
}
