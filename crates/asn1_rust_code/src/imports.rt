//! The names that a file imports.
use crate::code::{Code, List, ListStyle};
use crate::order::order_of;
use std::alloc::{AllocError, Global};

/// A name that a file imports.
#[derive(Debug, PartialEq, Eq, PartialOrd, Ord, Drop)]
pub struct Import {
    /// Whether it is of another crate.
    pub is_foreign: bool,
    /// The module or the crate, as `crate::currency`.
    pub path: String,
    /// The name.
    pub name: String,
}

impl Import {
    /// The same.
    pub fn copy(&self, alloc: Global) -> Result<Import, AllocError> {
        Ok(Import {
            is_foreign: self.is_foreign,
            path: String::from_str(alloc, self.path.as_str())?,
            name: String::from_str(alloc, self.name.as_str())?,
        })
    }
}

// A name with its order. Names are ordered by their paths first.
#[derive(Debug, PartialEq, Eq, PartialOrd, Ord, Drop)]
struct OrderedImport {
    is_foreign: bool,
    path_order: String,
    name_order: String,
    import: Import,
}

// Whether two imports are the same. Names differ more often than paths.
fn is_same(one: &Import, other: &Import) -> bool {
    one.name == other.name && one.path == other.path && one.is_foreign == other.is_foreign
}

/// The names that a file imports.
#[derive(Drop)]
pub struct Imports {
    alloc: Global,
    imports: Vec<OrderedImport>,
}

impl Imports {
    /// No name yet.
    pub fn new(alloc: Global) -> Imports {
        Imports {
            alloc,
            imports: Vec::new(alloc),
        }
    }

    /// Whether no name is there.
    pub fn is_empty(&self) -> bool {
        self.imports.is_empty()
    }

    /// Adds a name, if it is not there.
    pub fn add(&mut self, import: Import) -> Result<(), AllocError> {
        if !self
            .imports
            .iter()
            .any(|known| is_same(&known.import, &import))
        {
            self.imports.push(OrderedImport {
                is_foreign: import.is_foreign,
                path_order: order_of(self.alloc, import.path.as_str())?,
                name_order: order_of(self.alloc, import.name.as_str())?,
                import,
            })?;
        }
        Ok(())
    }

    /// Adds a name of a library.
    pub fn add_foreign(&mut self, path: &str, name: &str) -> Result<(), AllocError> {
        let import = Import {
            is_foreign: true,
            path: String::from_str(self.alloc, path)?,
            name: String::from_str(self.alloc, name)?,
        };
        self.add(import)
    }

    /// Appends the lines, in the order of the paths.
    pub fn append_to(&mut self, code: &mut Code) -> Result<(), AllocError> {
        self.imports.sort()?;
        let mut start = 0;
        for index in 0..self.imports.len() {
            if !self.has_same_path(index, index.saturating_add(1)) {
                self.append_path(code, start, index)?;
                start = index.saturating_add(1);
            }
        }
        Ok(())
    }

    // Whether two of the names are of one path.
    fn has_same_path(&self, one: usize, other: usize) -> bool {
        match (self.imports.get(one), self.imports.get(other)) {
            (Some(left), Some(right)) => left.import.path == right.import.path,
            _ => false,
        }
    }

    // Appends the names of one path, from the index of the first to that of the last.
    fn append_path(&self, code: &mut Code, first: usize, last: usize) -> Result<(), AllocError> {
        let mut names = Vec::new(self.alloc);
        for found in self.imports.iter().take(last.saturating_add(1)).skip(first) {
            names.push(String::from_str(self.alloc, found.import.name.as_str())?)?;
        }
        let Some(found) = self.imports.get(first) else {
            return Ok(());
        };
        let path = found.import.path.as_str();
        if names.len() == 1 {
            let name = found.import.name.as_str();
            let line = format!(in self.alloc; "use {path}::{name};")?;
            return code.line(0, line.as_str());
        }
        let opening = format!(in self.alloc; "use {path}::{{")?;
        let list = List {
            opening: opening.as_str(),
            items: names.as_slice(),
            closing: "};",
            style: ListStyle::Names,
        };
        code.list(0, list)
    }
}
