//! The names that a proof brings in.
use std::alloc::{AllocError, Global};

/// The names that a proof brings in, by their modules.
#[derive(Drop)]
pub(crate) struct Uses {
    alloc: Global,
    // The modules with their names, each once.
    modules: Vec<(String, Vec<String>)>,
}

impl Uses {
    /// No name yet.
    pub(crate) fn new(alloc: Global) -> Uses {
        Uses {
            alloc,
            modules: Vec::new(alloc),
        }
    }

    /// Adds names of a module, unless they are there.
    pub(crate) fn add(&mut self, path: &str, names: &[&str]) -> Result<(), AllocError> {
        for name in names {
            self.add_name(path, name)?;
        }
        Ok(())
    }

    // Adds a name of a module, unless it is there.
    fn add_name(&mut self, path: &str, name: &str) -> Result<(), AllocError> {
        let own = String::from_str(self.alloc, name)?;
        for (module, names) in &mut self.modules {
            if module.as_str() == path {
                if !names.iter().any(|known| known.as_str() == name) {
                    names.push(own)?;
                }
                return Ok(());
            }
        }
        let mut names = Vec::new(self.alloc);
        names.push(own)?;
        let module = String::from_str(self.alloc, path)?;
        self.modules.push((module, names))?;
        Ok(())
    }

    /// The lines that bring in the names.
    pub(crate) fn lines(&self) -> Result<String, AllocError> {
        let mut lines = String::new(self.alloc);
        for (module, names) in &self.modules {
            lines.push_str("use Rattle.")?;
            lines.push_str(module.as_str())?;
            lines.push_str(".{")?;
            for (index, name) in names.iter().enumerate() {
                if index != 0 {
                    lines.push_str(", ")?;
                }
                lines.push_str(name.as_str())?;
            }
            lines.push_str("}\n")?;
        }
        Ok(lines)
    }
}
