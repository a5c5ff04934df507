//! Imports of names that their module does not export.
use crate::resolver::Resolver;
use asn1_modules::Source;
use asn1_names::NameIndex;
use asn1_notation::{Exports, Module};
use asn1_resolved::Severity;
use std::alloc::{AllocError, Global};
use std::collections::HashSet;

impl<'r, 'a> Resolver<'r, 'a> {
    /// Warns of each imported name that its module defines, and does not export (X.680, 13.16).
    pub(crate) fn report_exports(&mut self, sources: &[Source<'a>]) -> Result<(), AllocError> {
        let names = self.names;
        let defined = NameIndex::of(self.alloc, &names.defined)?;
        let exported = exported_names(self.alloc, sources)?;
        for import in &names.imported {
            if defined.is_defined(import.from, import.name)
                && exported.leaves_out(import.from, import.name)
            {
                self.report(
                    import.place,
                    Severity::Warning,
                    &[
                        b"module '",
                        import.from,
                        b"' does not export '",
                        import.name,
                        b"'",
                    ],
                )?;
            }
        }
        Ok(())
    }
}

// The names that modules export.
#[derive(Drop)]
struct ExportedNames<'a> {
    // The modules that list the names that they export.
    modules: HashSet<&'a [u8]>,
    // The names behind the EXPORTS of these, with the modules.
    names: HashSet<(&'a [u8], &'a [u8])>,
}

impl<'a> ExportedNames<'a> {
    // Whether a module lists the names that it exports, and this is none.
    fn leaves_out(&self, module: &[u8], name: &[u8]) -> bool {
        self.modules.contains(module) && !self.names.contains(&(module, name))
    }

    // Adds the names that a module exports.
    fn add(&mut self, text: &'a [u8], module: &Module) -> Result<(), AllocError> {
        if let Exports::Names(names) = &module.exports {
            self.modules.insert(module.name.octets(text))?;
            for name in names {
                self.names
                    .insert((module.name.octets(text), name.octets(text)))?;
            }
        }
        Ok(())
    }
}

// The names that the modules of some texts export.
fn exported_names<'a>(
    alloc: Global,
    sources: &[Source<'a>],
) -> Result<ExportedNames<'a>, AllocError> {
    let mut exported = ExportedNames {
        modules: HashSet::new(alloc),
        names: HashSet::new(alloc),
    };
    for source in sources {
        for module in source.modules {
            exported.add(source.text, module)?;
        }
    }
    Ok(exported)
}
