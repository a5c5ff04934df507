//! References to names that a module imports from several modules.
use crate::resolver::Resolver;
use asn1_names::{NameIndex, Names};
use asn1_resolved::Severity;
use std::alloc::{AllocError, Global};
use std::collections::{HashMap, HashSet};

impl Resolver<'_, '_> {
    /// Refuses each reference to a name that its module imports from several modules, unless it names the module (X.680, 13.16).
    pub(crate) fn report_ambiguous(&mut self) -> Result<(), AllocError> {
        let names = self.names;
        let defined = NameIndex::of(self.alloc, &names.defined)?;
        let ambiguous = ambiguous_names(self.alloc, names, &defined)?;
        for used in &names.used {
            if used.qualifier.is_none()
                && ambiguous.contains(&(used.module, used.name))
                && !defined.is_defined(used.module, used.name)
            {
                self.report(
                    used.place,
                    Severity::Error,
                    &[
                        b"'",
                        used.name,
                        b"' is imported from several modules; name one as MODULE.",
                        used.name,
                    ],
                )?;
            }
        }
        Ok(())
    }
}

// The names that a module imports from several modules that define them, each with the module that imports it.
fn ambiguous_names<'a>(
    alloc: Global,
    names: &Names<'a>,
    defined: &NameIndex<'a>,
) -> Result<HashSet<(&'a [u8], &'a [u8])>, AllocError> {
    let mut sources: HashMap<(&[u8], &[u8]), &[u8]> = HashMap::new(alloc);
    let mut ambiguous = HashSet::new(alloc);
    for import in &names.imported {
        if defined.is_defined(import.from, import.name) {
            let name = (import.module, import.name);
            if let Some(earlier) = sources.insert(name, import.from)? {
                if earlier != import.from {
                    ambiguous.insert(name)?;
                }
            }
        }
    }
    Ok(ambiguous)
}
