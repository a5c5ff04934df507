//! Modules of one name.
use crate::resolver::Resolver;
use asn1_modules::Source;
use asn1_names::{DefinedName, Place, find_doubled};
use asn1_resolved::Severity;
use std::alloc::{AllocError, Global};

impl<'r, 'a> Resolver<'r, 'a> {
    /// Reports each module whose name an earlier one has.
    pub(crate) fn report_modules(&mut self, sources: &[Source<'a>]) -> Result<(), AllocError> {
        let modules = list_modules(self.alloc, sources)?;
        let found = find_doubled(self.alloc, modules.as_slice())?;
        for doubled in &found {
            self.report(
                doubled.again.place,
                Severity::Error,
                &[b"module '", doubled.again.name, b"' is defined twice"],
            )?;
        }
        Ok(())
    }
}

// The names of the modules of some texts.
fn list_modules<'a>(
    alloc: Global,
    sources: &[Source<'a>],
) -> Result<Vec<DefinedName<'a>>, AllocError> {
    let mut names = Vec::new(alloc);
    for (text, source) in sources.iter().enumerate() {
        add_modules(&mut names, *source, text)?;
    }
    Ok(names)
}

// Adds the names of the modules of a text.
fn add_modules<'a>(
    names: &mut Vec<DefinedName<'a>>,
    source: Source<'a>,
    text: usize,
) -> Result<(), AllocError> {
    for module in source.modules {
        names.push(DefinedName {
            module: &[],
            name: module.name.octets(source.text),
            place: Place {
                text,
                span: module.name,
            },
        })?;
    }
    Ok(())
}
