//! The names that modules define and import.
ghost use Rattle.std.specs.Prelude.{◌≡◌, ◌++◌, map, IfOk, OnOk};
ghost use Rattle.std.specs.List.{flat_map};
ghost use Rattle.asn1_modules.specs.Places.{defined_in, defined_places, imported_by, imported_in, imported_places};

use crate::identifiers::ModuleNames;
use crate::source::Source;
use asn1_names::{DefinedName, ImportedName, Place};
use asn1_notation::{Import, Module};
use std::alloc::{AllocError, Global};

/// The names that modules define and import.
#[derive(Drop)]
pub(crate) struct ListedNames<'a> {
    /// The names of the definitions.
    pub(crate) defined: Vec<DefinedName<'a>>,
    /// The names behind IMPORTS.
    pub(crate) imported: Vec<ImportedName<'a>>,
}

/// The names that the modules of some texts define and import.
pub(crate) fn list_names<'a>(
    alloc: Global,
    sources: &[Source<'a>],
) -> Result<ListedNames<'a>, AllocError>
    ensures defined { IfOk result (λ names.
        map (λ defined. defined.place) names.defined.items ≡ defined_places sources.now) }
    ensures imported { IfOk result (λ names.
        map (λ imported. imported.place) names.imported.items ≡ imported_places sources.now) }
{
    let modules = ModuleNames::of(alloc, sources)?;
    let mut defined = Vec::new(alloc);
    let mut imported = Vec::new(alloc);
    for (index, source) in sources.iter().enumerate() {
        for module in source.modules {
            add_defined(&mut defined, *source, index, module)?;
            add_imported(alloc, &mut imported, &modules, *source, index, module)?;
        }
    }
    Ok(ListedNames { defined, imported })
}

// Adds the names of the definitions of a module.
fn add_defined<'a>(
    names: &mut Vec<DefinedName<'a>>,
    source: Source<'a>,
    index: usize,
    module: &Module,
) -> Result<(), AllocError>
    ensures { OnOk result (map (λ defined. defined.place) names.new.items ≡
        map (λ defined. defined.place) names.old.items ++ defined_in index «module».now) }
{
    for assignment in &module.assignments {
        names.push(DefinedName {
            module: module.name.octets(source.text),
            name: assignment.name.octets(source.text),
            place: Place {
                text: index,
                span: assignment.name,
            },
        })?;
    }
    Ok(())
}

// Adds the names that a module imports.
fn add_imported<'a>(
    alloc: Global,
    names: &mut Vec<ImportedName<'a>>,
    modules: &ModuleNames<'a>,
    source: Source<'a>,
    index: usize,
    module: &Module,
) -> Result<(), AllocError>
    ensures { OnOk result (map (λ imported. imported.place) names.new.items ≡
        map (λ imported. imported.place) names.old.items ++ imported_in index «module».now) }
{
    for import in &module.imports {
        let from = modules.imported(alloc, source.text, import)?;
        add_import(names, source, index, module, import, from)?;
    }
    Ok(())
}

// Adds the names that a module imports from the one of this name.
fn add_import<'a>(
    names: &mut Vec<ImportedName<'a>>,
    source: Source<'a>,
    index: usize,
    module: &Module,
    import: &Import,
    from: &'a [u8],
) -> Result<(), AllocError>
    ensures { OnOk result (map (λ imported. imported.place) names.new.items ≡
        map (λ imported. imported.place) names.old.items ++ imported_by index import.now) }
{
    for name in &import.names {
        names.push(ImportedName {
            module: module.name.octets(source.text),
            name: name.octets(source.text),
            from,
            place: Place {
                text: index,
                span: *name,
            },
        })?;
    }
    Ok(())
}
