//! All objects of a run.
ghost use Rattle.std.specs.Prelude.{◌≡◌, ◌++◌, IfOk, OnOk, map};
ghost use Rattle.std.specs.List.{flat_map};
ghost use Rattle.asn1_objects.specs.ObjectPlaces.{object_defined_by, object_places, objects_defined_in, place_of};

use crate::classes::{Home, ObjectClass};
use crate::definitions::ObjectDefinition;
use crate::reader::ObjectReader;
use asn1_modules::{ClassIndex, Source};
use asn1_names::{ImportedName, Names};
use asn1_notation::{Assignment, Definition, Reference, Type, TypeKind};
use asn1_resolved::Problem;
use std::alloc::{AllocError, Global};
use std::collections::HashMap;

/// The objects and the object sets of a run, by their names.
#[derive(Drop)]
pub struct Objects<'a> {
    /// The classes that they are of.
    pub classes: Vec<ObjectClass<'a>>,
    /// The definitions, in the order of the texts.
    pub definitions: Vec<ObjectDefinition<'a>>,
    /// The warnings of what is wrong with them.
    pub warnings: Vec<Problem>,
    /// OBJECT IDENTIFIER, the type of a field of the classes of the language.
    pub identifier: Type,
    // The index of a definition, by its module and its name.
    own: HashMap<(&'a [u8], &'a [u8]), usize>,
    // The module from which such a name is imported, by the module that imports it.
    imported: HashMap<(&'a [u8], &'a [u8]), &'a [u8]>,
}

impl<'a> Objects<'a> {
    /// The definition of this name in a module, which may import it.
    pub fn find(&self, module: &[u8], name: &[u8]) -> Option<&ObjectDefinition<'a>> {
        let index = match self.own.get(&(module, name)) {
            Some(index) => *index,
            None => {
                let from = *self.imported.get(&(module, name))?;
                *self.own.get(&(from, name))?
            }
        };
        self.definitions.get(index)
    }

    /// The definition that a reference in a module is to.
    pub fn find_reference(
        &self,
        home: Home<'_>,
        reference: &Reference,
    ) -> Option<&ObjectDefinition<'a>> {
        let module = match reference.module {
            Some(module) => module.octets(home.text),
            None => home.name(),
        };
        self.find(module, reference.name.octets(home.text))
    }
}

/// The objects and the object sets of these modules, of which these are the names.
///
/// The error of this call is that of memory.
pub fn objects_of<'a>(
    alloc: Global,
    sources: &[Source<'a>],
    names: &Names<'a>,
) -> Result<Objects<'a>, AllocError>
    // There is one for each object and each set that a module defines, in the order of the texts.
    ensures defined { IfOk result (λ objects.
        map place_of objects.definitions.items ≡ object_places sources.now) }
{
    let index = ClassIndex::of(alloc, sources)?;
    let mut reader = ObjectReader::new(alloc, index);
    let mut definitions = Vec::new(alloc);
    for (index, source) in sources.iter().enumerate() {
        add_source(&mut reader, &mut definitions, *source, index)?;
    }
    let own = index_of(alloc, definitions.as_slice())?;
    let imported = imports(alloc, names.imported.as_slice(), &own)?;
    let ObjectReader {
        classes,
        warnings,
        ..
    } = reader;
    Ok(Objects {
        classes: classes.into_classes(),
        definitions,
        warnings: warnings.into_list(),
        identifier: Type {
            start: 0,
            kind: TypeKind::ObjectIdentifier,
            constraints: Vec::new(alloc),
        },
        own,
        imported,
    })
}

// Adds the definitions of the modules of a text.
fn add_source<'a>(
    reader: &mut ObjectReader<'a>,
    definitions: &mut Vec<ObjectDefinition<'a>>,
    source: Source<'a>,
    index: usize,
) -> Result<(), AllocError>
    ensures { OnOk result (map place_of definitions.new.items ≡ map place_of definitions.old.items
        ++ flat_map (objects_defined_in index) source.entry.modules.now) }
{
    for module in source.modules {
        let home = Home {
            text: source.text,
            source: index,
            module,
        };
        add_module(reader, definitions, home)?;
    }
    Ok(())
}

// Adds the definitions of a module.
fn add_module<'a>(
    reader: &mut ObjectReader<'a>,
    definitions: &mut Vec<ObjectDefinition<'a>>,
    home: Home<'a>,
) -> Result<(), AllocError>
    ensures { OnOk result (map place_of definitions.new.items ≡ map place_of definitions.old.items
        ++ objects_defined_in home.entry.source home.entry.«module».now) }
{
    for assignment in &home.module.assignments {
        add_assignment(reader, definitions, home, assignment)?;
    }
    Ok(())
}

// Adds a definition, if it is of an object or a set.
fn add_assignment<'a>(
    reader: &mut ObjectReader<'a>,
    definitions: &mut Vec<ObjectDefinition<'a>>,
    home: Home<'a>,
    assignment: &Assignment,
) -> Result<(), AllocError>
    ensures { OnOk result (map place_of definitions.new.items ≡ map place_of definitions.old.items
        ++ object_defined_by home.entry.source assignment.now) }
{
    match &assignment.definition {
        Definition::Object(class, braces) => {
            let contents = reader.contents(home, assignment, class, *braces)?;
            definitions.push(ObjectDefinition {
                home,
                name: assignment.name,
                contents,
            })?;
            Ok(())
        }
        _ => Ok(()),
    }
}

// The definitions, by their modules and names.
fn index_of<'a>(
    alloc: Global,
    definitions: &[ObjectDefinition<'a>],
) -> Result<HashMap<(&'a [u8], &'a [u8]), usize>, AllocError> {
    let mut own = HashMap::new(alloc);
    for (index, definition) in definitions.iter().enumerate() {
        let home = definition.home;
        own.insert((home.name(), definition.name.octets(home.text)), index)?;
    }
    Ok(own)
}

// The modules from which names of these definitions are imported.
fn imports<'a>(
    alloc: Global,
    list: &[ImportedName<'a>],
    own: &HashMap<(&'a [u8], &'a [u8]), usize>,
) -> Result<HashMap<(&'a [u8], &'a [u8]), &'a [u8]>, AllocError> {
    let mut imported = HashMap::new(alloc);
    for import in list {
        if own.contains_key(&(import.from, import.name)) {
            imported.insert((import.module, import.name), import.from)?;
        }
    }
    Ok(imported)
}
