//! The definitions of a set of modules.
ghost use Rattle.std.specs.Prelude.{◌≡◌, ◌++◌, IfOk, OnOk, map};
ghost use Rattle.std.specs.List.{flat_map};
ghost use Rattle.asn1_modules.specs.Places.{place_in};
ghost use Rattle.asn1_resolver.specs.TypePlaces.{type_places, type_defined_by, types_defined_in};

use crate::governed::{Governed, Scope};
use asn1_modules::{ClassIndex, Source};
use asn1_names::Place;
use asn1_notation::{Assignment, Definition, Parameter, Type, TypeKind, Value};
use asn1_resolved::Origin;
use std::alloc::{AllocError, Global};

/// A definition.
#[derive(Clone, Copy)]
pub(crate) struct Defined<'a> {
    /// The module.
    pub(crate) scope: Scope<'a>,
    /// The name.
    pub(crate) name: &'a [u8],
    /// The place of the name.
    pub(crate) place: Place,
    /// The index in the trees.
    pub(crate) origin: Origin,
    /// The type, or the type of the value.
    pub(crate) definition: &'a Type,
    /// The parameters.
    pub(crate) parameters: &'a [Parameter],
}

impl<'a> Defined<'a> {
    /// The type, with its module.
    pub(crate) fn governed(self) -> Governed<'a, 'a> {
        Governed {
            scope: self.scope,
            definition: self.definition,
        }
    }
}

/// The definitions of a set of modules, in the order of the texts.
#[derive(Drop)]
pub(crate) struct Definitions<'a> {
    /// The definitions of types.
    pub(crate) types: Vec<Defined<'a>>,
    /// The definitions of values.
    pub(crate) values: Vec<Defined<'a>>,
    /// The values, in the order of their definitions.
    pub(crate) contents: Vec<&'a Value>,
    /// The definitions of types that arguments complete.
    pub(crate) templates: Vec<Defined<'a>>,
    /// The information object classes, and the names that are not read.
    pub(crate) classes: ClassIndex<'a>,
}

impl<'a> Definitions<'a> {
    // Whether a type is the name of a class, so that a value of it is an object.
    fn is_class(&self, scope: Scope<'a>, governor: &Type) -> bool {
        match &governor.kind {
            TypeKind::Reference(reference) => {
                let qualifier = match reference.module {
                    Some(module) => Some(scope.octets(module)),
                    None => None,
                };
                let name = scope.octets(reference.name);
                self.classes.find(scope.name, qualifier, name).is_some()
            }
            _ => false,
        }
    }
}

/// Lists the definitions of the modules of some texts.
pub(crate) fn list_definitions<'a>(
    alloc: Global,
    sources: &[Source<'a>],
) -> Result<Definitions<'a>, AllocError>
    ensures types { IfOk result (λ definitions.
        map (λ defined. defined.place) definitions.types.items ≡ type_places sources.now) }
{
    let mut definitions = Definitions {
        types: Vec::new(alloc),
        values: Vec::new(alloc),
        contents: Vec::new(alloc),
        templates: Vec::new(alloc),
        classes: ClassIndex::of(alloc, sources)?,
    };
    for (index, source) in sources.iter().enumerate() {
        list_source(&mut definitions, *source, index)?;
    }
    Ok(definitions)
}

// Lists the definitions of the modules of a text.
fn list_source<'a>(
    definitions: &mut Definitions<'a>,
    source: Source<'a>,
    index: usize,
) -> Result<(), AllocError>
    ensures { OnOk result (map (λ defined. defined.place) definitions.new.types.items ≡
        map (λ defined. defined.place) definitions.old.types.items
        ++ flat_map (types_defined_in index) source.entry.modules.now) }
{
    for (module_index, module) in source.modules.iter().enumerate() {
        let scope = Scope::of(source.text, index, module);
        list_module(definitions, scope, module_index)?;
    }
    Ok(())
}

// Lists the definitions of a module.
fn list_module<'a>(
    definitions: &mut Definitions<'a>,
    scope: Scope<'a>,
    module_index: usize,
) -> Result<(), AllocError>
    ensures { OnOk result (map (λ defined. defined.place) definitions.new.types.items ≡
        map (λ defined. defined.place) definitions.old.types.items
        ++ types_defined_in scope.entry.source scope.entry.«module».now) }
{
    for (assignment_index, assignment) in scope.module.assignments.iter().enumerate() {
        let origin = Origin {
            source: scope.source,
            module: module_index,
            assignment: assignment_index,
        };
        list_assignment(definitions, scope, assignment, origin)?;
    }
    Ok(())
}

// Lists a definition.
fn list_assignment<'a>(
    definitions: &mut Definitions<'a>,
    scope: Scope<'a>,
    assignment: &'a Assignment,
    origin: Origin,
) -> Result<(), AllocError>
    ensures { OnOk result (map (λ defined. defined.place) definitions.new.types.items ≡
        map (λ defined. defined.place) definitions.old.types.items
        ++ type_defined_by scope.entry.source assignment.now) }
{
    match &assignment.definition {
        Definition::Type(definition) => {
            let defined = define(scope, assignment, origin, definition);
            definitions.types.push(defined)?;
        }
        Definition::Value(definition, value) => {
            if !definitions.is_class(scope, definition) {
                let defined = define(scope, assignment, origin, definition);
                definitions.values.push(defined)?;
                definitions.contents.push(value)?;
            }
        }
        Definition::Template(definition) => {
            let defined = define(scope, assignment, origin, definition);
            definitions.templates.push(defined)?;
        }
        _ => {}
    }
    Ok(())
}

// A definition with this type.
fn define<'a>(
    scope: Scope<'a>,
    assignment: &'a Assignment,
    origin: Origin,
    definition: &'a Type,
) -> Defined<'a>
    ensures { result.place ≡ place_in scope.entry.source assignment.now.name }
{
    let parameters = assignment.parameters.as_slice();
    Defined {
        scope: Scope {
            parameters,
            ..scope
        },
        name: scope.octets(assignment.name),
        place: scope.place(assignment.name),
        origin,
        definition,
        parameters,
    }
}
