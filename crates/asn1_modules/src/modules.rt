//! The names of modules.
ghost use Rattle.std.specs.Prelude.{◌≡◌, map, IfOk};
ghost use Rattle.asn1_modules.specs.Places.{defined_places, imported_places};

use crate::arcs::collect_arcs;
use crate::class_index::ClassIndex;
use crate::classes::collect_class;
use crate::collector::Collector;
use crate::definitions::{ListedNames, list_names};
use crate::source::Source;
use crate::types::collect_type;
use crate::values::collect_value;
use asn1_names::{Names, UsedName};
use asn1_notation::{
    Assignment, Definition, Exports, Module, Parameter, Type, TypeKind, Value, ValueKind,
};
use std::alloc::{AllocError, Global};

/// The names that are defined, imported and used in the modules of some texts.
pub fn collect_names<'a>(alloc: Global, sources: &[Source<'a>]) -> Result<Names<'a>, AllocError>
    // The defined names are those of all definitions of all modules, in the order of the texts.
    ensures defined { IfOk result (λ names.
        map (λ defined. defined.place) names.defined.items ≡ defined_places sources.now) }
    // The imported names are all those behind IMPORTS.
    ensures imported { IfOk result (λ names.
        map (λ imported. imported.place) names.imported.items ≡ imported_places sources.now) }
{
    let ListedNames { defined, imported } = list_names(alloc, sources)?;
    let used = collect_used(alloc, sources)?;
    Ok(Names {
        defined,
        imported,
        used,
    })
}

// The references of the definitions of the modules of some texts.
fn collect_used<'a>(
    alloc: Global,
    sources: &[Source<'a>],
) -> Result<Vec<UsedName<'a>>, AllocError> {
    let classes = ClassIndex::of(alloc, sources)?;
    let mut collector = Collector::new(alloc);
    for (index, source) in sources.iter().enumerate() {
        for module in source.modules {
            collector.enter(source.text, index, module.name);
            collect_module(alloc, &mut collector, &classes, module)?;
        }
    }
    collector.finish()
}

// Collects the references of a module.
fn collect_module(
    alloc: Global,
    collector: &mut Collector<'_>,
    classes: &ClassIndex<'_>,
    module: &Module,
) -> Result<(), AllocError> {
    collect_exports(collector, &module.exports)?;
    for assignment in &module.assignments {
        collector.enter_definition(alloc, assignment.parameters.as_slice())?;
        collect_assignment(collector, classes, assignment)?;
    }
    collector.enter_definition(alloc, &[])
}

// Collects the names behind EXPORTS, which are of definitions, or imported.
fn collect_exports(collector: &mut Collector<'_>, exports: &Exports) -> Result<(), AllocError> {
    match exports {
        Exports::All => Ok(()),
        Exports::Names(names) => {
            for name in names {
                collector.refer_to(*name)?;
            }
            Ok(())
        }
    }
}

// Collects the names of a definition.
fn collect_assignment(
    collector: &mut Collector<'_>,
    classes: &ClassIndex<'_>,
    assignment: &Assignment,
) -> Result<(), AllocError> {
    collect_parameters(collector, assignment.parameters.as_slice())?;
    match &assignment.definition {
        Definition::Type(definition) => collect_type(collector, definition),
        Definition::Template(definition) => collect_type(collector, definition),
        Definition::Value(definition, value) => {
            if collector.is_object(classes, definition) {
                return Ok(());
            }
            collect_type(collector, definition)?;
            collect_value_of(collector, definition, value)
        }
        Definition::Class(class) => collect_class(collector, class),
        Definition::Object(_, _) | Definition::Macro(_) => Ok(()),
    }
}

// Collects the names in the types and classes of parameters.
fn collect_parameters(
    collector: &mut Collector<'_>,
    parameters: &[Parameter],
) -> Result<(), AllocError> {
    for parameter in parameters {
        if let Some(governor) = &parameter.governor {
            collect_type(collector, governor)?;
        }
    }
    Ok(())
}

// Collects the names in a value of a type.
fn collect_value_of(
    collector: &mut Collector<'_>,
    definition: &Type,
    value: &Value,
) -> Result<(), AllocError> {
    match &definition.kind {
        TypeKind::ObjectIdentifier => match &value.kind {
            ValueKind::List(items) => collect_arcs(collector, items.as_slice()),
            _ => collect_value(collector, value),
        },
        _ => collect_value(collector, value),
    }
}
