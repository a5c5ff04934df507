//! All modules of a run.
ghost use Rattle.std.specs.Prelude.{◌≡◌, IfOk, IsTrue, map, take};
ghost use Rattle.asn1_modules.specs.Places.{defined_places, imported_places};
ghost use Rattle.asn1_resolver.specs.Accepted.{HasDistinctNames};
ghost use Rattle.asn1_resolver.specs.Accepted as spec;
ghost use Rattle.asn1_resolver.specs.Indices.{HasKnownReferences};
ghost use Rattle.asn1_resolver.specs.References.{AreResolved};
ghost use Rattle.asn1_resolver.specs.TypePlaces.{type_places};

use crate::accepted::{accepts, require_names};
use crate::definitions::{Defined, Definitions, list_definitions};
use crate::fault::Fault;
use crate::governed::{Governed, Written};
use crate::instances::Instance;
use crate::resolver::Resolver;
use crate::values::MAX_DEPTH;
use asn1_modules::{Source, collect_names};
use asn1_names::{NameProblem, Names, Place, check_names};
use asn1_objects::Objects;
use asn1_resolved::{
    Problem, Schema, Severity, Type, TypeDefinition, TypeKind, Value, ValueDefinition,
};
use asn1_resolved_tables::Table;
use std::alloc::{AllocError, Global};
use std::collections::HashSet;

/// The meaning of the modules of a run.
#[derive(Drop)]
pub struct Resolution<'a> {
    /// The definitions. It is incomplete if there is an error.
    pub schema: Schema<'a>,
    /// The tables of the object sets that types name.
    pub tables: Vec<Table<'a>>,
    /// The problems, in the order of their places.
    pub problems: Vec<Problem>,
    /// The names that are defined, imported and used.
    pub names: Names<'a>,
}

impl Resolution<'_> {
    /// Whether no problem is an error.
    pub fn is_accepted(&self) -> bool
        ensures { result ≡ spec.accepts self.now.problems.items }
    {
        accepts(self.problems.as_slice())
    }
}

/// Resolves the modules of some texts, whose objects are these.
///
/// The error of this call is that of memory. Everything that is wrong with the modules is a problem.
pub fn resolve<'a>(
    alloc: Global,
    sources: &[Source<'a>],
    objects: &Objects<'a>,
) -> Result<Resolution<'a>, AllocError>
    // No module of an accepted schema has a name twice.
    ensures distinct { IfOk result (λ resolution.
        IsTrue (spec.accepts resolution.problems.items) → HasDistinctNames resolution.schema) }
    // Every reference of accepted modules is to a definition: of its own module, of one from which
    // its module imports the name, or of the one that it names.
    ensures resolved { IfOk result (λ resolution.
        IsTrue (spec.accepts resolution.problems.items) → AreResolved resolution.names) }
    // Every reference of an accepted schema is to a definition of it.
    ensures known { IfOk result (λ resolution.
        IsTrue (spec.accepts resolution.problems.items) → HasKnownReferences resolution.schema) }
    // The names are those of all definitions, and all behind IMPORTS.
    ensures defined { IfOk result (λ resolution.
        map (λ name. name.place) resolution.names.defined.items ≡ defined_places sources.now) }
    ensures imported { IfOk result (λ resolution.
        map (λ name. name.place) resolution.names.imported.items ≡ imported_places sources.now) }
    // The schema has each type that a module defines, in the order of the texts. Those that arguments
    // complete follow.
    ensures types { IfOk result (λ resolution.
        map (λ type. type.place) (take resolution.schema.defined resolution.schema.types.items)
        ≡ type_places sources.now) }
{
    let definitions = list_definitions(alloc, sources)?;
    let names = collect_names(alloc, sources)?;
    let mut resolver = Resolver::new(alloc, &definitions, &names, objects)?;
    resolver.report_modules(sources)?;
    resolver.find_homes()?;
    let mut tables = Vec::new(alloc);
    let schema = resolve_schema(&mut resolver, &definitions, &mut tables)?;
    resolver.report_ambiguous()?;
    resolver.report_names()?;
    resolver.report_exports(sources)?;
    resolver.report_skipped(sources)?;
    resolver.report_objects()?;
    let mut problems = resolver.into_problems()?;
    require_names(alloc, &mut problems, &schema, &names)?;
    Ok(Resolution {
        schema,
        tables,
        problems,
        names,
    })
}

// The types and the values. Those that complete a template are known once all others are resolved, and so are the tables, which
// are added.
fn resolve_schema<'r, 'a>(
    resolver: &mut Resolver<'r, 'a>,
    definitions: &Definitions<'a>,
    tables: &mut Vec<Table<'a>>,
) -> Result<Schema<'a>, AllocError>
    ensures { IfOk result (λ schema.
        map (λ type. type.place) (take schema.defined schema.types.items) ≡
        map (λ defined. defined.place) definitions.now.types.items) }
{
    let types = resolve_types(resolver, definitions)?;
    let values = resolve_values(resolver, definitions)?;
    let completed = resolver.completed_types(tables)?;
    join_schema(types, completed, values)
}

// The schema of the types that modules define, those that arguments complete, and the values.
#[tactic(auto, using(std::proofs::lemmas::List::take_at))]
fn join_schema<'a>(
    mut types: Vec<TypeDefinition<'a>>,
    mut completed: Vec<TypeDefinition<'a>>,
    values: Vec<ValueDefinition<'a>>,
) -> Result<Schema<'a>, AllocError>
    ensures { IfOk result (λ schema. take schema.defined schema.types.items ≡ types.entry.items) }
{
    let defined = types.len();
    types.append(&mut completed)?;
    Ok(Schema {
        types,
        defined,
        values,
    })
}

// The types that modules define.
fn resolve_types<'r, 'a>(
    resolver: &mut Resolver<'r, 'a>,
    definitions: &Definitions<'a>,
) -> Result<Vec<TypeDefinition<'a>>, AllocError>
    ensures { IfOk result (λ types. map (λ type. type.place) types.items ≡
        map (λ defined. defined.place) definitions.now.types.items) }
{
    let mut types = Vec::new(resolver.alloc);
    for (index, defined) in definitions.types.iter().enumerate() {
        let definition = resolver.type_definition(*defined, resolver.body_of(index))?;
        types.push(definition)?;
    }
    Ok(types)
}

// The values.
fn resolve_values<'r, 'a>(
    resolver: &mut Resolver<'r, 'a>,
    definitions: &Definitions<'a>,
) -> Result<Vec<ValueDefinition<'a>>, AllocError> {
    let mut values = Vec::new(resolver.alloc);
    for (named, value) in definitions.values.iter().zip(&definitions.contents) {
        let definition = resolver.value_definition(*named, value)?;
        values.push(definition)?;
    }
    Ok(values)
}

impl<'r, 'a> Resolver<'r, 'a> {
    // Reports what is wrong with names, and each missing module once.
    fn report_names(&mut self) -> Result<(), AllocError> {
        let found = check_names(self.alloc, self.names)?;
        let mut missing_modules = HashSet::new(self.alloc);
        for problem in &found {
            match self.missing_module(problem) {
                Some(name) => {
                    if missing_modules.insert(name)? {
                        self.report_name(problem, Severity::Warning)?;
                    }
                }
                None => self.report_name(problem, Severity::Error)?,
            }
        }
        Ok(())
    }

    // The module behind FROM that is not among the files: it is needed only where a name is used.
    fn missing_module(&self, problem: &NameProblem<'a>) -> Option<&'a [u8]> {
        match problem {
            NameProblem::UnknownImport(import) if !self.messages.has_module(import.from) => {
                Some(import.from)
            }
            _ => None,
        }
    }

    // Reports what is wrong with a name, unless its place has a problem of this severity.
    fn report_name(
        &mut self,
        problem: &NameProblem<'a>,
        severity: Severity,
    ) -> Result<(), AllocError> {
        if !self.is_reported(problem.place(), severity) {
            let text = self.name_text(problem)?;
            self.report(problem.place(), severity, &[text.as_slice()])?;
        }
        Ok(())
    }

    // The definition of a type, which may be that of a template with arguments. One that is in error is NULL.
    fn type_definition(
        &mut self,
        defined: Defined<'a>,
        body: Option<Governed<'r, 'a>>,
    ) -> Result<TypeDefinition<'a>, AllocError>
        ensures { IfOk result (λ type. type.place ≡ defined.entry.place) }
    {
        let governed = body.unwrap_or(defined.governed());
        let definition = match self.checked_type(governed) {
            Ok(definition) => definition,
            Err(Fault::Refused) => self.no_type(governed.place()),
            Err(Fault::Memory) => return Err(AllocError),
        };
        Ok(TypeDefinition {
            module: defined.scope.name,
            name: defined.name,
            place: defined.place,
            origin: defined.origin,
            definition,
            arguments: Vec::new(self.alloc),
        })
    }

    /// A type whose definition does not lead to itself.
    pub(crate) fn checked_type(&mut self, governed: Governed<'r, 'a>) -> Result<Type<'a>, Fault> {
        self.base(governed)?;
        self.resolve_type(governed, MAX_DEPTH)
    }

    // The type of the template that the definition of this index completes.
    fn body_of(&self, index: usize) -> Option<Governed<'r, 'a>> {
        let instance = self.instances.of_definition(index)?;
        self.instances.body(instance)
    }

    // Finds the definitions that are a name with arguments. The first that is a type gives it its name.
    fn find_homes(&mut self) -> Result<(), AllocError> {
        let definitions = self.definitions;
        for (index, defined) in definitions.types.iter().enumerate() {
            if let asn1_notation::TypeKind::Instance(reference, arguments) = &defined
                .definition
                .kind
            {
                let home = if defined.definition.constraints.is_empty() {
                    Some(index)
                } else {
                    None
                };
                let arguments = arguments.as_slice();
                let found = self.meant(defined.scope, reference, arguments, home, MAX_DEPTH);
                if matches!(found, Err(Fault::Memory)) {
                    return Err(AllocError);
                }
            }
        }
        Ok(())
    }

    // The types that arguments complete and no definition names. The tables of the object sets that types name are added: a type may
    // ask for another table, and a table for another type. A warning tells each template that is not used.
    fn completed_types(
        &mut self,
        tables: &mut Vec<Table<'a>>,
    ) -> Result<Vec<TypeDefinition<'a>>, AllocError> {
        let mut types = Vec::new(self.alloc);
        let mut used = HashSet::new(self.alloc);
        let mut known = HashSet::new(self.alloc);
        let mut instances = 0usize;
        let mut sets = 0usize;
        for _ in 0..u64::MAX {
            if let Some(instance) = self.instances.get(instances) {
                let template = instance.template.place;
                used.insert((template.text, template.span.start))?;
                self.complete_type(&mut types, instances, instance)?;
                instances = instances.saturating_add(1);
            } else if let Some(set) = self.used_sets.get(sets).copied() {
                self.add_tables(tables, &mut known, set)?;
                sets = sets.saturating_add(1);
            } else {
                break;
            }
        }
        if !self.has_errors() {
            self.report_unused(&used)?;
        }
        Ok(types)
    }

    // Adds the type of an instance, unless a definition is that type.
    fn complete_type(
        &mut self,
        types: &mut Vec<TypeDefinition<'a>>,
        index: usize,
        instance: Instance<'r, 'a>,
    ) -> Result<(), AllocError> {
        if instance.home.is_none() {
            let body = self.instances.body(index);
            let mut definition = self.type_definition(instance.template, body)?;
            definition.arguments = self.words_of(instance)?;
            types.push(definition)?;
        }
        Ok(())
    }

    // Warns of each template that is at none of these places.
    fn report_unused(&mut self, used: &HashSet<(usize, usize)>) -> Result<(), AllocError> {
        let definitions = self.definitions;
        for template in &definitions.templates {
            if !used.contains(&(template.place.text, template.place.span.start)) {
                self.report(
                    template.place,
                    Severity::Warning,
                    &[
                        b"no definition uses '",
                        template.name,
                        b"', so it is not printed",
                    ],
                )?;
            }
        }
        Ok(())
    }

    // The type in place of one that is in error.
    fn no_type(&self, place: Place) -> Type<'a> {
        Type {
            place,
            kind: TypeKind::Null,
            constraints: Vec::new(self.alloc),
        }
    }

    // The value of a definition. One of a type whose values are kept as their contents octets is NULL, and has no constant.
    fn defined_value(
        &mut self,
        governed: Governed<'r, 'a>,
        written: Written<'r, 'a>,
    ) -> Result<Value<'a>, Fault> {
        if self.is_of_contents(governed, written)? {
            return Ok(Value::Null);
        }
        self.value(governed, written)
    }

    // The definition of a value. One that is in error is NULL.
    fn value_definition(
        &mut self,
        defined: Defined<'a>,
        value: &'r asn1_notation::Value,
    ) -> Result<ValueDefinition<'a>, AllocError> {
        let TypeDefinition {
            module,
            name,
            place,
            origin,
            definition,
            ..
        } = self.type_definition(defined, None)?;
        let scope = defined.scope;
        let value = match self.defined_value(defined.governed(), Written { scope, value }) {
            Ok(value) => value,
            Err(Fault::Refused) => Value::Null,
            Err(Fault::Memory) => return Err(AllocError),
        };
        Ok(ValueDefinition {
            module,
            name,
            place,
            origin,
            definition,
            value,
        })
    }
}
