//! From texts to files, or to errors.
ghost use Rattle.std.specs.Prelude.{◌≡◌, All, IfOk, IsTrue, is_some};
ghost use Rattle.asn1_compilation.specs.Messages as spec;
ghost use Rattle.asn1_module_check.specs.DistinctTags.{IsFreeOfClashes};
ghost use Rattle.asn1_resolved.specs.TypesInside.{types_of};
ghost use Rattle.asn1_resolver.specs.Accepted as resolved;

use crate::calls::call_files;
use crate::compiled::Compiled;
use crate::doubtful::Doubtful;
use crate::externs::{extern_errors, extern_module_errors};
use crate::job::{Input, Job};
use crate::known_types::known_types;
use crate::left_out::LeftOut;
use crate::message::{Message, messages_of};
use crate::problems::syntax_problems;
use asn1_grammar::{AssociatedModule, Parsed, associated_modules, parse};
use asn1_module_check::{
    check_constructed, check_extensible_choices, check_extensible_choices_in, check_tags, list_type,
};
use asn1_modules::{Source, collect_names};
use asn1_objects::objects_of;
use asn1_print::{Extern, Printed, Request, print_crate, print_program};
use asn1_resolved::{Problem, Schema, Severity};
use asn1_resolved_tables::Table;
use asn1_resolver::{Resolution, resolve};
use std::alloc::{AllocError, Global};

/// Compiles the modules of some texts to the files of a crate.
///
/// The error of this call is that of memory.
pub fn compile(alloc: Global, job: Job<'_>) -> Result<Compiled, AllocError>
    // There are files if and only if no message is an error.
    ensures complete { IfOk result (λ compiled.
        is_some compiled.files ≡ spec.accepts compiled.messages.items) }
{
    let parsed = parse_all(alloc, job.inputs)?;
    let associated = associated_modules(alloc, parsed.as_slice())?;
    let sources = sources_of(alloc, job.inputs, parsed.as_slice(), associated.as_slice())?;
    let names = collect_names(alloc, sources.as_slice())?;
    let objects = objects_of(alloc, sources.as_slice(), &names)?;
    let resolution = resolve(alloc, sources.as_slice(), &objects)?;
    let problems = syntax_problems(alloc, job.inputs, parsed.as_slice())?;
    if problems.is_empty() {
        compile_resolved(alloc, job, sources.as_slice(), resolution)
    } else {
        let left_out = LeftOut::of(alloc, job.inputs, parsed.as_slice(), &resolution.names)?;
        refuse_notation(
            alloc,
            job,
            sources.as_slice(),
            problems,
            &left_out,
            resolution,
        )
    }
}

// The messages for errors in the notation, with those in what was read, but for those that are due to what was not.
fn refuse_notation<'a>(
    alloc: Global,
    job: Job<'_>,
    sources: &[Source<'a>],
    problems: Vec<Problem>,
    left_out: &LeftOut<'_>,
    resolution: Resolution<'a>,
) -> Result<Compiled, AllocError>
    ensures { IfOk result (λ compiled.
        is_some compiled.files ≡ spec.accepts compiled.messages.items) }
{
    let mut problems = problems;
    problems.append(&mut further_errors(alloc, job, sources, &resolution)?)?;
    for problem in resolution.problems {
        if !left_out.causes(job.inputs, &problem) {
            problems.push(problem)?;
        }
    }
    let messages = messages_of(alloc, job.inputs, problems.as_slice())?;
    Ok(Compiled::new(messages, Vec::new(alloc)))
}

// The errors in the tags of an incomplete schema and in what is printed of it. One in a definition that rests on another error
// is left out.
fn further_errors<'a>(
    alloc: Global,
    job: Job<'_>,
    sources: &[Source<'a>],
    resolution: &Resolution<'a>,
) -> Result<Vec<Problem>, AllocError> {
    let Printed { problems, .. } = print_checked(
        alloc,
        job,
        sources,
        &resolution.schema,
        &resolution.tables,
        Vec::new(alloc),
    )?;
    let doubtful = Doubtful::of(alloc, sources, &resolution.names, &resolution.problems)?;
    let mut errors = Vec::new(alloc);
    for problem in problems {
        if problem.severity == Severity::Error && !doubtful.has(problem.place) {
            errors.push(problem)?;
        }
    }
    Ok(errors)
}

// Reads the modules of all texts.
fn parse_all(alloc: Global, inputs: &[Input]) -> Result<Vec<Parsed>, AllocError> {
    let mut parsed = Vec::new(alloc);
    for input in inputs {
        parsed.push(parse(alloc, input.text.as_slice())?)?;
    }
    Ok(parsed)
}

// The texts with their modules, and behind them those that define types of the language.
fn sources_of<'a>(
    alloc: Global,
    inputs: &'a [Input],
    parsed: &'a [Parsed],
    associated: &'a [AssociatedModule],
) -> Result<Vec<Source<'a>>, AllocError> {
    let mut sources = Vec::new(alloc);
    for (input, part) in inputs.iter().zip(parsed) {
        sources.push(Source {
            text: input.text.as_slice(),
            modules: part.modules.as_slice(),
        })?;
    }
    for part in associated {
        sources.push(Source {
            text: part.text,
            modules: part.modules.as_slice(),
        })?;
    }
    Ok(sources)
}

// Compiles resolved modules. Errors in names and numbers come before those in tags.
fn compile_resolved<'a>(
    alloc: Global,
    job: Job<'_>,
    sources: &[Source<'a>],
    resolution: Resolution<'a>,
) -> Result<Compiled, AllocError>
    ensures complete { IfOk result (λ compiled.
        is_some compiled.files ≡ spec.accepts compiled.messages.items) }
    // There are files only if no name or number is in error, and no type has a clash.
    ensures resolved { IfOk result (λ compiled. IsTrue (is_some compiled.files) →
        IsTrue (resolved.accepts resolution.entry.problems.items)) }
    ensures distinct { IfOk result (λ compiled. IsTrue (is_some compiled.files) →
        All (IsFreeOfClashes resolution.entry.schema) (types_of resolution.entry.schema)) }
{
    if !resolution.is_accepted() {
        return refused(alloc, job, sources, resolution);
    }
    let Resolution {
        schema,
        tables,
        problems,
        ..
    } = resolution;
    compile_schema(alloc, job, sources, &schema, &tables, problems)
}

// The messages for resolved modules with an error, and for what else is wrong with them.
fn refused<'a>(
    alloc: Global,
    job: Job<'_>,
    sources: &[Source<'a>],
    resolution: Resolution<'a>,
) -> Result<Compiled, AllocError>
    ensures complete { IfOk result (λ compiled.
        is_some compiled.files ≡ spec.accepts compiled.messages.items) }
    ensures refused { IfOk result (λ compiled. IsTrue (is_some compiled.files) →
        IsTrue (resolved.accepts resolution.entry.problems.items)) }
{
    let mut further = further_errors(alloc, job, sources, &resolution)?;
    let Resolution {
        schema,
        mut problems,
        ..
    } = resolution;
    problems.append(&mut further)?;
    let messages = schema_messages(alloc, job, &schema, problems.as_slice())?;
    Ok(Compiled::new(messages, Vec::new(alloc)))
}

// Compiles a schema, which has these problems already.
fn compile_schema<'a>(
    alloc: Global,
    job: Job<'_>,
    sources: &[Source<'a>],
    schema: &Schema<'a>,
    tables: &[Table<'a>],
    problems: Vec<Problem>,
) -> Result<Compiled, AllocError>
    ensures complete { IfOk result (λ compiled.
        is_some compiled.files ≡ spec.accepts compiled.messages.items) }
    ensures distinct { IfOk result (λ compiled. IsTrue (is_some compiled.files) →
        All (IsFreeOfClashes schema.now) (types_of schema.now)) }
{
    let printed = print_checked(alloc, job, sources, schema, tables, problems)?;
    let messages = schema_messages(alloc, job, schema, printed.problems.as_slice())?;
    Ok(Compiled::new(messages, printed.files))
}

// Checks the tags of a schema and prints it. Its problems follow those that it has already.
fn print_checked<'a>(
    alloc: Global,
    job: Job<'_>,
    sources: &[Source<'a>],
    schema: &Schema<'a>,
    tables: &[Table<'a>],
    problems: Vec<Problem>,
) -> Result<Printed, AllocError>
    ensures { IfOk result (λ printed. IsTrue (resolved.accepts printed.problems.items) →
        All (IsFreeOfClashes schema.now) (types_of schema.now)) }
{
    let mut problems = problems;
    problems.append(&mut check_tags(alloc, schema)?)?;
    let mut printed = print_schema(alloc, job, sources, schema, tables)?;
    problems.append(&mut printed.problems)?;
    Ok(Printed {
        files: printed.files,
        problems,
    })
}

// The messages for the problems of a schema, and the errors for arguments that do not fit it.
fn schema_messages(
    alloc: Global,
    job: Job<'_>,
    schema: &Schema<'_>,
    problems: &[Problem],
) -> Result<Vec<Message>, AllocError>
    ensures { IfOk result (λ messages. IsTrue (spec.accepts messages.items) →
        IsTrue (resolved.accepts problems.now)) }
{
    let mut messages = messages_of(alloc, job.inputs, problems)?;
    messages.append(&mut extern_errors(alloc, job.externs, schema)?)?;
    messages.append(&mut extern_module_errors(alloc, job.extern_modules, schema)?)?;
    Ok(messages)
}

// Prints the files of a schema. Its problems have the SETs that no tag check refuses, and the clashes in objects.
fn print_schema<'a>(
    alloc: Global,
    job: Job<'_>,
    sources: &[Source<'a>],
    schema: &Schema<'a>,
    tables: &[Table<'a>],
) -> Result<Printed, AllocError> {
    let known = known_types(alloc, job, schema)?;
    let mut externs = Vec::new(alloc);
    for found in &known {
        externs.push(found.as_extern())?;
    }
    let mut printed = print_with(alloc, job, externs.as_slice(), sources, schema, tables)?;
    printed
        .problems
        .append(&mut check_extensible_choices(alloc, schema)?)?;
    printed
        .problems
        .append(&mut row_clashes(alloc, schema, tables)?)?;
    Ok(printed)
}

// The components of types in objects that share a tag, or are a second extensible CHOICE of a SET, although X.680 forbids it.
fn row_clashes<'a>(
    alloc: Global,
    schema: &Schema<'a>,
    tables: &[Table<'a>],
) -> Result<Vec<Problem>, AllocError> {
    let mut list = Vec::new(alloc);
    let mut choices = Vec::new(alloc);
    for table in tables {
        for row in &table.rows {
            list_type(alloc, &mut list, schema, &row.cell)?;
            choices.append(&mut check_extensible_choices_in(alloc, schema, &row.cell)?)?;
        }
    }
    let mut clashes = check_constructed(alloc, list.as_slice())?;
    clashes.append(&mut choices)?;
    Ok(clashes)
}

// Prints the files of a schema, of which these types exist already.
fn print_with<'a>(
    alloc: Global,
    job: Job<'_>,
    externs: &[Extern<'_>],
    sources: &[Source<'a>],
    schema: &Schema<'a>,
    tables: &[Table<'a>],
) -> Result<Printed, AllocError> {
    let request = Request {
        crate_name: &*job.crate_name,
        sources: &*sources,
        schema: &*schema,
        tables: &*tables,
        externs: &*externs,
    };
    let mut printed = print_crate(alloc, request)?;
    if job.has_program {
        printed.files.push(print_program(alloc, request)?)?;
    }
    if job.has_exports {
        printed.files.append(&mut call_files(alloc, request)?)?;
    }
    Ok(printed)
}
