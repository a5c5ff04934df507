//! A schema as the files of a crate.
use crate::bodies::{push_file, push_types};
use crate::circle_files::{add_circles, add_generic_alias, keep_knot};
use crate::circles::CurrentCircle;
use crate::lowering::{FileNames, add_file, type_name};
use crate::notation::text_of;
use crate::plan::{Plan, has_file, plan_of};
use crate::recursion::circles_in;
use crate::request::{Extern, Printed, PrintedFile, Request};
use crate::strings::{is_restricted_string, restricted_string};
use crate::tables::add_tables;
use crate::types::{Owner, PartTexts, tag_number, warn_of_constraints};
use crate::values::{add_value, numbers_of, origin_text};
use asn1_notation::Module;
use asn1_resolved::{NamedNumber, Type, TypeDefinition, TypeKind};
use asn1_rust_code::order_of;
use asn1_rust_components::{Alias, TypeBody, alias_file, constant_file, marker_file};
use asn1_rust_names::TakenNames;
use asn1_rust_types::root_file;
use std::alloc::{AllocError, Global};

/// The files of a crate with the types of a schema, and what cannot be printed of it.
///
/// The error of this call is that of memory. If a problem is an error, the files are incomplete.
pub fn print_crate(alloc: Global, request: Request<'_, '_>) -> Result<Printed, AllocError> {
    let mut plan = plan_of(alloc, request)?;
    for (index, definition) in request.schema.types.iter().enumerate() {
        add_definition(&mut plan, index, definition)?;
    }
    add_tables(&mut plan)?;
    let mut names = TakenNames::new(alloc);
    for definition in &request.schema.values {
        add_value(&mut plan, definition, &mut names)?;
    }
    push_types(&mut plan)?;
    add_circles(&mut plan)?;
    add_aliases(&mut plan)?;
    add_markers(&mut plan)?;
    add_constants(&mut plan)?;
    add_root(&mut plan)?;
    let Plan {
        files,
        problems,
        ..
    } = plan;
    Ok(Printed { files, problems })
}

// Adds a definition, unless its type exists already.
fn add_definition(
    plan: &mut Plan<'_, '_>,
    index: usize,
    definition: &TypeDefinition<'_>,
) -> Result<(), AllocError> {
    match plan.types.get(index) {
        Some(planned) if planned.external.is_none() => {
            let name = plan.text(planned.name.as_str())?;
            let module = plan.text(planned.module.as_str())?;
            add_named(plan, index, definition, name, module.as_str())
        }
        _ => Ok(()),
    }
}

// Adds a definition under its name in Rust: as a file of its own in a module, or as a name for another type.
fn add_named(
    plan: &mut Plan<'_, '_>,
    index: usize,
    definition: &TypeDefinition<'_>,
    name: String,
    module: &str,
) -> Result<(), AllocError> {
    let circles = circles_in(plan, index)?;
    plan.current_knots = knot_names(plan, circles.as_slice())?;
    let texts = definition_texts(plan, definition, name.as_str())?;
    if !has_file(&definition.definition) {
        return add_alias(plan, &definition.definition, name, texts.owner());
    }
    if let Some(circle) = plan.circle_of(index) {
        return add_member(
            plan,
            circle,
            index,
            definition,
            name.as_str(),
            texts.owner(),
        );
    }
    let names = FileNames {
        name: name.as_str(),
        module,
        tag: None,
    };
    add_own_file(plan, &definition.definition, names, texts.owner())
}

/// The names of the types at which these circles are cut.
pub(crate) fn knot_names(
    plan: &Plan<'_, '_>,
    circles: &[usize],
) -> Result<Vec<String>, AllocError> {
    let mut names = Vec::new(plan.alloc);
    for circle in circles {
        if let Some(known) = plan.circles.get(*circle) {
            names.push(plan.text(known.name.as_str())?)?;
        }
    }
    Ok(names)
}

// Adds a definition of a circle: a file of a type with a parameter, and the knot, or a name for this type at the knot.
fn add_member(
    plan: &mut Plan<'_, '_>,
    circle: usize,
    index: usize,
    definition: &TypeDefinition<'_>,
    name: &str,
    owner: Owner<'_>,
) -> Result<(), AllocError> {
    let (generic, module) = match plan.generic_of(index) {
        Some(known) => (
            plan.text(known.name.as_str())?,
            plan.text(known.module.as_str())?,
        ),
        None => return Ok(()),
    };
    let module = module.as_str();
    let names = FileNames {
        name,
        module,
        tag: None,
    };
    plan.current_circle = Some(CurrentCircle {
        index: circle,
        place: definition.place,
    });
    add_own_file(plan, &definition.definition, names, owner)?;
    plan.current_circle = None;
    if plan.knot_of(circle) == Some(index) {
        add_knot(plan, circle, index, name, owner)
    } else {
        add_generic_alias(plan, circle, name, module, generic.as_str(), owner)
    }
}

// Keeps a knot for its own file.
fn add_knot(
    plan: &mut Plan<'_, '_>,
    circle: usize,
    index: usize,
    name: &str,
    owner: Owner<'_>,
) -> Result<(), AllocError> {
    let module = match plan.types.get(index) {
        Some(planned) => plan.text(planned.module.as_str())?,
        None => return Ok(()),
    };
    keep_knot(plan, circle, name, module.as_str(), owner)
}

// The texts for a definition with a name in Rust.
fn definition_texts(
    plan: &Plan<'_, '_>,
    definition: &TypeDefinition<'_>,
    rust_name: &str,
) -> Result<PartTexts, AllocError> {
    let alloc = plan.alloc;
    let content = content_suffix(&definition.definition);
    Ok(PartTexts {
        name: text_of(alloc, definition.name)?,
        notation: origin_text(plan, definition.origin)?,
        type_name: format!(in alloc; "{rust_name}{content}")?,
        summary: definition_summary(alloc, definition)?,
    })
}

// What follows the name of an alias in that of the type that it is, if that has no name.
fn content_suffix(definition: &Type<'_>) -> &'static str {
    if has_file(definition) || !holds_file(definition) {
        ""
    } else {
        "Content"
    }
}

// The kind of a definition.
fn definition_summary(
    alloc: Global,
    definition: &TypeDefinition<'_>,
) -> Result<String, AllocError> {
    let name = text_of(alloc, definition.name)?;
    let module = text_of(alloc, definition.module)?;
    let arguments = arguments_text(alloc, definition)?;
    let name = name.as_str();
    let module = module.as_str();
    let arguments = arguments.as_str();
    format!(in alloc; "`{name}` of the module `{module}`{arguments}.")
}

// The names of the arguments of a type, if it has any.
fn arguments_text(alloc: Global, definition: &TypeDefinition<'_>) -> Result<String, AllocError> {
    let mut text = String::new(alloc);
    for (index, argument) in definition.arguments.iter().enumerate() {
        text.push_str(if index == 0 { ", with " } else { ", " })?;
        text.push_str("`")?;
        text.push_str(text_of(alloc, argument)?.as_str())?;
        text.push_str("`")?;
    }
    Ok(text)
}

// Adds the file of a definition.
fn add_own_file(
    plan: &mut Plan<'_, '_>,
    definition: &Type<'_>,
    names: FileNames<'_>,
    owner: Owner<'_>,
) -> Result<(), AllocError> {
    if is_restricted_string(definition) {
        let body = restricted_string(plan, definition)?;
        return push_file(plan, TypeBody::RestrictedString(body), names, owner);
    }
    warn_of_constraints(plan, definition)?;
    match &definition.kind {
        TypeKind::Tagged(tag, inner) => {
            warn_of_constraints(plan, inner)?;
            let tag = Some(tag_number(*tag));
            add_file(plan, inner, FileNames { tag, ..names }, owner)
        }
        _ => add_file(plan, definition, names, owner),
    }
}

// Adds a name for a type.
fn add_alias(
    plan: &mut Plan<'_, '_>,
    definition: &Type<'_>,
    name: String,
    owner: Owner<'_>,
) -> Result<(), AllocError> {
    let target = type_name(plan, definition, owner)?;
    let (kind, named) = named_numbers(definition);
    let numbers = numbers_of(plan, name.as_str(), kind, named)?;
    let notation = owner.notation;
    let alias = Alias {
        name,
        notation: format!(in plan.alloc; "`{notation}`")?,
        definition: target,
        numbers,
    };
    plan.aliases.push(alias)?;
    Ok(())
}

// Whether a type without a name is right below the tags of a type, so that a file is made for it.
#[cycle(holds_file)]
fn holds_file(definition: &Type<'_>) -> bool {
    match &definition.kind {
        TypeKind::Tagged(_, inner) => holds_file(inner),
        TypeKind::Sequence(_) | TypeKind::Set(_) => true,
        TypeKind::Choice(_) | TypeKind::Enumerated(_) => true,
        _ => false,
    }
}

// The names of an INTEGER or a BIT STRING, below its tags too, and the type of their constants.
#[cycle(named_numbers)]
fn named_numbers<'t, 'a>(definition: &'t Type<'a>) -> (&'static str, &'t [NamedNumber<'a>]) {
    match &definition.kind {
        TypeKind::Tagged(_, inner) => named_numbers(inner),
        TypeKind::Integer(numbers) => ("i128", numbers.as_slice()),
        TypeKind::BitString(numbers) => ("usize", numbers.as_slice()),
        _ => ("i128", &[]),
    }
}

// Adds a file that is no type, with the names that the crate passes on.
fn add_other(
    plan: &mut Plan<'_, '_>,
    module: &str,
    text: String,
    is_public: bool,
    names: Vec<String>,
) -> Result<(), AllocError> {
    plan.add_source(module, text)?;
    plan.add_module(module, is_public, names)
}

/// Names in the order of `rt fmt`.
pub(crate) fn ordered_names(
    plan: &Plan<'_, '_>,
    names: Vec<String>,
) -> Result<Vec<String>, AllocError> {
    let mut ordered: Vec<(String, String)> = Vec::new(plan.alloc);
    for name in names {
        ordered.push((order_of(plan.alloc, name.as_str())?, name))?;
    }
    ordered.sort()?;
    let mut sorted = Vec::new(plan.alloc);
    for (_, name) in ordered {
        sorted.push(name)?;
    }
    Ok(sorted)
}

// A page of one line.
fn page(plan: &Plan<'_, '_>, line: &str) -> Result<Vec<String>, AllocError> {
    let line = plan.text(line)?;
    let mut lines = Vec::new(plan.alloc);
    lines.push(line)?;
    Ok(lines)
}

// Adds the file with the names of types.
fn add_aliases(plan: &mut Plan<'_, '_>) -> Result<(), AllocError> {
    if plan.aliases.is_empty() {
        return Ok(());
    }
    let page = page(plan, "Types that are other types under names of their own.")?;
    let text = alias_file(plan.alloc, page.as_slice(), plan.aliases.as_slice())?;
    let names = ordered_names(plan, alias_names(plan)?)?;
    add_other(plan, "aliases", text, false, names)
}

// The names of types that are other types, with those of their constants.
fn alias_names(plan: &Plan<'_, '_>) -> Result<Vec<String>, AllocError> {
    let mut names = Vec::new(plan.alloc);
    for alias in &plan.aliases {
        let name = plan.text(alias.name.as_str())?;
        names.push(name)?;
        if let Some(numbers) = &alias.numbers {
            let name = plan.text(numbers.name.as_str())?;
            names.push(name)?;
        }
    }
    Ok(names)
}

// Adds the file with the types that name tags.
fn add_markers(plan: &mut Plan<'_, '_>) -> Result<(), AllocError> {
    if plan.markers.is_empty() {
        return Ok(());
    }
    let page = page(plan, "The tags that types name by a type.")?;
    let text = marker_file(plan.alloc, page.as_slice(), plan.markers.as_slice())?;
    let names = Vec::new(plan.alloc);
    add_other(plan, "tags", text, true, names)
}

// Adds the file with constants.
fn add_constants(plan: &mut Plan<'_, '_>) -> Result<(), AllocError> {
    if plan.constants.is_empty() {
        return Ok(());
    }
    let page = page(plan, "The values that the modules define.")?;
    let text = constant_file(plan.alloc, page.as_slice(), plan.constants.as_slice())?;
    let names = Vec::new(plan.alloc);
    add_other(plan, "constants", text, true, names)
}

// Adds the root file.
fn add_root(plan: &mut Plan<'_, '_>) -> Result<(), AllocError> {
    plan.modules.sort()?;
    let page = root_page(plan)?;
    let text = root_file(plan.alloc, page.as_slice(), plan.modules.as_slice())?;
    plan.add_source("lib", text)
}

// The page of the root file.
fn root_page(plan: &Plan<'_, '_>) -> Result<Vec<String>, AllocError> {
    let alloc = plan.alloc;
    let mut lines = page(
        plan,
        "The types of these modules of ASN.1, in files made by `asn1_compile`:",
    )?;
    lines.push(String::new(alloc))?;
    for source in plan.request.sources {
        push_module_names(alloc, &mut lines, source.text, source.modules)?;
    }
    push_externs(alloc, &mut lines, plan.request.externs)?;
    Ok(lines)
}

// Appends the names of modules, a line each.
fn push_module_names(
    alloc: Global,
    lines: &mut Vec<String>,
    text: &[u8],
    modules: &[Module],
) -> Result<(), AllocError> {
    for module in modules {
        let name = text_of(alloc, module.name.octets(text))?;
        let name = name.as_str();
        lines.push(format!(in alloc; "- `{name}`")?)?;
    }
    Ok(())
}

// Appends the types that exist already, a line each.
fn push_externs(
    alloc: Global,
    lines: &mut Vec<String>,
    externs: &[Extern<'_>],
) -> Result<(), AllocError> {
    if externs.is_empty() {
        return Ok(());
    }
    lines.push(String::new(alloc))?;
    lines.push(String::from_str(alloc, "Their types of other crates:")?)?;
    lines.push(String::new(alloc))?;
    for external in externs {
        let name = extern_name(alloc, external)?;
        let name = name.as_str();
        let Extern {
            path,
            rust_name,
            ..
        } = *external;
        lines.push(format!(in alloc; "- `{name}` is `{path}::{rust_name}`")?)?;
    }
    Ok(())
}

// The name in ASN.1 of a type that exists already, with its module if that is named.
fn extern_name(alloc: Global, external: &Extern<'_>) -> Result<String, AllocError> {
    let name = text_of(alloc, external.name)?;
    match external.module {
        Some(module) => {
            let module = text_of(alloc, module)?;
            let module = module.as_str();
            let name = name.as_str();
            format!(in alloc; "{module}.{name}")
        }
        None => Ok(name),
    }
}
