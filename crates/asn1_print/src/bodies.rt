//! The files of types.
use crate::circle_files::{push_files, push_generic};
use crate::lowering::FileNames;
use crate::notation::definition_lines;
use crate::parameters::has_parameter;
use crate::plan::Plan;
use crate::types::Owner;
use asn1_rust_components::{TypeBody, TypeFile};
use asn1_rust_types::{ProofFile, Spelling, Weights, proof_files, spellings_of, type_file};
use std::alloc::AllocError;

/// Adds a file.
pub(crate) fn push_file(
    plan: &mut Plan<'_, '_>,
    body: TypeBody,
    names: FileNames<'_>,
    owner: Owner<'_>,
) -> Result<(), AllocError> {
    let file = type_file_of(plan, body, names, owner)?;
    if file.lists.is_none() {
        plan.printed.push(file)?;
        return Ok(());
    }
    add_module_of(plan, &file)?;
    let weights = Weights::new(plan.alloc);
    let proofs = proof_files(plan.alloc, &file, &weights)?;
    push_generic(plan, file)?;
    push_files(plan, proofs)
}

/// Adds the sources and the proofs of the types without a parameter, when all of them are known.
pub(crate) fn push_types(plan: &mut Plan<'_, '_>) -> Result<(), AllocError> {
    let laws = keep_laws(plan)?;
    let printed = std::mem::replace(&mut plan.printed, Vec::new(plan.alloc));
    let weights = Weights::of(plan.alloc, printed.as_slice(), plan.aliases.as_slice())?;
    for file in &printed {
        push_type(plan, file, &weights)?;
    }
    plan.printed = printed;
    push_files(plan, laws)
}

// Keeps the laws of types with these; their proofs.
fn keep_laws(plan: &mut Plan<'_, '_>) -> Result<Vec<ProofFile>, AllocError> {
    let alloc = plan.alloc;
    let spellings = spellings_of(alloc, plan.printed.as_slice(), plan.aliases.as_slice())?;
    let mut proofs = Vec::new(alloc);
    for (index, spelling) in spellings.into_iter().enumerate() {
        if let (Some(spelling), Some(file)) = (spelling, plan.printed.get_mut(index)) {
            let Spelling { law, proof } = spelling;
            file.spelling = Some(law);
            proofs.push(proof)?;
        }
    }
    Ok(proofs)
}

// Adds the source and the proofs of a type.
fn push_type(
    plan: &mut Plan<'_, '_>,
    file: &TypeFile,
    weights: &Weights,
) -> Result<(), AllocError> {
    add_module_of(plan, file)?;
    let text = type_file(plan.alloc, file)?;
    plan.add_source(file.module.as_str(), text)?;
    let proofs = proof_files(plan.alloc, file, weights)?;
    push_files(plan, proofs)
}

// Adds the module of a type.
fn add_module_of(plan: &mut Plan<'_, '_>, file: &TypeFile) -> Result<(), AllocError> {
    let exported = exported_names(plan, file)?;
    plan.add_module(file.module.as_str(), false, exported)
}

// A file that was not printed.
fn type_file_of(
    plan: &Plan<'_, '_>,
    body: TypeBody,
    names: FileNames<'_>,
    owner: Owner<'_>,
) -> Result<TypeFile, AllocError> {
    let lists = lists_of(plan, &body)?;
    let name = file_name(plan, names, lists.is_some())?;
    Ok(TypeFile {
        crate_name: plan.text(plan.request.crate_name)?,
        page: definition_lines(plan.alloc, owner.summary, owner.notation)?,
        module: plan.text(names.module)?,
        name,
        asn1_name: plan.text(owner.asn1_name)?,
        summary: plan.text(owner.summary)?,
        body,
        lists,
        knots: plan.copied_knots()?,
        spelling: None,
    })
}

// The name of a type in Rust, with the parameter of a circle if it holds it.
fn file_name(
    plan: &Plan<'_, '_>,
    names: FileNames<'_>,
    has_parameter: bool,
) -> Result<String, AllocError> {
    match plan.generic_in(names.module) {
        Some(name) if has_parameter => format!(in plan.alloc; "{name}<T>"),
        _ => plan.text(names.name),
    }
}

// The module with the lists of a type, if it holds the parameter of a circle.
fn lists_of(plan: &Plan<'_, '_>, body: &TypeBody) -> Result<Option<String>, AllocError> {
    match current_name(plan) {
        Some(name) if has_parameter(body) => Ok(Some(format!(in plan.alloc; "{name}Lists")?)),
        _ => Ok(None),
    }
}

// The name of the knot of the circle of which a type is printed.
fn current_name<'p>(plan: &'p Plan<'_, '_>) -> Option<&'p str> {
    Some(plan.circles.get(plan.current_circle?.index)?.name.as_str())
}

// The names that the crate passes on of a file.
fn exported_names(plan: &Plan<'_, '_>, file: &TypeFile) -> Result<Vec<String>, AllocError> {
    let mut exported = Vec::new(plan.alloc);
    let name = plan.text(file.plain_name())?;
    exported.push(name)?;
    let module = file.module.as_str();
    if file.spelling.is_some() {
        exported.push(format!(in plan.alloc; "{module}_has_one_spelling")?)?;
    }
    if !is_group(&file.body) && file.lists.is_none() {
        exported.push(format!(in plan.alloc; "{module}_is_well_tagged")?)?;
    }
    Ok(exported)
}

// Whether a type is a group of additions.
fn is_group(body: &TypeBody) -> bool {
    match body {
        TypeBody::Group(_) => true,
        _ => false,
    }
}
