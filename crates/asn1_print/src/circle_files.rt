//! The files of circles of types.
use crate::circles::{KnotModules, PlannedCircle};
use crate::notation::definition_lines;
use crate::parameters::{generic_name, require_supported};
use crate::plan::Plan;
use crate::printing::ordered_names;
use crate::request::PrintedFile;
use crate::types::Owner;
use asn1_circle_definitions::{Circle, Surroundings, are_all_valid};
use asn1_rust_circles::{
    KnotName, circle_files, definition_modules, generic_file, proof_modules,
    validity_definitions_file, validity_laws,
};
use asn1_rust_code::{Import, TypeName};
use asn1_rust_components::{Alias, ChoiceType, Held, TypeBody, TypeFile};
use asn1_rust_types::ProofFile;
use std::alloc::{AllocError, Global};

/// Adds the file of a type with the parameter, and keeps the type for the definitions of its circle.
pub(crate) fn push_generic(plan: &mut Plan<'_, '_>, file: TypeFile) -> Result<(), AllocError> {
    match plan.current_circle {
        Some(current) => {
            require_supported(plan, &file, current.place)?;
            add_generic_source(plan, current.index, &file)?;
            keep_file(plan, current.index, file)
        }
        None => Ok(()),
    }
}

// Adds the file of a type with the parameter.
fn add_generic_source(
    plan: &mut Plan<'_, '_>,
    circle: usize,
    file: &TypeFile,
) -> Result<(), AllocError> {
    let is_body = plan.body_module(circle) == Some(file.module.as_str());
    let text = generic_file(plan.alloc, file, is_body)?;
    plan.add_source(file.module.as_str(), text)
}

// Keeps a type with the parameter.
fn keep_file(plan: &mut Plan<'_, '_>, circle: usize, file: TypeFile) -> Result<(), AllocError> {
    if let Some(known) = plan.circles.get_mut(circle) {
        known.files.push(file)?;
    }
    Ok(())
}

/// Keeps the names of a knot for its own file.
pub(crate) fn keep_knot(
    plan: &mut Plan<'_, '_>,
    circle: usize,
    name: &str,
    module: &str,
    owner: Owner<'_>,
) -> Result<(), AllocError> {
    let own = knot_file_of(plan, name, module, owner)?;
    if let Some(known) = plan.circles.get_mut(circle) {
        known.own = Some(own);
    }
    Ok(())
}

// The file of a knot itself, without its type.
fn knot_file_of(
    plan: &Plan<'_, '_>,
    name: &str,
    module: &str,
    owner: Owner<'_>,
) -> Result<TypeFile, AllocError> {
    Ok(TypeFile {
        crate_name: plan.text(plan.request.crate_name)?,
        page: definition_lines(plan.alloc, owner.summary, owner.notation)?,
        module: plan.text(module)?,
        name: plan.text(name)?,
        asn1_name: plan.text(owner.asn1_name)?,
        summary: plan.text(owner.summary)?,
        body: no_type(plan.alloc),
        lists: None,
        knots: plan.copied_knots()?,
        spelling: None,
    })
}

// A type without a part.
fn no_type(alloc: Global) -> TypeBody {
    TypeBody::Choice(ChoiceType {
        alternatives: Vec::new(alloc),
        extension_index: None,
    })
}

/// Names the type with a parameter that a type without a name in ASN.1 may be, if it is in a circle.
pub(crate) fn name_generic(
    plan: &mut Plan<'_, '_>,
    module: &str,
    name: &str,
) -> Result<(), AllocError> {
    match plan.current_circle {
        Some(_) => plan.name_unnamed_generic(module, name),
        None => Ok(()),
    }
}

/// The type with a parameter that a type without a name in ASN.1 is, if it has it. It gets a name at the knot.
pub(crate) fn unnamed_generic(
    plan: &mut Plan<'_, '_>,
    module: &str,
    name: &str,
    owner: Owner<'_>,
) -> Result<Option<TypeName>, AllocError> {
    match plan.current_circle {
        Some(current) if has_file_in(plan, current.index, module) => {
            add_unnamed(plan, current.index, module, name, owner)
        }
        _ => Ok(None),
    }
}

// Whether a circle has a type with the parameter in a module.
fn has_file_in(plan: &Plan<'_, '_>, circle: usize, module: &str) -> bool {
    match plan.circles.get(circle) {
        Some(known) => known
            .files
            .iter()
            .any(|file| file.module.as_str() == module),
        None => false,
    }
}

// Adds the name at the knot of a type with the parameter that has no name in ASN.1.
fn add_unnamed(
    plan: &mut Plan<'_, '_>,
    circle: usize,
    module: &str,
    name: &str,
    owner: Owner<'_>,
) -> Result<Option<TypeName>, AllocError> {
    let generic = match plan.generic_in(module) {
        Some(generic) => plan.text(generic)?,
        None => return Ok(None),
    };
    add_generic_alias(plan, circle, name, module, generic.as_str(), owner)?;
    let generic = generic_name(plan, module, generic.as_str())?;
    Ok(Some(generic))
}

/// Adds the name of a type of a circle for its type with the parameter, at the knot.
pub(crate) fn add_generic_alias(
    plan: &mut Plan<'_, '_>,
    circle: usize,
    name: &str,
    module: &str,
    generic: &str,
    owner: Owner<'_>,
) -> Result<(), AllocError> {
    let definition = name_at_knot(plan, circle, module, generic)?;
    let notation = owner.notation;
    let alias = Alias {
        name: plan.text(name)?,
        notation: format!(in plan.alloc; "`{notation}`")?,
        definition,
        numbers: None,
    };
    plan.aliases.push(alias)?;
    Ok(())
}

// A type with the parameter, at the knot.
fn name_at_knot(
    plan: &Plan<'_, '_>,
    circle: usize,
    module: &str,
    generic: &str,
) -> Result<TypeName, AllocError> {
    let mut definition = plan.local_type(module, generic)?;
    if let Some(import) = knot_import(plan, circle)? {
        let knot = import.name.as_str();
        definition.text = format!(in plan.alloc; "{generic}<{knot}>")?;
        definition.imports.push(import)?;
    }
    Ok(definition)
}

// The import of a knot.
fn knot_import(plan: &Plan<'_, '_>, circle: usize) -> Result<Option<Import>, AllocError> {
    let planned = match plan.circles.get(circle) {
        Some(known) => plan.types.get(known.knot),
        None => None,
    };
    match planned {
        Some(planned) => {
            let module = planned.module.as_str();
            Ok(Some(Import {
                is_foreign: false,
                path: format!(in plan.alloc; "crate::{module}")?,
                name: plan.text(planned.name.as_str())?,
            }))
        }
        None => Ok(None),
    }
}

/// Adds the files of circles beside those of their types with a parameter.
pub(crate) fn add_circles(plan: &mut Plan<'_, '_>) -> Result<(), AllocError> {
    let alloc = plan.alloc;
    let circles = std::mem::replace(&mut plan.circles, Vec::new(alloc));
    let printed = std::mem::replace(&mut plan.printed, Vec::new(alloc));
    let mut knots: Vec<KnotName> = Vec::new(alloc);
    for circle in circles {
        add_circle(plan, circle, printed.as_slice(), &mut knots)?;
    }
    if knots.is_empty() {
        Ok(())
    } else {
        add_modules(plan, knots.as_slice())
    }
}

// Adds the lists of the modules of definitions and proofs, for these knots.
fn add_modules(plan: &mut Plan<'_, '_>, knots: &[KnotName]) -> Result<(), AllocError> {
    let definitions = definition_modules(plan.alloc, knots)?;
    push_text(plan, "specs/Lib.antt", definitions)?;
    let proofs = proof_modules(plan.alloc, knots)?;
    push_text(plan, "proofs/Lib.antt", proofs)?;
    if let Some(file) = validity_definitions_file(plan.alloc, knots)? {
        let ProofFile { path, text } = file;
        plan.files.push(PrintedFile { path, text })?;
    }
    Ok(())
}

// Adds a file.
fn push_text(plan: &mut Plan<'_, '_>, path: &str, text: String) -> Result<(), AllocError> {
    let path = plan.text(path)?;
    plan.files.push(PrintedFile { path, text })?;
    Ok(())
}

// Adds the files of a circle in a crate of these types, and its knot to these.
fn add_circle(
    plan: &mut Plan<'_, '_>,
    circle: PlannedCircle,
    printed: &[TypeFile],
    knots: &mut Vec<KnotName>,
) -> Result<(), AllocError> {
    let PlannedCircle {
        knot,
        name,
        modules,
        files,
        own,
    } = circle;
    let Some(own) = own else {
        return Ok(());
    };
    let body = match plan.generic_of(knot) {
        Some(generic) => plan.text(generic.module.as_str())?,
        None => return Ok(()),
    };
    let members = in_order(plan.alloc, files, body.as_str())?;
    let (files, knot_name, laws) = files_of_circle(
        plan,
        &own,
        &modules,
        members.as_slice(),
        printed,
        name,
    )?;
    push_files(plan, files)?;
    add_circle_modules(plan, &own, &modules, laws)?;
    knots.push(knot_name)?;
    Ok(())
}

// The files of a circle of these types with a parameter, its knot, and the names of the theorems on which values are valid.
fn files_of_circle<'x>(
    plan: &'x Plan<'_, '_>,
    own: &'x TypeFile,
    modules: &'x KnotModules,
    members: &'x [TypeFile],
    printed: &'x [TypeFile],
    name: String,
) -> Result<(Vec<ProofFile>, KnotName, Vec<String>), AllocError> {
    let crate_name = plan.text(plan.request.crate_name)?;
    let surroundings = Surroundings {
        files: printed,
        aliases: plan.aliases.as_slice(),
    };
    let circle = Circle {
        crate_name: crate_name.as_str(),
        name: own.name.as_str(),
        module: own.module.as_str(),
        reader: modules.reader.as_str(),
        parts: modules.parts.as_str(),
        asn1_name: own.asn1_name.as_str(),
        summary: own.summary.as_str(),
        members,
        surroundings,
        are_valid: false,
    };
    let are_valid = are_all_valid(plan.alloc, circle)?;
    let circle = Circle {
        are_valid,
        ..circle
    };
    let files = circle_files(plan.alloc, circle, own)?;
    let laws = validity_laws(plan.alloc, circle)?;
    Ok((files, KnotName { name, are_valid }, laws))
}

/// Adds files.
pub(crate) fn push_files(
    plan: &mut Plan<'_, '_>,
    printed: Vec<ProofFile>,
) -> Result<(), AllocError> {
    for file in printed {
        let ProofFile { path, text } = file;
        plan.files.push(PrintedFile { path, text })?;
    }
    Ok(())
}

// Adds the modules of a circle.
fn add_circle_modules(
    plan: &mut Plan<'_, '_>,
    own: &TypeFile,
    modules: &KnotModules,
    laws: Vec<String>,
) -> Result<(), AllocError> {
    let alloc = plan.alloc;
    let module = own.module.as_str();
    let tagging = format!(in alloc; "{module}_is_well_tagged")?;
    let mut exported = laws;
    exported.push(plan.text(own.name.as_str())?)?;
    exported.push(tagging)?;
    let exported = ordered_names(plan, exported)?;
    plan.add_module(module, false, exported)?;
    plan.add_module(modules.reader.as_str(), false, Vec::new(alloc))?;
    plan.add_module(modules.parts.as_str(), false, Vec::new(alloc))
}

// The types of a circle, each behind those that it holds, and what the knot is made of last.
fn in_order(alloc: Global, files: Vec<TypeFile>, body: &str) -> Result<Vec<TypeFile>, AllocError> {
    let mut waiting: Vec<TypeFile> = Vec::new(alloc);
    let mut last: Vec<TypeFile> = Vec::new(alloc);
    for file in files {
        if file.module.as_str() == body {
            last.push(file)?;
        } else {
            waiting.push(file)?;
        }
    }
    let mut ordered: Vec<TypeFile> = Vec::new(alloc);
    for _ in 0..waiting.len() {
        waiting = with_ready(alloc, waiting, &mut ordered)?;
    }
    for file in last {
        ordered.push(file)?;
    }
    Ok(ordered)
}

// Appends the types of which all that they hold is there, and answers the others.
fn with_ready(
    alloc: Global,
    waiting: Vec<TypeFile>,
    ordered: &mut Vec<TypeFile>,
) -> Result<Vec<TypeFile>, AllocError> {
    let mut later: Vec<TypeFile> = Vec::new(alloc);
    for file in waiting {
        if is_ready(&file, ordered.as_slice()) {
            ordered.push(file)?;
        } else {
            later.push(file)?;
        }
    }
    Ok(later)
}

// Whether the types that a type holds are among these.
fn is_ready(file: &TypeFile, ordered: &[TypeFile]) -> bool {
    match &file.body {
        TypeBody::Choice(choice) => choice
            .alternatives
            .iter()
            .all(|alternative| is_known(&alternative.held, ordered)),
        TypeBody::Sequence(body) => body
            .components
            .iter()
            .all(|component| is_known(&component.held, ordered)),
        _ => true,
    }
}

// Whether the type that is held is one of these, or the parameter.
fn is_known(held: &Option<Held>, ordered: &[TypeFile]) -> bool {
    match held {
        Some(held) => match &held.member {
            Some(module) => ordered
                .iter()
                .any(|file| file.module.as_str() == module.as_str()),
            None => true,
        },
        None => true,
    }
}
