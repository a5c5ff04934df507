//! Files of types.
use crate::choice::{ChoiceSubject, append_choice};
use crate::enumeration::{EnumerationSubject, append_enumeration};
use crate::restricted_string::{StringSubject, append_restricted_string};
use asn1_rust_code::{Code, Draft, List, ListStyle, append_page};
use asn1_rust_components::{
    Kind, Subject, TypeBody, TypeFile, append_group, append_sequence, append_set,
};
use std::alloc::{AllocError, Global};

/// The greatest number of names that are passed on side by side.
const MOST: usize = 100;

/// The file of a type.
pub fn type_file(alloc: Global, file: &TypeFile) -> Result<String, AllocError> {
    let mut draft = Draft::new(alloc);
    append_body(&mut draft, file)?;
    draft.into_file(file.page.as_slice())
}

// Appends the type of a file.
fn append_body(draft: &mut Draft, file: &TypeFile) -> Result<(), AllocError> {
    match &file.body {
        TypeBody::Sequence(body) => {
            let kind = Kind::Sequence;
            append_sequence(draft, Subject { kind, file, body })
        }
        TypeBody::Set(body) => {
            let kind = Kind::Set;
            append_set(draft, Subject { kind, file, body })
        }
        TypeBody::Group(body) => {
            let kind = if body.is_of_set {
                Kind::GroupOfSet
            } else {
                Kind::Group
            };
            append_group(draft, Subject { kind, file, body }, body.trees.as_slice())
        }
        TypeBody::Choice(body) => append_choice(draft, ChoiceSubject { file, body }),
        TypeBody::Enumerated(body) => append_enumeration(draft, EnumerationSubject { file, body }),
        TypeBody::RestrictedString(body) => {
            append_restricted_string(draft, StringSubject { file, body })
        }
    }
}

/// A module of a crate, with the names that the crate passes on. Modules are ordered by their names.
#[derive(Debug, PartialEq, Eq, PartialOrd, Ord, Drop)]
pub struct ModuleNames {
    /// The module.
    pub module: String,
    /// Its place among imported names (`order_of` of `asn1_rust_code`).
    pub order: String,
    /// Whether the module itself is public, and its names are not passed on.
    pub is_public: bool,
    /// The names, in the order of `rt fmt`.
    pub names: Vec<String>,
}

/// The root file of a crate of these modules.
pub fn root_file(
    alloc: Global,
    page: &[String],
    modules: &[ModuleNames],
) -> Result<String, AllocError> {
    let mut code = Code::new(alloc);
    append_page(alloc, &mut code, page)?;
    code.line(
        0,
        "#![tactic(auto, using(asn1_schema::proofs::Trees::tree_shapes))]",
    )?;
    code.blank()?;
    for module in modules {
        let name = module.module.as_str();
        let visibility = if module.is_public { "pub " } else { "" };
        let line = format!(in alloc; "{visibility}mod {name};")?;
        code.line(0, line.as_str())?;
    }
    code.blank()?;
    let is_long = count_names(modules) > MOST;
    for index in import_order(alloc, modules)? {
        if let Some(module) = modules.get(index) {
            append_module_names(alloc, &mut code, module, is_long)?;
        }
    }
    Ok(code.into_text())
}

// The indices of modules in the order of the lines that pass on their names.
fn import_order(alloc: Global, modules: &[ModuleNames]) -> Result<Vec<usize>, AllocError> {
    let mut ordered = Vec::new(alloc);
    for (index, module) in modules.iter().enumerate() {
        ordered.push((module.order.as_str(), index))?;
    }
    ordered.sort()?;
    let mut indices = Vec::new(alloc);
    for (_, index) in ordered {
        indices.push(index)?;
    }
    Ok(indices)
}

// Appends the lines that pass on the names of a module, unless it is public itself or has none.
fn append_module_names(
    alloc: Global,
    code: &mut Code,
    module: &ModuleNames,
    is_long: bool,
) -> Result<(), AllocError> {
    if module.is_public || module.names.is_empty() {
        Ok(())
    } else if is_long {
        append_each_name(alloc, code, module)
    } else {
        append_names(alloc, code, module)
    }
}

// The number of names that a crate passes on.
fn count_names(modules: &[ModuleNames]) -> usize {
    let mut count = 0usize;
    for module in modules {
        if !module.is_public {
            count = count.saturating_add(module.names.len());
        }
    }
    count
}

// Appends a line for each name of a module.
fn append_each_name(
    alloc: Global,
    code: &mut Code,
    module: &ModuleNames,
) -> Result<(), AllocError> {
    let path = module.module.as_str();
    for name in &module.names {
        let name = name.as_str();
        let line = format!(in alloc; "pub use {path}::{name};")?;
        code.line(0, line.as_str())?;
    }
    Ok(())
}

// Appends the line that passes on the names of a module.
fn append_names(alloc: Global, code: &mut Code, module: &ModuleNames) -> Result<(), AllocError> {
    let path = module.module.as_str();
    if let [name] = module.names.as_slice() {
        let name = name.as_str();
        let line = format!(in alloc; "pub use {path}::{name};")?;
        return code.line(0, line.as_str());
    }
    let opening = format!(in alloc; "pub use {path}::{{")?;
    let list = List {
        opening: opening.as_str(),
        items: module.names.as_slice(),
        closing: "};",
        style: ListStyle::Names,
    };
    code.list(0, list)
}
