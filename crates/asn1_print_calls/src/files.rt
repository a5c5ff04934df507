//! The files of the printed crate.
use crate::exports::CallTemplates;
use crate::modules::{ModuleTemplates, push_module};
use crate::names::{CONVERSIONS, ExportedType, TypeNames, Words, exported_types, push_filled};
use crate::{exports, header, python, rust};
use std::alloc::{AllocError, Global};

/// A file beside the folder of a crate.
#[derive(Drop)]
pub struct CallFile {
    /// The path from the folder of the crate.
    pub path: String,
    /// The text.
    pub text: String,
}

/// The modules for other languages, by the ends of their names.
const MODULES: &[(&str, &ModuleTemplates)] = &[
    ("h", &header::TEMPLATES),
    ("py", &python::TEMPLATES),
    ("rs", &rust::TEMPLATES),
];

/// The files of the crate that exports calls for types of a crate, in a folder beside that of the crate: the exports, the header, and
/// the modules for Python and Rust. It fails only if memory runs out.
pub fn print_calls(
    alloc: Global,
    crate_name: &str,
    types: &[TypeNames<'_>],
) -> Result<Vec<CallFile>, AllocError> {
    let exported = exported_types(alloc, crate_name, types)?;
    let mut files = Vec::new(alloc);
    files.push(root_file(alloc, crate_name, exported.as_slice())?)?;
    for one in &exported {
        files.push(exports_of(alloc, crate_name, one)?)?;
    }
    for (extension, templates) in MODULES {
        let mut text = String::new(alloc);
        push_module(&mut text, templates, crate_name, exported.as_slice())?;
        let path = format!(in alloc; "../{crate_name}_c/{crate_name}.{extension}")?;
        files.push(CallFile { path, text })?;
    }
    Ok(files)
}

/// The root of the crate.
fn root_file(
    alloc: Global,
    crate_name: &str,
    types: &[ExportedType<'_>],
) -> Result<CallFile, AllocError> {
    let mut modules = Vec::new(alloc);
    for exported in types {
        modules.push(exported.module())?;
    }
    modules.sort()?;
    let mut text = String::new(alloc);
    push_filled(&mut text, exports::ROOT, Words::of_crate(crate_name))?;
    for module in &modules {
        text.push_str("pub mod ")?;
        text.push_str(module)?;
        text.push_str(";\n")?;
    }
    let path = format!(in alloc; "../{crate_name}_c/src/lib.rt")?;
    Ok(CallFile { path, text })
}

/// The exports of a type.
fn exports_of(
    alloc: Global,
    crate_name: &str,
    exported: &ExportedType<'_>,
) -> Result<CallFile, AllocError> {
    let words = Words::of_type(crate_name, exported);
    let mut text = String::new(alloc);
    push_filled(&mut text, exports::HEAD, words)?;
    push_uses(alloc, &mut text, words)?;
    push_filled(&mut text, exports::CHECK, words)?;
    push_call(alloc, &mut text, exports::CHECK_CALL, words)?;
    for conversion in CONVERSIONS {
        let words = words.with_conversion(*conversion);
        push_filled(&mut text, exports::CONVERSION, words)?;
        push_call(alloc, &mut text, exports::CONVERSION_CALL, words)?;
    }
    let module = exported.module();
    let path = format!(in alloc; "../{crate_name}_c/src/{module}.rt")?;
    Ok(CallFile { path, text })
}

/// The greatest length of a line of code.
const MAX_LINE: usize = 100;

/// Appends a call and the end of the body: in one line, or with the arguments in a line of their own where that would be too long.
fn push_call(
    alloc: Global,
    text: &mut String,
    call: CallTemplates,
    words: Words<'_>,
) -> Result<(), AllocError> {
    let mut function = String::new(alloc);
    push_filled(&mut function, call.function, words)?;
    let function = function.as_str();
    let arguments = call.arguments;
    let line = format!(in alloc; "    {function}({arguments})")?;
    if line.len() <= MAX_LINE {
        text.push_str(line.as_str())?;
    } else {
        let lines = format!(in alloc; "    {function}(\n        {arguments},\n    )")?;
        text.push_str(lines.as_str())?;
    }
    text.push_str("\n}\n")
}

/// Appends the lines of what the module of a type uses, in their order.
fn push_uses(alloc: Global, text: &mut String, words: Words<'_>) -> Result<(), AllocError> {
    let mut lines = Vec::new(alloc);
    for template in exports::USES {
        let mut line = String::new(alloc);
        push_filled(&mut line, template, words)?;
        lines.push(line)?;
    }
    lines.sort()?;
    for line in &lines {
        text.push_str(line.as_str())?;
    }
    Ok(())
}
