//! The program that converts values of the types of a crate.
use crate::notation::push_octets;
use crate::plan::{Plan, plan_of};
use crate::request::{PrintedFile, Request};
use asn1_rust_names::TakenNames;
use std::alloc::{AllocError, Global};
use std::fmt::Write;

/// A type that a crate has.
#[derive(Drop)]
pub struct ListedType {
    /// The name in ASN.1; where two modules have one name, the second with a number.
    pub name: String,
    /// The name in Rust.
    pub rust_name: String,
}

/// The types of a schema that do not exist already. The error is that of memory.
pub fn list_types(alloc: Global, request: Request<'_, '_>) -> Result<Vec<ListedType>, AllocError> {
    let plan = plan_of(alloc, request)?;
    listed_types(&plan)
}

/// The program that converts values of the types of a schema, as a file beside the folder of their crate.
///
/// It has the types that the crate has, under their names in ASN.1; where two modules have one name, the second with a number. The
/// error of this call is that of memory.
pub fn print_program(alloc: Global, request: Request<'_, '_>) -> Result<PrintedFile, AllocError> {
    let plan = plan_of(alloc, request)?;
    let types = listed_types(&plan)?;
    let crate_name = request.crate_name;
    let mut text = String::new(alloc);
    push_head(&mut text, crate_name)?;
    push_names(&mut text, types.as_slice())?;
    push_answers(&mut text, crate_name, types.as_slice())?;
    push_main(&mut text, crate_name)?;
    let path = format!(in alloc; "../{crate_name}_convert/src/main.rt")?;
    Ok(PrintedFile { path, text })
}

// Appends what comes before the list of the types.
fn push_head(text: &mut String, crate_name: &str) -> Result<(), AllocError> {
    writeln!(
        text,
        "//! Converts values of the types of `{crate_name}` from one form to another, from standard input to standard output."
    )?;
    writeln!(text, "//!")?;
    writeln!(
        text,
        "//! `TYPE FROM TO` reads values of a type by the codec FROM and writes them by the codec TO, or as text or JSON. `--check TYPE` tells"
    )?;
    writeln!(
        text,
        "//! whether the input is the DER of a value, and if not where. `--hex` reads digits, and `--help` lists the types."
    )?;
    writeln!(text, "#![tactic(auto)]")?;
    writeln!(text)?;
    writeln!(text, "use asn1_convert::{{Answer, Task, TypeList, run}};")?;
    writeln!(text, "use std::alloc::AllocError;")?;
    writeln!(text, "use std::process::ExitCode;")?;
    writeln!(text)?;
    writeln!(text, "/// The types of `{crate_name}`.")?;
    writeln!(text, "struct Types {{}}")?;
    writeln!(text)?;
    writeln!(text, "impl TypeList for Types {{")
}

// The types of a plan that do not exist already.
fn listed_types(plan: &Plan<'_, '_>) -> Result<Vec<ListedType>, AllocError> {
    let mut types = Vec::new(plan.alloc);
    let mut names = TakenNames::new(plan.alloc);
    for (definition, planned) in plan.request.schema.types.iter().zip(&plan.types) {
        if planned.external.is_none() {
            let mut name = String::new(plan.alloc);
            push_octets(&mut name, definition.name)?;
            for argument in &definition.arguments {
                name.push_str("-")?;
                push_octets(&mut name, argument)?;
            }
            types.push(ListedType {
                name: names.take(name.as_str())?,
                rust_name: plan.text(planned.name.as_str())?,
            })?;
        }
    }
    Ok(types)
}

// Appends the names of the types, a line for each.
fn push_names(text: &mut String, types: &[ListedType]) -> Result<(), AllocError> {
    writeln!(text, "    fn names() -> &'static str {{")?;
    write!(text, "        \"")?;
    let mut is_first = true;
    for listed in types {
        if !is_first {
            writeln!(text, " \\")?;
            write!(text, "         ")?;
        }
        text.push_str(listed.name.as_str())?;
        is_first = false;
    }
    writeln!(text, "\"")?;
    writeln!(text, "    }}")?;
    writeln!(text)
}

// Appends what each type does.
fn push_answers(
    text: &mut String,
    crate_name: &str,
    types: &[ListedType],
) -> Result<(), AllocError> {
    writeln!(
        text,
        "    fn answer(name: &str, task: Task<'_>) -> Option<Result<Answer, AllocError>> {{"
    )?;
    writeln!(text, "        Some(match name {{")?;
    for listed in types {
        writeln!(
            text,
            "            \"{}\" => task.perform::<{crate_name}::{}>(),",
            listed.name, listed.rust_name
        )?;
    }
    writeln!(text, "            _ => return None,")?;
    writeln!(text, "        }})")?;
    writeln!(text, "    }}")?;
    writeln!(text, "}}")?;
    writeln!(text)
}

// Appends what follows the list of the types.
fn push_main(text: &mut String, crate_name: &str) -> Result<(), AllocError> {
    writeln!(text, "fn main(rt: HostRuntime) -> ExitCode {{")?;
    writeln!(text, "    run::<Types>(&rt, \"{crate_name}_convert\")")?;
    writeln!(text, "}}")
}
