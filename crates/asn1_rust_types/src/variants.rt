//! What CHOICE and ENUMERATED types say of their variants.
use asn1_rust_code::{Draft, joined};
use asn1_rust_components::TypeFile;
use std::alloc::{AllocError, Global};

/// Brings in the variants of a type for its clauses.
pub(crate) fn use_variants(
    draft: &mut Draft,
    file: &TypeFile,
    variants: &[&str],
) -> Result<(), AllocError> {
    let alloc = draft.alloc();
    let variants = joined(alloc, variants, ", ")?;
    let crate_name = file.crate_name.as_str();
    let module = file.module.as_str();
    let name = file.plain_name();
    let line = format!(in alloc;
        "ghost use Rattle.{crate_name}.specs.declared.{module}.{name}.TheVariants.{{{variants}}};"
    )?;
    draft.use_ghost(line.as_str())
}

/// The cases of a match with the same answer for each variant.
pub(crate) fn same_cases(
    alloc: Global,
    variants: &[&str],
    answer: &str,
) -> Result<String, AllocError> {
    let mut cases = String::new(alloc);
    for (index, variant) in variants.iter().enumerate() {
        if index != 0 {
            cases.push_str(" | ")?;
        }
        cases.push_str(variant)?;
        cases.push_str(answer)?;
    }
    Ok(cases)
}
