//! The crate that exports calls for the types of a schema.
use asn1_print::{PrintedFile, Request, list_types};
use asn1_print_calls::{TypeNames, print_calls};
use std::alloc::{AllocError, Global};

/// The files of the crate that exports calls for the types of a schema, beside the folder of their crate.
pub(crate) fn call_files(
    alloc: Global,
    request: Request<'_, '_>,
) -> Result<Vec<PrintedFile>, AllocError> {
    let listed = list_types(alloc, request)?;
    let mut types = Vec::new(alloc);
    for one in &listed {
        types.push(TypeNames {
            name: one.name.as_str(),
            rust_name: one.rust_name.as_str(),
        })?;
    }
    let mut files = Vec::new(alloc);
    for file in print_calls(alloc, request.crate_name, types.as_slice())? {
        files.push(PrintedFile {
            path: file.path,
            text: file.text,
        })?;
    }
    Ok(files)
}
