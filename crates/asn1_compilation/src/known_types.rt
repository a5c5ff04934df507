//! The types that exist already.
use crate::job::{ExternModule, Job};
use asn1_print::{Extern, known_words, rust_name};
use asn1_resolved::Schema;
use asn1_rust_names::TakenNames;
use std::alloc::{AllocError, Global};

/// A type that exists already.
#[derive(Drop)]
pub(crate) struct KnownType {
    module: Option<Vec<u8>>,
    name: Vec<u8>,
    path: String,
    rust_name: String,
}

impl KnownType {
    /// The type, as an argument names one.
    pub(crate) fn as_extern(&self) -> Extern<'_> {
        Extern {
            module: match &self.module {
                Some(module) => Some(module.as_slice()),
                None => None,
            },
            name: self.name.as_slice(),
            path: self.path.as_str(),
            rust_name: self.rust_name.as_str(),
        }
    }
}

/// The types that an argument of a job names, and the others of the modules that exist already.
pub(crate) fn known_types(
    alloc: Global,
    job: Job<'_>,
    schema: &Schema<'_>,
) -> Result<Vec<KnownType>, AllocError> {
    let mut types = Vec::new(alloc);
    for named in job.externs {
        types.push(copy_of(alloc, *named)?)?;
    }
    for module in job.extern_modules {
        push_types(alloc, &mut types, job.externs, *module, schema)?;
    }
    Ok(types)
}

// A type that an argument names.
fn copy_of(alloc: Global, named: Extern<'_>) -> Result<KnownType, AllocError> {
    let module = match named.module {
        Some(module) => Some(Vec::from_slice(alloc, module)?),
        None => None,
    };
    known_type(alloc, module, named.name, named.path, named.rust_name)
}

// A type with copies of these names.
fn known_type(
    alloc: Global,
    module: Option<Vec<u8>>,
    name: &[u8],
    path: &str,
    rust_name: &str,
) -> Result<KnownType, AllocError> {
    Ok(KnownType {
        module,
        name: Vec::from_slice(alloc, name)?,
        path: String::from_str(alloc, path)?,
        rust_name: String::from_str(alloc, rust_name)?,
    })
}

// Appends the types of a module, under the names that they have in a crate of this module alone.
fn push_types(
    alloc: Global,
    types: &mut Vec<KnownType>,
    externs: &[Extern<'_>],
    known: ExternModule<'_>,
    schema: &Schema<'_>,
) -> Result<(), AllocError> {
    let words = known_words(alloc, schema, Some(known.name))?;
    let mut names = TakenNames::new(alloc);
    for defined in schema.types.iter().take(schema.defined) {
        let (module, name) = (defined.module, defined.name);
        if module == known.name && !externs.iter().any(|named| named.is_for(module, name)) {
            let wanted = rust_name(alloc, &words, name)?;
            let taken = names.take(wanted.as_str())?;
            let module = Some(Vec::from_slice(alloc, module)?);
            types.push(known_type(alloc, module, name, known.path, taken.as_str())?)?;
        }
    }
    Ok(())
}
