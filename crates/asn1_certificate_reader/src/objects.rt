//! Objects with their names.
ghost use Rattle.std.specs.List.{AllZip};
ghost use Rattle.std.specs.Prelude.{Contains, IfOk, MatchOption};
ghost use Rattle.asn1_certificate_reader.specs.Objects.{IsObjectOf};
ghost use Rattle.asn1_certificate_text.specs.Registry.{NamesObject, known_objects, object_names};

use asn1_certificate_text::{Object, object_named};
use asn1_values::ObjectIdentifier;
use std::alloc::{AllocError, Global};

/// An object with its name, if it has one here.
pub(crate) fn object_of(alloc: Global, object: &ObjectIdentifier) -> Result<Object, AllocError>
    ensures { IfOk result (IsObjectOf object.now) }
{
    Ok(Object {
        identifier: ObjectIdentifier::new(Vec::from_slice(alloc, object.as_slice())?),
        name: known_name(object.as_slice()),
    })
}

/// The name of the object of these arcs, if it has one here.
pub(crate) fn known_name(arcs: &[u32]) -> Option<&'static str>
    ensures { MatchOption result (¬ Contains known_objects arcs.now)
        (λ name. NamesObject object_names arcs.now name.now) }
{
    match object_named(arcs) {
        Some(object) => Some(object.name),
        None => None,
    }
}

/// Objects with their names.
pub(crate) fn objects_of(
    alloc: Global,
    objects: &[ObjectIdentifier],
) -> Result<Vec<Object>, AllocError>
    ensures { IfOk result (λ shown. AllZip IsObjectOf objects.now shown.items) }
{
    let mut shown = Vec::new(alloc);
    for object in objects {
        shown.push(object_of(alloc, object)?)?;
    }
    Ok(shown)
}
