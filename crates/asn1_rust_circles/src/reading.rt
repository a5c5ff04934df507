//! The names of how a component is read.
use asn1_rust_components::{Held, ListKind};
use std::alloc::{AllocError, Global};

/// The way in which a type that holds the parameter is read, as `ListOf<Itself>`.
pub(crate) fn reading_code(alloc: Global, held: &Held) -> Result<String, AllocError> {
    let core = if held.member.is_some() {
        "Whole"
    } else {
        "Itself"
    };
    let mut code = String::from_str(alloc, core)?;
    for kind in held.lists.iter().rev() {
        let former = former_of(*kind);
        code = format!(in alloc; "{former}<{code}>")?;
    }
    Ok(code)
}

// The way in which a list is read.
fn former_of(kind: ListKind) -> &'static str {
    match kind {
        ListKind::SequenceOf => "ListOf",
        ListKind::SetOf => "SetOfEach",
    }
}

/// The names of such a way that a file imports.
pub(crate) fn reading_names(alloc: Global, held: &Held) -> Result<Vec<&'static str>, AllocError> {
    let mut names = Vec::new(alloc);
    names.push(if held.member.is_some() {
        "Whole"
    } else {
        "Itself"
    })?;
    for kind in &held.lists {
        names.push(former_of(*kind))?;
    }
    Ok(names)
}
