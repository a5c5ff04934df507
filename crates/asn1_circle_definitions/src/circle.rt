//! Circles of types.
use crate::outside::Surroundings;
use asn1_rust_components::{Held, ListKind, TypeBody, TypeFile};
use std::alloc::{AllocError, Global};

/// A circle of types, which is cut at one of them, the knot.
#[derive(Clone, Copy)]
pub struct Circle<'a> {
    /// The crate, as clauses name it.
    pub crate_name: &'a str,
    /// The name of the knot in Rust.
    pub name: &'a str,
    /// The module of the knot.
    pub module: &'a str,
    /// The module of its reader.
    pub reader: &'a str,
    /// The module of the names for the meanings of the types that hold no type of the circle.
    pub parts: &'a str,
    /// The name of the knot in ASN.1.
    pub asn1_name: &'a str,
    /// A sentence on the knot, for its page.
    pub summary: &'a str,
    /// The types with a parameter, each behind those that it holds: the last is what a value of the knot is made of.
    pub members: &'a [TypeFile],
    /// The other types of the crate.
    pub surroundings: Surroundings<'a>,
    /// Whether each value is valid.
    pub are_valid: bool,
}

impl Circle<'_> {
    /// The type of which a value of the knot is made.
    pub fn body(&self) -> Option<&TypeFile> {
        self.members.last()
    }

    /// Whether the knot is a CHOICE.
    pub fn is_choice(&self) -> bool {
        match self.body() {
            Some(file) => matches!(file.body, TypeBody::Choice(_)),
            None => false,
        }
    }

    /// The type of a value that has been written, in definitions.
    pub(crate) fn carrier(&self) -> &'static str {
        if self.are_valid {
            "ValidRecords"
        } else {
            "(List Record)"
        }
    }

    /// The definition that writes the records inside a value.
    pub(crate) fn writer(&self) -> &'static str {
        if self.are_valid { "folded" } else { "inside" }
    }

    /// The type with a parameter of this module.
    pub(crate) fn member(&self, module: &str) -> Option<&TypeFile> {
        self.members
            .iter()
            .find(|file| file.module.as_str() == module)
    }

    /// The name of the type with a parameter of this module; no text if there is none.
    pub fn member_name(&self, module: &str) -> &str {
        match self.member(module) {
            Some(file) => file.plain_name(),
            None => "",
        }
    }

    /// The values of a type that holds the parameter, in a clause, from one of its lists on: this is the parameter.
    pub(crate) fn value_term(
        &self,
        alloc: Global,
        held: &Held,
        from: usize,
        parameter: &str,
    ) -> Result<String, AllocError> {
        let mut term = match &held.member {
            Some(module) => {
                let name = self.member_name(module.as_str());
                format!(in alloc; "({name} {parameter})")?
            }
            None => String::from_str(alloc, parameter)?,
        };
        for kind in held.lists.iter().skip(from).rev() {
            let former = match kind {
                ListKind::SequenceOf => "Vec",
                ListKind::SetOf => "List",
            };
            term = format!(in alloc; "({former} {term})")?;
        }
        Ok(term)
    }
}

/// The meaning of a type that holds the parameter, from one of its lists on, by that of the parameter.
pub(crate) fn meaning_term(
    alloc: Global,
    held: &Held,
    from: usize,
    parameter: &str,
) -> Result<String, AllocError> {
    let mut term = match &held.member {
        Some(module) => format!(in alloc; "({module}_meaning {parameter})")?,
        None => String::from_str(alloc, parameter)?,
    };
    for kind in held.lists.iter().skip(from).rev() {
        let word = match kind {
            ListKind::SequenceOf => "list_meaning",
            ListKind::SetOf => "set_meaning",
        };
        term = format!(in alloc; "({word} {term})")?;
    }
    Ok(term)
}

/// The elements of a list, as a clause has them.
pub(crate) fn elements_of(
    alloc: Global,
    kind: ListKind,
    value: &str,
) -> Result<String, AllocError> {
    match kind {
        ListKind::SequenceOf => format!(in alloc; "{value}.items"),
        ListKind::SetOf => String::from_str(alloc, value),
    }
}
