//! Names as references to definitions.
use crate::associated::associated_name;
use crate::built_in::is_built_in;
use asn1_names::{Place, UsedName};
use asn1_notation::{Reference, Span};

/// A reference in a module of the text with this index. The word of a type of the language that another defines is a reference to
/// that definition, in the module that has it.
pub fn used_name<'a>(
    text: &'a [u8],
    index: usize,
    module: &'a [u8],
    reference: &Reference,
) -> UsedName<'a> {
    let name = reference.name.octets(text);
    let place = Place {
        text: index,
        span: reference.name,
    };
    if let Some(associated) = associated_name(name) {
        return UsedName {
            module,
            qualifier: Some(associated.module),
            name: associated.name,
            place,
        };
    }
    UsedName {
        module,
        qualifier: match reference.module {
            Some(qualifier) => Some(qualifier.octets(text)),
            None => None,
        },
        name,
        place,
    }
}

/// The type that stands as the name of an alternative, in a value of an open type, if it is the name of a definition.
pub fn type_of_open_value(text: &[u8], name: Span) -> Option<Reference> {
    let octets = name.octets(text);
    match octets {
        [b'A'..=b'Z', ..] if !is_built_in(octets) => Some(Reference { module: None, name }),
        _ => None,
    }
}
