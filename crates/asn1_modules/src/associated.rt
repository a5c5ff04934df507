//! The definitions of the types of the language that others define.

// The words for these types, each the first of its type, with the module and the name of the definition.
const ASSOCIATED: &[(&[u8], AssociatedName)] = &[
    (
        b"EXTERNAL",
        AssociatedName {
            module: b"X690-External",
            name: b"External",
        },
    ),
    (
        b"EMBEDDED",
        AssociatedName {
            module: b"X680-Embedded-PDV",
            name: b"EmbeddedPDV",
        },
    ),
    (
        b"CHARACTER",
        AssociatedName {
            module: b"X680-Character-String",
            name: b"CharacterString",
        },
    ),
    (
        b"INSTANCE",
        AssociatedName {
            module: b"X681-Instance-Of",
            name: b"InstanceOf",
        },
    ),
];

/// The name of a definition, with its module.
#[derive(Clone, Copy)]
pub(crate) struct AssociatedName {
    /// The module.
    pub(crate) module: &'static [u8],
    /// The name.
    pub(crate) name: &'static [u8],
}

/// The definition of the type of the language that begins with this word.
pub(crate) fn associated_name(word: &[u8]) -> Option<AssociatedName> {
    for (first, name) in ASSOCIATED {
        if *first == word {
            return Some(*name);
        }
    }
    None
}
