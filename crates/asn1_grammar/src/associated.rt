//! Types of the language that X.680 and X.681 define by others.
//!
//! In the tree such a type is a reference whose name is its first word, and a text of the notation has its definition. INSTANCE OF
//! is a reference with an argument, its class.
use crate::classes::class_type;
use crate::cursor::Cursor;
use crate::error::{Expected, Fault};
use crate::parsed::{Parsed, parse};
use asn1_notation::{Argument, Module, Reference, TypeKind};
use asn1_tokens::TokenKind;
use std::alloc::{AllocError, Global};

/// A type of the language that another defines.
#[derive(Clone, Copy, Debug, PartialEq, Eq)]
pub enum AssociatedType {
    /// EXTERNAL.
    External,
    /// EMBEDDED PDV.
    EmbeddedPdv,
    /// CHARACTER STRING.
    CharacterString,
    /// INSTANCE OF.
    InstanceOf,
}

// All of them.
const ALL: &[AssociatedType] = &[
    AssociatedType::External,
    AssociatedType::EmbeddedPdv,
    AssociatedType::CharacterString,
    AssociatedType::InstanceOf,
];

// The type that X.690, 8.18, encodes.
const EXTERNAL: &[u8] = b"X690-External DEFINITIONS EXPLICIT TAGS ::= BEGIN
External ::= [UNIVERSAL 8] IMPLICIT SEQUENCE {
    direct-reference OBJECT IDENTIFIER OPTIONAL,
    indirect-reference INTEGER OPTIONAL,
    data-value-descriptor ObjectDescriptor OPTIONAL,
    encoding CHOICE {
        single-ASN1-type [0] ABSTRACT-SYNTAX.&Type,
        octet-aligned [1] IMPLICIT OCTET STRING,
        arbitrary [2] IMPLICIT BIT STRING
    }
}
END
";

// The type of X.680, 36.5. Its component data-value-descriptor, which would be [1], is in no value.
const EMBEDDED_PDV: &[u8] = b"X680-Embedded-PDV DEFINITIONS AUTOMATIC TAGS ::= BEGIN
EmbeddedPDV ::= [UNIVERSAL 11] SEQUENCE {
    identification [0] CHOICE {
        syntaxes SEQUENCE { abstract OBJECT IDENTIFIER, transfer OBJECT IDENTIFIER },
        syntax OBJECT IDENTIFIER,
        presentation-context-id INTEGER,
        context-negotiation SEQUENCE {
            presentation-context-id INTEGER,
            transfer-syntax OBJECT IDENTIFIER
        },
        transfer-syntax OBJECT IDENTIFIER,
        fixed NULL
    },
    data-value [2] OCTET STRING
}
END
";

// The type of X.680, 44.5. Its component data-value-descriptor, which would be [1], is in no value.
const CHARACTER_STRING: &[u8] = b"X680-Character-String DEFINITIONS AUTOMATIC TAGS ::= BEGIN
CharacterString ::= [UNIVERSAL 29] SEQUENCE {
    identification [0] CHOICE {
        syntaxes SEQUENCE { abstract OBJECT IDENTIFIER, transfer OBJECT IDENTIFIER },
        syntax OBJECT IDENTIFIER,
        presentation-context-id INTEGER,
        context-negotiation SEQUENCE {
            presentation-context-id INTEGER,
            transfer-syntax OBJECT IDENTIFIER
        },
        transfer-syntax OBJECT IDENTIFIER,
        fixed NULL
    },
    string-value [2] OCTET STRING
}
END
";

// The type of X.681, annex C.
const INSTANCE_OF: &[u8] = b"X681-Instance-Of DEFINITIONS EXPLICIT TAGS ::= BEGIN
InstanceOf {IDENTIFIED} ::= [UNIVERSAL 8] IMPLICIT SEQUENCE {
    type-id IDENTIFIED.&id,
    value [0] IDENTIFIED.&Type
}
END
";

impl AssociatedType {
    // The text of the module that defines it.
    fn text(self) -> &'static [u8] {
        match self {
            AssociatedType::External => EXTERNAL,
            AssociatedType::EmbeddedPdv => EMBEDDED_PDV,
            AssociatedType::CharacterString => CHARACTER_STRING,
            AssociatedType::InstanceOf => INSTANCE_OF,
        }
    }
}

/// A module that defines a type of the language, with its text.
#[derive(Drop)]
pub struct AssociatedModule {
    /// The text.
    pub text: &'static [u8],
    /// The module.
    pub modules: Vec<Module>,
}

/// The modules that define the types of the language that texts name.
pub fn associated_modules(
    alloc: Global,
    texts: &[Parsed],
) -> Result<Vec<AssociatedModule>, AllocError> {
    let mut found = Vec::new(alloc);
    for kind in ALL {
        if is_named(texts, *kind) {
            let text = kind.text();
            let Parsed { modules, .. } = parse(alloc, text)?;
            found.push(AssociatedModule { text, modules })?;
        }
    }
    Ok(found)
}

// Whether one of some texts names a type of the language.
fn is_named(texts: &[Parsed], kind: AssociatedType) -> bool {
    texts.iter().any(|text| text.associated.contains(&kind))
}

/// Reads a type of the language that another defines, if its first word is next.
pub(crate) fn associated_type(cursor: &mut Cursor<'_>) -> Result<Option<TypeKind>, Fault> {
    let name = cursor.next_span();
    let kind = if cursor.accept_word(b"EXTERNAL") {
        AssociatedType::External
    } else if sees_embedded_pdv(cursor) {
        cursor.skip();
        cursor.skip();
        AssociatedType::EmbeddedPdv
    } else if cursor.accept_word(b"CHARACTER") {
        cursor.expect_word(b"STRING", Expected::String)?;
        AssociatedType::CharacterString
    } else if cursor.accept_word(b"INSTANCE") {
        cursor.expect_word(b"OF", Expected::Of)?;
        AssociatedType::InstanceOf
    } else {
        return Ok(None);
    };
    cursor.keep_associated(kind)?;
    let reference = Reference { module: None, name };
    Ok(Some(match kind {
        AssociatedType::InstanceOf => instance(cursor, reference)?,
        _ => TypeKind::Reference(reference),
    }))
}

// Whether EMBEDDED PDV is next.
fn sees_embedded_pdv(cursor: &Cursor<'_>) -> bool {
    cursor.sees_word(b"EMBEDDED") && cursor.sees_after(1, TokenKind::ReservedWord, b"PDV")
}

// Reads the class of INSTANCE OF, which is its argument.
fn instance(cursor: &mut Cursor<'_>, reference: Reference) -> Result<TypeKind, Fault> {
    let class = class_type(cursor)?;
    let mut arguments = Vec::new(cursor.alloc());
    arguments.push(Argument::Type(class))?;
    Ok(TypeKind::Instance(reference, arguments))
}
