//! Classes, as their objects are read.
use asn1_grammar::{
    FieldForm, FieldNotation, Held, ObjectNotation, SyntaxError, SyntaxStep, parse_default,
    parse_syntax,
};
use asn1_modules::{ClassIndex, FoundClass, is_known_class};
use asn1_notation::{ClassField, FieldKind, FieldUsage, Module, Span, Type, TypeKind};
use std::alloc::{AllocError, Global};

/// The module that a part of a tree is in.
#[derive(Clone, Copy)]
pub struct Home<'a> {
    /// The text.
    pub text: &'a [u8],
    /// The index of the text.
    pub source: usize,
    /// The module.
    pub module: &'a Module,
}

impl<'a> Home<'a> {
    /// The name of the module.
    pub fn name(self) -> &'a [u8] {
        self.module.name.octets(self.text)
    }
}

/// A class with its fields.
#[derive(Drop)]
pub struct ObjectClass<'a> {
    /// The name.
    pub name: &'a [u8],
    /// The module that defines it. One of the language has none.
    pub home: Option<Home<'a>>,
    /// The fields.
    pub fields: Vec<ObjectField<'a>>,
    /// The fields, as objects are written with them.
    pub(crate) notations: Vec<FieldNotation<'a>>,
    /// The parts behind WITH SYNTAX.
    pub(crate) syntax: Option<Vec<SyntaxStep<'a>>>,
}

/// A field of a class.
#[derive(Drop)]
pub struct ObjectField<'a> {
    /// The name, without its ampersand.
    pub name: &'a [u8],
    /// What it holds.
    pub contents: FieldContents<'a>,
    /// Whether no two objects of a set have the same.
    pub is_unique: bool,
    /// Whether an object may lack it.
    pub usage: FieldUsage,
    /// The DEFAULT, if it was read.
    pub default: Option<Held>,
}

/// The contents of a field.
#[derive(Clone, Copy)]
pub enum FieldContents<'a> {
    /// A type.
    Type,
    /// A value of this type of the class's module.
    Value(&'a Type),
    /// A value of OBJECT IDENTIFIER, in a class of the language.
    ObjectIdentifier,
    /// Values, an object or objects, or what another field tells.
    Other,
}

impl<'a> ObjectClass<'a> {
    /// The notation of its objects.
    pub(crate) fn notation(&self) -> ObjectNotation<'_, 'a> {
        ObjectNotation {
            fields: self.notations.as_slice(),
            syntax: match &self.syntax {
                Some(steps) => Some(steps.as_slice()),
                None => None,
            },
        }
    }
}

/// A class that a module defines, with its fields. Braces behind WITH SYNTAX that are not understood are answered beside it.
pub(crate) fn listed_class<'a>(
    alloc: Global,
    index: &ClassIndex<'a>,
    found: FoundClass<'a>,
    list: &'a [ClassField],
    syntax: Option<Span>,
) -> Result<(ObjectClass<'a>, Option<SyntaxError>), AllocError> {
    let home = Home {
        text: found.text,
        source: found.source,
        module: found.module,
    };
    let mut fields = Vec::new(alloc);
    for field in list {
        fields.push(listed_field(alloc, index, home, field)?)?;
    }
    let (syntax, error) = match syntax {
        None => (None, None),
        Some(braces) => match parse_syntax(alloc, home.text, braces)? {
            Ok(steps) => (Some(steps), None),
            Err(error) => (Some(Vec::new(alloc)), Some(error)),
        },
    };
    let class = ObjectClass {
        name: found.place.octets(home.text),
        home: Some(home),
        notations: notations(alloc, fields.as_slice())?,
        fields,
        syntax,
    };
    Ok((class, error))
}

// A field of a class.
fn listed_field<'a>(
    alloc: Global,
    index: &ClassIndex<'a>,
    home: Home<'a>,
    field: &'a ClassField,
) -> Result<ObjectField<'a>, AllocError> {
    let contents = contents(index, home, field);
    let default = match field.usage {
        FieldUsage::Default(part) => {
            parse_default(alloc, home.text, part, form_of(contents))?.ok()
        }
        _ => None,
    };
    Ok(ObjectField {
        name: field.name.octets(home.text),
        contents,
        is_unique: field.is_unique,
        usage: field.usage,
        default,
    })
}

// The form of a field with these contents.
fn form_of(contents: FieldContents<'_>) -> FieldForm {
    match contents {
        FieldContents::Type => FieldForm::Type,
        FieldContents::Other => FieldForm::Other,
        _ => FieldForm::Value,
    }
}

// The contents of a field. The case of its name tells a value from values.
fn contents<'a>(
    index: &ClassIndex<'a>,
    home: Home<'a>,
    field: &'a ClassField,
) -> FieldContents<'a> {
    let is_one = match field.name.octets(home.text) {
        [first, ..] => first.is_ascii_lowercase(),
        [] => false,
    };
    match &field.kind {
        FieldKind::Type => FieldContents::Type,
        FieldKind::Fixed(definition) if is_one && !is_class(index, home, definition) => {
            FieldContents::Value(definition)
        }
        _ => FieldContents::Other,
    }
}

// Whether what a field holds is named by a class.
fn is_class(index: &ClassIndex<'_>, home: Home<'_>, definition: &Type) -> bool {
    match &definition.kind {
        TypeKind::Reference(reference) => {
            let name = reference.name.octets(home.text);
            let qualifier = match reference.module {
                Some(module) => Some(module.octets(home.text)),
                None => None,
            };
            is_known_class(name) || index.find(home.name(), qualifier, name).is_some()
        }
        _ => false,
    }
}

// The fields, as objects are written with them.
fn notations<'a>(
    alloc: Global,
    fields: &[ObjectField<'a>],
) -> Result<Vec<FieldNotation<'a>>, AllocError> {
    let mut notations = Vec::new(alloc);
    for field in fields {
        notations.push(FieldNotation {
            name: field.name,
            form: form_of(field.contents),
        })?;
    }
    Ok(notations)
}

/// A class of the language (X.681, annexes A and B).
pub(crate) fn known_class(alloc: Global, name: &[u8]) -> Result<ObjectClass<'static>, AllocError> {
    let mut fields = Vec::new(alloc);
    fields.push(ObjectField {
        name: b"id",
        contents: FieldContents::ObjectIdentifier,
        is_unique: true,
        usage: FieldUsage::Required,
        default: None,
    })?;
    fields.push(ObjectField {
        name: b"Type",
        contents: FieldContents::Type,
        is_unique: false,
        usage: FieldUsage::Required,
        default: None,
    })?;
    let mut steps = Vec::new(alloc);
    steps.extend_from_slice(IDENTIFIED)?;
    let is_syntax = matches!(name, b"ABSTRACT-SYNTAX");
    if is_syntax {
        fields.push(ObjectField {
            name: b"property",
            contents: FieldContents::Other,
            is_unique: false,
            usage: FieldUsage::Optional,
            default: None,
        })?;
        steps.extend_from_slice(WITH_PROPERTY)?;
    }
    Ok(ObjectClass {
        name: if is_syntax {
            b"ABSTRACT-SYNTAX"
        } else {
            b"TYPE-IDENTIFIER"
        },
        home: None,
        notations: notations(alloc, fields.as_slice())?,
        fields,
        syntax: Some(steps),
    })
}

// `&Type IDENTIFIED BY &id`
const IDENTIFIED: &[SyntaxStep<'static>] = &[
    SyntaxStep::Field(b"Type"),
    SyntaxStep::Word(b"IDENTIFIED"),
    SyntaxStep::Word(b"BY"),
    SyntaxStep::Field(b"id"),
];

// `[HAS PROPERTY &property]`
const WITH_PROPERTY: &[SyntaxStep<'static>] = &[
    SyntaxStep::Open(8),
    SyntaxStep::Word(b"HAS"),
    SyntaxStep::Word(b"PROPERTY"),
    SyntaxStep::Field(b"property"),
    SyntaxStep::Close,
];
