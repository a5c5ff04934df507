//! Types as code names them.
use crate::integers::{built_in, has_limits, range_of};
use crate::parameters::name_in_circle;
use crate::plan::Plan;
use asn1_names::Place;
use asn1_notation::{ContentsKind, StringKind};
use asn1_resolved::{Constraint, ConstraintKind, Tag, Type, TypeKind};
use asn1_rust_code::{TagNumber, Tagging, TypeName};
use std::alloc::{AllocError, Global};

/// Where a type is used: what a type without a name is called there.
#[derive(Clone, Copy)]
pub(crate) struct Owner<'a> {
    /// The name in Rust for a type without a name.
    pub(crate) name: &'a str,
    /// The name in ASN.1 of the component, the alternative or the definition.
    pub(crate) asn1_name: &'a str,
    /// What the type is.
    pub(crate) summary: &'a str,
    /// The definition in ASN.1.
    pub(crate) notation: &'a str,
}

/// The texts for a part of a type.
#[derive(Drop)]
pub(crate) struct PartTexts {
    /// The name of the part in ASN.1.
    pub(crate) name: String,
    /// Its definition in ASN.1.
    pub(crate) notation: String,
    /// The name in Rust of its type, if that has no name.
    pub(crate) type_name: String,
    /// What its type is.
    pub(crate) summary: String,
}

impl PartTexts {
    /// The names for the type of the part.
    pub(crate) fn owner(&self) -> Owner<'_> {
        Owner {
            name: self.type_name.as_str(),
            asn1_name: self.name.as_str(),
            summary: self.summary.as_str(),
            notation: self.notation.as_str(),
        }
    }
}

/// The texts for a part of the type of this name.
pub(crate) fn part_texts(
    plan: &Plan<'_, '_>,
    owner_name: &str,
    part: &str,
    notation: &str,
) -> Result<PartTexts, AllocError> {
    let alloc = plan.alloc;
    let camel = plan.camel(part.as_bytes())?;
    let camel = camel.as_str();
    Ok(PartTexts {
        name: plan.text(part)?,
        notation: plan.text(notation)?,
        type_name: format!(in alloc; "{owner_name}{camel}")?,
        summary: format!(in alloc; "The type of `{part}` in `{owner_name}`.")?,
    })
}

/// The name of a type that needs no file.
pub(crate) fn plain_name(
    plan: &mut Plan<'_, '_>,
    definition: &Type<'_>,
) -> Result<TypeName, AllocError> {
    match &definition.kind {
        TypeKind::Boolean => plan.plain_type("bool"),
        TypeKind::Integer(_) => plan.integer_type(range_of(definition.constraints.as_slice())),
        TypeKind::BitString(bits) if bits.is_empty() => plan.library_type("BitVec"),
        TypeKind::BitString(_) => plan.library_type("NamedBitString"),
        TypeKind::OctetString => plan.library_type("OctetString"),
        TypeKind::ObjectIdentifier => plan.library_type("ObjectIdentifier"),
        TypeKind::String(kind) => string_type(plan, *kind, definition.place),
        TypeKind::Contents(kind) => contents_type(plan, *kind, definition.place),
        TypeKind::Any => plan.library_type("Any"),
        TypeKind::Reference(index) => match name_in_circle(plan, *index)? {
            Some(name) => Ok(name),
            None => plan.referred_type(*index),
        },
        _ => plan.plain_type("()"),
    }
}

/// A type with one argument.
pub(crate) fn wrapped(
    plan: &Plan<'_, '_>,
    former: &str,
    argument: TypeName,
) -> Result<TypeName, AllocError> {
    let TypeName { text, imports, .. } = argument;
    let text = text.as_str();
    Ok(TypeName {
        text: format!(in plan.alloc; "{former}<{text}>")?,
        imports,
        is_explicit: false,
    })
}

/// A type under a tag.
pub(crate) fn under_tag(
    plan: &mut Plan<'_, '_>,
    tag: Tag,
    inner: TypeName,
) -> Result<TypeName, AllocError> {
    let marker = plan.marker_type(tag_number(tag))?;
    let former = if tag.is_explicit {
        "Explicit"
    } else {
        "Implicit"
    };
    let mut name = plan.library_type(former)?;
    push_imports(plan.alloc, &mut name, &marker)?;
    push_imports(plan.alloc, &mut name, &inner)?;
    let argument = inner.text.as_str();
    let marker_name = marker.text.as_str();
    name.text = format!(in plan.alloc; "{former}<{marker_name}, {argument}>")?;
    name.is_explicit = tag.is_explicit;
    Ok(name)
}

/// Adds the imports of one type to those of another.
pub(crate) fn push_imports(
    alloc: Global,
    name: &mut TypeName,
    other: &TypeName,
) -> Result<(), AllocError> {
    for import in &other.imports {
        let import = import.copy(alloc)?;
        name.imports.push(import)?;
    }
    Ok(())
}

/// A SET OF elements of a type.
pub(crate) fn set_of(plan: &Plan<'_, '_>, element: TypeName) -> Result<TypeName, AllocError> {
    let mut name = wrapped(plan, "SetOf", element)?;
    let set_of = plan.library_type("SetOf")?;
    push_imports(plan.alloc, &mut name, &set_of)?;
    Ok(name)
}

/// The tagging that a tag makes.
pub(crate) fn tagging_of(tag: Tag) -> Tagging {
    if tag.is_explicit {
        Tagging::Explicit(tag_number(tag))
    } else {
        Tagging::Implicit(tag_number(tag))
    }
}

/// A tag, as code has it.
pub(crate) fn tag_number(tag: Tag) -> TagNumber {
    TagNumber {
        class: tag.class,
        number: tag.number,
    }
}

// The type of a string. The type of a UniversalString is named by its path, as those of contents are.
fn string_type(
    plan: &mut Plan<'_, '_>,
    kind: StringKind,
    place: Place,
) -> Result<TypeName, AllocError> {
    let name = match kind {
        StringKind::Utf8 => "Utf8String",
        StringKind::Numeric => "NumericString",
        StringKind::Printable => "PrintableString",
        StringKind::Teletex => "TeletexString",
        StringKind::Videotex => {
            plan.error(place, "VideotexString is not supported")?;
            "TeletexString"
        }
        StringKind::Ia5 => "Ia5String",
        StringKind::Graphic => "GraphicString",
        StringKind::Visible => "VisibleString",
        StringKind::General => "GeneralString",
        StringKind::Universal => return plan.plain_type("asn1_contents::UniversalString"),
        StringKind::Bmp => "BmpString",
        StringKind::UtcTime => "UtcTime",
        StringKind::GeneralizedTime => "GeneralizedTime",
        StringKind::ObjectDescriptor => "ObjectDescriptor",
    };
    plan.library_type(name)
}

// The type whose values are kept as their contents octets. It is named by its path, so that a definition may have the same name.
fn contents_type(
    plan: &mut Plan<'_, '_>,
    kind: ContentsKind,
    place: Place,
) -> Result<TypeName, AllocError> {
    match contents_name(kind) {
        Some(path) => plan.plain_type(path),
        None => {
            let word = contents_word(kind);
            let text = format!(in plan.alloc; "{word} is not supported")?;
            plan.error(place, text.as_str())?;
            plan.plain_type("()")
        }
    }
}

// The type in Rust, if there is one.
fn contents_name(kind: ContentsKind) -> Option<&'static str> {
    match kind {
        ContentsKind::RelativeOid => Some("asn1_contents::RelativeOid"),
        ContentsKind::Date => Some("asn1_contents::Date"),
        ContentsKind::TimeOfDay => Some("asn1_contents::TimeOfDay"),
        ContentsKind::DateTime => Some("asn1_contents::DateTime"),
        ContentsKind::Real => Some("asn1_contents::Real"),
        ContentsKind::Duration => None,
    }
}

// The word of ASN.1.
fn contents_word(kind: ContentsKind) -> &'static str {
    match kind {
        ContentsKind::Real => "REAL",
        ContentsKind::RelativeOid => "RELATIVE-OID",
        ContentsKind::Date => "DATE",
        ContentsKind::TimeOfDay => "TIME-OF-DAY",
        ContentsKind::DateTime => "DATE-TIME",
        ContentsKind::Duration => "DURATION",
    }
}

/// Warns of each constraint that the type in Rust does not have.
pub(crate) fn warn_of_constraints(
    plan: &mut Plan<'_, '_>,
    definition: &Type<'_>,
) -> Result<(), AllocError> {
    let is_carried = has_range(definition);
    for constraint in &definition.constraints {
        warn_of_constraint(plan, constraint, is_carried)?;
    }
    Ok(())
}

/// Warns of the named numbers or bits of a part whose type has no name in ASN.1: constants are made for a definition alone.
#[cycle(names)]
pub(crate) fn warn_of_names(
    plan: &mut Plan<'_, '_>,
    definition: &Type<'_>,
) -> Result<(), AllocError> {
    let is_named = match &definition.kind {
        TypeKind::Tagged(_, inner) => return warn_of_names(plan, inner),
        TypeKind::Integer(numbers) => !numbers.is_empty(),
        TypeKind::BitString(bits) => !bits.is_empty(),
        _ => false,
    };
    if is_named {
        plan.warn(
            definition.place,
            "the names in this type are no constants in Rust: they are for a type that has a name",
        )?;
    }
    Ok(())
}

// Whether the type in Rust has the range of an INTEGER.
fn has_range(definition: &Type<'_>) -> bool {
    match &definition.kind {
        TypeKind::Integer(_) => {
            let range = range_of(definition.constraints.as_slice());
            built_in(range).is_some() || has_limits(range).is_some()
        }
        _ => false,
    }
}

fn warn_of_constraint(
    plan: &mut Plan<'_, '_>,
    constraint: &Constraint,
    is_carried: bool,
) -> Result<(), AllocError> {
    let text = match &constraint.kind {
        ConstraintKind::Value(_) => {
            if is_carried || constraint.is_extensible {
                return Ok(());
            }
            "the values of this type are not limited in Rust"
        }
        ConstraintKind::Size(_) => "the size of this type is not limited in Rust",
        ConstraintKind::Alphabet(_) => "the characters of this type are not limited in Rust",
        ConstraintKind::Other => "this constraint is not in Rust",
    };
    plan.warn(constraint.place, text)
}
