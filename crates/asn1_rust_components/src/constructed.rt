//! SEQUENCE and SET types, and groups of additions.
use crate::common::{
    Table, append_agreement, append_decode, append_encode, append_theorems, append_type,
};
use crate::definitions::{Component, Constructed, Tree, TypeFile, Usage};
use crate::reader::append_reader;
use crate::table::append_table;
use crate::trees::{append_trees, tree_code};
use crate::writer::{append_field_writer, append_fields};
use asn1_notation::TagClass;
use asn1_rust_code::{Draft, TagNumber, append_typed};
use std::alloc::AllocError;

/// The kind of a type of components.
#[derive(Clone, Copy, Debug, PartialEq, Eq)]
pub enum Kind {
    /// SEQUENCE.
    Sequence,
    /// SET.
    Set,
    /// Additions in version brackets.
    Group,
    /// Additions of a SET in version brackets.
    GroupOfSet,
}

/// A type of components.
#[derive(Clone, Copy)]
pub struct Subject<'a> {
    /// The kind.
    pub kind: Kind,
    /// Its file.
    pub file: &'a TypeFile,
    /// The type.
    pub body: &'a Constructed,
}

/// The trait by which a type of components is read.
pub fn reading_trait(kind: Kind) -> &'static str {
    match kind {
        Kind::Set | Kind::GroupOfSet => "DecodeSetByIndex",
        _ => "DecodeByIndex",
    }
}

/// Appends a SEQUENCE.
pub fn append_sequence(draft: &mut Draft, subject: Subject<'_>) -> Result<(), AllocError> {
    draft.use_names(&["decode_sequence_naming_errors"])?;
    append_constructed(
        draft,
        subject,
        "encoder.encode_sequence(tag, self, name)",
        "decode_sequence_naming_errors(decoder, tag, constraints)",
    )
}

/// Appends a SET.
pub fn append_set(draft: &mut Draft, subject: Subject<'_>) -> Result<(), AllocError> {
    draft.use_names(&["decode_set_by_index"])?;
    append_constructed(
        draft,
        subject,
        "encoder.encode_set(tag, self, name)",
        "decode_set_by_index(decoder, tag, constraints)",
    )
}

// Appends a SEQUENCE or a SET.
fn append_constructed(
    draft: &mut Draft,
    subject: Subject<'_>,
    encode: &str,
    decode: &str,
) -> Result<(), AllocError> {
    let name = subject.file.name.as_str();
    append_struct(draft, subject)?;
    append_reader(draft, subject)?;
    append_table(draft, subject)?;
    append_meaning(draft, subject)?;
    append_agreement(draft, name, "ConstructedType", "constructed_agrees")?;
    append_theorems(draft, subject.file)?;
    append_encode(draft, name, "_constraints", encode)?;
    append_field_writer(draft, subject)?;
    append_decode(draft, name, "constraints", decode)
}

/// Appends a group of additions.
pub fn append_group(
    draft: &mut Draft,
    subject: Subject<'_>,
    trees: &[Tree],
) -> Result<(), AllocError> {
    append_struct(draft, subject)?;
    let mut items = Vec::new(draft.alloc());
    for tree in trees {
        items.push(tree_code(draft, tree)?)?;
    }
    draft.line(
        0,
        "/// The trees of the components, which are those of the group.",
    )?;
    append_trees(draft, subject.file, items.as_slice())?;
    append_reader(draft, subject)?;
    append_table(draft, subject)?;
    if subject.kind == Kind::GroupOfSet {
        return append_fields(draft, subject);
    }
    append_field_writer(draft, subject)?;
    draft.use_names(&[
        "AsnType",
        "DecodeError",
        "DecodeFields",
        "decode_fields_by_index",
    ])?;
    let name = subject.file.name.as_str();
    draft.text(format!(in draft.alloc();
        "impl DecodeFields for {name} {{
    fn decode_fields<D: Decoder>(decoder: &mut D) -> Result<Self, DecodeError> {{
        decode_fields_by_index(decoder)
    }}
}}
"
    )?)
}

/// Appends the struct.
pub fn append_struct(draft: &mut Draft, subject: Subject<'_>) -> Result<(), AllocError> {
    let summary = subject.file.summary.as_str();
    let name = subject.file.name.as_str();
    let end = if subject.body.components.is_empty() {
        "}\n\n"
    } else {
        "\n"
    };
    draft.text(format!(in draft.alloc();
        "\
/// {summary}
#[derive(PartialEq, Eq, Debug, Drop)]
pub struct {name} {{{end}"
    )?)?;
    if subject.body.components.is_empty() {
        return Ok(());
    }
    for component in &subject.body.components {
        append_field(draft, component)?;
    }
    draft.line(0, "}")?;
    draft.blank()
}

// Appends a field of the struct.
fn append_field(draft: &mut Draft, component: &Component) -> Result<(), AllocError> {
    let alloc = draft.alloc();
    draft.use_type(&component.definition)?;
    let notation = component.notation.as_str();
    let comment = format!(in alloc; "/// {notation}")?;
    draft.line(1, comment.as_str())?;
    let field = component.field.as_str();
    let front = format!(in alloc; "pub {field}: ")?;
    let text = component.definition.text.as_str();
    if has_option(component) {
        let text = format!(in alloc; "Option<{text}>")?;
        append_typed(draft, 1, front.as_str(), text.as_str(), ",")
    } else {
        append_typed(draft, 1, front.as_str(), text, ",")
    }
}

// Whether the field of a component is an option.
fn has_option(component: &Component) -> bool {
    match component.usage {
        Usage::Optional => true,
        Usage::Group(_) | Usage::GroupOfSet(_) => true,
        _ => false,
    }
}

// Appends `AsnType` of a SEQUENCE or a SET.
fn append_meaning(draft: &mut Draft, subject: Subject<'_>) -> Result<(), AllocError> {
    let alloc = draft.alloc();
    let name = subject.file.name.as_str();
    let asn1_name = subject.file.asn1_name.as_str();
    let meaning = match subject.body.tag {
        Some(tag) => {
            draft.use_words(&["constructed_type_under"])?;
            let tag = draft.tag_term(tag)?;
            format!(in alloc;
                "constructed_type_under ⟦<{name} as FieldTable>⟧.components {tag} (codes \"{asn1_name}\")"
            )?
        }
        None => {
            draft.use_words(&["constructed_type"])?;
            format!(in alloc;
                "constructed_type (codes \"{asn1_name}\") ⟦<{name} as FieldTable>⟧.components"
            )?
        }
    };
    append_meaning_of(draft, subject, meaning.as_str())
}

/// Appends `AsnType` of a SEQUENCE or a SET with this meaning.
pub fn append_meaning_of(
    draft: &mut Draft,
    subject: Subject<'_>,
    meaning: &str,
) -> Result<(), AllocError> {
    let alloc = draft.alloc();
    let asn1_name = subject.file.asn1_name.as_str();
    let tag = draft.tag_code(tag_of(subject))?;
    let identifier = format!(in alloc; "Identifier(Some(\"{asn1_name}\"))")?;
    let arguments = [tag, identifier];
    let table = Table {
        meaning,
        call: "TypeTable::new",
        arguments: arguments.as_slice(),
    };
    append_type(draft, subject.file.name.as_str(), &table)
}

// The tag of a type.
fn tag_of(subject: Subject<'_>) -> TagNumber {
    match subject.body.tag {
        Some(tag) => tag,
        None => TagNumber {
            class: TagClass::Universal,
            number: if subject.kind == Kind::Set { 17 } else { 16 },
        },
    }
}
