//! Strings with constraints.
use asn1_rust_code::{Draft, ListStyle};
use asn1_rust_components::{
    RestrictedString, Sizes, TypeFile, append_decode, append_encode, append_table_head,
    append_table_tail, append_theorems, owned,
};
use std::alloc::AllocError;

/// A string with its file.
#[derive(Clone, Copy)]
pub(crate) struct StringSubject<'a> {
    /// The file.
    pub(crate) file: &'a TypeFile,
    /// The type.
    pub(crate) body: &'a RestrictedString,
}

/// Appends a string with constraints.
pub(crate) fn append_restricted_string(
    draft: &mut Draft,
    subject: StringSubject<'_>,
) -> Result<(), AllocError> {
    append_struct(draft, subject)?;
    append_characters(draft, subject)?;
    append_meaning(draft, subject)?;
    append_table(draft, subject)?;
    append_theorems(draft, subject.file)?;
    append_writer(draft, subject)?;
    append_reader(draft, subject)
}

// Appends the struct.
fn append_struct(draft: &mut Draft, subject: StringSubject<'_>) -> Result<(), AllocError> {
    draft.use_type(&subject.body.content)?;
    let summary = subject.file.summary.as_str();
    let name = subject.file.name.as_str();
    let content = subject.body.content.text.as_str();
    draft.text(format!(in draft.alloc();
        "\
/// {summary}
#[derive(PartialEq, Eq, Debug, Drop)]
pub struct {name}(pub {content});

"
    )?)
}

// Appends the constant with the characters, if they are limited.
fn append_characters(draft: &mut Draft, subject: StringSubject<'_>) -> Result<(), AllocError> {
    if subject.body.characters.is_empty() {
        return Ok(());
    }
    let alloc = draft.alloc();
    let crate_name = subject.file.crate_name.as_str();
    let module = subject.file.module.as_str();
    let line = format!(in alloc;
        "ghost use Rattle.{crate_name}.specs.declared.{module}.TheConstants.{{CHARACTERS}};"
    )?;
    draft.use_ghost(line.as_str())?;
    let name = subject.file.name.as_str();
    draft.text(format!(in alloc; "// The codes of the characters in a `{name}`.\n")?)?;
    let mut codes = Vec::new(alloc);
    for code in &subject.body.characters {
        codes.push(format!(in alloc; "{code}")?)?;
    }
    draft.list(
        0,
        "const CHARACTERS: &[u32] = &[",
        codes.as_slice(),
        "];",
        ListStyle::Elements,
    )?;
    draft.blank()
}

// Appends the head of `AsnType`.
fn append_meaning(draft: &mut Draft, subject: StringSubject<'_>) -> Result<(), AllocError> {
    draft.use_words(&["restricted_type"])?;
    let content = subject.body.content.text.as_str();
    let asn1_name = subject.file.asn1_name.as_str();
    let tag = draft.tag_term(subject.body.tag)?;
    let constraints = constraints_term(draft, subject.body)?;
    let meaning = format!(in draft.alloc();
        "restricted_type (λ string. string.0) ⟦<{content} as AsnType>⟧.meaning {tag} ({constraints}) (codes \"{asn1_name}\")"
    )?;
    append_table_head(draft, subject.file.name.as_str(), meaning.as_str())
}

// The constraints, as a clause has them.
fn constraints_term(draft: &mut Draft, body: &RestrictedString) -> Result<String, AllocError> {
    match (body.sizes, body.characters.is_empty()) {
        (Some(sizes), true) => sizes_term(draft, sizes),
        (Some(sizes), false) => {
            draft.use_words(&["with_characters"])?;
            let sizes = sizes_term(draft, sizes)?;
            let sizes = sizes.as_str();
            format!(in draft.alloc(); "with_characters CHARACTERS.now ({sizes})")
        }
        (None, _) => {
            draft.use_words(&["characters_of"])?;
            owned(draft, "characters_of CHARACTERS.now")
        }
    }
}

// The constraint of sizes, as a clause has it.
fn sizes_term(draft: &mut Draft, sizes: Sizes) -> Result<String, AllocError> {
    let Sizes { least, greatest } = sizes;
    if greatest == Some(least) {
        draft.use_words(&["size_of"])?;
        return format!(in draft.alloc(); "size_of {least}");
    }
    draft.use_words(&["Range", "sizes_of"])?;
    draft.use_signs(&["Some"])?;
    match greatest {
        Some(greatest) => {
            format!(in draft.alloc(); "sizes_of (Range (Some {least}) (Some {greatest}))")
        }
        None => {
            draft.use_signs(&["None"])?;
            format!(in draft.alloc(); "sizes_of (Range (Some {least}) None)")
        }
    }
}

// Appends the code of the table, and the rest of `AsnType`.
fn append_table(draft: &mut Draft, subject: StringSubject<'_>) -> Result<(), AllocError> {
    append_constraints(draft, subject.body)?;
    let tag = draft.tag_code(subject.body.tag)?;
    let asn1_name = subject.file.asn1_name.as_str();
    let identifier = format!(in draft.alloc(); "Identifier(Some(\"{asn1_name}\"))")?;
    let arguments = [tag.as_str(), identifier.as_str()];
    draft.call(2, "let table = TypeTable::new(", &arguments, ");")?;
    draft.line(2, "table.with_constraints(constraints)")?;
    append_table_tail(draft)
}

// Appends the lines that make the constraints.
fn append_constraints(draft: &mut Draft, body: &RestrictedString) -> Result<(), AllocError> {
    draft.use_names(&["ConstraintTable"])?;
    let start = match body.sizes {
        Some(sizes) => {
            append_sizes(draft, sizes)?;
            "ConstraintTable::from(sizes)"
        }
        None => "ConstraintTable::NONE",
    };
    let alphabet = if body.characters.is_empty() {
        ""
    } else {
        ".with_permitted_alphabet(CHARACTERS)"
    };
    let line = format!(in draft.alloc(); "let constraints = {start}{alphabet};")?;
    draft.line(2, line.as_str())
}

// Appends the line that makes the sizes.
fn append_sizes(draft: &mut Draft, sizes: Sizes) -> Result<(), AllocError> {
    draft.use_names(&["Size"])?;
    let code = sizes_code(draft, sizes)?;
    let code = code.as_str();
    let line = format!(in draft.alloc(); "let sizes = {code};")?;
    draft.line(2, line.as_str())
}

// The code of the sizes.
fn sizes_code(draft: &mut Draft, sizes: Sizes) -> Result<String, AllocError> {
    let Sizes { least, greatest } = sizes;
    if greatest == Some(least) {
        return format!(in draft.alloc(); "Size::fixed({least})");
    }
    draft.use_names(&["Bounded"])?;
    match greatest {
        Some(greatest) => {
            format!(in draft.alloc(); "Size::new(Bounded::const_new({least}, {greatest}))")
        }
        None => format!(in draft.alloc(); "Size::new(Bounded::start_from({least}))"),
    }
}

// Appends the writer.
fn append_writer(draft: &mut Draft, subject: StringSubject<'_>) -> Result<(), AllocError> {
    append_encode(
        draft,
        subject.file.name.as_str(),
        "constraints",
        "let name = name.or(Self::identifier());
        self.0
            .encode_with_tag_and_constraints(encoder, tag, constraints, name)",
    )
}

// Appends the reader.
fn append_reader(draft: &mut Draft, subject: StringSubject<'_>) -> Result<(), AllocError> {
    let name = subject.file.name.as_str();
    let content = subject.body.content.text.as_str();
    let call = format!(in draft.alloc();
        "let string = {content}::decode_with_tag_and_constraints(decoder, tag, constraints)?;
        Ok({name}(string))"
    )?;
    append_decode(draft, name, "constraints", call.as_str())
}
