//! The parts that types of each kind have.
use crate::definitions::{LawCall, PARAMETER, SpellingLaw, TypeFile};
use asn1_rust_code::{Draft, ListStyle, TypeName, append_typed};
use std::alloc::AllocError;

/// What a type is to records: its meaning, and the code of its table.
#[derive(Clone, Copy)]
pub struct Table<'a> {
    /// The meaning, as a clause has it.
    pub meaning: &'a str,
    /// The call that makes the table.
    pub call: &'a str,
    /// Its arguments.
    pub arguments: &'a [String],
}

/// The first line of the `impl` of a trait for a type; for each `T` with this bound, if the type has the parameter.
pub fn impl_line(
    draft: &Draft,
    trait_name: &str,
    name: &str,
    bound: &str,
) -> Result<String, AllocError> {
    if name.ends_with(PARAMETER) {
        format!(in draft.alloc(); "impl<T: {bound}> {trait_name} for {name} {{")
    } else {
        format!(in draft.alloc(); "impl {trait_name} for {name} {{")
    }
}

/// Appends `AsnType`.
pub fn append_type(draft: &mut Draft, name: &str, table: &Table<'_>) -> Result<(), AllocError> {
    let Table { meaning, call, .. } = *table;
    append_table_head(draft, name, meaning)?;
    let opening = format!(in draft.alloc(); "{call}(")?;
    draft.list(
        2,
        opening.as_str(),
        table.arguments,
        ")",
        ListStyle::Arguments,
    )?;
    append_table_tail(draft)
}

/// Appends the first lines of `AsnType`: its meaning, and the signature of its table.
pub fn append_table_head(draft: &mut Draft, name: &str, meaning: &str) -> Result<(), AllocError> {
    draft.use_names(&["AsnType", "Identifier", "TypeTable"])?;
    draft.use_signs(&["codes"])?;
    let head = impl_line(draft, "AsnType", name, "AsnType")?;
    draft.line(0, head.as_str())?;
    draft.text(format!(in draft.alloc();
        "    ghost meaning = {{ {meaning} }};

    fn table() -> TypeTable {{
"
    )?)
}

/// Appends the lines of `AsnType` behind the code of its table.
pub fn append_table_tail(draft: &mut Draft) -> Result<(), AllocError> {
    draft.text(format!(in draft.alloc();
        "    }}

    fn is_present(&self) -> bool {{
        true
    }}
}}

"
    )?)
}

/// Appends the law that a type agrees with its list.
pub fn append_agreement(
    draft: &mut Draft,
    name: &str,
    law: &'static str,
    word: &'static str,
) -> Result<(), AllocError> {
    draft.use_names(&[law])?;
    draft.use_words(&[word])?;
    let head = impl_line(draft, law, name, "AsnType")?;
    draft.line(0, head.as_str())?;
    draft.text(format!(in draft.alloc();
        "    ghost agrees = {{ {word} }};
}}

"
    )?)
}

/// Appends the theorems that a type is well tagged, and that it has one spelling, if it has the law.
pub fn append_theorems(draft: &mut Draft, file: &TypeFile) -> Result<(), AllocError> {
    append_tagging(draft, file)?;
    match &file.spelling {
        Some(law) => append_spelling(draft, file, law),
        None => Ok(()),
    }
}

// Appends the theorem that a type is well tagged.
fn append_tagging(draft: &mut Draft, file: &TypeFile) -> Result<(), AllocError> {
    draft.use_words(&["IsWellTagged"])?;
    let name = file.name.as_str();
    let module = file.module.as_str();
    let article = article(name);
    let lemmas = lemmas_line(draft, file)?;
    let lemmas = lemmas.as_str();
    draft.text(format!(in draft.alloc();
        "\
/// {article} `{name}` can be inside other types.
{lemmas}pub fn {module}_is_well_tagged()
    ensures {{ IsWellTagged ⟦<{name} as AsnType>⟧.meaning }}
{{}}

"
    )?)
}

// Appends the theorem that a type has one spelling.
fn append_spelling(
    draft: &mut Draft,
    file: &TypeFile,
    law: &SpellingLaw,
) -> Result<(), AllocError> {
    draft.use_ghost("ghost use Rattle.asn1_model.specs.DistinctSets.{SetsAreDistinct};")?;
    draft.use_ghost("ghost use Rattle.asn1_model.specs.WrittenAlike.{AreWrittenAlike};")?;
    let name = file.name.as_str();
    let module = file.module.as_str();
    let opening = if law.premises.is_empty() { "{}" } else { "{" };
    draft.text(format!(in draft.alloc();
        "\
/// Equal values are written alike, and in each value the components of a SET have distinct tags. With `{module}_is_well_tagged`
/// it follows that the DER of a value is its only spelling (`well_tagged_types_have_one_spelling` of `asn1_der`).
pub fn {module}_has_one_spelling()
    ensures alike {{ AreWrittenAlike ⟦<{name} as AsnType>⟧.meaning
        ⟦<{name} as PartialEq>⟧.eq }}
    ensures distinct {{ SetsAreDistinct ⟦<{name} as AsnType>⟧.meaning }}
{opening}
"
    )?)?;
    if !law.premises.is_empty() {
        for premise in &law.premises {
            append_premise(draft, premise)?;
        }
        draft.line(0, "}")?;
    }
    draft.blank()
}

// Appends the call of a law.
fn append_premise(draft: &mut Draft, premise: &LawCall) -> Result<(), AllocError> {
    for import in &premise.imports {
        draft.use_import(import)?;
    }
    let function = premise.function.as_str();
    match &premise.argument {
        Some(argument) => {
            let argument = argument.as_str();
            let call = format!(in draft.alloc(); "{function}::<{argument}>")?;
            append_typed(draft, 1, "", call.as_str(), "();")
        }
        None => {
            let call = format!(in draft.alloc(); "{function}();")?;
            draft.line(1, call.as_str())
        }
    }
}

// The line that names the lemmas on the types in a type that hold themselves; no text if there are none.
fn lemmas_line(draft: &Draft, file: &TypeFile) -> Result<String, AllocError> {
    let alloc = draft.alloc();
    if file.knots.is_empty() {
        return Ok(String::new(alloc));
    }
    let mut lemmas = String::from_str(alloc, "asn1_schema::proofs::Trees::tree_shapes")?;
    for knot in &file.knots {
        lemmas.push_str(", crate::proofs::")?;
        lemmas.push_str(knot.as_str())?;
        lemmas.push_str("Tags::knot_can")?;
    }
    let lemmas = lemmas.as_str();
    format!(in alloc; "#[tactic(auto, using({lemmas}))]\n")
}

/// Appends `Encode`, by one call.
pub fn append_encode(
    draft: &mut Draft,
    name: &str,
    constraints: &str,
    call: &str,
) -> Result<(), AllocError> {
    draft.use_names(&[
        "Constraints",
        "Encode",
        "EncodeError",
        "Encoder",
        "Identifier",
        "Tag",
    ])?;
    let head = impl_line(draft, "Encode", name, "Encode")?;
    draft.line(0, head.as_str())?;
    draft.text(format!(in draft.alloc();
        "    fn encode_with_tag_and_constraints<E: Encoder>(
        &self,
        encoder: &mut E,
        tag: Tag,
        {constraints}: &Constraints<'_>,
        name: Identifier,
    ) -> Result<(), EncodeError> {{
        {call}
    }}
}}

"
    )?)
}

/// Appends `Decode`, by one call.
pub fn append_decode(
    draft: &mut Draft,
    name: &str,
    constraints: &str,
    call: &str,
) -> Result<(), AllocError> {
    draft.use_names(&["Constraints", "Decode", "DecodeError", "Decoder", "Tag"])?;
    let head = impl_line(draft, "Decode", name, "Decode")?;
    draft.line(0, head.as_str())?;
    draft.text(format!(in draft.alloc();
        "    fn decode_with_tag_and_constraints<D: Decoder>(
        decoder: &mut D,
        tag: Tag,
        {constraints}: &Constraints<'_>,
    ) -> Result<Self, DecodeError> {{
        {call}
    }}
}}
"
    )?)
}

// The article in front of a name.
fn article(name: &str) -> &'static str {
    match name.as_bytes() {
        [b'A' | b'E' | b'I' | b'O', ..] => "An",
        _ => "A",
    }
}

/// A text of its own.
pub fn owned(draft: &Draft, text: &str) -> Result<String, AllocError> {
    String::from_str(draft.alloc(), text)
}

/// The code of the name of a type: a call, or the empty name of a type that has none.
pub fn identifier_code(draft: &mut Draft, definition: &TypeName) -> Result<String, AllocError> {
    if definition.is_explicit {
        draft.use_names(&["Identifier"])?;
        return owned(draft, "Identifier::EMPTY");
    }
    let text = definition.in_path(draft.alloc())?;
    format!(in draft.alloc(); "{text}::identifier()")
}

/// A text between quotation marks.
pub(crate) fn quoted(draft: &Draft, text: &str) -> Result<String, AllocError> {
    format!(in draft.alloc(); "\"{text}\"")
}
