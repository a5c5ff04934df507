//! CHOICE types.
use crate::variants::{same_cases, use_variants};
use asn1_rust_code::{Draft, ListStyle, TagNumber, Tagging};
use asn1_rust_components::{
    Alternative, ChoiceType, Table, Tree, TypeFile, append_agreement, append_decode, append_encode,
    append_entry, append_theorems, append_trees, append_type, constant_of, identifier_code,
    impl_line, owned, tree_code,
};
use std::alloc::AllocError;

/// The greatest number of alternatives that are read with a question mark, if there are several and none is behind an explicit tag, nor
/// are elements of one.
const FEW: usize = 8;

/// A CHOICE with its file.
#[derive(Clone, Copy)]
pub struct ChoiceSubject<'a> {
    /// The file.
    pub file: &'a TypeFile,
    /// The type.
    pub body: &'a ChoiceType,
}

/// Appends a CHOICE.
pub(crate) fn append_choice(
    draft: &mut Draft,
    subject: ChoiceSubject<'_>,
) -> Result<(), AllocError> {
    let name = subject.file.name.as_str();
    append_enum(draft, subject)?;
    append_reader(draft, subject)?;
    append_own_trees(draft, subject)?;
    append_own_meaning(draft, subject)?;
    append_agreement(draft, name, "ChoiceType", "choice_agrees")?;
    append_theorems(draft, subject.file)?;
    append_encode(
        draft,
        name,
        "constraints",
        "encoder.encode_choice_with_tag(tag, constraints, self, name)",
    )?;
    append_choice_writer(draft, subject)?;
    append_decode(
        draft,
        name,
        "constraints",
        "decoder.decode_choice_with_tag(tag, constraints)",
    )?;
    draft.use_names(&["DecodeChoice", "from_tag_by_index"])?;
    draft.text(format!(in draft.alloc();
        "
impl DecodeChoice for {name} {{
    fn from_tag<D: Decoder>(decoder: &mut D, tag: Tag) -> Result<Self, DecodeError> {{
        from_tag_by_index(decoder, tag)
    }}
}}
"
    )?)
}

/// Appends the enum, and the constant with the trees of its alternatives.
pub fn append_enum(draft: &mut Draft, subject: ChoiceSubject<'_>) -> Result<(), AllocError> {
    let alloc = draft.alloc();
    let summary = subject.file.summary.as_str();
    let name = subject.file.name.as_str();
    draft.text(format!(in alloc;
        "\
/// {summary}
#[derive(PartialEq, Eq, Debug, Drop)]
pub enum {name} {{
"
    )?)?;
    let mut variants = Vec::new(alloc);
    for alternative in &subject.body.alternatives {
        draft.use_type(&alternative.definition)?;
        let notation = alternative.notation.as_str();
        let variant = alternative.variant.as_str();
        let text = alternative.definition.text.as_str();
        draft.text(format!(in alloc; "    /// {notation}\n    {variant}({text}),\n")?)?;
        variants.push(variant)?;
    }
    draft.line(0, "}")?;
    draft.blank()?;
    use_variants(draft, subject.file, variants.as_slice())?;
    let mut trees = Vec::new(alloc);
    for alternative in &subject.body.alternatives {
        trees.push(tree_code(draft, &alternative.tree)?)?;
    }
    draft.line(0, "/// The trees of the alternatives.")?;
    append_trees(draft, subject.file, trees.as_slice())
}

// Appends `DecodeChoiceByIndex`.
fn append_reader(draft: &mut Draft, subject: ChoiceSubject<'_>) -> Result<(), AllocError> {
    let name = subject.file.name.as_str();
    let asn1_name = subject.file.asn1_name.as_str();
    draft.use_names(&[
        "DecodeChoiceByIndex",
        "DecodeError",
        "Decoder",
        "alternative",
    ])?;
    let is_short = subject.body.alternatives.len() > 1
        && subject.body.alternatives.len() <= FEW
        && !subject.body.alternatives.iter().any(is_behind_tag);
    if !is_short {
        append_macro(draft, name)?;
    }
    draft.text(format!(in draft.alloc(); "impl DecodeChoiceByIndex for {name} {{\n")?)?;
    append_cases(draft, subject.body.alternatives.as_slice())?;
    append_case_of(draft, subject.body.alternatives.as_slice())?;
    draft.line(
        1,
        "fn decode_alternative<D: Decoder>(index: usize, decoder: &mut D) -> Result<Self, DecodeError> {",
    )?;
    draft.line(2, "match index {")?;
    for (index, alternative) in subject.body.alternatives.iter().enumerate() {
        if is_short {
            append_short_arm(draft, alternative, index)?;
        } else {
            append_long_arm(draft, alternative, index)?;
        }
    }
    draft.text(format!(in draft.alloc();
        "            _ => Err(DecodeError::NoValidChoice(\"{asn1_name}\")),
        }}
    }}

"
    )?)?;
    append_made(draft, subject.body.alternatives.as_slice())?;
    draft.line(0, "}")?;
    draft.blank()
}

// Whether an alternative is behind an explicit tag, or elements of it are.
fn is_behind_tag(alternative: &Alternative) -> bool {
    matches!(alternative.tagging, Tagging::Explicit(_)) || alternative.has_explicit_elements
}

/// Appends the list of alternatives with their variants.
pub fn append_cases(draft: &mut Draft, alternatives: &[Alternative]) -> Result<(), AllocError> {
    draft.use_signs(&["[]", "codes", "◌∷◌"])?;
    draft.use_words(&["variant"])?;
    for (index, alternative) in alternatives.iter().enumerate() {
        let meaning = draft.tagged_meaning(&alternative.definition, alternative.tagging)?;
        let name = alternative.name.as_str();
        let variant = alternative.variant.as_str();
        let text = alternative.definition.text.as_str();
        let entry = format!(in draft.alloc();
            "variant (codes \"{name}\") {variant} {meaning} ⟦<{text} as PartialEq>⟧.eq"
        )?;
        append_entry(draft, "cases", entry.as_str(), index, alternatives.len())?;
    }
    draft.blank()
}

// Appends which alternative a value is.
fn append_case_of(draft: &mut Draft, alternatives: &[Alternative]) -> Result<(), AllocError> {
    draft.use_words(&["inl"])?;
    let mut line = owned(draft, "ghost case_of = { elim [ ")?;
    for (index, alternative) in alternatives.iter().enumerate() {
        if index != 0 {
            draft.use_words(&["inr"])?;
            line.push_str(" | ")?;
        }
        line.push_str(alternative.variant.as_str())?;
        line.push_str(" x ↦ ")?;
        push_times(&mut line, "inr (", index)?;
        line.push_str("inl x")?;
        push_times(&mut line, ")", index)?;
    }
    line.push_str(" ] };")?;
    draft.line(1, line.as_str())?;
    draft.blank()
}

/// Appends the law that a value is what its variant makes.
pub fn append_made(draft: &mut Draft, alternatives: &[Alternative]) -> Result<(), AllocError> {
    let alloc = draft.alloc();
    draft.use_signs(&["refl"])?;
    let mut variants = Vec::new(alloc);
    for alternative in alternatives {
        variants.push(alternative.variant.as_str())?;
    }
    let cases = same_cases(alloc, variants.as_slice(), " x ↦ (refl, λ _. refl)")?;
    let line = format!(in alloc; "ghost made = {{ elim [ {cases} ] }};")?;
    draft.line(1, line.as_str())
}

// Appends the line that reads an alternative, one of few.
fn append_short_arm(
    draft: &mut Draft,
    alternative: &Alternative,
    index: usize,
) -> Result<(), AllocError> {
    let variant = alternative.variant.as_str();
    let opening = format!(in draft.alloc(); "{index} => Ok(Self::{variant}(alternative(")?;
    let tagging = draft.tagging_code(alternative.tagging)?;
    draft.call(3, opening.as_str(), &["decoder", tagging.as_str()], ")?)),")
}

// Appends the line that reads an alternative, one of many.
fn append_long_arm(
    draft: &mut Draft,
    alternative: &Alternative,
    index: usize,
) -> Result<(), AllocError> {
    let variant = alternative.variant.as_str();
    let opening = format!(in draft.alloc(); "{index} => read!(")?;
    let tagging = draft.tagging_code(alternative.tagging)?;
    draft.call(
        3,
        opening.as_str(),
        &["decoder", tagging.as_str(), variant],
        "),",
    )
}

// Appends the macro that reads an alternative, one of many.
fn append_macro(draft: &mut Draft, name: &str) -> Result<(), AllocError> {
    draft.text(format!(in draft.alloc();
        "\
/// Reads the value of an alternative, and makes this variant of it.
macro_rules! read {{
    ($decoder:expr, $tagging:expr, $variant:ident $(,)?) => {{
        match alternative($decoder, $tagging) {{
            Ok(value) => Ok({name}::$variant(value)),
            Err(error) => Err(error),
        }}
    }};
}}

"
    )?)
}

// Appends `Choice` of a type with its own list.
fn append_own_trees(draft: &mut Draft, subject: ChoiceSubject<'_>) -> Result<(), AllocError> {
    let alloc = draft.alloc();
    let name = subject.file.name.as_str();
    let list = match subject.body.extension_index {
        Some(index) => {
            draft.use_words(&["extensible_choice_after"])?;
            format!(in alloc;
                "extensible_choice_after {index} ⟦<{name} as DecodeChoiceByIndex>⟧.cases"
            )?
        }
        None => {
            draft.use_words(&["choice_of_cases"])?;
            format!(in alloc; "choice_of_cases ⟦<{name} as DecodeChoiceByIndex>⟧.cases")?
        }
    };
    let pick = format!(in alloc; "⟦<{name} as DecodeChoiceByIndex>⟧.case_of")?;
    append_trees_of_choice(draft, subject, list.as_str(), pick.as_str())
}

/// Appends `Choice` of a type with this list, and this choice of an alternative.
pub fn append_trees_of_choice(
    draft: &mut Draft,
    subject: ChoiceSubject<'_>,
    list: &str,
    pick: &str,
) -> Result<(), AllocError> {
    let alloc = draft.alloc();
    draft.use_names(&["Choice", "TagTree"])?;
    let constant = constant_of(draft, subject.file)?;
    let (root, additions) = match subject.body.extension_index {
        Some(index) => (
            format!(in alloc; "&{constant}[..{index}]")?,
            format!(in alloc; "Some(&{constant}[{index}..])")?,
        ),
        None => (constant, owned(draft, "None")?),
    };
    let head = impl_line(draft, "Choice", subject.file.name.as_str(), "AsnType")?;
    draft.line(0, head.as_str())?;
    draft.text(format!(in alloc;
        "    ghost alternatives = {{ {list} }};

    ghost pick = {{ {pick} }};

    fn variants() -> &'static [TagTree<'static>] {{
        {root}
    }}

    fn extended_variants() -> Option<&'static [TagTree<'static>]> {{
        {additions}
    }}

"
    )?)?;
    append_identifiers(draft, subject.body.alternatives.as_slice())?;
    draft.line(0, "}")?;
    draft.blank()
}

// Appends the names of the alternatives.
fn append_identifiers(draft: &mut Draft, alternatives: &[Alternative]) -> Result<(), AllocError> {
    draft.line(1, "fn identifiers() -> &'static [&'static str] {")?;
    let mut names = Vec::new(draft.alloc());
    let mut style = ListStyle::Elements;
    for alternative in alternatives {
        let name = alternative.name.as_str();
        if name.len() > 8 {
            style = ListStyle::Arguments;
        }
        names.push(format!(in draft.alloc(); "\"{name}\"")?)?;
    }
    draft.list(2, "&[", names.as_slice(), "]", style)?;
    draft.line(1, "}")
}

// Appends `AsnType` of a type with its own list.
fn append_own_meaning(draft: &mut Draft, subject: ChoiceSubject<'_>) -> Result<(), AllocError> {
    let name = subject.file.name.as_str();
    let asn1_name = subject.file.asn1_name.as_str();
    draft.use_words(&["choice_of"])?;
    let meaning = format!(in draft.alloc();
        "choice_of (codes \"{asn1_name}\") ⟦<{name} as Choice>⟧.alternatives ⟦<{name} as Choice>⟧.pick"
    )?;
    append_choice_meaning(draft, subject, meaning.as_str())
}

/// Appends `AsnType` of a CHOICE with this meaning.
pub fn append_choice_meaning(
    draft: &mut Draft,
    subject: ChoiceSubject<'_>,
    meaning: &str,
) -> Result<(), AllocError> {
    let alloc = draft.alloc();
    let asn1_name = subject.file.asn1_name.as_str();
    let identifier = format!(in alloc; "Identifier(Some(\"{asn1_name}\"))")?;
    let constant = constant_of(draft, subject.file)?;
    let arguments = [identifier, constant];
    let table = Table {
        meaning,
        call: "TypeTable::choice",
        arguments: arguments.as_slice(),
    };
    append_type(draft, subject.file.name.as_str(), &table)
}

/// Appends `EncodeChoice`.
pub fn append_choice_writer(
    draft: &mut Draft,
    subject: ChoiceSubject<'_>,
) -> Result<(), AllocError> {
    let name = subject.file.name.as_str();
    draft.use_names(&["EncodeChoice"])?;
    let head = impl_line(draft, "EncodeChoice", name, "Encode")?;
    draft.line(0, head.as_str())?;
    draft.text(format!(in draft.alloc();
        "    fn chosen_tag(&self) -> Tag {{
        match self {{
"
    )?)?;
    for alternative in &subject.body.alternatives {
        append_tag_arm(draft, alternative)?;
    }
    draft.text(format!(in draft.alloc();
        "        }}
    }}

    fn encode_alternative<E: Encoder>(&self, encoder: &mut E) -> Result<(), EncodeError> {{
        match self {{
"
    )?)?;
    for alternative in &subject.body.alternatives {
        append_writing_arm(draft, alternative)?;
    }
    draft.text(format!(in draft.alloc();
        "        }}
    }}
}}

"
    )?)
}

// Appends the line with the tag of an alternative.
fn append_tag_arm(draft: &mut Draft, alternative: &Alternative) -> Result<(), AllocError> {
    let variant = alternative.variant.as_str();
    let line = match &alternative.tree {
        Tree::Leaf(tag) => {
            let tag = draft.tag_code(*tag)?;
            format!(in draft.alloc(); "Self::{variant}(_) => {tag},")?
        }
        Tree::Choice(_) => {
            format!(in draft.alloc(); "Self::{variant}(value) => value.chosen_tag(),")?
        }
    };
    draft.line(3, line.as_str())
}

// Appends the line that writes an alternative.
fn append_writing_arm(draft: &mut Draft, alternative: &Alternative) -> Result<(), AllocError> {
    match alternative.tagging {
        Tagging::Untagged => {
            let variant = alternative.variant.as_str();
            let line = format!(in draft.alloc();
                "Self::{variant}(value) => value.encode(encoder),"
            )?;
            draft.line(3, line.as_str())
        }
        Tagging::Implicit(tag) => append_implicit_arm(draft, alternative, tag),
        Tagging::Explicit(tag) => append_explicit_arm(draft, alternative, tag),
    }
}

// Appends the line that writes an alternative under a tag in place of its own.
fn append_implicit_arm(
    draft: &mut Draft,
    alternative: &Alternative,
    tag: TagNumber,
) -> Result<(), AllocError> {
    let tag = draft.tag_code(tag)?;
    let variant = alternative.variant.as_str();
    let opening = format!(in draft.alloc(); "Self::{variant}(value) => value.encode_with_tag(")?;
    draft.call(3, opening.as_str(), &["encoder", tag.as_str()], "),")
}

// Appends the line that writes an alternative behind a tag.
fn append_explicit_arm(
    draft: &mut Draft,
    alternative: &Alternative,
    tag: TagNumber,
) -> Result<(), AllocError> {
    let tag = draft.tag_code(tag)?;
    let name = identifier_code(draft, &alternative.definition)?;
    let variant = alternative.variant.as_str();
    let opening = format!(in draft.alloc();
        "Self::{variant}(value) => encoder.encode_explicit_prefix("
    )?;
    draft.call(
        3,
        opening.as_str(),
        &[tag.as_str(), "value", name.as_str()],
        "),",
    )
}

// Appends a text this many times.
fn push_times(line: &mut String, text: &str, count: usize) -> Result<(), AllocError> {
    for _ in 0..count {
        line.push_str(text)?;
    }
    Ok(())
}
