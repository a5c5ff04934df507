//! The files of a knot.
use asn1_circle_definitions::Circle;
use asn1_rust_code::{Draft, Import, List, ListStyle, is_in_one_line};
use asn1_rust_components::{Alternative, ListKind, TypeBody, TypeFile, constant_of};
use asn1_rust_names::{TakenNames, snake_case};
use std::alloc::{AllocError, Global};

// Imports a name of a module of the crate.
fn use_local(draft: &mut Draft, module: &str, name: &str) -> Result<(), AllocError> {
    let import = Import {
        is_foreign: false,
        path: format!(in draft.alloc(); "crate::{module}")?,
        name: String::from_str(draft.alloc(), name)?,
    };
    draft.use_import(&import)
}

/// The file of a knot: a box of what it is made of.
pub(crate) fn knot_file(
    alloc: Global,
    circle: Circle<'_>,
    body: &TypeFile,
    own: &TypeFile,
) -> Result<String, AllocError> {
    let mut draft = Draft::new(alloc);
    let name = circle.name;
    let crate_name = circle.crate_name;
    let summary = circle.summary;
    let body_name = body.plain_name();
    draft.use_signs(&["◌≡◌"])?;
    draft.use_ghost(format!(in alloc;
        "ghost use Rattle.{crate_name}.specs.{name}Meaning.{{in_knot, is_made, meaning}};"
    )?.as_str())?;
    use_local(&mut draft, body.module.as_str(), body_name)?;
    draft.text(format!(in alloc;
        "\
/// {summary}
///
/// A value is a box of what it is made of.
#[derive(PartialEq, Eq, Debug, Drop)]
pub struct {name}(pub Box<{body_name}<{name}>>);

"
    )?)?;
    append_calls(&mut draft, circle, body)?;
    append_type(&mut draft, circle, body)?;
    append_law(&mut draft, circle)?;
    append_validity(&mut draft, circle, body)?;
    append_writer(&mut draft, circle)?;
    append_reader(&mut draft, circle, body_name)?;
    draft.into_file(own.page.as_slice())
}

// Appends the calls that make a value, and take it apart.
fn append_calls(draft: &mut Draft, circle: Circle<'_>, file: &TypeFile) -> Result<(), AllocError> {
    let name = circle.name;
    let body = file.plain_name();
    draft.use_signs(&["IfOk"])?;
    draft.use_foreign("std::alloc", "AllocError")?;
    draft.use_foreign("std::alloc", "Global")?;
    draft.text(format!(in draft.alloc();
        "impl {name} {{
    /// A value that is made of this. The error is that of memory.
"
    )?)?;
    let inside = format!(in draft.alloc(); "{body}<{name}>")?;
    append_head(draft, name, "new", inside.as_str())?;
    draft.text(format!(in draft.alloc();
        "        ensures {{ IfOk result (λ made. in_knot made ≡ value) }}
    {{
        Ok({name}(Box::new(alloc, value)?))
    }}

    /// The value in the box.
    pub fn get(&self) -> &{body}<{name}>
        ensures {{ result.now ≡ in_knot self.now }}
    {{
        &self.0
    }}

    /// Takes the value out of the box.
    pub fn into_inner(self) -> {body}<{name}>
        ensures {{ result ≡ in_knot self }}
    {{
        Box::into_inner(self.0)
    }}
"
    )?)?;
    if let TypeBody::Choice(choice) = &file.body {
        append_makers(draft, circle, file, choice.alternatives.as_slice())?;
    }
    draft.line(0, "}")?;
    draft.blank()
}

// Appends the head of a call that makes a value of another, in one line if that has room.
fn append_head(draft: &mut Draft, name: &str, call: &str, value: &str) -> Result<(), AllocError> {
    let head = format!(in draft.alloc();
        "pub fn {call}(alloc: Global, value: {value}) -> Result<{name}, AllocError>"
    )?;
    if is_short(head.as_str()) {
        return draft.line(1, head.as_str());
    }
    draft.text(format!(in draft.alloc();
        "    pub fn {call}(
        alloc: Global,
        value: {value},
    ) -> Result<{name}, AllocError>
"
    )?)
}

// Whether the head of a call has room in one line.
fn is_short(head: &str) -> bool {
    let line = List {
        opening: head,
        items: &[],
        closing: "",
        style: ListStyle::Arguments,
    };
    is_in_one_line(1, &line)
}

/// The names that no call of an alternative has: those of the calls that each type has, which it would hide.
const CALLS: &[&str] = &[
    "new",
    "get",
    "into_inner",
    "tie",
    "table",
    "tag",
    "tag_tree",
    "identifier",
    "constraints",
    "is_present",
    "encode",
    "encode_with_tag",
    "decode",
    "decode_with_tag",
    "eq",
    "ne",
    "fmt",
    "clone",
    "drop",
];

// Appends a call for each alternative, which makes a value of it.
fn append_makers(
    draft: &mut Draft,
    circle: Circle<'_>,
    file: &TypeFile,
    alternatives: &[Alternative],
) -> Result<(), AllocError> {
    let alloc = draft.alloc();
    let mut names = TakenNames::new(alloc);
    for call in CALLS {
        let _call = names.take(call)?;
    }
    for alternative in alternatives {
        let snake = snake_case(alloc, alternative.name.as_bytes())?;
        let call = names.take(snake.as_str())?;
        append_maker(draft, circle, file, alternative, call.as_str())?;
    }
    use_variants(draft, circle, file)
}

// Brings in the variants, under a name of their own: a type of the circle may have the name of a variant.
fn use_variants(draft: &mut Draft, circle: Circle<'_>, file: &TypeFile) -> Result<(), AllocError> {
    let crate_name = circle.crate_name;
    let module = file.module.as_str();
    let name = file.plain_name();
    let line = format!(in draft.alloc();
        "ghost use Rattle.{crate_name}.specs.declared.{module}.{name}.TheVariants as variants;"
    )?;
    draft.use_ghost(line.as_str())
}

// Appends the call that makes a value of an alternative.
fn append_maker(
    draft: &mut Draft,
    circle: Circle<'_>,
    file: &TypeFile,
    alternative: &Alternative,
    call: &str,
) -> Result<(), AllocError> {
    let alloc = draft.alloc();
    let name = circle.name;
    let body = file.plain_name();
    let variant = alternative.variant.as_str();
    let notation = alternative.notation.as_str();
    let text = type_at_knot(alloc, circle, alternative)?;
    let text = text.as_str();
    draft.use_type(&alternative.definition)?;
    draft.text(format!(in alloc;
        "
    /// A value of the alternative {notation}. The error is that of memory.
"
    )?)?;
    append_head(draft, name, call, text)?;
    draft.text(format!(in alloc;
        "        ensures {{ IfOk result (λ made. in_knot made ≡ variants.{variant} value) }}
    {{
"
    )?)?;
    let opening = format!(in alloc; "{name}::new(")?;
    let value = format!(in alloc; "{body}::{variant}(value)")?;
    draft.call(2, opening.as_str(), &["alloc", value.as_str()], ")")?;
    draft.line(1, "}")
}

// The type of an alternative, where the parameter is the knot.
fn type_at_knot(
    alloc: Global,
    circle: Circle<'_>,
    alternative: &Alternative,
) -> Result<String, AllocError> {
    let Some(held) = &alternative.held else {
        return String::from_str(alloc, alternative.definition.text.as_str());
    };
    let knot = circle.name;
    let mut text = match &held.member {
        Some(module) => {
            let member = circle.member_name(module.as_str());
            format!(in alloc; "{member}<{knot}>")?
        }
        None => String::from_str(alloc, knot)?,
    };
    for kind in held.lists.iter().rev() {
        let former = match kind {
            ListKind::SequenceOf => "Vec",
            ListKind::SetOf => "SetOf",
        };
        text = format!(in alloc; "{former}<{text}>")?;
    }
    Ok(text)
}

// Appends `AsnType`.
fn append_type(draft: &mut Draft, circle: Circle<'_>, body: &TypeFile) -> Result<(), AllocError> {
    let alloc = draft.alloc();
    let name = circle.name;
    let asn1_name = circle.asn1_name;
    draft.use_names(&["AsnType", "Identifier", "TypeTable"])?;
    draft.text(format!(in alloc;
        "impl AsnType for {name} {{
    ghost meaning = {{ meaning }};

    fn table() -> TypeTable {{
"
    )?)?;
    let identifier = format!(in alloc; "Identifier(Some(\"{asn1_name}\"))")?;
    let identifier = identifier.as_str();
    match body.body {
        TypeBody::Choice(_) => {
            let constant = constant_of(draft, body)?;
            let constant = constant.as_str();
            use_local(draft, body.module.as_str(), constant)?;
            draft.call(2, "TypeTable::choice(", &[identifier, constant], ")")?;
        }
        _ => {
            draft.use_names(&["Tag"])?;
            draft.call(2, "TypeTable::new(", &["Tag::SEQUENCE", identifier], ")")?;
        }
    }
    draft.text(format!(in alloc;
        "    }}

    fn is_present(&self) -> bool {{
        true
    }}
}}

"
    )?)
}

// Appends the theorem that the knot is well tagged.
fn append_law(draft: &mut Draft, circle: Circle<'_>) -> Result<(), AllocError> {
    let name = circle.name;
    let module = circle.module;
    draft.use_words(&["IsWellTagged"])?;
    draft.text(format!(in draft.alloc();
        "\
/// `{name}` is well tagged, and can be inside other types.
#[tactic(auto, using(crate::proofs::{name}Tags::knot_can))]
pub fn {module}_is_well_tagged()
    ensures {{ IsWellTagged ⟦<{name} as AsnType>⟧.meaning }}
{{}}

"
    )?)
}

// Appends the theorems on which values are valid: each one, or one that is made of a valid one.
fn append_validity(
    draft: &mut Draft,
    circle: Circle<'_>,
    body: &TypeFile,
) -> Result<(), AllocError> {
    if !circle.are_valid {
        return append_content_law(draft, circle, body);
    }
    let name = circle.name;
    draft.use_ghost("ghost use Rattle.asn1_schema.specs.model.Premises.{EachIsValid};")?;
    append_valid_law(draft, name, circle.module, name)?;
    for member in circle.members {
        if member.module.as_str() != body.module.as_str() {
            let generic = member.plain_name();
            let asn1_name = member.asn1_name.as_str();
            let at_knot = format!(in draft.alloc(); "{generic}<{name}>")?;
            use_local(draft, member.module.as_str(), generic)?;
            append_valid_law(draft, asn1_name, member.module.as_str(), at_knot.as_str())?;
        }
    }
    Ok(())
}

// Appends the theorem that each value of a type is valid.
fn append_valid_law(
    draft: &mut Draft,
    summary: &str,
    module: &str,
    name: &str,
) -> Result<(), AllocError> {
    draft.text(format!(in draft.alloc();
        "\
/// Each `{summary}` is valid.
pub fn each_{module}_is_valid()
    ensures {{ EachIsValid ⟦<{name} as AsnType>⟧.meaning }}
{{}}

"
    )?)
}

// Appends the theorem that a value means the same as what it is made of: it is valid if and only if that is.
fn append_content_law(
    draft: &mut Draft,
    circle: Circle<'_>,
    body: &TypeFile,
) -> Result<(), AllocError> {
    let name = circle.name;
    let module = circle.module;
    let content = body.plain_name();
    draft.use_ghost("ghost use Rattle.asn1_circles.specs.Words.{IsMadeOf};")?;
    draft.text(format!(in draft.alloc();
        "\
/// A `{name}` means what it is made of, and is valid if and only if that is.
pub fn {module}_means_what_it_is_made_of()
    ensures {{ IsMadeOf in_knot ⟦<{name} as AsnType>⟧.meaning
        ⟦<{content}<{name}> as AsnType>⟧.meaning }}
{{}}

"
    )?)
}

// Appends `Encode`.
fn append_writer(draft: &mut Draft, circle: Circle<'_>) -> Result<(), AllocError> {
    let name = circle.name;
    let module = circle.module;
    draft.use_names(&[
        "Constraints",
        "Encode",
        "EncodeError",
        "Encoder",
        "Identifier",
        "Tag",
    ])?;
    draft.text(format!(in draft.alloc();
        "impl Encode for {name} {{
    #[cycle({module})]
    fn encode_with_tag_and_constraints<E: Encoder>(
        &self,
        encoder: &mut E,
        tag: Tag,
        constraints: &Constraints<'_>,
        name: Identifier,
    ) -> Result<(), EncodeError> {{
        (*self.0).encode_with_tag_and_constraints(encoder, tag, constraints, name)
    }}
}}

"
    )?)
}

// Appends `Knot` and `Decode`.
fn append_reader(draft: &mut Draft, circle: Circle<'_>, body: &str) -> Result<(), AllocError> {
    let name = circle.name;
    let module = circle.module;
    let crate_name = circle.crate_name;
    draft.use_foreign("asn1_circles", "Knot")?;
    draft.use_names(&["Decode", "DecodeError", "Decoder"])?;
    let call = format!(in draft.alloc(); "read_{module}")?;
    use_local(draft, circle.reader, call.as_str())?;
    draft.text(format!(in draft.alloc();
        "impl Knot<{body}<{name}>> for {name} {{
    ghost use Rattle.{crate_name}.specs.contracts.{module}.{name}PartialEq.TheImpl.Laws.{{is}};

    ghost made_of = {{ in_knot }};

    fn tie(boxed: Box<{body}<{name}>>) -> {name}
        ensures {{ in_knot result ≡ boxed.value }}
    {{
        {name}(boxed)
    }}

    ghost is_made = {{ is_made }};

    ghost equal = {{ λ w v. is w v }};
}}

impl Decode for {name} {{
    fn decode_with_tag_and_constraints<D: Decoder>(
        decoder: &mut D,
        tag: Tag,
        constraints: &Constraints<'_>,
    ) -> Result<{name}, DecodeError> {{
        {call}::<DecodeError, D>(decoder, tag, constraints)
    }}
}}
"
    )?)
}

/// The file of the reader of a knot: one function, which the closure in it calls again.
pub(crate) fn reader_file(
    alloc: Global,
    circle: Circle<'_>,
    body: &TypeFile,
) -> Result<String, AllocError> {
    let mut draft = Draft::new(alloc);
    let name = circle.name;
    let module = circle.module;
    let reader = circle.reader;
    let crate_name = circle.crate_name;
    let body_name = body.plain_name();
    let call = if circle.is_choice() {
        "decode_choice_with"
    } else {
        "decode_sequence_with"
    };
    draft.use_signs(&["◌<◌", "IfOk"])?;
    draft.use_ghost(
        "ghost use Rattle.asn1_circles.specs.Words.{AfterReading, HasReadValue, ReadsValue, constraint_set, said};",
    )?;
    draft.use_ghost(format!(in alloc;
        "ghost use Rattle.{crate_name}.specs.{name}Meaning.{{meaning}};"
    )?.as_str())?;
    draft.use_ghost(format!(in alloc;
        "ghost use Rattle.{crate_name}.specs.{name}Reading.{{ReadsKnot}};"
    )?.as_str())?;
    for used in ["ReadError", "close_knot", call] {
        draft.use_foreign("asn1_circles", used)?;
    }
    draft.use_names(&["Constraints", "DecodeError", "Decoder", "Tag"])?;
    use_local(&mut draft, module, name)?;
    use_local(&mut draft, body.module.as_str(), body_name)?;
    draft.text(format!(in alloc;
        "\
/// Reads a value under a tag and constraints.
#[cycle({reader})]
pub(crate) fn read_{module}<E: ReadError, D: Decoder>(
    decoder: &mut D,
    tag: Tag,
    constraints: &Constraints<'_>,
) -> Result<{name}, DecodeError>
    ensures read {{ ReadsValue D.reader meaning ⟦<{name} as PartialEq>⟧.eq tag
        (constraint_set constraints.now) decoder.old decoder.new result }}
    ensures only {{ IfOk result (HasReadValue D.reader decoder.old decoder.new meaning tag
        (constraint_set constraints.now)) }}
    ensures after_reading {{ AfterReading D.reader meaning tag (constraint_set constraints.now)
        decoder.old decoder.new result }}
{{
    let depth = decoder.depth();
    let read = move |inside: &mut D, at: Tag| -> Result<{name}, E>
        requires {{ D.reader.depth_left inside.old < depth }}
        ensures {{ ReadsKnot D.reader at inside.old inside.new (said E.says result) }}
    {{
        let _ = &depth;
        match read_{module}::<E, D>(inside, at, &Constraints::NONE) {{
            Ok(value) => Ok(value),
            Err(error) => Err(E::from_error(error)),
        }}
    }};
"
    )?)?;
    let opening = format!(in alloc; "let of: Result<{body_name}<{name}>, DecodeError> = {call}(")?;
    let arguments = ["decoder", "tag", "constraints", "&read"];
    draft.call(1, opening.as_str(), &arguments, ");")?;
    draft.text(format!(in alloc;
        "    close_knot(decoder, of)
}}
"
    )?)?;
    let mut page = Vec::new(alloc);
    page.push(format!(in alloc; "The reader of `{name}`.")?)?;
    draft.into_file(page.as_slice())
}
