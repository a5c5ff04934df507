//! The types of a circle that have a parameter.
use crate::reading::{reading_code, reading_names};
use asn1_rust_code::{Draft, Tagging};
use asn1_rust_components::{
    Alternative, Component, Constructed, Held, Kind, Subject, TypeBody, TypeFile, Usage,
    append_agreement, append_encode, append_field_writer, append_full, append_layout,
    append_meaning_of, append_plain_arm, append_slots, append_struct, append_table_of, slot_path,
};
use asn1_rust_types::{
    ChoiceSubject, append_cases, append_choice_meaning, append_choice_writer, append_enum,
    append_made, append_trees_of_choice,
};
use std::alloc::{AllocError, Global};

/// The library of the calls that take a reader.
const CIRCLES: &str = "asn1_circles";

/// The bound of the parameter where values are read.
const READ: &str = "AsnType + Eq + Drop";

/// The file of a type of a circle. The body, of which values of the knot are made, has no reader of its own: the knot's reads it.
pub fn generic_file(alloc: Global, file: &TypeFile, is_body: bool) -> Result<String, AllocError> {
    let mut draft = Draft::new(alloc);
    match &file.body {
        TypeBody::Sequence(body) => append_sequence(&mut draft, file, body)?,
        TypeBody::Choice(body) => append_choice(&mut draft, ChoiceSubject { file, body })?,
        _ => {}
    }
    if !is_body {
        append_own_reader(&mut draft, file)?;
    }
    draft.into_file(file.page.as_slice())
}

// Imports names of the calls that take a reader.
fn use_circles(draft: &mut Draft, names: &[&str]) -> Result<(), AllocError> {
    for name in names {
        draft.use_foreign(CIRCLES, name)?;
    }
    Ok(())
}

// Brings in the definitions of a type.
fn use_definitions(
    draft: &mut Draft,
    file: &TypeFile,
    first: &str,
    others: &[&str],
) -> Result<(), AllocError> {
    let alloc = draft.alloc();
    let crate_name = file.crate_name.as_str();
    let module = file.module.as_str();
    let lists = match &file.lists {
        Some(lists) => lists.as_str(),
        None => "Lists",
    };
    let mut names = format!(in alloc; "{module}_{first}")?;
    for other in others {
        names.push_str(format!(in alloc; ", {module}_{other}")?.as_str())?;
    }
    let names = names.as_str();
    let line = format!(in alloc; "ghost use Rattle.{crate_name}.specs.{lists}.{{{names}}};")?;
    draft.use_ghost(line.as_str())
}

// Appends a SEQUENCE.
fn append_sequence(
    draft: &mut Draft,
    file: &TypeFile,
    body: &Constructed,
) -> Result<(), AllocError> {
    let alloc = draft.alloc();
    let kind = Kind::Sequence;
    let subject = Subject { kind, file, body };
    let name = file.name.as_str();
    let module = file.module.as_str();
    append_struct(draft, subject)?;
    use_definitions(draft, file, "components", &["meaning"])?;
    let list = format!(in alloc; "{module}_components T.meaning")?;
    append_table_of(draft, subject, list.as_str())?;
    let meaning = format!(in alloc; "{module}_meaning T.meaning")?;
    append_meaning_of(draft, subject, meaning.as_str())?;
    append_agreement(draft, name, "ConstructedType", "constructed_agrees")?;
    append_encode(
        draft,
        name,
        "_constraints",
        "encoder.encode_sequence(tag, self, name)",
    )?;
    append_field_writer(draft, subject)?;
    append_field_reader(draft, file, body.components.as_slice())
}

// Appends the trait by which the components of a SEQUENCE are read.
fn append_field_reader(
    draft: &mut Draft,
    file: &TypeFile,
    components: &[Component],
) -> Result<(), AllocError> {
    let alloc = draft.alloc();
    let name = file.name.as_str();
    use_circles(draft, &["DecodeByIndexWith", "ReadError"])?;
    draft.use_names(&["AsnType", "DecodeError", "Decoded", "Decoder", "Tag"])?;
    draft.use_foreign("std::alloc", "AllocError")?;
    draft.use_foreign("std::alloc", "Global")?;
    draft.text(format!(in alloc; "impl<T: {READ}> DecodeByIndexWith<T> for {name} {{\n")?)?;
    append_slots(draft, components)?;
    append_layout(draft, components)?;
    append_full(draft, components)?;
    draft.text(format!(in alloc;
        "    fn decode_field_with<E: ReadError, D: Decoder, F: Fn(&mut D, Tag) -> Result<T, E>>(
        index: usize,
        slots: &mut Self::Slots,
        decoder: &mut D,
        read: &F,
    ) -> Decoded {{
        match index {{
"
    )?)?;
    for (index, component) in components.iter().enumerate() {
        let slot = slot_path(alloc, index, components.len())?;
        match &component.held {
            Some(held) => append_field_arm(draft, component, held, index, slot.as_str())?,
            None => append_plain_arm(draft, component, index, slot.as_str())?,
        }
    }
    draft.text(format!(in alloc;
        "            _ => Ok(()),
        }}
    }}
}}
"
    )?)
}

// The arguments of the types of a call that takes a reader.
fn type_arguments(draft: &mut Draft, held: &Held, text: &str) -> Result<String, AllocError> {
    let alloc = draft.alloc();
    let names = reading_names(alloc, held)?;
    use_circles(draft, names.as_slice())?;
    let reading = reading_code(alloc, held)?;
    let reading = reading.as_str();
    format!(in alloc; "T, {text}, {reading}, E, D, F")
}

// Appends the line that reads a component which holds the parameter.
fn append_field_arm(
    draft: &mut Draft,
    component: &Component,
    held: &Held,
    index: usize,
    slot: &str,
) -> Result<(), AllocError> {
    let alloc = draft.alloc();
    let call = match (&component.usage, component.is_addition) {
        (Usage::Required, _) => "required_with",
        (_, false) => "optional_with",
        (_, true) => "addition_with",
    };
    use_circles(draft, &[call])?;
    let arguments = type_arguments(draft, held, component.definition.text.as_str())?;
    let arguments = arguments.as_str();
    let opening = format!(in alloc; "{index} => {call}::<{arguments}>(")?;
    let slot = format!(in alloc; "&mut slots.{slot}")?;
    let tagging = draft.tagging_code(component.tagging)?;
    draft.call(
        3,
        opening.as_str(),
        &[slot.as_str(), "decoder", tagging.as_str(), "read"],
        "),",
    )
}

// Appends a CHOICE.
fn append_choice(draft: &mut Draft, subject: ChoiceSubject<'_>) -> Result<(), AllocError> {
    let alloc = draft.alloc();
    let file = subject.file;
    let name = file.name.as_str();
    let module = file.module.as_str();
    append_enum(draft, subject)?;
    use_definitions(draft, file, "alternatives", &["meaning", "pick"])?;
    let list = format!(in alloc; "{module}_alternatives T.meaning")?;
    let pick = format!(in alloc; "{module}_pick T.meaning")?;
    append_trees_of_choice(draft, subject, list.as_str(), pick.as_str())?;
    let meaning = format!(in alloc; "{module}_meaning T.meaning")?;
    append_choice_meaning(draft, subject, meaning.as_str())?;
    append_agreement(draft, name, "ChoiceType", "choice_agrees")?;
    append_encode(
        draft,
        name,
        "constraints",
        "encoder.encode_choice_with_tag(tag, constraints, self, name)",
    )?;
    append_choice_writer(draft, subject)?;
    append_case_list(draft, subject)?;
    append_case_reader(draft, subject)
}

// Appends the cases of a CHOICE.
fn append_case_list(draft: &mut Draft, subject: ChoiceSubject<'_>) -> Result<(), AllocError> {
    let alloc = draft.alloc();
    let name = subject.file.name.as_str();
    let module = subject.file.module.as_str();
    draft.use_names(&["AsnType", "HoldsItself"])?;
    draft.use_words(&["its_cases"])?;
    draft.use_signs(&["refl"])?;
    draft.text(format!(in alloc;
        "impl<T: {READ}> HoldsItself for {name} {{
    ghost inside = {{ {module}_meaning T.meaning }};

"
    )?)?;
    append_cases(draft, subject.body.alternatives.as_slice())?;
    draft.text(format!(in alloc;
        "    ghost case_of = {{ {module}_pick T.meaning }};

"
    )?)?;
    append_made(draft, subject.body.alternatives.as_slice())?;
    draft.text(format!(in alloc;
        "
    ghost are_cases = {{ its_cases }};

    ghost is_inside = {{ record {{ single = tt; records = λ _ _ _ _. refl; read = λ _ _ _ _ h. h; of_type = λ _ h. h; valid = λ _ _ h. h; constraints = refl }} }};
}}

"
    )?)
}

// Appends the trait by which the alternatives of a CHOICE are read.
fn append_case_reader(draft: &mut Draft, subject: ChoiceSubject<'_>) -> Result<(), AllocError> {
    let alloc = draft.alloc();
    let name = subject.file.name.as_str();
    let asn1_name = subject.file.asn1_name.as_str();
    use_circles(draft, &["DecodeChoiceWith", "ReadError"])?;
    draft.use_names(&["DecodeError", "Decoder", "Tag"])?;
    draft.text(format!(in alloc;
        "impl<T: {READ}> DecodeChoiceWith<T> for {name} {{
    fn decode_alternative_with<E: ReadError, D: Decoder, F: Fn(&mut D, Tag) -> Result<T, E>>(
        index: usize,
        decoder: &mut D,
        read: &F,
    ) -> Result<Self, DecodeError> {{
        match index {{
"
    )?)?;
    for (index, alternative) in subject.body.alternatives.iter().enumerate() {
        append_case_arm(draft, alternative, index)?;
    }
    draft.text(format!(in alloc;
        "            _ => Err(DecodeError::NoValidChoice(\"{asn1_name}\")),
        }}
    }}
}}
"
    )?)
}

// Appends the lines that read an alternative.
fn append_case_arm(
    draft: &mut Draft,
    alternative: &Alternative,
    index: usize,
) -> Result<(), AllocError> {
    let alloc = draft.alloc();
    let tagging: Tagging = alternative.tagging;
    let tagging = draft.tagging_code(tagging)?;
    let variant = alternative.variant.as_str();
    match &alternative.held {
        Some(held) => {
            use_circles(draft, &["alternative_with"])?;
            let arguments = type_arguments(draft, held, alternative.definition.text.as_str())?;
            let arguments = arguments.as_str();
            let opening = format!(in alloc; "{index} => match alternative_with::<{arguments}>(")?;
            let arguments = ["decoder", tagging.as_str(), "read"];
            draft.call(3, opening.as_str(), &arguments, ") {")?;
        }
        None => {
            draft.use_names(&["alternative"])?;
            let opening = format!(in alloc; "{index} => match alternative(")?;
            draft.call(3, opening.as_str(), &["decoder", tagging.as_str()], ") {")?;
        }
    }
    draft.text(format!(in alloc;
        "                Ok(value) => Ok(Self::{variant}(value)),
                Err(error) => Err(error),
            }},
"
    )?)
}

// Appends the readers of a type: by a reader of the parameter, and by the parameter's own.
fn append_own_reader(draft: &mut Draft, file: &TypeFile) -> Result<(), AllocError> {
    let alloc = draft.alloc();
    let name = file.name.as_str();
    let call = match file.body {
        TypeBody::Choice(_) => "decode_choice_with",
        _ => "decode_sequence_with",
    };
    use_circles(draft, &["DecodeWith", "ReadError", call])?;
    draft.use_names(&["Constraints", "Decode", "DecodeError", "Decoder", "Tag"])?;
    draft.text(format!(in alloc;
        "
impl<T: {READ}> DecodeWith<T> for {name} {{
    fn decode_with<E: ReadError, D: Decoder, F: Fn(&mut D, Tag) -> Result<T, E>>(
        decoder: &mut D,
        tag: Tag,
        read: &F,
    ) -> Result<Self, DecodeError> {{
"
    )?)?;
    let opening = format!(in alloc; "{call}::<T, {name}, E, D, F>(")?;
    let arguments = ["decoder", "tag", "&Constraints::NONE", "read"];
    draft.call(2, opening.as_str(), &arguments, ")")?;
    draft.text(format!(in alloc;
        "    }}
}}

impl<T: Decode> Decode for {name} {{
    fn decode_with_tag_and_constraints<D: Decoder>(
        decoder: &mut D,
        tag: Tag,
        constraints: &Constraints<'_>,
    ) -> Result<Self, DecodeError> {{
        let read = |inside: &mut D, at: Tag| -> Result<T, DecodeError> {{
            T::decode_with_tag(inside, at)
        }};
"
    )?)?;
    let opening = format!(in alloc; "{call}::<T, {name}, DecodeError, D, _>(")?;
    let arguments = ["decoder", "tag", "constraints", "&read"];
    draft.call(2, opening.as_str(), &arguments, ")")?;
    draft.text(format!(in alloc;
        "    }}
}}
"
    )?)
}
