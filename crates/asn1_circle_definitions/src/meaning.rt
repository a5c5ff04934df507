//! The meaning of a knot, with its laws.
use crate::circle::Circle;
use crate::depths::{OF_TYPE, VALID};
use crate::lists::{all_type_uses, definition_uses, variant_name};
use crate::terms::{definitions_file, spaced, validity_words};
use crate::{depths, exact, records};
use asn1_rust_components::{ChoiceType, TypeBody, TypeFile};
use std::alloc::{AllocError, Global};

/// The file with the meaning of a knot, of which values are made of this.
pub fn meaning_file(
    alloc: Global,
    circle: Circle<'_>,
    body: &TypeFile,
) -> Result<String, AllocError> {
    let text = meaning_text(alloc, circle, body)?;
    let uses = meaning_uses(alloc, circle, text.as_str())?;
    let name = circle.name;
    let comment = format!(in alloc; "The meaning of `{name}`.")?;
    definitions_file(alloc, comment.as_str(), uses.as_str(), text.as_str())
}

// The definitions and laws of a knot.
fn meaning_text(alloc: Global, circle: Circle<'_>, body: &TypeFile) -> Result<String, AllocError> {
    let definitions = knot_definitions(alloc, circle, body)?;
    let definitions = definitions.as_str();
    let lemmas = knot_lemmas(alloc, circle, body)?;
    let lemmas = lemmas.as_str();
    let meaning = own_meaning(alloc, circle, body)?;
    let meaning = meaning.as_str();
    format!(in alloc; "{definitions}{lemmas}{meaning}")
}

// The lines that bring in the names in such a text.
fn meaning_uses(alloc: Global, circle: Circle<'_>, text: &str) -> Result<String, AllocError> {
    let spaced = spaced(alloc, text)?;
    let lists = definition_uses(alloc, circle, spaced.as_str())?;
    let lists = lists.as_str();
    let knot = knot_uses(alloc, circle)?;
    let knot = knot.as_str();
    let types = all_type_uses(alloc, circle)?;
    let types = types.as_str();
    let valid = valid_uses(alloc, circle, text)?;
    let valid = valid.as_str();
    format!(in alloc; "{lists}{valid}{knot}{types}")
}

// The line that brings in the lemma that values are valid, if they are.
fn valid_uses(alloc: Global, circle: Circle<'_>, text: &str) -> Result<String, AllocError> {
    match circle.body() {
        Some(body) if circle.are_valid => {
            let crate_name = circle.crate_name;
            let words = validity_words(alloc, crate_name, text)?;
            let words = words.as_str();
            let name = circle.name;
            let module = body.module.as_str();
            format!(in alloc;
                "{words}use Rattle.{crate_name}.specs.{name}Validity.{{{module}_is_valid}}\n"
            )
        }
        _ => Ok(String::new(alloc)),
    }
}

// The line that brings in the knot.
fn knot_uses(alloc: Global, circle: Circle<'_>) -> Result<String, AllocError> {
    let crate_name = circle.crate_name;
    let module = circle.module;
    let name = circle.name;
    format!(in alloc;
        "use Rattle.{crate_name}.specs.declared.{module}.{name}.{{{name} as Knot, {name}-F as Knot-F, out-{name} as out-Knot, fold-{name} as fold-Knot, fold_out-{name} as fold_out-Knot, map-{name} as map-Knot}}\n"
    )
}

// The lemmas of the laws of a knot.
fn knot_lemmas(alloc: Global, circle: Circle<'_>, body: &TypeFile) -> Result<String, AllocError> {
    let of_type = depths::lemmas(alloc, circle, OF_TYPE)?;
    let of_type = of_type.as_str();
    let valid = depths::lemmas(alloc, circle, VALID)?;
    let valid = valid.as_str();
    let read = exact::lemmas(alloc, circle)?;
    let read = read.as_str();
    let records = records::lemmas(alloc, circle, body)?;
    let records = records.as_str();
    format!(in alloc; "{of_type}{valid}{read}{records}")
}

// The lists of a knot, and the definitions of its meaning.
fn knot_definitions(
    alloc: Global,
    circle: Circle<'_>,
    body: &TypeFile,
) -> Result<String, AllocError> {
    let lists = own_lists(alloc, circle, body)?;
    let lists = lists.as_str();
    let inside = inside_definitions(alloc, circle, body)?;
    let inside = inside.as_str();
    let word = knot_word(circle);
    let asn1_name = circle.asn1_name;
    let arguments = list_arguments(circle);
    format!(in alloc;
        "{lists}{inside}-- what is read as a value inside another
within_read : (t : Tag) (v : Knot) → ReadAtSome (λ n. (read_level knot n).IsReadAs v t unconstrained) (within.IsReadAs v t unconstrained)
within_read t v = {word}_itself_is_read (codes \"{asn1_name}\") {arguments} in_knot inside t unconstrained v

"
    )
}

// The lists of a knot, as the words of its kind take them.
fn own_lists(alloc: Global, circle: Circle<'_>, body: &TypeFile) -> Result<String, AllocError> {
    let type_name = body.plain_name();
    let module = body.module.as_str();
    if circle.is_choice() {
        format!(in alloc;
            "abbrev pub alternatives : (V : Type 0) → Meaning V → Alternatives
alternatives V m = {module}_alternatives m

abbrev pub pick : (V : Type 0) (m : Meaning V) → {type_name} V → OneOf (all_of (alternatives V m))
pick V m v = {module}_pick m v

"
        )
    } else {
        format!(in alloc;
            "abbrev pub components : (V : Type 0) → Meaning V → Components ({type_name} V)
components V m = {module}_components m

"
        )
    }
}

// The records inside a value, and its meaning there.
fn inside_definitions(
    alloc: Global,
    circle: Circle<'_>,
    body: &TypeFile,
) -> Result<String, AllocError> {
    let type_name = body.plain_name();
    let asn1_name = circle.asn1_name;
    let word = knot_word(circle);
    let lists = list_arguments(circle);
    let carrier = circle.carrier();
    let writer = circle.writer();
    let written = written_definitions(alloc, circle, body)?;
    let written = written.as_str();
    format!(in alloc;
        "-- the value in the box
abbrev pub in_knot : Knot → {type_name} Knot
in_knot v = (out-Knot v).0.value

{written}abbrev pub knot : KnotOf Knot {type_name}
knot = {word}_knot (codes \"{asn1_name}\") {lists} in_knot inside

-- a value inside another
abbrev pub within : Meaning Knot
within = inner knot

-- a whole value, with these in place of those inside it
abbrev mapped : Knot-F Knot → {type_name} Knot → {type_name} {carrier}
mapped f v = (map-Knot Knot {carrier} {writer} (record f {{ 0 = record f.0 {{ value = v }} }})).0.value

"
    )
}

// The records inside a value, by those that have been written of the values in it.
fn written_definitions(
    alloc: Global,
    circle: Circle<'_>,
    body: &TypeFile,
) -> Result<String, AllocError> {
    let asn1_name = circle.asn1_name;
    let word = knot_word(circle);
    let lists = list_arguments(circle);
    if circle.are_valid {
        let module = body.module.as_str();
        let body_name = body.plain_name();
        format!(in alloc;
            "-- a value inside another, by its records alone
abbrev already : Meaning ValidRecords
already = written_valid ({word}_itself (codes \"{asn1_name}\") {lists})

-- the meaning of the content of a value, by these
abbrev content : {body_name} ValidRecords → ValueMeaning
content = ({word}_knot (codes \"{asn1_name}\") {lists} in_knot (λ _. [])).content ValidRecords already

-- the records inside a value, which are well formed
abbrev write : Knot-F ValidRecords → ValidRecords
write f = valid_records (content f.0.value) (λ accepts. {module}_is_valid already (λ a rs. rs.well_formed a) accepts f.0.value)

abbrev pub folded : Knot → ValidRecords
folded = fold-Knot ValidRecords write

abbrev pub inside : Knot → List Record
inside v = (folded v).records

"
        )
    } else {
        format!(in alloc;
            "-- a value inside another, by its records alone
abbrev already : Meaning (List Record)
already = written ({word}_itself (codes \"{asn1_name}\") {lists})

-- the records inside a value
abbrev write : Knot-F (List Record) → List Record
write f = write_{word} (codes \"{asn1_name}\") {lists} f.0.value

abbrev pub inside : Knot → List Record
inside = fold-Knot (List Record) write

"
        )
    }
}

// The word for the kind of a knot.
fn knot_word(circle: Circle<'_>) -> &'static str {
    if circle.is_choice() {
        "choice"
    } else {
        "sequence"
    }
}

// The lists of a knot, as arguments of the words of its kind.
fn list_arguments(circle: Circle<'_>) -> &'static str {
    if circle.is_choice() {
        "alternatives pick"
    } else {
        "is_sequence components"
    }
}

// The words for the meaning of a knot, for a proof that it is that of what a value is made of, and for the equations in that.
fn meaning_words(circle: Circle<'_>) -> (&'static str, &'static str, &'static str) {
    if circle.is_choice() {
        ("knot_meaning", "knot_is_made", "refl")
    } else {
        ("sequence_knot_meaning", "sequence_is_made", "refl refl")
    }
}

// The laws of a knot, its meaning, and that this is the meaning of what a value is made of.
fn own_meaning(alloc: Global, circle: Circle<'_>, body: &TypeFile) -> Result<String, AllocError> {
    let module = body.module.as_str();
    let type_name = body.plain_name();
    let asn1_name = circle.asn1_name;
    let lists = list_arguments(circle);
    let (meaning, made, same) = meaning_words(circle);
    let unrolled = unrolled_equations(alloc, body)?;
    let unrolled = unrolled.as_str();
    let written = if circle.are_valid {
        "ap (λ rs. rs.records) (fold_out-Knot ValidRecords write v)"
    } else {
        "fold_out-Knot (List Record) write v"
    };
    let valid = valid_lemma(alloc, circle, body)?;
    let valid = valid.as_str();
    format!(in alloc;
        "pub laws : KnotLaws knot
laws = record {{
  of_type = {module}_of_type;
  valid_inside = {module}_valid;
  read_inside = {module}_read_inside;
  records = λ v. {written} ∙ same_records (out-Knot v) (out-Knot v).0.value;
}}

-- The meaning of the type.
abbrev pub meaning : Meaning Knot
meaning = {meaning} (codes \"{asn1_name}\") {lists} in_knot inside laws

unrolled : (v : {type_name} Knot) → MeansTheSame (knot.content Knot within v) (knot.content Knot meaning v)
{unrolled}
-- It is the meaning of what a value is made of.
pub is_made : IsMadeOf in_knot meaning ({module}_meaning meaning)
is_made = {made} (codes \"{asn1_name}\") {lists} in_knot inside laws {same} unrolled
{valid}"
    )
}

// The lemma that each value is valid, if that is so.
fn valid_lemma(alloc: Global, circle: Circle<'_>, body: &TypeFile) -> Result<String, AllocError> {
    if !circle.are_valid {
        return Ok(String::new(alloc));
    }
    let module = body.module.as_str();
    format!(in alloc;
        "
-- Each value is valid.
pub each_is_valid : EachIsValid meaning
each_is_valid accepts v n = all_valid knot (λ _ _ _ h. h) (λ a w. (folded w).well_formed a) (λ m. {module}_is_valid m) n accepts v
"
    )
}

// The proof that a value means the same inside and by itself.
const SAME: &str =
    "record { records = refl; read = λ _. (λ h. h, λ h. h); of_type = (λ h. h, λ h. h); valid = λ _. (λ h. h, λ h. h) }";

// The equations of the proof that what a value is made of means the same inside and by itself.
fn unrolled_equations(alloc: Global, body: &TypeFile) -> Result<String, AllocError> {
    match &body.body {
        TypeBody::Choice(choice) => unrolled_cases(alloc, body, choice),
        _ => {
            let same = SAME;
            format!(in alloc; "unrolled v = {same}\n")
        }
    }
}

// Those for a CHOICE, one for each alternative.
fn unrolled_cases(
    alloc: Global,
    body: &TypeFile,
    choice: &ChoiceType,
) -> Result<String, AllocError> {
    let same = SAME;
    let mut text = String::new(alloc);
    for alternative in &choice.alternatives {
        let own = variant_name(alloc, body, alternative.variant.as_str())?;
        let own = own.as_str();
        let equation = format!(in alloc; "unrolled ({own} v) = {same}\n")?;
        text.push_str(equation.as_str())?;
    }
    Ok(text)
}
