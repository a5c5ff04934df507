//! The proofs of a circle.
use crate::circle::Circle;
use crate::lists::{type_uses, variant_name};
use crate::terms::definitions_file;
use asn1_rust_components::{ChoiceType, TypeBody, TypeFile};
use std::alloc::{AllocError, Global};

/// The file that proves that a knot is well tagged, and so is what it is made of.
pub fn tags_file(alloc: Global, circle: Circle<'_>, body: &TypeFile) -> Result<String, AllocError> {
    match &body.body {
        TypeBody::Choice(choice) => choice_tags_text(alloc, circle, body, choice),
        _ => sequence_tags_text(alloc, circle, body),
    }
}

// Its text for a CHOICE.
fn choice_tags_text(
    alloc: Global,
    circle: Circle<'_>,
    body: &TypeFile,
    choice: &ChoiceType,
) -> Result<String, AllocError> {
    let comment = tags_comment(alloc, circle)?;
    let uses = choice_uses(alloc, circle, body)?;
    let text = choice_tags(alloc, circle, body, choice)?;
    definitions_file(alloc, comment.as_str(), uses.as_str(), text.as_str())
}

// Its text for a SEQUENCE.
fn sequence_tags_text(
    alloc: Global,
    circle: Circle<'_>,
    body: &TypeFile,
) -> Result<String, AllocError> {
    let comment = tags_comment(alloc, circle)?;
    let uses = sequence_uses(alloc, circle, body)?;
    let text = well_tagged(alloc, circle, body, "")?;
    definitions_file(alloc, comment.as_str(), uses.as_str(), text.as_str())
}

// Its comment.
fn tags_comment(alloc: Global, circle: Circle<'_>) -> Result<String, AllocError> {
    let name = circle.name;
    format!(in alloc; "`{name}` and what it is made of are well tagged.")
}

// The proofs that a knot is well tagged, by this list, and what it is made of.
fn well_tagged(
    alloc: Global,
    circle: Circle<'_>,
    body: &TypeFile,
    lemma: &str,
) -> Result<String, AllocError> {
    let module = body.module.as_str();
    let others = other_lemmas(alloc, circle)?;
    let others = others.as_str();
    let lemmas = if lemma.is_empty() && others.is_empty() {
        String::from_str(alloc, "rules")?
    } else {
        format!(in alloc; "(rules{lemma}{others})")?
    };
    let lemmas = lemmas.as_str();
    format!(in alloc;
        "pub knot_can : IsWellTagged meaning
knot_can = search {lemmas}

pub body_can : IsWellTagged ({module}_meaning meaning)
body_can = search (rules, knot_can{others})
"
    )
}

// The lemmas on types that hold themselves in a circle, a comma in front of each.
fn other_lemmas(alloc: Global, circle: Circle<'_>) -> Result<String, AllocError> {
    let mut text = String::new(alloc);
    for file in circle.members {
        for knot in &file.knots {
            let knot = knot.as_str();
            let lemma = format!(in alloc; ", {knot}_can")?;
            if text.split_once(lemma.as_str()).is_none() {
                text.push_str(lemma.as_str())?;
            }
        }
    }
    Ok(text)
}

// The lines that bring these in.
fn other_uses(alloc: Global, circle: Circle<'_>) -> Result<String, AllocError> {
    let crate_name = circle.crate_name;
    let mut text = String::new(alloc);
    for file in circle.members {
        for knot in &file.knots {
            let knot = knot.as_str();
            let line = format!(in alloc;
                "use Rattle.{crate_name}.proofs.{knot}Tags.{{knot_can as {knot}_can}}\n"
            )?;
            if text.split_once(line.as_str()).is_none() {
                text.push_str(line.as_str())?;
            }
        }
    }
    Ok(text)
}

// The proofs for a CHOICE: the records of each value begin with a tag of its trees.
fn choice_tags(
    alloc: Global,
    circle: Circle<'_>,
    body: &TypeFile,
    choice: &ChoiceType,
) -> Result<String, AllocError> {
    let equations = beginnings(alloc, body, choice)?;
    let equations = equations.as_str();
    let tagged = well_tagged(alloc, circle, body, ", each_begins")?;
    let tagged = tagged.as_str();
    let asn1_name = circle.asn1_name;
    let type_name = body.plain_name();
    let module = body.module.as_str();
    let trees = format!(in alloc;
        "Has (tree_tags (choice (knot_trees (codes \"{asn1_name}\") alternatives pick)))"
    )?;
    let trees = trees.as_str();
    format!(in alloc;
        "begins : (v : {type_name} Knot) → {trees} (first_tag (chosen_meaning (all_of ({module}_alternatives within)) ({module}_pick within v)).records)
{equations}
each_begins : (v : Knot) → {trees} (first_tag (inside v))
each_begins v = subst (λ rs. {trees} (first_tag rs)) (sym (laws.records v)) (begins (out-Knot v).0.value)

{tagged}"
    )
}

// The equations of the tag with which a value begins, one for each alternative.
fn beginnings(alloc: Global, body: &TypeFile, choice: &ChoiceType) -> Result<String, AllocError> {
    let mut text = String::new(alloc);
    for (index, alternative) in choice.alternatives.iter().enumerate() {
        let own = variant_name(alloc, body, alternative.variant.as_str())?;
        let own = own.as_str();
        let equation = format!(in alloc; "begins ({own} v) = ({index}, omega arith, refl)\n")?;
        text.push_str(equation.as_str())?;
    }
    Ok(text)
}

// The lines that bring in the names in the proofs for a CHOICE.
fn choice_uses(alloc: Global, circle: Circle<'_>, body: &TypeFile) -> Result<String, AllocError> {
    let crate_name = circle.crate_name;
    let name = circle.name;
    let module = circle.module;
    let body_module = body.module.as_str();
    let types = type_uses(alloc, circle, body)?;
    let types = types.as_str();
    let others = other_uses(alloc, circle)?;
    let others = others.as_str();
    format!(in alloc;
        "use Rattle.{crate_name}.specs.{name}Lists.{{{body_module}_alternatives, {body_module}_meaning, {body_module}_pick}}
use Rattle.{crate_name}.specs.{name}Meaning.{{alternatives, inside, laws, meaning, pick, within}}
use Rattle.{crate_name}.specs.declared.{module}.{name}.{{{name} as Knot, out-{name} as out-Knot}}
{types}{others}"
    )
}

// The lines that bring in the names in the proofs for a SEQUENCE.
fn sequence_uses(alloc: Global, circle: Circle<'_>, body: &TypeFile) -> Result<String, AllocError> {
    let crate_name = circle.crate_name;
    let name = circle.name;
    let body_module = body.module.as_str();
    let others = other_uses(alloc, circle)?;
    let others = others.as_str();
    format!(in alloc;
        "use Rattle.{crate_name}.specs.{name}Lists.{{{body_module}_meaning}}
use Rattle.{crate_name}.specs.{name}Meaning.{{meaning}}
{others}"
    )
}

/// The answer for the writer of a knot.
pub fn writer_answers(alloc: Global, circle: Circle<'_>) -> Result<String, AllocError> {
    let crate_name = circle.crate_name;
    let name = circle.name;
    let module = circle.module;
    format!(in alloc;
        "use Rattle.asn1_circles.proofs.UnrolledWriting.{{writes_made}}
use Rattle.asn1_circles.specs.Words.{{constraint_set, name_of}}
use Rattle.{crate_name}.specs.{name}Meaning.{{is_made}}
use Rattle.{crate_name}.proofs.{module}.{name}Encode.+{module}.Goals as goal

-- what is written of a value is what is written of what it is made of
pub returns : goal.returns
returns g t c =
    let v = c.args.self.now in
    writes_made g.E.Encoder.writer c.args.encoder.now _ c.encode_with_tag_and_constraints.result
    (is_made.records v c.args.tag (constraint_set c.args.constraints.now) (name_of c.args.name)) (is_made.of_type_back v) (rw c.deref.ensures at c.encode_with_tag_and_constraints.ensures)
"
    )
}

/// The answer for the theorem that each value of a knot is valid, or that one means what it is made of, under this name.
pub fn validity_answer(alloc: Global, circle: Circle<'_>, law: &str) -> Result<String, AllocError> {
    let lemma = if circle.are_valid {
        "each_is_valid"
    } else {
        "is_made"
    };
    let crate_name = circle.crate_name;
    let name = circle.name;
    let module = circle.module;
    format!(in alloc;
        "use Rattle.{crate_name}.specs.{name}Meaning.{{{lemma}}}
use Rattle.{crate_name}.proofs.{module}.{law}.Goals as goal

pub returns : goal.returns
returns c = {lemma}
"
    )
}

/// The answer for the theorem that each value of another type of a circle is valid.
pub fn member_validity_answer(
    alloc: Global,
    circle: Circle<'_>,
    member: &TypeFile,
) -> Result<String, AllocError> {
    let crate_name = circle.crate_name;
    let name = circle.name;
    let module = circle.module;
    let own = member.module.as_str();
    format!(in alloc;
        "use Rattle.{crate_name}.specs.{name}Meaning.{{each_is_valid, meaning}}
use Rattle.{crate_name}.specs.{name}Validity.{{{own}_is_valid}}
use Rattle.{crate_name}.proofs.{module}.each_{own}_is_valid.Goals as goal

pub returns : goal.returns
returns c = {own}_is_valid meaning each_is_valid
"
    )
}

/// The measures of the reader of a knot: less depth is left in each call inside another.
pub fn reader_measures(alloc: Global, circle: Circle<'_>) -> Result<String, AllocError> {
    let crate_name = circle.crate_name;
    let module = circle.module;
    let reader = circle.reader;
    format!(in alloc;
        "use Rattle.std.proofs.Common.{{◌+◌, ◌*◌}}
use Rattle.{crate_name}.proofs.{reader}.+{reader}.Given as goal

abbrev pub decreases-read_{module} : goal.decreases-read_{module}
decreases-read_{module} g l = 2 * g.D.Decoder.reader.depth_left l.decoder.now + 1

abbrev pub decreases-read : goal.decreases-read
decreases-read g l = 2 * l.depth
"
    )
}

// How a knot is well tagged, by what it is made of, the call that reads that, and its clause that nothing else was read.
fn reader_words(circle: Circle<'_>) -> (&'static str, &'static str, &'static str) {
    if circle.is_choice() {
        (
            "λ t _. body_can.1",
            "decode_choice_with",
            "as_component.only",
        )
    } else {
        ("λ t h. (h.0, body_can.1.1)", "decode_sequence_with", "only")
    }
}

/// The answers for the reader of a knot.
pub fn reader_answers(alloc: Global, circle: Circle<'_>) -> Result<String, AllocError> {
    let crate_name = circle.crate_name;
    let name = circle.name;
    let module = circle.module;
    let reader = circle.reader;
    let (tagged, call, only) = reader_words(circle);
    format!(in alloc;
        "use Rattle.std.proofs.Common.{{Err, subst, sym}}
use Rattle.asn1_circles.specs.Words.{{constraint_set}}
use Rattle.{crate_name}.proofs.{name}Tags.{{body_can}}
use Rattle.{crate_name}.specs.{name}Reading.{{ReadsKnot}}
use Rattle.{crate_name}.proofs.{reader}.+{reader}.Goals as goal

pub close_knot-requires : goal.close_knot-requires
close_knot-requires g t c = record {{ tagged = {tagged} }}

pub returns-clause-after_reading : goal.returns-clause-after_reading
returns-clause-after_reading g t c =
    c.close_knot.ensures.after_reading c.args.tag (constraint_set c.args.constraints.now) c.args.decoder.now c.{call}-of.ensures.after_reading

pub returns-clause-read : goal.returns-clause-read
returns-clause-read g t c =
    c.close_knot.ensures.read c.args.tag (constraint_set c.args.constraints.now) c.args.decoder.now c.{call}-of.ensures.read

pub returns-clause-only : goal.returns-clause-only
returns-clause-only g t c =
    c.close_knot.ensures.only c.args.tag (constraint_set c.args.constraints.now) c.args.decoder.now c.{call}-of.ensures.{only}

pub read-returns : goal.read-returns
read-returns g t c =
    let after = c.in-Err.ensures.after_reading in
    subst (λ e. ReadsKnot g.D.Decoder.reader c.args.at c.args.inside.now c.read_{module}.new.decoder (Err e)) (sym c.from_error.ensures)
    (record {{ read = c.in-Err.ensures.read; only = tt; same_depth = after.same_depth; failed_as_before = after.failed_as_before }})
"
    )
}
