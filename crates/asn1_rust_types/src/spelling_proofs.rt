//! The proof that a type has one spelling.
use crate::cores::Names;
use crate::proofs::ProofFile;
use crate::spelling_terms::{Terms, TupleStyle, alike_tuple, distinct_tuple, impl_path};
use crate::spellings::Spelling;
use asn1_rust_components::{
    Alternative, ChoiceType, Constructed, RestrictedString, SpellingLaw, TypeBody, TypeFile,
};
use std::alloc::{AllocError, Global};

/// The law of a type each of whose parts has one, with its proof.
pub(crate) fn spelling_of<'a>(
    alloc: Global,
    names: &Names<'a>,
    file: &'a TypeFile,
) -> Result<Spelling, AllocError> {
    let mut terms = Terms::new(alloc, names);
    let answers = match &file.body {
        TypeBody::Sequence(body) => constructed(&mut terms, file, body, SEQUENCE)?,
        TypeBody::Set(body) => constructed(&mut terms, file, body, SET)?,
        TypeBody::Choice(body) => choice(&mut terms, file, body)?,
        TypeBody::RestrictedString(body) => restricted_string(&mut terms, body)?,
        TypeBody::Group(_) | TypeBody::Enumerated(_) => enumeration(&mut terms, file)?,
    };
    finished(terms, file, &answers)
}

// The answers to the two goals, behind lemmas.
#[derive(Drop)]
struct Answers {
    lemmas: String,
    alike: String,
    distinct: String,
}

// A type of components: how it is read, and the reason why its components can be read in a SET if it is one.
#[derive(Clone, Copy)]
struct Kind {
    reader: &'static str,
    ready: &'static str,
}

const SEQUENCE: Kind = Kind {
    reader: "DecodeByIndex",
    ready: "cc",
};

const SET: Kind = Kind {
    reader: "DecodeSetByIndex",
    ready: "refl",
};

// The lemma on components whose default is the empty list.
const PASS_TOGETHER: &str = "\
-- equal lists are empty together
pass_together : {V : Type 0} (eq : V → V → Bool) (vs ws : List V) → pointwise eq vs ws ≡ true → pointwise eq vs [] ≡ pointwise eq ws []
pass_together eq [] [] same = refl
pass_together eq [] (w ∷ ws) same = cc
pass_together eq (v ∷ vs) [] same = cc
pass_together eq (v ∷ vs) (w ∷ ws) same = refl

";

// Brings in the ghost members of traits, each under a name.
fn use_impls(
    terms: &mut Terms<'_, '_>,
    file: &TypeFile,
    impls: &[(&str, &str)],
) -> Result<(), AllocError> {
    for (trait_name, name) in impls {
        let path = impl_path(terms.alloc, file, trait_name)?;
        let name = format!(in terms.alloc; "ghosts as {name}")?;
        terms.uses.add(path.as_str(), &[name.as_str()])?;
    }
    Ok(())
}

// The answers for a SEQUENCE or a SET.
fn constructed<'a>(
    terms: &mut Terms<'_, 'a>,
    file: &'a TypeFile,
    body: &'a Constructed,
    kind: Kind,
) -> Result<Answers, AllocError> {
    let alloc = terms.alloc;
    let Kind { reader, ready } = kind;
    use_impls(
        terms,
        file,
        &[
            ("AsnType", "type"),
            ("PartialEq", "equality"),
            (reader, "reader"),
            ("FieldTable", "table"),
        ],
    )?;
    terms
        .uses
        .add("asn1_slots.proofs.WrittenAlike", &["type_alike"])?;
    terms
        .uses
        .add("asn1_slots.proofs.DistinctSets", &["type_distinct"])?;
    terms
        .uses
        .add("asn1_schema.specs.Words", &["constructed_agrees"])?;
    terms.uses.add("std.proofs.Common", &["refl"])?;
    let parts = terms.components(body.components.as_slice())?;
    let alike = alike_tuple(alloc, parts.as_slice(), TupleStyle::Lines)?;
    let alike = alike.as_str();
    let distinct = distinct_tuple(alloc, parts.as_slice(), TupleStyle::Lines)?;
    let distinct = distinct.as_str();
    Ok(Answers {
        lemmas: lemmas_of(terms)?,
        alike: format!(in alloc;
            "type_alike table.components reader.layout type.meaning equality.eq (λ are. are) constructed_agrees{alike}
    (λ v w. refl)"
        )?,
        distinct: format!(in alloc;
            "type_distinct table.components reader.layout type.meaning (λ are. are) constructed_agrees{distinct}
    (λ kind. {ready})"
        )?,
    })
}

// The lemmas for components.
fn lemmas_of(terms: &mut Terms<'_, '_>) -> Result<String, AllocError> {
    if !terms.has_empty_list {
        return Ok(String::new(terms.alloc));
    }
    terms.uses.add(
        "std.proofs.Common",
        &["◌≡◌", "refl", "Bool", "true", "List", "[]", "◌∷◌"],
    )?;
    terms
        .uses
        .add("std.specs.Cmp.Lexicographic", &["pointwise"])?;
    String::from_str(terms.alloc, PASS_TOGETHER)
}

// The answers for a CHOICE.
fn choice<'a>(
    terms: &mut Terms<'_, 'a>,
    file: &'a TypeFile,
    body: &'a ChoiceType,
) -> Result<Answers, AllocError> {
    let alloc = terms.alloc;
    use_choice(terms, file, body)?;
    let parts = terms.alternatives(body.alternatives.as_slice())?;
    let alike = alike_tuple(alloc, parts.as_slice(), TupleStyle::Lines)?;
    let alike = alike.as_str();
    let distinct = distinct_tuple(alloc, parts.as_slice(), TupleStyle::Lines)?;
    let distinct = distinct.as_str();
    Ok(Answers {
        lemmas: placed(alloc, body.alternatives.as_slice())?,
        alike: format!(in alloc;
            "choice_alike choice.alternatives choice.pick type.meaning equality.eq (comparisons_of reader.cases) choice_agrees{alike}
    (λ v w same. equal_in_case equality.eq reader.cases (reader.case_of v) (reader.case_of w) v w (made-law v) (made-law w)
    (placed v ∙ one_variant the_parts _ (as_values v) (as_values w) same ∙ sym (placed w)) same)"
        )?,
        distinct: format!(in alloc;
            "choice_distinct choice.alternatives choice.pick type.meaning choice_agrees{distinct}"
        )?,
    })
}

// Brings in the names for a CHOICE.
fn use_choice(
    terms: &mut Terms<'_, '_>,
    file: &TypeFile,
    body: &ChoiceType,
) -> Result<(), AllocError> {
    let alloc = terms.alloc;
    use_impls(
        terms,
        file,
        &[
            ("AsnType", "type"),
            ("PartialEq", "equality"),
            ("DecodeChoiceByIndex", "reader"),
            ("Choice", "choice"),
        ],
    )?;
    let reader = impl_path(alloc, file, "DecodeChoiceByIndex")?;
    let reader = reader.as_str();
    let laws = format!(in alloc; "{reader}.Laws")?;
    terms.uses.add(laws.as_str(), &["made-law"])?;
    use_variants(terms, file, body.alternatives.as_slice())?;
    terms.uses.add(
        "asn1_spelling.proofs.ChoicesAlike",
        &["choice_alike", "choice_distinct"],
    )?;
    terms.uses.add(
        "asn1_spelling.proofs.EqualCases",
        &["equal_in_case", "one_variant"],
    )?;
    terms.uses.add(
        "asn1_spelling.specs.Cases",
        &["case_place", "comparisons_of", "variant_place"],
    )?;
    terms
        .uses
        .add("asn1_schema.specs.Words", &["choice_agrees"])?;
    terms
        .uses
        .add("std.proofs.Common", &["◌≡◌", "◌∙◌", "refl", "sym"])
}

// Brings in the variants of a CHOICE, and how a derive sees them.
fn use_variants(
    terms: &mut Terms<'_, '_>,
    file: &TypeFile,
    alternatives: &[Alternative],
) -> Result<(), AllocError> {
    let crate_name = file.crate_name.as_str();
    let module = file.module.as_str();
    let name = file.plain_name();
    let derived = format!(in terms.alloc; "{crate_name}.specs.contracts.{module}.{name}")?;
    terms
        .uses
        .add(derived.as_str(), &["as_values", "the_parts"])?;
    let variants = format!(in terms.alloc;
        "{crate_name}.specs.declared.{module}.{name}.TheVariants"
    )?;
    for alternative in alternatives {
        terms
            .uses
            .add(variants.as_str(), &[alternative.variant.as_str()])?;
    }
    Ok(())
}

// The lemma on the places of alternatives.
fn placed(alloc: Global, alternatives: &[Alternative]) -> Result<String, AllocError> {
    let mut lemma = String::from_str(
        alloc,
        "-- the place of an alternative is that of its variant
placed : (v : _) → case_place reader.cases (reader.case_of v) ≡ variant_place the_parts (as_values v)
",
    )?;
    for alternative in alternatives {
        lemma.push_str("placed (")?;
        lemma.push_str(alternative.variant.as_str())?;
        lemma.push_str(" x) = refl\n")?;
    }
    lemma.push_str("\n")?;
    Ok(lemma)
}

// The answers for a string with constraints, which is in a struct.
fn restricted_string<'a>(
    terms: &mut Terms<'_, 'a>,
    body: &'a RestrictedString,
) -> Result<Answers, AllocError> {
    Ok(Answers {
        lemmas: String::new(terms.alloc),
        alike: terms.content(&body.content)?,
        distinct: terms.search()?,
    })
}

// The answers for an ENUMERATED.
fn enumeration(terms: &mut Terms<'_, '_>, file: &TypeFile) -> Result<Answers, AllocError> {
    let alloc = terms.alloc;
    use_impls(terms, file, &[("AsnType", "type")])?;
    terms
        .uses
        .add("asn1_model.proofs.WrittenAlike", &["alike_if_one"])?;
    terms.uses.add("std.proofs.Common", &["rules"])?;
    Ok(Answers {
        lemmas: String::new(alloc),
        alike: String::from_str(
            alloc,
            "alike_if_one type.meaning (λ v w same. search rules)",
        )?,
        distinct: String::from_str(alloc, "search rules")?,
    })
}

// The law with these answers.
fn finished(
    terms: Terms<'_, '_>,
    file: &TypeFile,
    answers: &Answers,
) -> Result<Spelling, AllocError> {
    let alloc = terms.alloc;
    let lines = terms.uses.lines()?;
    let lines = lines.as_str();
    let crate_name = file.crate_name.as_str();
    let module = file.module.as_str();
    let lemmas = answers.lemmas.as_str();
    let alike = answers.alike.as_str();
    let distinct = answers.distinct.as_str();
    let text = format!(in alloc;
        "-- Equal values are written alike, and in each value the components of a SET have distinct tags.
{lines}use Rattle.{crate_name}.proofs.{module}.{module}_has_one_spelling.Goals as goal

{lemmas}pub returns-clause-alike : goal.returns-clause-alike
returns-clause-alike c =
    {alike}

pub returns-clause-distinct : goal.returns-clause-distinct
returns-clause-distinct c =
    {distinct}
"
    )?;
    let path = format!(in alloc; "proofs/{module}/{module}_has_one_spelling/Answers.antt")?;
    let Terms { premises, .. } = terms;
    Ok(Spelling {
        law: SpellingLaw { premises },
        proof: ProofFile { path, text },
    })
}
