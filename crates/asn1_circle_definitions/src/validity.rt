//! The proof that each value of a circle is valid.
use crate::circle::{Circle, elements_of, meaning_term};
use crate::lists::{all_type_uses, definition_uses, variant_name, variant_uses};
use crate::outside::{
    Outside, has_group, is_known, mark, mark_parts, module_at, outside_of, valid_files,
};
use crate::parts::parts_of;
use crate::terms::{blocks, definitions_file, field_term, spaced, validity_words};
use asn1_rust_code::TypeName;
use asn1_rust_components::{Alternative, Component, Held, ListKind, TypeBody, TypeFile, Usage};
use std::alloc::{AllocError, Global};

/// Whether each value of each type in a circle that holds no type of it is valid, as far as is known.
pub fn are_all_valid(alloc: Global, circle: Circle<'_>) -> Result<bool, AllocError> {
    for file in circle.members {
        if has_group(&file.body) {
            return Ok(false);
        }
    }
    let known = valid_files(alloc, circle.surroundings)?;
    for part in parts_of(alloc, circle)? {
        if !is_known(
            alloc,
            circle.surroundings,
            part.definition,
            known.as_slice(),
        )? {
            return Ok(false);
        }
    }
    Ok(true)
}

/// The file that proves that values of the types of a circle are valid if those inside them are.
pub fn validity_file(alloc: Global, circle: Circle<'_>) -> Result<String, AllocError> {
    let outside = needed_files(alloc, circle)?;
    let text = all_lemmas(alloc, circle, outside.as_slice())?;
    let uses = validity_uses(alloc, circle, outside.as_slice(), text.as_str())?;
    let name = circle.name;
    let comment = format!(in alloc;
        "Values of the types in the circle of `{name}` are valid if those inside them are."
    )?;
    definitions_file(alloc, comment.as_str(), uses.as_str(), text.as_str())
}

/// The file with the definitions and lemmas for types that hold themselves, each value of which is valid.
pub const VALIDITY_FILE: &str = "\
-- Types that hold themselves, each value of which is valid.
use Rattle.std.specs.Prelude.{ℕ, zero, suc, Bool, List, Option, None, Some, IfSome}
use Rattle.asn1_circles.specs.Words.{KnotOf, Meaning, Record, valid_level, valid_to, written_value}
pub use Rattle.asn1_schema.specs.components.Alternatives.{ValueMeaning}
pub use Rattle.asn1_schema.specs.model.Premises.{EachIsValid}
use Rattle.asn1_schema.specs.model.WellFormed.{AreWellFormed}

-- the records inside a value, which are well formed
pub record ValidRecords : Type 0 where
  pub records : List Record
  pub well_formed : (accepts : List ℕ → Bool) → AreWellFormed accepts records

-- a value inside another, by these
abbrev pub written_valid : ((V : Type 0) → (V → ValueMeaning) → Meaning V) → Meaning ValidRecords
written_valid itself = itself ValidRecords (λ rs. written_value rs.records)

-- the records of what a value is made of, which are well formed since it is valid
abbrev pub valid_records : (content : ValueMeaning) → ((accepts : List ℕ → Bool) → content.IsValid accepts) → ValidRecords
valid_records content valid = record { records = content.records; well_formed = λ accepts. content.well_formed accepts (valid accepts) }

-- Each value is valid down to each depth, where a value inside another is valid if it is by itself, the records inside each are well
-- formed, and what a value is made of is valid if all inside it are.
pub all_valid : {K : Type 0} {U : Type 0 → Type 0} (k : KnotOf K U) →
    ((means : K → ValueMeaning) (accepts : List ℕ → Bool) (v : K) → (means v).IsValid accepts → (k.itself K means).IsValid accepts v) →
    ((accepts : List ℕ → Bool) (v : K) → AreWellFormed accepts (k.inside v)) →
    ((m : Meaning K) → EachIsValid m → (accepts : List ℕ → Bool) (u : U K) → (k.content K m u).IsValid accepts) →
    (n : ℕ) (accepts : List ℕ → Bool) (v : K) → (valid_to k n).is accepts v
all_valid k itself well made zero accepts v = well accepts v
all_valid k itself well made (suc n) accepts v =
    (well accepts v, made (valid_level k n) (λ a w. itself _ a w (all_valid k itself well made n a w)) accepts (k.of v))

-- a property of each value holds of one that may be absent
pub if_some_all : {X : Type 0} (o : Option X) (P : X → Type 0) → ((x : X) → P x) → IfSome o P
if_some_all None P all = tt
if_some_all (Some x) P all = all x
";

// The indices of the types of the crate that are in a circle or in one of these, each behind those in it.
fn needed_files(alloc: Global, circle: Circle<'_>) -> Result<Vec<usize>, AllocError> {
    let surroundings = circle.surroundings;
    let known = valid_files(alloc, surroundings)?;
    let mut is_needed: Vec<bool> = Vec::new(alloc);
    for _ in surroundings.files {
        is_needed.push(false)?;
    }
    for part in parts_of(alloc, circle)? {
        mark(alloc, surroundings, part.definition, &mut is_needed)?;
    }
    for index in known.iter().rev() {
        if is_needed.get(*index) == Some(&true) {
            if let Some(file) = surroundings.files.get(*index) {
                mark_parts(alloc, surroundings, &file.body, &mut is_needed)?;
            }
        }
    }
    let mut needed: Vec<usize> = Vec::new(alloc);
    for index in &known {
        if is_needed.get(*index) == Some(&true) {
            needed.push(*index)?;
        }
    }
    Ok(needed)
}

// The lines that bring in the names in these lemmas.
fn validity_uses(
    alloc: Global,
    circle: Circle<'_>,
    outside: &[usize],
    text: &str,
) -> Result<String, AllocError> {
    let spaced = spaced(alloc, text)?;
    let lists = definition_uses(alloc, circle, spaced.as_str())?;
    let lists = lists.as_str();
    let types = all_type_uses(alloc, circle)?;
    let types = types.as_str();
    let words = validity_words(alloc, circle.crate_name, text)?;
    let words = words.as_str();
    let mut uses = format!(in alloc; "{words}{lists}{types}")?;
    for index in outside {
        if let Some(file) = circle.surroundings.files.get(*index) {
            let lines = outside_uses(alloc, circle, file)?;
            uses.push_str(lines.as_str())?;
        }
    }
    Ok(uses)
}

// The lines that bring in a type outside: its meaning, its name and its variants. Its own name may be that of a word.
fn outside_uses(alloc: Global, circle: Circle<'_>, file: &TypeFile) -> Result<String, AllocError> {
    let crate_name = circle.crate_name;
    let module = file.module.as_str();
    let name = file.plain_name();
    let variants = variant_uses(alloc, circle, file)?;
    let variants = variants.as_str();
    format!(in alloc;
        "use Rattle.{crate_name}.specs.contracts.{module}.{name}AsnType.TheImpl.{{ghosts as {module}_ghosts}}
use Rattle.{crate_name}.specs.declared.{module}.{name}.{{{name} as {module}_values}}
{variants}"
    )
}

// The lemmas of types outside, and of the types of a circle.
fn all_lemmas(alloc: Global, circle: Circle<'_>, outside: &[usize]) -> Result<String, AllocError> {
    let mut texts = Vec::new(alloc);
    for index in outside {
        if let Some(file) = circle.surroundings.files.get(*index) {
            texts.push(type_lemma(alloc, circle, file, false)?)?;
        }
    }
    for file in circle.members {
        texts.push(type_lemma(alloc, circle, file, true)?)?;
    }
    blocks(alloc, texts.as_slice())
}

// The lemma of a type, which may be one of the circle.
fn type_lemma(
    alloc: Global,
    circle: Circle<'_>,
    file: &TypeFile,
    is_member: bool,
) -> Result<String, AllocError> {
    let module = file.module.as_str();
    let name = file.plain_name();
    let arguments = if is_member { "m each " } else { "" };
    let statement = if is_member {
        format!(in alloc;
            "pub {module}_is_valid : {{T : Type 0}} (m : Meaning T) → EachIsValid m → (accepts : List ℕ → Bool) (v : {name} T) → ({module}_meaning m).IsValid accepts v\n"
        )?
    } else {
        format!(in alloc;
            "{module}_is_valid : (accepts : List ℕ → Bool) (v : {module}_values) → {module}_ghosts.meaning.IsValid accepts v\n"
        )?
    };
    let statement = statement.as_str();
    let equations = equations(alloc, circle, file, arguments)?;
    let equations = equations.as_str();
    format!(in alloc; "{statement}{equations}")
}

// The equations of a lemma with these arguments in front of those of each.
fn equations(
    alloc: Global,
    circle: Circle<'_>,
    file: &TypeFile,
    arguments: &str,
) -> Result<String, AllocError> {
    let module = file.module.as_str();
    match &file.body {
        TypeBody::Choice(choice) => {
            let mut text = String::new(alloc);
            for alternative in &choice.alternatives {
                let equation = alternative_equation(alloc, circle, file, alternative, arguments)?;
                text.push_str(equation.as_str())?;
            }
            Ok(text)
        }
        TypeBody::Sequence(body) => {
            components_equation(alloc, circle, module, body.components.as_slice(), arguments)
        }
        TypeBody::Set(body) => {
            components_equation(alloc, circle, module, body.components.as_slice(), arguments)
        }
        _ => format!(in alloc; "{module}_is_valid {arguments}accepts v = tt\n"),
    }
}

// The equation for an alternative.
fn alternative_equation(
    alloc: Global,
    circle: Circle<'_>,
    file: &TypeFile,
    alternative: &Alternative,
    arguments: &str,
) -> Result<String, AllocError> {
    let own = variant_name(alloc, file, alternative.variant.as_str())?;
    let own = own.as_str();
    let value = value_of(alloc, circle, &alternative.held, &alternative.definition)?;
    let proof = proof_of(alloc, &value, "v")?;
    let proof = proof.as_str();
    let module = file.module.as_str();
    format!(in alloc; "{module}_is_valid {arguments}accepts ({own} v) = {proof}\n")
}

// The equation for components.
fn components_equation(
    alloc: Global,
    circle: Circle<'_>,
    module: &str,
    components: &[Component],
    arguments: &str,
) -> Result<String, AllocError> {
    let mut proof = String::from_str(alloc, "tt")?;
    for component in components.iter().rev() {
        let own = component_proof(alloc, circle, component)?;
        let own = own.as_str();
        let rest = proof.as_str();
        proof = format!(in alloc; "({own}, {rest})")?;
    }
    let proof = proof.as_str();
    format!(in alloc; "{module}_is_valid {arguments}accepts v = {proof}\n")
}

// The proof for a component.
fn component_proof(
    alloc: Global,
    circle: Circle<'_>,
    component: &Component,
) -> Result<String, AllocError> {
    let field = field_term(alloc, component.field.as_str())?;
    let field = field.as_str();
    let own = format!(in alloc; "v.{field}")?;
    let own = own.as_str();
    let value = value_of(alloc, circle, &component.held, &component.definition)?;
    match &component.usage {
        Usage::Required => in_list(alloc, proof_of(alloc, &value, own)?),
        Usage::Default(_) | Usage::EmptyList(_) => {
            let proof = proof_of(alloc, &value, own)?;
            let proof = proof.as_str();
            format!(in alloc; "(λ _. {proof})")
        }
        _ => {
            let predicate = predicate_of(alloc, &value)?;
            let predicate = predicate.as_str();
            let proof = proof_of(alloc, &value, "x")?;
            let proof = proof.as_str();
            format!(in alloc; "if_some_all {own} {predicate} (λ x. {proof})")
        }
    }
}

// A proof in a list: a function is in parentheses.
fn in_list(alloc: Global, proof: String) -> Result<String, AllocError> {
    if proof.starts_with("λ") {
        let proof = proof.as_str();
        format!(in alloc; "({proof})")
    } else {
        Ok(proof)
    }
}

// A value whose proof is wanted.
#[derive(Drop)]
enum Value<'a> {
    // It holds the parameter.
    Held(&'a Held),
    // It is outside the circle, in these lists: of the type of a module of the crate, or of one without parts.
    Outside(Vec<ListKind>, Option<&'a str>),
}

// A value of a component or an alternative.
fn value_of<'a>(
    alloc: Global,
    circle: Circle<'a>,
    held: &'a Option<Held>,
    definition: &'a TypeName,
) -> Result<Value<'a>, AllocError> {
    if let Some(held) = held {
        return Ok(Value::Held(held));
    }
    match outside_of(alloc, circle.surroundings, definition)? {
        Some(Outside { lists, file }) => {
            Ok(Value::Outside(lists, module_at(circle.surroundings, file)))
        }
        None => Ok(Value::Outside(Vec::new(alloc), None)),
    }
}

// The lists of a value.
fn lists_of<'v>(value: &'v Value<'_>) -> &'v [ListKind] {
    match value {
        Value::Held(held) => held.lists.as_slice(),
        Value::Outside(lists, _) => lists.as_slice(),
    }
}

// The proof for a value with this name.
fn proof_of(alloc: Global, value: &Value<'_>, name: &str) -> Result<String, AllocError> {
    let mut element = String::from_str(alloc, name)?;
    let mut binders = String::new(alloc);
    for (index, kind) in lists_of(value).iter().enumerate() {
        let list = elements_of(alloc, *kind, element.as_str())?;
        let list = list.as_str();
        element = format!(in alloc; "(get_or {list} k{index} d{index})")?;
        let binder = format!(in alloc; "λ k{index} d{index} few{index}. ")?;
        binders.push_str(binder.as_str())?;
    }
    let own = element_proof(alloc, value, element.as_str())?;
    let own = own.as_str();
    let binders = binders.as_str();
    format!(in alloc; "{binders}{own}")
}

// The proof for an element below all lists.
fn element_proof(alloc: Global, value: &Value<'_>, element: &str) -> Result<String, AllocError> {
    match value {
        Value::Held(held) => match &held.member {
            Some(module) => {
                let module = module.as_str();
                format!(in alloc; "{module}_is_valid m each accepts {element}")
            }
            None => format!(in alloc; "each accepts {element}"),
        },
        Value::Outside(_, module) => match *module {
            Some(module) => format!(in alloc; "{module}_is_valid accepts {element}"),
            None => String::from_str(alloc, "tt"),
        },
    }
}

// The property that is proved of a value.
fn predicate_of(alloc: Global, value: &Value<'_>) -> Result<String, AllocError> {
    match value {
        Value::Held(held) => {
            let meaning = meaning_term(alloc, held, 0, "m")?;
            let meaning = meaning.as_str();
            format!(in alloc; "({meaning}.IsValid accepts)")
        }
        Value::Outside(lists, module) => outside_predicate(alloc, lists.as_slice(), *module),
    }
}

// The same of one outside the circle.
fn outside_predicate(
    alloc: Global,
    lists: &[ListKind],
    module: Option<&str>,
) -> Result<String, AllocError> {
    let mut predicate = match module {
        Some(module) => format!(in alloc; "({module}_ghosts.meaning.IsValid accepts)")?,
        None => String::from_str(alloc, "(λ _. ⊤)")?,
    };
    for kind in lists.iter().rev() {
        let list = elements_of(alloc, *kind, "l")?;
        let list = list.as_str();
        let inner = predicate.as_str();
        predicate = format!(in alloc; "(λ l. All {inner} {list})")?;
    }
    Ok(predicate)
}
