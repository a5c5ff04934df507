//! The proofs that the check does not find by itself.
use crate::weights::Weights;
use asn1_rust_code::Tagging;
use asn1_rust_components::{
    Alternative, ChoiceType, Component, Constructed, Tree, TypeBody, TypeFile, Usage,
};
use std::alloc::{AllocError, Global};

/// The greatest number of alternatives whose writer and trees the check proves by itself.
const FEW: usize = 10;

/// The greatest number of alternatives whose trees the check proves by itself if each has a tag of its own.
const SOME: usize = 20;

/// A file with a proof.
#[derive(Drop)]
pub struct ProofFile {
    /// The path in the folder of the crate.
    pub path: String,
    /// The text.
    pub text: String,
}

/// The proofs of a type: those of the trees of a CHOICE with another in it; of the trees and the writer of a CHOICE of many
/// alternatives; of the writer of a CHOICE of one; and of a writer of parts whose types are behind explicit tags, or are heavy.
pub fn proof_files(
    alloc: Global,
    file: &TypeFile,
    weights: &Weights,
) -> Result<Vec<ProofFile>, AllocError> {
    let mut proofs = Vec::new(alloc);
    match &file.body {
        TypeBody::Choice(choice) => {
            push_tree_proofs(alloc, &mut proofs, file, choice)?;
            push_choice_proof(
                alloc,
                &mut proofs,
                file,
                choice.alternatives.as_slice(),
                weights,
            )?;
        }
        TypeBody::Sequence(body) => push_component_proof(alloc, &mut proofs, file, body, weights)?,
        TypeBody::Set(body) => push_component_proof(alloc, &mut proofs, file, body, weights)?,
        TypeBody::Group(body) => push_component_proof(alloc, &mut proofs, file, body, weights)?,
        TypeBody::Enumerated(_) | TypeBody::RestrictedString(_) => {}
    }
    Ok(proofs)
}

// Appends the proof of the writer of alternatives.
fn push_choice_proof(
    alloc: Global,
    proofs: &mut Vec<ProofFile>,
    file: &TypeFile,
    alternatives: &[Alternative],
    weights: &Weights,
) -> Result<(), AllocError> {
    match alternatives {
        // No answer holds of NULL, and the check needs none.
        [only] if only.is_null => Ok(()),
        [only] if needs_answer(file, only) => {
            proofs.push(only_proof(alloc, file, only)?)?;
            Ok(())
        }
        _ => push_arms_proof(alloc, proofs, file, alternatives, weights),
    }
}

// Whether the check may not prove the writer of the only alternative by itself. It does behind an explicit tag, where the answer
// would not hold, and names that are one could not be told apart there.
fn needs_answer(file: &TypeFile, only: &Alternative) -> bool {
    !matches!(only.tagging, Tagging::Explicit(_)) && only.variant.as_str() != file.plain_name()
}

// Appends the proof of the arms of a writer of alternatives.
fn push_arms_proof(
    alloc: Global,
    proofs: &mut Vec<ProofFile>,
    file: &TypeFile,
    alternatives: &[Alternative],
    weights: &Weights,
) -> Result<(), AllocError> {
    let arms = arms_of_choice(alloc, alternatives, weights)?;
    push_writer_proof(alloc, proofs, file, CHOICE, arms.as_slice())
}

// Appends the proof of the writer of components.
fn push_component_proof(
    alloc: Global,
    proofs: &mut Vec<ProofFile>,
    file: &TypeFile,
    body: &Constructed,
    weights: &Weights,
) -> Result<(), AllocError> {
    let arms = arms_of_components(alloc, body.components.as_slice(), weights)?;
    push_writer_proof(alloc, proofs, file, COMPONENTS, arms.as_slice())
}

// Appends the proofs of the trees of a CHOICE.
fn push_tree_proofs(
    alloc: Global,
    proofs: &mut Vec<ProofFile>,
    file: &TypeFile,
    choice: &ChoiceType,
) -> Result<(), AllocError> {
    if choice.alternatives.iter().any(begins_with_choice) {
        proofs.push(tree_proof(alloc, file, TREES)?)?;
    }
    if needs_table_proof(file, choice) {
        proofs.push(tree_proof(alloc, file, TABLE)?)?;
    }
    Ok(())
}

// Whether the check may not prove the table of a CHOICE by itself.
fn needs_table_proof(file: &TypeFile, choice: &ChoiceType) -> bool {
    if choice.alternatives.iter().any(begins_with_choice) {
        return true;
    }
    let count = choice.alternatives.len();
    let is_plain = !has_parameter(file) && !choice.alternatives.iter().any(is_untagged);
    count > SOME || count > FEW && !is_plain
}

/// The proof of the table of a knot that is made of this type; `None` if the check finds it by itself.
pub fn knot_table_proof(
    alloc: Global,
    own: &TypeFile,
    body: &TypeFile,
) -> Result<Option<ProofFile>, AllocError> {
    match &body.body {
        TypeBody::Choice(choice) if needs_table_proof(body, choice) => {
            Ok(Some(tree_proof(alloc, own, TABLE)?))
        }
        _ => Ok(None),
    }
}

// Whether an alternative begins with the tags of a CHOICE.
fn begins_with_choice(alternative: &Alternative) -> bool {
    match alternative.tree {
        Tree::Choice(_) => true,
        Tree::Leaf(_) => false,
    }
}

// Whether an alternative begins with the tags of its type.
fn is_untagged(alternative: &Alternative) -> bool {
    alternative.tagging == Tagging::Untagged
}

// The answer to a goal about the trees of a CHOICE.
#[derive(Clone, Copy)]
struct TreeAnswer {
    trait_name: &'static str,
    function: &'static str,
    goal: &'static str,
    answer: &'static str,
}

const TREES: TreeAnswer = TreeAnswer {
    trait_name: "Choice",
    function: "variants",
    goal: "returns",
    answer: "simp tree_shapes refl",
};

const TABLE: TreeAnswer = TreeAnswer {
    trait_name: "AsnType",
    function: "table",
    goal: "returns-clause-tree",
    answer: "λ tag. rw c.choice.ensures.tree (simp tree_shapes refl)",
};

// The proof of a function about the trees of a CHOICE.
fn tree_proof(alloc: Global, file: &TypeFile, wanted: TreeAnswer) -> Result<ProofFile, AllocError> {
    let TreeAnswer {
        trait_name,
        function,
        goal,
        answer,
    } = wanted;
    let module = file.module.as_str();
    let name = file.plain_name();
    let crate_name = file.crate_name.as_str();
    let arguments = if has_parameter(file) { "g c" } else { "c" };
    Ok(ProofFile {
        path: format!(in alloc; "proofs/{module}/{name}{trait_name}/{function}/Answers.antt")?,
        text: format!(in alloc;
            "use Rattle.std.proofs.Common.{{refl}}
use Rattle.asn1_schema.proofs.Trees.{{tree_shapes}}
use Rattle.{crate_name}.proofs.{module}.{name}{trait_name}.{function}.Goals as goal

-- the trees are those of the alternatives
pub {goal} : goal.{goal}
{goal} {arguments} = {answer}
"
        )?,
    })
}

// Whether a type is one of a circle, which has a parameter.
fn has_parameter(file: &TypeFile) -> bool {
    file.lists.is_some()
}

// An arm of a function that writes parts of a type.
#[derive(Drop)]
struct Arm {
    // The index or the variant of the part.
    place: String,
    // The call, and its clause.
    call: &'static str,
    clause: &'static str,
    // Whether it writes an addition, by reference to an option.
    is_addition: bool,
    // Whether its call is given the name of a type that has the parameter of a circle.
    is_named: bool,
    // Whether the check does not prove it by itself.
    is_answered: bool,
}

// The arms that write alternatives.
fn arms_of_choice(
    alloc: Global,
    alternatives: &[Alternative],
    weights: &Weights,
) -> Result<Vec<Arm>, AllocError> {
    let is_long = alternatives.len() > FEW;
    let mut arms = Vec::new(alloc);
    for alternative in alternatives {
        let (call, clause) = call_of_alternative(alternative);
        let is_plain = !matches!(alternative.tagging, Tagging::Explicit(_));
        let is_named = !is_plain && is_of_parameter(alternative);
        let is_heavy = weights.is_heavy(&alternative.definition);
        arms.push(Arm {
            place: String::from_str(alloc, alternative.variant.as_str())?,
            call,
            clause,
            is_addition: false,
            is_named,
            is_answered: (is_long || is_in_circle(alternative) || is_heavy) && is_plain
                || is_named
                || alternative.definition.is_explicit,
        })?;
    }
    Ok(arms)
}

// Whether the type of an alternative is one of its circle with a parameter.
fn is_in_circle(alternative: &Alternative) -> bool {
    match &alternative.held {
        Some(held) => held.lists.is_empty() && held.member.is_some(),
        None => false,
    }
}

// Whether the type of an alternative is a list in its circle, or one of its types with a parameter.
fn is_of_parameter(alternative: &Alternative) -> bool {
    match &alternative.held {
        Some(held) => !held.lists.is_empty() || held.member.is_some(),
        None => false,
    }
}

// The call that writes an alternative, and its clause.
fn call_of_alternative(alternative: &Alternative) -> (&'static str, &'static str) {
    match alternative.tagging {
        Tagging::Untagged => ("encode", "ensures"),
        Tagging::Implicit(_) => ("encode_with_tag", "ensures"),
        Tagging::Explicit(_) => ("encode_explicit_prefix", "ensures.writes"),
    }
}

// The arms that write components.
fn arms_of_components(
    alloc: Global,
    components: &[Component],
    weights: &Weights,
) -> Result<Vec<Arm>, AllocError> {
    let mut arms = Vec::new(alloc);
    for (index, component) in components.iter().enumerate() {
        let (call, clause) = call_of(component);
        let is_plain = !matches!(component.tagging, Tagging::Explicit(_));
        arms.push(Arm {
            place: format!(in alloc; "{index}")?,
            call,
            clause,
            is_addition: component.is_addition,
            is_named: false,
            is_answered: component.definition.is_explicit
                || is_plain && weights.is_heavy(&component.definition),
        })?;
    }
    Ok(arms)
}

// The call that writes a component, and its clause.
fn call_of(component: &Component) -> (&'static str, &'static str) {
    match &component.usage {
        Usage::Required => call_by_tag(component, ("encode_explicit_prefix", "ensures.writes")),
        Usage::Optional => call_by_tag(component, ("encode_explicit_optional", "ensures")),
        _ => ("encode_default", "ensures"),
    }
}

// The call that writes a component without a default, given that behind a tag of the root.
fn call_by_tag(
    component: &Component,
    explicit: (&'static str, &'static str),
) -> (&'static str, &'static str) {
    match (component.tagging, component.is_addition) {
        (Tagging::Untagged, false) => ("encode", "ensures"),
        (Tagging::Implicit(_), false) => ("encode_with_tag", "ensures"),
        (Tagging::Explicit(_), false) => explicit,
        (Tagging::Explicit(_), true) => {
            ("encode_extension_addition_with_explicit_prefix", "ensures")
        }
        (_, true) => ("encode_extension_addition_with_tag", "ensures"),
    }
}

// A function that writes parts of a type.
#[derive(Clone, Copy)]
struct Writer {
    trait_name: &'static str,
    function: &'static str,
}

const CHOICE: Writer = Writer {
    trait_name: "EncodeChoice",
    function: "encode_alternative",
};

const COMPONENTS: Writer = Writer {
    trait_name: "EncodeFields",
    function: "encode_field",
};

// The proof of the writer of a CHOICE of one alternative, where a match tells nothing of the value.
fn only_proof(alloc: Global, file: &TypeFile, only: &Alternative) -> Result<ProofFile, AllocError> {
    let (call, clause) = call_of_alternative(only);
    let variant = only.variant.as_str();
    let module = file.module.as_str();
    let name = file.plain_name();
    let crate_name = file.crate_name.as_str();
    let value = if has_parameter(file) {
        format!(in alloc; "{{T : Type 0}} (v : {name} T)")?
    } else {
        format!(in alloc; "(v : {name})")?
    };
    let value = value.as_str();
    Ok(ProofFile {
        path: format!(in alloc;
            "proofs/{module}/{name}EncodeChoice/encode_alternative/Answers.antt"
        )?,
        text: format!(in alloc;
            "use Rattle.std.proofs.Common.{{◌≡◌, refl}}
use Rattle.{crate_name}.specs.declared.{module}.{name}.{{{name}}}
use Rattle.{crate_name}.specs.declared.{module}.{name}.TheVariants.{{{variant}}}
use Rattle.{crate_name}.proofs.{module}.{name}EncodeChoice.encode_alternative.Goals as goal

-- a value is of the only alternative
only : {value} → (x : _) × (v ≡ {variant} x)
only ({variant} x) = (x, refl)

pub returns : goal.returns
returns g c = let x = only c.args.self.now in rw x.1 (rw x.1 at c.{call}.{clause})
"
        )?,
    })
}

// Appends the proof of a writer, if the check does not find all of it.
fn push_writer_proof(
    alloc: Global,
    proofs: &mut Vec<ProofFile>,
    file: &TypeFile,
    writer: Writer,
    arms: &[Arm],
) -> Result<(), AllocError> {
    if !arms.iter().any(|arm| arm.is_answered) {
        return Ok(());
    }
    let Writer {
        trait_name,
        function,
    } = writer;
    let module = file.module.as_str();
    let name = file.plain_name();
    let crate_name = file.crate_name.as_str();
    let mut text = format!(in alloc;
        "use Rattle.{crate_name}.proofs.{module}.{name}{trait_name}.{function}.Goals as goal\n"
    )?;
    for (index, arm) in arms.iter().enumerate() {
        if arm.is_answered {
            let answer = answer_of(alloc, arm, &arms[..index])?;
            text.push_str(answer.as_str())?;
        }
    }
    let path = format!(in alloc; "proofs/{module}/{name}{trait_name}/{function}/Answers.antt")?;
    proofs.push(ProofFile { path, text })?;
    Ok(())
}

// The answer for an arm behind others: its call writes the part.
fn answer_of(alloc: Global, arm: &Arm, earlier: &[Arm]) -> Result<String, AllocError> {
    let place = arm.place.as_str();
    let clause = arm.clause;
    let is_first_call = !earlier.iter().any(|other| other.call == arm.call);
    let call = step_name(alloc, arm.call, place, is_first_call)?;
    let call = call.as_str();
    let first = format!(in alloc; "\npub returns-in-{place} : goal.returns-in-{place}\n")?;
    let second = if arm.is_named {
        let identifier = step_name(alloc, "identifier", place, is_first_call)?;
        let identifier = identifier.as_str();
        format!(in alloc;
            "returns-in-{place} g c = rw c.in-{place}.is (rw c.{identifier}.ensures at c.{call}.{clause})\n"
        )?
    } else if arm.is_addition {
        let is_first_option = !earlier.iter().any(|other| other.is_addition);
        let option = step_name(alloc, "as_ref", place, is_first_option)?;
        let option = option.as_str();
        format!(in alloc;
            "returns-in-{place} g c = rw (c.in-{place}.is, ← c.{option}.ensures.value) c.{call}.{clause}\n"
        )?
    } else {
        format!(in alloc; "returns-in-{place} g c = rw c.in-{place}.is c.{call}.{clause}\n")?
    };
    let first = first.as_str();
    let second = second.as_str();
    format!(in alloc; "{first}{second}")
}

// The name of a call in a proof: with the arm that it is in, unless it is the first.
fn step_name(alloc: Global, call: &str, place: &str, is_first: bool) -> Result<String, AllocError> {
    if is_first {
        String::from_str(alloc, call)
    } else {
        format!(in alloc; "{call}-in-{place}")
    }
}
