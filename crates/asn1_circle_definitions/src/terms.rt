//! Files of definitions and proofs.
use asn1_rust_code::{TagNumber, Tagging, class_word, joined};
use std::alloc::{AllocError, Global};

/// The words of the language that files of definitions need, each beside its sign in a text, if that is another.
const PRELUDE: &[(&str, &str)] = &[
    ("≡", "◌≡◌"),
    ("↔", "◌↔◌"),
    ("[]", "[]"),
    ("∷", "◌∷◌"),
    ("ℕ", "ℕ"),
    ("⊤", "⊤"),
    ("All", "All"),
    ("Bool", "Bool"),
    ("List", "List"),
    ("Option", "Option"),
    ("None", "None"),
    ("Some", "Some"),
    ("Result", "Result"),
    ("codes", "codes"),
    ("flat_map", "flat_map"),
    ("get_or", "get_or"),
    ("pos", "pos"),
    ("false", "false"),
    ("true", "true"),
    ("refl", "refl"),
];

/// The words of proofs, likewise.
const COMMON: &[(&str, &str)] = &[
    ("∙", "◌∙◌"),
    ("ap", "ap"),
    ("arith", "arith"),
    ("rules", "rules"),
    ("subst", "subst"),
    ("sym", "sym"),
];

/// The words for the meaning of types and its laws.
const WORDS: &[&str] = &[
    "Alternatives",
    "ComponentType",
    "Components",
    "ComponentsAreRead",
    "DecodeError",
    "Has",
    "IsMadeOf",
    "IsWellTagged",
    "KnotLaws",
    "KnotOf",
    "Meaning",
    "MeansTheSame",
    "OneOf",
    "ReadAtSome",
    "Reader",
    "ReadsAs",
    "Record",
    "Tag",
    "Vec",
    "addition",
    "addition_with_default",
    "all_of",
    "alternative",
    "application",
    "both_at_all",
    "choice",
    "choice_at_some",
    "choice_itself",
    "choice_itself_is_read",
    "choice_knot",
    "choice_of",
    "chosen_meaning",
    "closed",
    "constraint_set",
    "constructed_type",
    "constructed_type_under",
    "context",
    "each_by",
    "elements_at_some",
    "explicit_tag",
    "explicitly_tagged",
    "extensible",
    "extensible_sequence",
    "first_tag",
    "flat_map-map",
    "head_of_kind",
    "if_some_by",
    "in_additions",
    "in_root",
    "in_turn_at_some",
    "inl",
    "inner",
    "inr",
    "inside_at_some",
    "is_sequence",
    "itself_at_all",
    "knot_is_made",
    "knot_meaning",
    "knot_trees",
    "list_by",
    "list_meaning",
    "name_of",
    "of_first",
    "of_some",
    "option_at_some",
    "optional",
    "own_records",
    "private",
    "read_level",
    "required",
    "rows",
    "same_at_all",
    "same_read",
    "sequence",
    "sequence_is_made",
    "sequence_itself",
    "sequence_itself_is_read",
    "sequence_knot",
    "sequence_knot_meaning",
    "sequence_of",
    "set_meaning",
    "set_of",
    "table_of",
    "tagged",
    "tree_tags",
    "type_level",
    "unconstrained",
    "universal",
    "untagged",
    "valid_level",
    "with_default",
    "with_one",
    "write_choice",
    "write_sequence",
    "written",
];

/// The words of the file on valid values.
const VALIDITY: &[&str] = &[
    "EachIsValid",
    "ValidRecords",
    "ValueMeaning",
    "all_valid",
    "if_some_all",
    "valid_records",
    "written_valid",
];

/// The words that no name in a definition can be, unless it is quoted.
const QUOTED: &[&str] = &[
    "abbrev",
    "axiom",
    "coe",
    "com",
    "data",
    "elim",
    "fcoe",
    "hcom",
    "infix",
    "infixl",
    "infixr",
    "module",
    "mutual",
    "open",
    "package",
    "record",
    "ruleset",
    "tcoe",
    "unfold",
    "unfoldable",
    "unfolding",
];

/// The name of a field, as definitions have it.
pub(crate) fn field_term(alloc: Global, field: &str) -> Result<String, AllocError> {
    if QUOTED.iter().any(|word| *word == field) {
        format!(in alloc; "«{field}»")
    } else {
        String::from_str(alloc, field)
    }
}

/// A file of definitions: a comment, the lines that bring in names, and the rest, with the words that this needs.
pub(crate) fn definitions_file(
    alloc: Global,
    comment: &str,
    uses: &str,
    rest: &str,
) -> Result<String, AllocError> {
    let words = word_lines(alloc, rest)?;
    let words = words.as_str();
    format!(in alloc; "-- {comment}\n{words}{uses}\n{rest}")
}

// The lines that bring in the words that a text needs.
fn word_lines(alloc: Global, text: &str) -> Result<String, AllocError> {
    let spaced = spaced(alloc, text)?;
    let spaced = spaced.as_str();
    let prelude = words_in(alloc, spaced, PRELUDE)?;
    let prelude = use_line(alloc, "Rattle.std.specs.Prelude", prelude.as_slice())?;
    let prelude = prelude.as_str();
    let common = words_in(alloc, spaced, COMMON)?;
    let common = use_line(alloc, "Rattle.std.proofs.Common", common.as_slice())?;
    let common = common.as_str();
    let words = names_in(alloc, spaced, WORDS)?;
    let words = use_line(alloc, "Rattle.asn1_circles.specs.Words", words.as_slice())?;
    let words = words.as_str();
    format!(in alloc; "{prelude}{common}{words}")
}

/// The line that brings in the words on valid values that a text needs.
pub(crate) fn validity_words(
    alloc: Global,
    crate_name: &str,
    text: &str,
) -> Result<String, AllocError> {
    let spaced = spaced(alloc, text)?;
    let words = names_in(alloc, spaced.as_str(), VALIDITY)?;
    let module = format!(in alloc; "Rattle.{crate_name}.specs.Validity")?;
    use_line(alloc, module.as_str(), words.as_slice())
}

// Those of these names that are in a spaced text.
fn names_in(
    alloc: Global,
    spaced: &str,
    names: &[&'static str],
) -> Result<Vec<&'static str>, AllocError> {
    let mut found = Vec::new(alloc);
    for name in names {
        if has_word(alloc, spaced, name)? {
            found.push(*name)?;
        }
    }
    Ok(found)
}

// The words of a table whose signs are in a text.
fn words_in(
    alloc: Global,
    spaced: &str,
    table: &[(&'static str, &'static str)],
) -> Result<Vec<&'static str>, AllocError> {
    let mut words = Vec::new(alloc);
    for (sign, word) in table {
        if has_word(alloc, spaced, sign)? {
            words.push(*word)?;
        }
    }
    Ok(words)
}

/// A line that brings in names of a module; no text if there are none.
pub(crate) fn use_line(alloc: Global, module: &str, names: &[&str]) -> Result<String, AllocError> {
    if names.is_empty() {
        return Ok(String::new(alloc));
    }
    let names = joined(alloc, names, ", ")?;
    let names = names.as_str();
    format!(in alloc; "use {module}.{{{names}}}\n")
}

/// Texts, with an empty line between each two.
pub(crate) fn blocks(alloc: Global, texts: &[String]) -> Result<String, AllocError> {
    let mut all = String::new(alloc);
    for (index, text) in texts.iter().enumerate() {
        if index != 0 {
            all.push_str("\n")?;
        }
        all.push_str(text.as_str())?;
    }
    Ok(all)
}

/// A text with a space between each two words.
pub(crate) fn spaced(alloc: Global, text: &str) -> Result<String, AllocError> {
    let mut spaced = String::from_str(alloc, " ")?;
    for character in text.chars() {
        let is_between = matches!(character, '(' | ')' | '{' | '}' | '.' | ',' | ';' | '\n');
        spaced.push(if is_between { ' ' } else { character })?;
    }
    spaced.push_str(" ")?;
    Ok(spaced)
}

/// Whether a word is in such a text.
pub(crate) fn has_word(alloc: Global, spaced: &str, word: &str) -> Result<bool, AllocError> {
    let wanted = format!(in alloc; " {word} ")?;
    Ok(spaced.split_once(wanted.as_str()).is_some())
}

/// A type under its tag, as a definition has it.
pub(crate) fn tagged_term(
    alloc: Global,
    tagging: Tagging,
    meaning: &str,
) -> Result<String, AllocError> {
    match tagging {
        Tagging::Untagged => format!(in alloc; "(untagged {meaning})"),
        Tagging::Implicit(tag) => {
            let tag = tag_term(alloc, tag)?;
            format!(in alloc; "(tagged {tag} {meaning})")
        }
        Tagging::Explicit(tag) => {
            let tag = tag_term(alloc, tag)?;
            format!(in alloc; "(explicitly_tagged {tag} {meaning})")
        }
    }
}

/// A tag, as a definition has it.
pub(crate) fn tag_term(alloc: Global, tag: TagNumber) -> Result<String, AllocError> {
    let class = class_word(tag.class);
    let number = tag.number;
    format!(in alloc; "({class} {number})")
}
