//! ENUMERATED types.
use crate::variants::{same_cases, use_variants};
use asn1_rust_code::{Draft, List, ListStyle, is_in_one_line};
use asn1_rust_components::{
    Enumeration, Item, Table, TypeFile, append_decode, append_encode, append_theorems, append_type,
    owned,
};
use std::alloc::{AllocError, Global};

/// An ENUMERATED with its file.
#[derive(Clone, Copy)]
pub(crate) struct EnumerationSubject<'a> {
    /// The file.
    pub(crate) file: &'a TypeFile,
    /// The type.
    pub(crate) body: &'a Enumeration,
}

/// Appends an ENUMERATED.
pub(crate) fn append_enumeration(
    draft: &mut Draft,
    subject: EnumerationSubject<'_>,
) -> Result<(), AllocError> {
    let name = subject.file.name.as_str();
    append_enum(draft, subject)?;
    append_tables(draft, subject)?;
    append_items(draft, subject)?;
    append_meaning(draft, subject)?;
    append_laws(draft, subject)?;
    append_theorems(draft, subject.file)?;
    append_encode(
        draft,
        name,
        "_constraints",
        "encoder.encode_enumerated(tag, self, name)",
    )?;
    append_decode(
        draft,
        name,
        "_constraints",
        "decoder.decode_enumerated(tag)",
    )
}

// Appends the enum.
fn append_enum(draft: &mut Draft, subject: EnumerationSubject<'_>) -> Result<(), AllocError> {
    let alloc = draft.alloc();
    let summary = subject.file.summary.as_str();
    let name = subject.file.name.as_str();
    draft.text(format!(in alloc;
        "\
/// {summary}
#[derive(Clone, Copy, PartialEq, Eq, Debug)]
pub enum {name} {{
"
    )?)?;
    let mut variants = Vec::new(alloc);
    for item in &subject.body.items {
        let asn1_name = item.name.as_str();
        let number = item.number;
        let variant = item.variant.as_str();
        draft.text(format!(in alloc; "    /// `{asn1_name}({number})`\n    {variant},\n")?)?;
        variants.push(variant)?;
    }
    draft.line(0, "}")?;
    draft.blank()?;
    use_variants(draft, subject.file, variants.as_slice())
}

// Appends the constants with the items.
fn append_tables(draft: &mut Draft, subject: EnumerationSubject<'_>) -> Result<(), AllocError> {
    let name = subject.file.name.as_str();
    let items = subject.body.items.as_slice();
    match subject.body.extension_index {
        None => append_item_table(draft, name, "ITEMS", items),
        Some(index) => {
            let (root, additions) = items.split_at(index.min(items.len()));
            append_item_table(draft, name, "ROOT", root)?;
            append_item_table(draft, name, "ADDITIONS", additions)
        }
    }
}

// Appends a constant with items.
fn append_item_table(
    draft: &mut Draft,
    name: &str,
    constant: &str,
    items: &[Item],
) -> Result<(), AllocError> {
    draft.use_names(&["EnumerationItem"])?;
    let opening = format!(in draft.alloc(); "const {constant}: &[EnumerationItem<{name}>] = &[")?;
    let rows = rows_of(draft.alloc(), name, items)?;
    let list = List {
        opening: opening.as_str(),
        items: rows.as_slice(),
        closing: "];",
        style: ListStyle::Arguments,
    };
    if is_in_one_line(0, &list) {
        draft.list(0, list.opening, list.items, list.closing, list.style)?;
    } else {
        append_rows(draft, list.opening, name, items)?;
    }
    draft.blank()
}

// Items, each in one line.
fn rows_of(alloc: Global, name: &str, items: &[Item]) -> Result<Vec<String>, AllocError> {
    let mut rows = Vec::new(alloc);
    for item in items {
        let variant = item.variant.as_str();
        let number = item.number;
        let asn1_name = item.name.as_str();
        rows.push(format!(in alloc; "({name}::{variant}, {number}, \"{asn1_name}\")")?)?;
    }
    Ok(rows)
}

// Appends a constant with items, a line for each, or more. The brackets of a single item are those of the list.
fn append_rows(
    draft: &mut Draft,
    opening: &str,
    name: &str,
    items: &[Item],
) -> Result<(), AllocError> {
    if let [item] = items {
        let opening = format!(in draft.alloc(); "{opening}(")?;
        return append_row(draft, 0, opening.as_str(), name, item, ")];");
    }
    draft.line(0, opening)?;
    for item in items {
        append_row(draft, 1, "(", name, item, "),")?;
    }
    draft.line(0, "];")
}

// Appends an item of a constant between these brackets.
fn append_row(
    draft: &mut Draft,
    depth: usize,
    opening: &str,
    name: &str,
    item: &Item,
    closing: &str,
) -> Result<(), AllocError> {
    let alloc = draft.alloc();
    let variant = item.variant.as_str();
    let variant = format!(in alloc; "{name}::{variant}")?;
    let number = item.number;
    let number = format!(in alloc; "{number}")?;
    let asn1_name = item.name.as_str();
    let asn1_name = format!(in alloc; "\"{asn1_name}\"")?;
    let parts = [variant.as_str(), number.as_str(), asn1_name.as_str()];
    draft.call(depth, opening, &parts, closing)
}

// Appends `EnumeratedItems`.
fn append_items(draft: &mut Draft, subject: EnumerationSubject<'_>) -> Result<(), AllocError> {
    let name = subject.file.name.as_str();
    let crate_name = subject.file.crate_name.as_str();
    let module = subject.file.module.as_str();
    draft.use_names(&["EnumeratedItems"])?;
    draft.use_words(&["items_of"])?;
    let (constants, term, root, additions) = match subject.body.extension_index {
        None => {
            draft.use_words(&["closed_enumeration"])?;
            (
                "ITEMS",
                "closed_enumeration (items_of ITEMS.now)",
                "ITEMS",
                "None",
            )
        }
        Some(_) => {
            draft.use_words(&["extensible_enumeration"])?;
            (
                "ADDITIONS, ROOT",
                "extensible_enumeration (items_of ROOT.now) (items_of ADDITIONS.now)",
                "ROOT",
                "Some(ADDITIONS)",
            )
        }
    };
    draft.text(format!(in draft.alloc();
        "impl EnumeratedItems for {name} {{
    ghost use Rattle.{crate_name}.specs.declared.{module}.TheConstants.{{{constants}}};

    ghost enumeration = {{ {term} }};

    fn items() -> &'static [EnumerationItem<Self>] {{
        {root}
    }}

    fn added_items() -> Option<&'static [EnumerationItem<Self>]> {{
        {additions}
    }}
}}

"
    )?)
}

// Appends `AsnType`.
fn append_meaning(draft: &mut Draft, subject: EnumerationSubject<'_>) -> Result<(), AllocError> {
    let alloc = draft.alloc();
    let name = subject.file.name.as_str();
    let asn1_name = subject.file.asn1_name.as_str();
    draft.use_words(&["enumeration_type"])?;
    draft.use_names(&["Tag"])?;
    let meaning = format!(in alloc;
        "enumeration_type (codes \"{asn1_name}\") ⟦<{name} as EnumeratedItems>⟧.enumeration ⟦<{name} as PartialEq>⟧.eq"
    )?;
    let tag = owned(draft, "Tag::ENUMERATED")?;
    let identifier = format!(in alloc; "Identifier(Some(\"{asn1_name}\"))")?;
    let arguments = [tag, identifier];
    let table = Table {
        meaning: meaning.as_str(),
        call: "TypeTable::new",
        arguments: arguments.as_slice(),
    };
    append_type(draft, name, &table)
}

// Appends `Enumerated`, the laws of the items.
fn append_laws(draft: &mut Draft, subject: EnumerationSubject<'_>) -> Result<(), AllocError> {
    let name = subject.file.name.as_str();
    draft.use_names(&["Enumerated"])?;
    draft.use_signs(&["refl"])?;
    draft.use_words(&["by_test", "enumeration_agrees"])?;
    let mut variants = Vec::new(draft.alloc());
    for item in &subject.body.items {
        variants.push(item.variant.as_str())?;
    }
    let cases = same_cases(draft.alloc(), variants.as_slice(), " ↦ refl")?;
    draft.text(format!(in draft.alloc();
        "impl Enumerated for {name} {{
    ghost complete = {{ elim [ {cases} ] }};

    ghost lawful = {{ by_test refl }};

    ghost agrees = {{ enumeration_agrees }};
}}

"
    )?)
}
