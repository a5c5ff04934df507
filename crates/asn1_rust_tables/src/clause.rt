//! The clauses of the calls of a table.
use crate::definitions::{KeyKind, OpenRow, OpenTable, RowKey};
use asn1_rust_code::Draft;
use std::alloc::AllocError;

/// Brings in what the clauses name.
pub(crate) fn use_words(draft: &mut Draft, table: &OpenTable) -> Result<(), AllocError> {
    draft.use_signs(&["Err", "IfErr", "IfOk", "Ok", "◌≡◌", "◌≢◌", "◌⊎◌"])?;
    draft.use_names(&["AsnType", "Decode"])?;
    draft.use_ghost(
        "ghost use Rattle.asn1_tables.specs.OpenValues.{MayAnswerOf, MemoryRanOut, WritesKept, WritesOpen};",
    )?;
    use_variants(draft, table)
}

/// Appends the clauses of the call that reads.
pub(crate) fn append_read_clause(draft: &mut Draft, table: &OpenTable) -> Result<(), AllocError> {
    draft.line(
        2,
        "// Under the key of a row the value is one of the row's type, under any other key it is the octets.",
    )?;
    draft.line(
        2,
        "ensures row { IfOk result (λ value. elim value as (λ _. Type 0) [",
    )?;
    for row in &table.rows {
        append_row(draft, table, row)?;
    }
    append_other(draft, table)?;
    append_refusal(draft, table)
}

// Appends the clause of the errors of the call that reads.
fn append_refusal(draft: &mut Draft, table: &OpenTable) -> Result<(), AllocError> {
    draft.line(
        2,
        "// An error is one of reading the type of the row under this key, or memory ran out.",
    )?;
    draft.line(2, "ensures refused { IfErr result (λ error.")?;
    for row in &table.rows {
        let key = key_value(draft, table)?;
        let key = key.as_str();
        let own = key_term(draft, table, &row.key)?;
        let definition = row.definition.text.as_str();
        let line = format!(in draft.alloc();
            "(({key} ≡ {own}) × MayAnswerOf R.format ⟦<{definition} as AsnType>⟧.meaning"
        )?;
        draft.line(3, line.as_str())?;
        let line = format!(in draft.alloc();
            "⟦<{definition} as PartialEq>⟧.eq ⟦<{definition} as Decode>⟧.refusals depth octets.now (Err error)) ⊎"
        )?;
        draft.line(3, line.as_str())?;
    }
    draft.line(3, "MemoryRanOut error) }")
}

/// Appends the clause of the call that writes.
pub(crate) fn append_write_clause(draft: &mut Draft, table: &OpenTable) -> Result<(), AllocError> {
    draft.line(
        2,
        "// The value of a row is written under its own type, and the octets under another key as they are.",
    )?;
    draft.line(2, "ensures written { elim self.now as (λ _. Type 0) [")?;
    for row in &table.rows {
        let variant = row.name.as_str();
        let definition = row.definition.text.as_str();
        let line = format!(in draft.alloc();
            "  | variants.{variant} x ↦ WritesOpen R.format ⟦<{definition} as AsnType>⟧.meaning x depth result"
        )?;
        draft.line(2, line.as_str())?;
    }
    draft.line(2, "  | variants.Other other kept ↦ WritesKept kept result")?;
    draft.line(2, "] }")
}

/// Appends the clause of the call that answers the key.
pub(crate) fn append_key_clause(draft: &mut Draft, table: &OpenTable) -> Result<(), AllocError> {
    draft.line(
        2,
        "// The key is that of the row, or the one that was kept.",
    )?;
    draft.line(2, "ensures key { elim self.now as (λ _. Type 0) [")?;
    for row in &table.rows {
        let variant = row.name.as_str();
        let own = key_term(draft, table, &row.key)?;
        let fact = key_fact(draft, table, own.as_str())?;
        let fact = fact.as_str();
        let line = format!(in draft.alloc(); "  | variants.{variant} x ↦ {fact}")?;
        draft.line(2, line.as_str())?;
    }
    let fact = key_fact(draft, table, "other")?;
    let fact = fact.as_str();
    let line = format!(in draft.alloc(); "  | variants.Other other kept ↦ {fact}")?;
    draft.line(2, line.as_str())?;
    draft.line(2, "] }")
}

// The fact that a call answers this key.
fn key_fact(draft: &Draft, table: &OpenTable, key: &str) -> Result<String, AllocError> {
    match &table.key {
        KeyKind::Number(_) => format!(in draft.alloc(); "result ≡ {key}"),
        KeyKind::Arcs => format!(in draft.alloc(); "IfOk result (λ arcs. arcs ≡ {key})"),
    }
}

// Brings in the variants, under a name of their own: a type of a row may have the name of its variant.
fn use_variants(draft: &mut Draft, table: &OpenTable) -> Result<(), AllocError> {
    let crate_name = table.crate_name.as_str();
    let module = table.module.as_str();
    let name = table.name.as_str();
    let line = format!(in draft.alloc();
        "ghost use Rattle.{crate_name}.specs.declared.{module}.{name}.TheVariants as variants;"
    )?;
    draft.use_ghost(line.as_str())
}

// Appends the fact of a variant.
fn append_row(draft: &mut Draft, table: &OpenTable, row: &OpenRow) -> Result<(), AllocError> {
    let variant = row.name.as_str();
    let key = key_value(draft, table)?;
    let key = key.as_str();
    let own = key_term(draft, table, &row.key)?;
    let definition = row.definition.text.as_str();
    let line = format!(in draft.alloc();
        "  | variants.{variant} x ↦ ({key} ≡ {own}) × MayAnswerOf R.format ⟦<{definition} as AsnType>⟧.meaning"
    )?;
    draft.line(2, line.as_str())?;
    let line = format!(in draft.alloc();
        "  ⟦<{definition} as PartialEq>⟧.eq ⟦<{definition} as Decode>⟧.refusals depth octets.now (Ok x)"
    )?;
    draft.line(3, line.as_str())
}

// Appends the fact of other octets, and closes the clause.
fn append_other(draft: &mut Draft, table: &OpenTable) -> Result<(), AllocError> {
    let key = key_value(draft, table)?;
    let key = key.as_str();
    let line = format!(in draft.alloc();
        "  | variants.Other other kept ↦ (other ≡ {key}) × (kept ≡ octets.now)"
    )?;
    draft.line(2, line.as_str())?;
    for row in &table.rows {
        let own = key_term(draft, table, &row.key)?;
        let own = own.as_str();
        let line = format!(in draft.alloc(); "  × ({key} ≢ {own})")?;
        draft.line(3, line.as_str())?;
    }
    draft.line(2, "]) }")
}

// The key that is passed, as a clause has it.
fn key_value(draft: &Draft, table: &OpenTable) -> Result<String, AllocError> {
    let key = table.key_name.as_str();
    match &table.key {
        KeyKind::Number(_) => String::from_str(draft.alloc(), key),
        KeyKind::Arcs => format!(in draft.alloc(); "{key}.now"),
    }
}

// Whether keys are numbers of a type that has some below 0.
fn is_signed(table: &OpenTable) -> bool {
    match &table.key {
        KeyKind::Number(name) => name.as_str().starts_with("i"),
        KeyKind::Arcs => false,
    }
}

// The key of a row, as a clause has it.
fn key_term(draft: &mut Draft, table: &OpenTable, key: &RowKey) -> Result<String, AllocError> {
    let alloc = draft.alloc();
    match key {
        RowKey::Number(number) if !is_signed(table) => format!(in alloc; "{number}"),
        RowKey::Number(number) if *number < 0 => {
            draft.use_signs(&["negsuc"])?;
            let below = number.saturating_add(1).unsigned_abs();
            format!(in alloc; "negsuc {below}")
        }
        RowKey::Number(number) => {
            draft.use_signs(&["pos"])?;
            format!(in alloc; "pos {number}")
        }
        RowKey::Arcs(arcs) => {
            draft.use_signs(&["[]", "◌∷◌"])?;
            let mut term = String::new(alloc);
            for arc in arcs {
                term.push_str(format!(in alloc; "{arc} ∷ ")?.as_str())?;
            }
            term.push_str("[]")?;
            Ok(term)
        }
    }
}
