//! Enums for the tables of object sets.
use crate::choices::new_variant;
use crate::integers::{built_in, is_of_integer, range_of};
use crate::lowering::type_name;
use crate::notation::{quoted_part, text_of};
use crate::plan::Plan;
use crate::printing::knot_names;
use crate::recursion::circles_in_type;
use crate::request::PrintedFile;
use crate::types::{Owner, part_texts};
use crate::written::in_one_line;
use asn1_names::Place;
use asn1_resolved::{Range, Type, TypeKind, Value};
use asn1_resolved_tables::{Row, Table};
use asn1_rust_code::TypeName;
use asn1_rust_names::{TakenNames, snake_case};
use asn1_rust_tables::{KeyKind, OpenRow, OpenTable, RowKey, table_answers, table_file};
use std::alloc::AllocError;

// Names of other arguments and calls of an enum, of what its clauses bind, and words of their language.
const CALL_NAMES: &[&str] = &[
    "abbrev",
    "alloc",
    "axiom",
    "coe",
    "com",
    "data",
    "depth",
    "elim",
    "fcoe",
    "hcom",
    "infix",
    "infixl",
    "infixr",
    "kept",
    "module",
    "mutual",
    "octets",
    "open",
    "other",
    "package",
    "read",
    "record",
    "result",
    "rules",
    "ruleset",
    "tcoe",
    "unfold",
    "unfoldable",
    "unfolding",
    "value",
    "variants",
    "write",
    "x",
];

/// Adds an enum for each table.
pub(crate) fn add_tables(plan: &mut Plan<'_, '_>) -> Result<(), AllocError> {
    let tables = plan.request.tables;
    for table in tables {
        add_table(plan, table)?;
    }
    Ok(())
}

// Adds the enum of a table. If a key does not fit, it has none.
fn add_table(plan: &mut Plan<'_, '_>, table: &Table<'_>) -> Result<(), AllocError> {
    let Some(key) = key_kind(plan, table)? else {
        return plan.warn(
            table.place,
            "a key of this object set is not of its type, or does not fit into 64 bits, so the set has no enum in Rust",
        );
    };
    let name = enum_name(plan, table)?;
    let name = plan.new_name(name.as_str())?;
    let module = plan.new_module(name.as_str())?;
    let rows = rows_of(plan, table, name.as_str())?;
    if rows.is_empty() {
        return Ok(());
    }
    let summary = summary_of(plan, table)?;
    let open = OpenTable {
        page: page_of(plan, summary.as_str())?,
        crate_name: plan.text(plan.request.crate_name)?,
        module: plan.text(module.as_str())?,
        summary,
        key_field: key_field(plan, table)?,
        key_name: key_name(plan, table)?,
        key,
        rows,
        name,
    };
    let text = table_file(plan.alloc, &open)?;
    plan.add_source(module.as_str(), text)?;
    add_answers(plan, &open)?;
    let mut exported = Vec::new(plan.alloc);
    let OpenTable { name, .. } = open;
    exported.push(name)?;
    plan.add_module(module.as_str(), false, exported)
}

// Adds the proof beside the enum of a table.
fn add_answers(plan: &mut Plan<'_, '_>, table: &OpenTable) -> Result<(), AllocError> {
    let module = table.module.as_str();
    let name = table.name.as_str();
    let path = format!(in plan.alloc; "proofs/{module}/{name}/read/Answers.antt")?;
    let text = table_answers(plan.alloc, table)?;
    plan.files.push(PrintedFile { path, text })?;
    Ok(())
}

// The lines at the head of the file.
fn page_of(plan: &Plan<'_, '_>, summary: &str) -> Result<Vec<String>, AllocError> {
    let mut lines = Vec::new(plan.alloc);
    lines.push(plan.text(summary)?)?;
    Ok(lines)
}

// The name of the enum: that of the set; of the column, where its class has several; of the key, where another is UNIQUE; and of the
// alternative, where the key is a CHOICE.
fn enum_name(plan: &Plan<'_, '_>, table: &Table<'_>) -> Result<String, AllocError> {
    let mut name = plan.camel(table.name)?;
    if table.is_one_of_many {
        let column = plan.camel(table.column)?;
        name.push_str(column.as_str())?;
    }
    if table.is_by_other_key {
        let key = plan.camel(table.key)?;
        name.push_str("By")?;
        name.push_str(key.as_str())?;
    }
    if let Some(alternative) = table.alternative {
        let alternative = plan.camel(alternative)?;
        name.push_str(alternative.as_str())?;
    }
    Ok(name)
}

// The name of the field that is the key, with the alternative of its value behind a colon.
fn key_field(plan: &Plan<'_, '_>, table: &Table<'_>) -> Result<String, AllocError> {
    let mut name = text_of(plan.alloc, table.key)?;
    if let Some(alternative) = table.alternative {
        let alternative = text_of(plan.alloc, alternative)?;
        name.push_str(": ")?;
        name.push_str(alternative.as_str())?;
    }
    Ok(name)
}

// The name of the key as an argument, and of the call that answers it.
fn key_name(plan: &Plan<'_, '_>, table: &Table<'_>) -> Result<String, AllocError> {
    let mut names = TakenNames::new(plan.alloc);
    for name in CALL_NAMES {
        let _taken = names.take(name)?;
    }
    let name = plan
        .words
        .separated(table.alternative.unwrap_or(table.key))?;
    let name = snake_case(plan.alloc, name.as_slice())?;
    names.take(name.as_str())
}

// A line on the enum.
fn summary_of(plan: &Plan<'_, '_>, table: &Table<'_>) -> Result<String, AllocError> {
    let alloc = plan.alloc;
    let class = text_of(alloc, table.class)?;
    let class = class.as_str();
    let column = text_of(alloc, table.column)?;
    let column = column.as_str();
    let set = text_of(alloc, table.name)?;
    let set = set.as_str();
    let module = text_of(alloc, table.module)?;
    let module = module.as_str();
    format!(in alloc;
        "A value of `{class}.&{column}`, by the objects of `{set}` of the module `{module}`."
    )
}

// The kind of the keys; `None` if one does not fit.
fn key_kind(plan: &Plan<'_, '_>, table: &Table<'_>) -> Result<Option<KeyKind>, AllocError> {
    let name = integer_name(plan, table);
    let mut is_number = false;
    for row in &table.rows {
        if let Value::Integer(number) = &row.key {
            if !is_of_integer(name, *number) {
                return Ok(None);
            }
            is_number = true;
        }
    }
    Ok(Some(if is_number {
        KeyKind::Number(plan.text(name)?)
    } else {
        KeyKind::Arcs
    }))
}

// The integer of the language for keys that are numbers.
fn integer_name(plan: &Plan<'_, '_>, table: &Table<'_>) -> &'static str {
    built_in(key_range(plan, table)).unwrap_or("i64")
}

// The range of the keys, behind the references to their type.
fn key_range(plan: &Plan<'_, '_>, table: &Table<'_>) -> Range {
    let mut range = range_of(table.key_type.constraints.as_slice());
    let mut next = referred(&table.key_type);
    for _ in 0..plan.request.schema.types.len() {
        let Some(index) = next else {
            break;
        };
        let Some(found) = plan.request.schema.types.get(index) else {
            break;
        };
        range = range_of(found.definition.constraints.as_slice());
        next = referred(&found.definition);
    }
    range
}

// The definition that a type without constraints is a reference to.
fn referred(definition: &Type<'_>) -> Option<usize> {
    match &definition.kind {
        TypeKind::Reference(index) if definition.constraints.is_empty() => Some(*index),
        _ => None,
    }
}

// The rows with their names and types, but for those whose type cannot be printed.
fn rows_of(
    plan: &mut Plan<'_, '_>,
    table: &Table<'_>,
    name: &str,
) -> Result<Vec<OpenRow>, AllocError> {
    let mut rows = Vec::new(plan.alloc);
    let mut names = TakenNames::new(plan.alloc);
    let _other = names.take("Other")?;
    for (index, row) in table.rows.iter().enumerate() {
        if let Some(key) = row_key(plan, &row.key)? {
            let wanted = row_name(plan, row, index)?;
            let wanted = new_variant(plan, wanted.as_bytes(), &mut names)?;
            let written = written(plan, row.place)?;
            let texts = part_texts(plan, name, wanted.as_str(), written.as_str())?;
            if let Some(definition) = cell_name(plan, &row.cell, texts.owner())? {
                rows.push(OpenRow {
                    name: wanted,
                    notation: quoted_part(plan.alloc, written.as_str())?,
                    key,
                    definition,
                })?;
            }
        }
    }
    Ok(rows)
}

// The name of the type of a row; none if it cannot be printed, which is a warning: no definition needs it.
fn cell_name(
    plan: &mut Plan<'_, '_>,
    cell: &Type<'_>,
    owner: Owner<'_>,
) -> Result<Option<TypeName>, AllocError> {
    let circles = circles_in_type(plan, cell)?;
    plan.current_knots = knot_names(plan, circles.as_slice())?;
    let first = plan.problems.len();
    let definition = type_name(plan, cell, owner)?;
    Ok(if plan.lessen_errors(first) {
        None
    } else {
        Some(definition)
    })
}

// The key of a row.
fn row_key(plan: &Plan<'_, '_>, key: &Value<'_>) -> Result<Option<RowKey>, AllocError> {
    Ok(match key {
        Value::Integer(number) => Some(RowKey::Number(*number)),
        Value::ObjectIdentifier(arcs) => {
            Some(RowKey::Arcs(Vec::from_slice(plan.alloc, arcs.as_slice())?))
        }
        _ => None,
    })
}

// The name of a variant: that of the object or of its key, without `id-`, or else its number.
fn row_name(plan: &Plan<'_, '_>, row: &Row<'_>, index: usize) -> Result<String, AllocError> {
    match row.name {
        Some(name) => plan.camel(name.strip_prefix(b"id-").unwrap_or(name)),
        None => {
            let number = index.saturating_add(1);
            format!(in plan.alloc; "Object{number}")
        }
    }
}

// An object as it is written, in one line.
fn written(plan: &Plan<'_, '_>, place: Place) -> Result<String, AllocError> {
    let octets = match plan.request.sources.get(place.text) {
        Some(source) => place.span.octets(source.text),
        None => &[],
    };
    in_one_line(plan.alloc, octets)
}
