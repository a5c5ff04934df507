//! The values of DEFAULT.
use crate::components::steps_of;
use crate::enumerations::variant_of;
use crate::integers::{built_in, has_limits, range_of};
use crate::plan::{Plan, has_file};
use asn1_names::Place;
use asn1_resolved::{Range, Schema, Type, TypeKind, Value};
use asn1_rust_code::TypeName;
use asn1_rust_components::{DefaultValue, Usage};
use std::alloc::AllocError;

/// The usage of a component with a DEFAULT. Where the value cannot be carried the component is an option.
pub(crate) fn default_of(
    plan: &mut Plan<'_, '_>,
    value: &Value<'_>,
    definition: &Type<'_>,
    name: &TypeName,
    place: Place,
    is_addition: bool,
) -> Result<Usage, AllocError> {
    if is_outside(plan, value, definition) {
        plan.error(place, "the DEFAULT is outside the range of its type")?;
        return Ok(Usage::Optional);
    }
    if !is_addition && !is_wrapped(plan, definition) {
        let found = carried_default(plan, value, definition, name)?;
        if let Some(usage) = found {
            return Ok(usage);
        }
    }
    plan.warn(
        place,
        "the DEFAULT of this component is not in Rust: it is an option there",
    )?;
    Ok(Usage::Optional)
}

// Whether a value is a number outside the range of its type.
fn is_outside(plan: &Plan<'_, '_>, value: &Value<'_>, definition: &Type<'_>) -> bool {
    match value {
        Value::Integer(number) => {
            let range = base_range(plan, definition);
            let is_low = match range.lower {
                Some(lower) => *number < lower,
                None => false,
            };
            let is_high = match range.upper {
                Some(upper) => upper < *number,
                None => false,
            };
            is_low || is_high
        }
        _ => false,
    }
}

// Whether a component is `Implicit` or `Explicit` in Rust: a type that it refers to has a tag, or its own type has a second one.
fn is_wrapped(plan: &Plan<'_, '_>, definition: &Type<'_>) -> bool {
    let schema = plan.request.schema;
    if has_second_tag(definition) {
        return true;
    }
    let Some(mut last) = next_of(definition) else {
        return false;
    };
    for _ in 0..steps_of(plan) {
        let Some(referred) = schema.types.get(last) else {
            return false;
        };
        match &referred.definition.kind {
            TypeKind::Tagged(_, _) => return !has_file(&referred.definition),
            TypeKind::Reference(index) => last = *index,
            _ => return false,
        }
    }
    false
}

// Whether a type has a tag below its own.
fn has_second_tag(definition: &Type<'_>) -> bool {
    match &definition.kind {
        TypeKind::Tagged(_, inner) => is_tagged(inner),
        _ => false,
    }
}

// Whether a type has a tag.
fn is_tagged(definition: &Type<'_>) -> bool {
    match &definition.kind {
        TypeKind::Tagged(_, _) => true,
        _ => false,
    }
}

// The usage with a default, if its value can be carried.
fn carried_default(
    plan: &Plan<'_, '_>,
    value: &Value<'_>,
    definition: &Type<'_>,
    name: &TypeName,
) -> Result<Option<Usage>, AllocError> {
    match value {
        Value::Boolean(flag) => {
            let word = if *flag { "true" } else { "false" };
            plain_default(plan, word, word, Some(word))
        }
        Value::Integer(number) => integer_default(plan, *number, definition, name),
        Value::Item(item) => item_default(plan, item, definition, name),
        Value::Elements(elements) => {
            if elements.is_empty() {
                return empty_list(plan, name);
            }
            Ok(None)
        }
        _ => Ok(None),
    }
}

// A default that needs no names but a sign.
fn plain_default(
    plan: &Plan<'_, '_>,
    code: &str,
    term: &str,
    sign: Option<&'static str>,
) -> Result<Option<Usage>, AllocError> {
    Ok(Some(Usage::Default(DefaultValue {
        code: plan.text(code)?,
        term: plan.text(term)?,
        sign,
        ghost_line: None,
    })))
}

// The index of the reference that a type is below its tags, if it is one.
#[cycle(next)]
fn next_of(definition: &Type<'_>) -> Option<usize> {
    match &definition.kind {
        TypeKind::Reference(index) => Some(*index),
        TypeKind::Tagged(_, inner) => next_of(inner),
        _ => None,
    }
}

/// The index of the definition that a type is, with references followed at most so many times; `None` if it is no reference.
pub(crate) fn last_index(
    schema: &Schema<'_>,
    definition: &Type<'_>,
    steps: usize,
) -> Option<usize> {
    let mut last = next_of(definition)?;
    for _ in 0..steps {
        let next = match schema.types.get(last) {
            Some(referred) => next_of(&referred.definition),
            None => None,
        };
        match next {
            Some(index) => last = index,
            None => return Some(last),
        }
    }
    Some(last)
}

// The range of an INTEGER below its tags.
#[cycle(range)]
fn range_below_tags(definition: &Type<'_>) -> Range {
    match &definition.kind {
        TypeKind::Tagged(_, inner) => range_below_tags(inner),
        _ => range_of(definition.constraints.as_slice()),
    }
}

// The range of the INTEGER that a type is.
fn base_range(plan: &Plan<'_, '_>, definition: &Type<'_>) -> Range {
    let schema = plan.request.schema;
    match last_index(schema, definition, steps_of(plan)) {
        Some(index) => match schema.types.get(index) {
            Some(referred) => range_below_tags(&referred.definition),
            None => range_below_tags(definition),
        },
        None => range_below_tags(definition),
    }
}

// The variant of an item of an ENUMERATED below its tags.
#[cycle(variants)]
fn variant_below_tags(
    plan: &Plan<'_, '_>,
    definition: &Type<'_>,
    item: &[u8],
) -> Result<Option<String>, AllocError> {
    match &definition.kind {
        TypeKind::Tagged(_, inner) => variant_below_tags(plan, inner, item),
        TypeKind::Enumerated(enumeration) => variant_of(plan, enumeration, item),
        _ => Ok(None),
    }
}

// The variant of an item of the ENUMERATED that a type is.
fn base_variant(
    plan: &Plan<'_, '_>,
    definition: &Type<'_>,
    item: &[u8],
) -> Result<Option<String>, AllocError> {
    let schema = plan.request.schema;
    match last_index(schema, definition, steps_of(plan)) {
        Some(index) => match schema.types.get(index) {
            Some(referred) => variant_below_tags(plan, &referred.definition, item),
            None => Ok(None),
        },
        None => variant_below_tags(plan, definition, item),
    }
}

// A default that is a number.
fn integer_default(
    plan: &Plan<'_, '_>,
    number: i128,
    definition: &Type<'_>,
    name: &TypeName,
) -> Result<Option<Usage>, AllocError> {
    let alloc = plan.alloc;
    let range = base_range(plan, definition);
    let is_unsigned = range.lower == Some(0);
    match built_in(range) {
        Some(_) => {
            if !is_unsigned {
                return Ok(None);
            }
            let text = format!(in alloc; "{number}")?;
            plain_default(plan, text.as_str(), text.as_str(), None)
        }
        None => {
            if has_limits(range).is_some() || number < 0 {
                return Ok(None);
            }
            let type_name = name.text.as_str();
            let code = format!(in alloc; "{type_name}::from_i128({number})")?;
            let term = format!(in alloc; "(pos {number})")?;
            plain_default(plan, code.as_str(), term.as_str(), Some("pos"))
        }
    }
}

// A default that is an item of an ENUMERATED.
fn item_default(
    plan: &Plan<'_, '_>,
    item: &[u8],
    definition: &Type<'_>,
    name: &TypeName,
) -> Result<Option<Usage>, AllocError> {
    let alloc = plan.alloc;
    let variant = base_variant(plan, definition, item)?;
    let (Some(variant), [import]) = (variant, name.imports.as_slice()) else {
        return Ok(None);
    };
    let path = import.path.as_str().trim_start_matches("crate::");
    if import.is_foreign || path == "aliases" {
        return Ok(None);
    }
    let enum_name = import.name.as_str();
    let crate_name = plan.request.crate_name;
    let variant = variant.as_str();
    Ok(Some(Usage::Default(DefaultValue {
        code: format!(in alloc; "{enum_name}::{variant}")?,
        term: format!(in alloc; "{path}_items.{variant}")?,
        sign: None,
        ghost_line: Some(format!(in alloc;
            "ghost use Rattle.{crate_name}.specs.declared.{path}.{enum_name}.TheVariants as {path}_items;"
        )?),
    })))
}

// The type of the elements of a list.
fn element_of(list: &str) -> Option<&str> {
    list.strip_prefix("Vec<")?.strip_suffix(">")
}

// A default that is an empty list.
fn empty_list(plan: &Plan<'_, '_>, name: &TypeName) -> Result<Option<Usage>, AllocError> {
    match element_of(name.text.as_str()) {
        Some(element) => Ok(Some(Usage::EmptyList(plan.plain_type(element)?))),
        None => Ok(None),
    }
}
