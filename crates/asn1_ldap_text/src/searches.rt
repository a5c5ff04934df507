//! Searches (RFC 4511, 4.5).
ghost use Rattle.std.specs.Prelude.{◌≡◌, ◌++◌, OnOk};
ghost use Rattle.std.specs.List.{flat_map};
ghost use Rattle.std.specs.String.{string_bytes};
ghost use Rattle.asn1_ldap_text.specs.Searches.{aliases_text, after_blank, base_text, entry_text, limit_text, limits_text, reference_text, search_filter_text, search_request_text, selected_text, selection_text, types_only_text};

use crate::attributes::push_attributes;
use crate::filters::push_filter;
use crate::items::push_item;
use crate::strings::{push_named, push_values, push_word};
use asn1_ldap::{Filter, SearchRequest, SearchRequestDerefAliases, SearchResultEntry};
use asn1_values::{ConstrainedInteger, Integer, OctetString};
use std::alloc::AllocError;
use std::fmt::Write;

/// Appends a request to search.
pub(crate) fn push_search_request(
    text: &mut String,
    request: &SearchRequest,
) -> Result<(), AllocError>
    ensures { OnOk result (string_bytes text.new ≡
        string_bytes text.old ++ search_request_text request.now) }
{
    push_base(text, request)?;
    push_limits(text, request)?;
    push_search_filter(text, &request.filter)?;
    push_selection(text, request.attributes.as_slice())
}

/// Appends the name of the operation, the base object and the scope.
fn push_base(text: &mut String, request: &SearchRequest) -> Result<(), AllocError>
    ensures { OnOk result (string_bytes text.new ≡ string_bytes text.old ++ base_text request.now) }
{
    push_named(
        text,
        "search request: base ",
        request.base_object.as_slice(),
    )?;
    text.push_str(", scope ")?;
    push_item(text, &request.scope)
}

/// Appends how aliases are followed, the limits and whether values are left out, if the request asks for any of these.
fn push_limits(text: &mut String, request: &SearchRequest) -> Result<(), AllocError>
    ensures { OnOk result (string_bytes text.new ≡
        string_bytes text.old ++ limits_text request.now) }
{
    push_aliases(text, request.deref_aliases)?;
    push_limit(text, ", size limit ", &request.size_limit)?;
    push_limit(text, ", time limit ", &request.time_limit)?;
    push_types_only(text, request.types_only)
}

/// Appends how aliases are followed, if they are.
fn push_aliases(text: &mut String, aliases: SearchRequestDerefAliases) -> Result<(), AllocError>
    ensures { OnOk result (string_bytes text.new ≡ string_bytes text.old ++ aliases_text aliases) }
{
    if aliases == SearchRequestDerefAliases::NeverDerefAliases {
        return Ok(());
    }
    text.push_str(", aliases ")?;
    push_item(text, &aliases)
}

/// Appends a limit, if there is one.
fn push_limit(
    text: &mut String,
    label: &str,
    limit: &ConstrainedInteger<0, 2147483647>,
) -> Result<(), AllocError>
    ensures { OnOk result (string_bytes text.new ≡
        string_bytes text.old ++ limit_text label.now limit.now) }
{
    let number = limit.get();
    if *number == Integer::from_i128(0) {
        return Ok(());
    }
    text.push_str(label)?;
    write!(text, "{number}")
}

/// Appends whether values are left out.
fn push_types_only(text: &mut String, types_only: bool) -> Result<(), AllocError>
    ensures { OnOk result (string_bytes text.new ≡
        string_bytes text.old ++ types_only_text types_only) }
{
    if types_only {
        return text.push_str(", types only");
    }
    Ok(())
}

/// Appends the filter of a search.
fn push_search_filter(text: &mut String, filter: &Filter) -> Result<(), AllocError>
    ensures { OnOk result (string_bytes text.new ≡
        string_bytes text.old ++ search_filter_text filter.now) }
{
    text.push_str(", filter ")?;
    push_filter(text, filter)
}

/// Appends the attributes that are asked for, if the request names any.
fn push_selection(text: &mut String, selection: &[OctetString]) -> Result<(), AllocError>
    ensures { OnOk result (string_bytes text.new ≡
        string_bytes text.old ++ selection_text selection.now) }
{
    if selection.is_empty() {
        return Ok(());
    }
    push_selected(text, selection)
}

/// Appends the attributes that are asked for.
fn push_selected(text: &mut String, selection: &[OctetString]) -> Result<(), AllocError>
    ensures { OnOk result (string_bytes text.new ≡
        string_bytes text.old ++ selected_text selection.now) }
{
    text.push_str(", attributes")?;
    push_words(text, selection)
}

/// Appends names without quotes, with a space before each.
fn push_words(text: &mut String, names: &[OctetString]) -> Result<(), AllocError>
    ensures { OnOk result (string_bytes text.new ≡
        string_bytes text.old ++ flat_map after_blank names.now) }
{
    for name in names {
        text.push_str(" ")?;
        push_word(text, name.as_slice())?;
    }
    Ok(())
}

/// Appends an entry that a search found.
pub(crate) fn push_entry(text: &mut String, entry: &SearchResultEntry) -> Result<(), AllocError>
    ensures { OnOk result (string_bytes text.new ≡ string_bytes text.old ++ entry_text entry.now) }
{
    push_named(text, "search entry: name ", entry.object_name.as_slice())?;
    push_attributes(text, entry.attributes.as_slice())
}

/// Appends the URIs at which a search goes on.
pub(crate) fn push_reference(text: &mut String, uris: &[OctetString]) -> Result<(), AllocError>
    ensures { OnOk result (string_bytes text.new ≡
        string_bytes text.old ++ reference_text uris.now) }
{
    text.push_str("search reference:")?;
    push_values(text, uris)
}
