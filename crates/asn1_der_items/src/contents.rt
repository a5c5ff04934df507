//! The contents octets of every kind of content, as they are written.
ghost use Rattle.asn1_der_items.specs.Contents.{HasContents, HasNoContents};
ghost use Rattle.asn1_der_items.specs.declared.error.ElementError.TheVariants.{Memory};
ghost use Rattle.asn1_items.specs.Contents.{content_of};
ghost use Rattle.asn1_items.specs.Numbers.{Appended};
ghost use Rattle.asn1_types.specs.AnyStrings.{content_of_str};
ghost use Rattle.std.specs.Prelude.{◌≡◌, ◌≢◌, IfErr, IfOk, if◌then◌else◌};

use crate::arcs_written::append_arcs;
use crate::error::ElementError;
use crate::integers::{append_integer, append_narrow};
use crate::teletex::append_teletex;
use asn1_items::Content;
use asn1_types::AnyStr;
use std::alloc::Global;

/// Appends the contents octets of a content.
///
/// # Errors
/// [`ElementError::Memory`], after which there may be some of them; and [`ElementError::NoSuchArcs`] and [`ElementError::WideUnit`]
/// for a content that has none.
#[inline(always)]
pub fn append_contents(
    bytes: &mut Vec<u8>,
    alloc: Global,
    content: Content<'_>,
) -> Result<(), ElementError>
    ensures appended { IfOk result (λ _.
        Appended (HasContents (content_of content.entry)) bytes.old.items bytes.new.items) }
    ensures refused { IfErr result (λ e. e ≢ Memory → HasNoContents (content_of content.entry)) }
{
    match content {
        Content::Null => Ok(()),
        Content::Boolean(value) => Ok(bytes.extend_from_slice(&[octet_of(value)])?),
        Content::Number(number) => Ok(append_integer(bytes, alloc, number)?),
        Content::Discriminant(number) => Ok(append_narrow(bytes, number as i128)?),
        Content::Arcs(arcs) => append_arcs(bytes, arcs),
        Content::String(string) => append_string(bytes, alloc, string),
    }
}

/// The octet of a BOOLEAN.
#[inline(always)]
fn octet_of(value: bool) -> u8
    ensures { result ≡ (if value then 255 else 0) }
{
    if value { 255 } else { 0 }
}

/// Appends a string.
#[inline(always)]
fn append_string(bytes: &mut Vec<u8>, alloc: Global, string: AnyStr<'_>) -> Result<(), ElementError>
    ensures appended { IfOk result (λ _.
        Appended (HasContents (content_of_str string.entry)) bytes.old.items bytes.new.items) }
    ensures refused { IfErr result (λ e. e ≢ Memory → HasNoContents (content_of_str string.entry)) }
{
    match string {
        AnyStr::Teletex(units) => append_teletex(bytes, units),
        _ => Ok(Content::String(string).append_to(bytes, alloc)?),
    }
}
