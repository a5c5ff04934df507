//! An element: identifier octets, length octets and contents octets.
ghost use Rattle.asn1_items.specs.Numbers.{Appended};
ghost use Rattle.asn1_der_items.specs.Elements.{BeginWithElement, Element as ElementView, EndsElement, IsBegun, element_at, element_of};
ghost use Rattle.asn1_der_items.specs.Contents.{HasContents, HasNoContents};
ghost use Rattle.asn1_der_items.specs.Series.{HoldsContents, is_one_element};
ghost use Rattle.asn1_der_items.specs.declared.error.ElementError.TheVariants.{Memory};
ghost use Rattle.asn1_items.specs.Contents.{content_of};
ghost use Rattle.std.specs.Prelude.{◌≡◌, ◌≢◌, IfErr, IfOk, IsOk, Some, false};

use crate::contents::append_contents;
use crate::error::ElementError;
use crate::identifiers::{append_identifier, read_identifier};
use crate::lengths::{read_length, write_length};
use asn1_items::{Content, ItemError};
use asn1_tags::Tag;
use std::alloc::{AllocError, Global};

/// An element that was read.
#[derive(Clone, Copy, Debug)]
pub struct Element<'a> {
    /// The tag.
    pub tag: Tag,
    /// Whether it holds other elements, and no primitive contents.
    pub constructed: bool,
    /// The contents octets.
    pub contents: &'a [u8],
    /// The bytes after the element.
    pub rest: &'a [u8],
}

/// The element with which the bytes begin. Nothing is copied or reserved by the length that it tells.
///
/// # Errors
/// [`ItemError::Missing`] where the bytes end before the element does, with the number of bytes that are missing of the part
/// that is read; and [`ItemError::Malformed`] where the number of the tag is 2^32 or more or not the shortest, and where the
/// length is indefinite, 2^64 or more, or not the shortest.
#[inline(always)]
pub fn find_element(bytes: &[u8]) -> Result<Element<'_>, ItemError>
    ensures only { IfOk result (λ e. element_at bytes.now ≡ Some (element_of e)) }
    ensures element { IfOk result (λ e. BeginWithElement (element_of e) bytes.now) }
    ensures found { (e : ElementView) → element_at bytes.now ≡ Some e → IsOk result }
{
    let identifier = read_identifier(bytes)?;
    let length = read_length(identifier.rest)?;
    let size = length.number as usize;
    let Some((contents, rest)) = length.rest.split_at_checked(size) else {
        return Err(ItemError::Missing(size - length.rest.len()));
    };
    Ok(Element {
        tag: identifier.tag,
        constructed: identifier.constructed,
        contents,
        rest,
    })
}

/// Whether the bytes are one element, and nothing else.
pub fn is_one_element(bytes: &[u8]) -> bool
    ensures { result ≡ is_one_element bytes.now }
{
    match find_element(bytes) {
        Ok(element) => element.rest.is_empty(),
        Err(_) => false,
    }
}

/// Begins an element: appends its identifier octets, and an octet in the place of its length. Its contents octets are to follow, and
/// then [`end_element`].
///
/// # Errors
/// If memory runs out. Some of the octets may have been appended then.
#[inline(always)]
pub fn begin_element(bytes: &mut Vec<u8>, tag: Tag, constructed: bool) -> Result<(), AllocError>
    ensures { IfOk result (λ _.
        Appended (IsBegun tag constructed) bytes.old.items bytes.new.items) }
{
    append_identifier(bytes, tag, constructed)?;
    bytes.push(0)?;
    Ok(())
}

/// Ends the element whose contents octets are the bytes from an index on, and writes its length. They are moved only where the length
/// has more than one octet.
///
/// # Errors
/// [`ElementError::Memory`], and [`ElementError::NotOpen`] where there are fewer bytes. After an error nothing is promised about
/// the bytes.
#[inline(always)]
pub fn end_element(bytes: &mut Vec<u8>, start: usize) -> Result<(), ElementError>
    ensures { EndsElement start bytes.old.items bytes.new.items result }
{
    write_length(bytes, start)
}

/// Appends an element of a content: its tag, the length, and the contents octets.
///
/// # Errors
/// [`ElementError::Memory`]; and [`ElementError::NoSuchArcs`] and [`ElementError::WideUnit`] for a content that has no contents
/// octets. After an error nothing is promised about the bytes.
#[inline(always)]
pub fn append_primitive(
    bytes: &mut Vec<u8>,
    alloc: Global,
    tag: Tag,
    content: Content<'_>,
) -> Result<(), ElementError>
    ensures appended { IfOk result (λ _.
        Appended (HoldsContents (HasContents (content_of content.entry)) tag false)
        bytes.old.items bytes.new.items) }
    ensures refused { IfErr result (λ e. e ≢ Memory → HasNoContents (content_of content.entry)) }
{
    begin_element(bytes, tag, false)?;
    let start = bytes.len();
    append_contents(bytes, alloc, content)?;
    end_element(bytes, start)
}
