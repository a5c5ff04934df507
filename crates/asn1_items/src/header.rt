//! The header of an item.
ghost use Rattle.asn1_items.specs.Headers.{AreOfHeader, AreOfHeaderAfter, IsHeader, IsHeaderAfter, IsHeaderOf, Meets, from_class, header_at, Header as HeaderView};
ghost use Rattle.asn1_items.specs.declared.kinds.ItemKind.TheVariants as item;
ghost use Rattle.std.specs.Bool.{Decides};
ghost use Rattle.std.specs.Prelude.{◌≡◌, ◌≤◌, IfOk, IsOkAnd, Some, length, true};

use crate::error::ItemError;
use crate::kinds::{ContentKind, ItemKind, ScopeKind};
use asn1_tags::{Class, Tag};

/// The header of an item, and the bytes after it. These have at least the length of the rest of the item if all of it is there.
#[derive(Clone, Copy, Debug)]
pub struct Header<'a> {
    /// The kind.
    pub kind: ItemKind,
    /// The tag.
    pub tag: Tag,
    /// The byte of the kind of content, or 0 of an item that holds others. It need not be the byte of a kind.
    pub content: u8,
    /// How many bytes are inside.
    pub size: u32,
    /// The bytes after the header.
    pub body: &'a [u8],
}

/// The header that a call expects of the next item.
#[derive(Clone, Copy, Debug)]
pub enum ExpectedHeader {
    /// A content of this kind under a tag.
    Content(Tag, ContentKind),
    /// An item of this kind, under a tag, that holds others.
    Scope(ScopeKind, Tag),
    /// The chosen alternative of a CHOICE, under whatever tag.
    Alternative,
    /// Any item.
    Any,
}

impl ExpectedHeader {
    /// Whether the header is the expected one.
    pub fn is_met_by(self, header: Header<'_>) -> bool
        ensures met { (h : HeaderView) → IsHeader header.entry h → Decides result (Meets self h) }
    {
        match self {
            ExpectedHeader::Content(tag, content) => {
                header.kind == ItemKind::Content
                    && header.tag == tag
                    && header.content == content.to_byte()
            }
            ExpectedHeader::Scope(kind, tag) => {
                header.kind == ItemKind::Scope(kind) && header.tag == tag
            }
            ExpectedHeader::Alternative => header.kind == ItemKind::Scope(ScopeKind::Alternative),
            ExpectedHeader::Any => true,
        }
    }
}

/// The header of the item with which the bytes begin.
///
/// # Errors
/// [`ItemError::Missing`] where the bytes end before the header does, with the number of bytes that are missing of the kind or,
/// where that is there, of the rest of the header; [`ItemError::Malformed`] where the kind is none, or the class of the tag.
#[inline(always)]
pub fn find_header(bytes: &[u8]) -> Result<Header<'_>, ItemError>
    ensures found { (h : HeaderView) → header_at bytes.now ≡ Some h →
        IsOkAnd result (λ found. IsHeader found h) }
    ensures only { IfOk result (IsHeaderOf bytes.now) }
    ensures are { IfOk result (AreOfHeader bytes.now) }
    ensures shorter { IfOk result (λ found. length found.body.now ≤ length bytes.now) }
{
    let [byte, rest @ ..] = bytes else {
        return Err(ItemError::Missing(1));
    };
    match ItemKind::from_byte(*byte) {
        Some(ItemKind::Content) => content_header(rest),
        Some(ItemKind::Scope(kind)) => scope_header(kind, rest),
        None => Err(ItemError::Malformed),
    }
}

/// The header of an item of a content, after its kind.
fn content_header(bytes: &[u8]) -> Result<Header<'_>, ItemError>
    ensures found { (h : HeaderView) → from_class item.Content bytes.now ≡ Some h →
        IsOkAnd result (λ found. IsHeader found h) }
    ensures only { IfOk result (IsHeaderAfter item.Content bytes.now) }
    ensures are { IfOk result (AreOfHeaderAfter item.Content bytes.now) }
    ensures shorter { IfOk result (λ found. length found.body.now ≤ length bytes.now) }
{
    let [class, a, b, c, d, content, e, f, g, h, body @ ..] = bytes else {
        return Err(ItemError::Missing(10 - bytes.len()));
    };
    let Some(class) = Class::from_u8(*class) else {
        return Err(ItemError::Malformed);
    };
    Ok(Header {
        kind: ItemKind::Content,
        tag: Tag {
            class,
            value: u32::from_be_bytes([*a, *b, *c, *d]),
        },
        content: *content,
        size: u32::from_be_bytes([*e, *f, *g, *h]),
        body,
    })
}

/// The header of an item that holds others, after its kind.
fn scope_header(kind: ScopeKind, bytes: &[u8]) -> Result<Header<'_>, ItemError>
    ensures found { (h : HeaderView) → from_class (item.Scope kind) bytes.now ≡ Some h →
        IsOkAnd result (λ found. IsHeader found h) }
    ensures only { IfOk result (IsHeaderAfter (item.Scope kind) bytes.now) }
    ensures are { IfOk result (AreOfHeaderAfter (item.Scope kind) bytes.now) }
    ensures shorter { IfOk result (λ found. length found.body.now ≤ length bytes.now) }
{
    let [class, a, b, c, d, e, f, g, h, body @ ..] = bytes else {
        return Err(ItemError::Missing(9 - bytes.len()));
    };
    let Some(class) = Class::from_u8(*class) else {
        return Err(ItemError::Malformed);
    };
    Ok(Header {
        kind: ItemKind::Scope(kind),
        tag: Tag {
            class,
            value: u32::from_be_bytes([*a, *b, *c, *d]),
        },
        content: 0,
        size: u32::from_be_bytes([*e, *f, *g, *h]),
        body,
    })
}
