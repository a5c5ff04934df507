//! The content of an item, as it is written.
ghost use Rattle.asn1_items.specs.Contents.{IsContent, content_of};
ghost use Rattle.asn1_items.specs.Kinds.{content_kind, string_kind};
ghost use Rattle.asn1_items.specs.Numbers.{Appended};
ghost use Rattle.asn1_types.specs.AnyStrings.{content_of_str, octet_kind};
ghost use Rattle.std.specs.Prelude.{◌≡◌, IfOk};

use crate::bits::{append_bits, append_packed_bits};
use crate::kinds::ContentKind;
use crate::numbers::{append_fours, append_integer, append_narrow, append_twos};
use asn1_types::{AnyStr, OctetKind, StringKind};
use asn1_values::Integer;
use std::alloc::{AllocError, Global};

/// The content of an item, borrowed from a value that is written.
#[derive(Clone, Copy, Debug)]
pub enum Content<'a> {
    /// NULL, which has no bytes.
    Null,
    /// A BOOLEAN: 0 or 1.
    Boolean(bool),
    /// An INTEGER: 1 if it is negative and else 0, and its magnitude without leading zeros.
    Number(&'a Integer),
    /// The number of an item of an ENUMERATED type, as an INTEGER.
    Discriminant(isize),
    /// The arcs of an OBJECT IDENTIFIER, four bytes each.
    Arcs(&'a [u32]),
    /// A string: the number of unused bits and the octets of a BIT STRING, four bytes for each unit of a TeletexString, two of a
    /// BMPString, and the octets of the other kinds.
    String(AnyStr<'a>),
}

impl Content<'_> {
    /// The kind of the content.
    #[inline(always)]
    pub fn kind(self) -> ContentKind
        ensures { result ≡ content_kind (content_of self.entry) }
    {
        match self {
            Content::Null => ContentKind::Null,
            Content::Boolean(_) => ContentKind::Boolean,
            Content::Number(_) => ContentKind::Number,
            Content::Discriminant(_) => ContentKind::Discriminant,
            Content::Arcs(_) => ContentKind::Arcs,
            Content::String(string) => kind_of_string(string),
        }
    }

    /// Appends the bytes of the content.
    ///
    /// After an error there are some of them.
    #[inline(always)]
    pub fn append_to(self, bytes: &mut Vec<u8>, alloc: Global) -> Result<(), AllocError>
        ensures appended { IfOk result (λ _.
            Appended (IsContent (content_of self.entry)) bytes.old.items bytes.new.items) }
    {
        match self {
            Content::Null => Ok(()),
            Content::Boolean(value) => bytes.extend_from_slice(&[u8::from(value)]),
            Content::Number(number) => append_integer(bytes, alloc, number),
            Content::Discriminant(number) => append_narrow(bytes, number as i128),
            Content::Arcs(arcs) => append_fours(bytes, arcs),
            Content::String(string) => append_string(bytes, string),
        }
    }
}

/// The kind of a string, as a content.
#[inline(always)]
fn kind_of_string(string: AnyStr<'_>) -> ContentKind
    ensures { result ≡ content_kind (content_of_str string.entry) }
{
    match string {
        AnyStr::Bits(_) | AnyStr::PackedBits(_) => ContentKind::String(StringKind::Bits),
        AnyStr::Octets(kind, _) => kind_of_octets(kind),
        AnyStr::Teletex(_) => ContentKind::String(StringKind::Teletex),
        AnyStr::Bmp(_) => ContentKind::String(StringKind::Bmp),
    }
}

/// The kind of a string whose units are octets, as a content.
#[inline(always)]
pub(crate) fn kind_of_octets(kind: OctetKind) -> ContentKind
    ensures { result ≡ ContentKind.String (string_kind (octet_kind kind)) }
{
    ContentKind::String(StringKind::Octets(kind))
}

/// Appends the bytes of a string.
#[inline(always)]
fn append_string(bytes: &mut Vec<u8>, string: AnyStr<'_>) -> Result<(), AllocError>
    ensures { IfOk result (λ _.
        Appended (IsContent (content_of_str string.entry)) bytes.old.items bytes.new.items) }
{
    match string {
        AnyStr::Bits(bits) => append_bits(bytes, bits),
        AnyStr::PackedBits(bits) => append_packed_bits(bytes, bits),
        AnyStr::Octets(_, octets) => bytes.extend_from_slice(octets),
        AnyStr::Teletex(units) => append_fours(bytes, units),
        AnyStr::Bmp(units) => append_twos(bytes, units),
    }
}
