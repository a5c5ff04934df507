//! The kinds of items, of contents and of presence marks, and their bytes.
ghost use Rattle.asn1_items.specs.Kinds.{content_byte, is_mark_byte, item_byte, item_kind_at, mark_kind_byte, scope_byte};
ghost use Rattle.std.specs.Prelude.{◌≡◌, ◌∷◌, []};

use asn1_types::{OctetKind, StringKind};

/// The kind of an item that holds others.
#[derive(Clone, Copy, Debug, PartialEq, Eq)]
pub enum ScopeKind {
    /// A SEQUENCE.
    Sequence,
    /// A SET.
    Set,
    /// A SEQUENCE OF.
    SequenceOf,
    /// A SET OF.
    SetOf,
    /// An explicit tag.
    ExplicitTag,
    /// The chosen alternative of a CHOICE.
    Alternative,
}

impl ScopeKind {
    /// The byte with which an item of the kind begins.
    #[inline(always)]
    pub fn to_byte(self) -> u8
        ensures { result ≡ scope_byte self }
    {
        match self {
            ScopeKind::Sequence => 2,
            ScopeKind::Set => 3,
            ScopeKind::SequenceOf => 4,
            ScopeKind::SetOf => 5,
            ScopeKind::ExplicitTag => 6,
            ScopeKind::Alternative => 7,
        }
    }
}

/// The kind of an item.
#[derive(Clone, Copy, Debug, PartialEq, Eq)]
pub enum ItemKind {
    /// An item of a content.
    Content,
    /// An item that holds others.
    Scope(ScopeKind),
}

impl ItemKind {
    /// The byte with which an item of the kind begins.
    #[inline(always)]
    pub fn to_byte(self) -> u8
        ensures { result ≡ item_byte self }
    {
        match self {
            ItemKind::Content => 1,
            ItemKind::Scope(kind) => kind.to_byte(),
        }
    }

    /// The kind of the items that begin with this byte, and `None` if there is none.
    #[inline(always)]
    pub fn from_byte(byte: u8) -> Option<ItemKind>
        ensures { result ≡ item_kind_at byte }
    {
        match byte {
            1 => Some(ItemKind::Content),
            2 => Some(ItemKind::Scope(ScopeKind::Sequence)),
            3 => Some(ItemKind::Scope(ScopeKind::Set)),
            4 => Some(ItemKind::Scope(ScopeKind::SequenceOf)),
            5 => Some(ItemKind::Scope(ScopeKind::SetOf)),
            6 => Some(ItemKind::Scope(ScopeKind::ExplicitTag)),
            7 => Some(ItemKind::Scope(ScopeKind::Alternative)),
            _ => None,
        }
    }
}

/// The kind of a content.
#[derive(Clone, Copy, Debug, PartialEq, Eq)]
pub enum ContentKind {
    /// A BOOLEAN.
    Boolean,
    /// An INTEGER.
    Number,
    /// The number of an item of an ENUMERATED type.
    Discriminant,
    /// NULL.
    Null,
    /// The arcs of an OBJECT IDENTIFIER.
    Arcs,
    /// A string of this kind.
    String(StringKind),
}

impl ContentKind {
    /// The byte of the kind in a header.
    #[inline(always)]
    pub fn to_byte(self) -> u8
        ensures { result ≡ content_byte self }
    {
        match self {
            ContentKind::Boolean => 1,
            ContentKind::Number => 2,
            ContentKind::Discriminant => 3,
            ContentKind::Null => 4,
            ContentKind::Arcs => 5,
            ContentKind::String(StringKind::Octets(OctetKind::OctetString)) => 6,
            ContentKind::String(
                StringKind::Bits | StringKind::PackedBits | StringKind::NamedBits,
            ) => 7,
            ContentKind::String(StringKind::Octets(OctetKind::Utf8)) => 8,
            ContentKind::String(StringKind::Octets(OctetKind::Visible)) => 9,
            ContentKind::String(StringKind::Octets(OctetKind::General)) => 10,
            ContentKind::String(StringKind::Octets(OctetKind::Graphic)) => 11,
            ContentKind::String(StringKind::Octets(OctetKind::Ia5)) => 12,
            ContentKind::String(StringKind::Octets(OctetKind::Printable)) => 13,
            ContentKind::String(StringKind::Octets(OctetKind::Numeric)) => 14,
            ContentKind::String(StringKind::Teletex) => 15,
            ContentKind::String(StringKind::Bmp) => 16,
        }
    }
}

/// A kind of presence mark.
#[derive(Clone, Copy, Debug)]
pub enum MarkKind {
    /// A component is there.
    Present,
    /// A component is absent.
    Absent,
    /// A group of additions is there, and begins.
    GroupStart,
    /// A group of additions is absent.
    GroupAbsent,
    /// A group of additions ends.
    GroupEnd,
}

impl MarkKind {
    /// The byte of a mark of the kind in the packed form.
    #[inline(always)]
    pub fn to_byte(self) -> u8
        ensures { result ≡ mark_kind_byte self }
    {
        match self {
            MarkKind::Present => 16,
            MarkKind::Absent => 17,
            MarkKind::GroupStart => 18,
            MarkKind::GroupAbsent => 19,
            MarkKind::GroupEnd => 20,
        }
    }

    /// The same byte alone, as a mark is appended.
    #[inline(always)]
    pub fn to_bytes(self) -> &'static [u8]
        ensures { result.now ≡ mark_kind_byte self ∷ [] }
    {
        match self {
            MarkKind::Present => &[16],
            MarkKind::Absent => &[17],
            MarkKind::GroupStart => &[18],
            MarkKind::GroupAbsent => &[19],
            MarkKind::GroupEnd => &[20],
        }
    }

    /// Whether a byte is that of a mark.
    #[inline(always)]
    pub fn is_mark(byte: u8) -> bool
        ensures { result ≡ is_mark_byte byte }
    {
        MarkKind::Present.to_byte() <= byte && byte <= MarkKind::GroupEnd.to_byte()
    }
}
