//! The identifier octets of an element.
ghost use Rattle.asn1_items.specs.Numbers.{Appended};
ghost use Rattle.asn1_der_items.specs.Cuts.{EndEarly, IsMissing};
ghost use Rattle.asn1_der_items.specs.Identifiers.{Identified as IdentifierView, IsIdentifier, form_bit, high_tag_at, identifier_at};
ghost use Rattle.asn1_tags.specs.Tags.{class_number};
ghost use Rattle.std.specs.Prelude.{◌≡◌, ◌+◌, ◌*◌, ◌↔◌, IfErr, IfOk, IsOk, Some};

use crate::base128::{append_base128, read_base128};
use asn1_items::ItemError;
use asn1_tags::{Class, Tag};
use std::alloc::AllocError;

/// The identifier octets that were read, and the bytes after them.
#[derive(Clone, Copy, Debug)]
pub struct Identified<'a> {
    /// The tag.
    pub tag: Tag,
    /// Whether the element holds others, and no primitive contents.
    pub constructed: bool,
    /// The bytes after the identifier octets.
    pub rest: &'a [u8],
}

/// Appends a tag, of a primitive or a constructed element.
#[inline(always)]
pub(crate) fn append_identifier(
    bytes: &mut Vec<u8>,
    tag: Tag,
    constructed: bool,
) -> Result<(), AllocError>
    ensures { IfOk result (λ _.
        Appended (IsIdentifier tag constructed) bytes.old.items bytes.new.items) }
{
    let first = first_octet(tag.class, constructed);
    if tag.value < 31 {
        bytes.push(first + tag.value as u8)?;
        return Ok(());
    }
    bytes.push(first + 31)?;
    append_base128(bytes, u64::from(tag.value))
}

/// The first octet without a number in bits 5 to 1.
#[inline(always)]
fn first_octet(class: Class, constructed: bool) -> u8
    ensures { result ≡ class_number class * 64 + form_bit constructed }
{
    if constructed {
        class as u8 * 64 + 32
    } else {
        class as u8 * 64
    }
}

/// The identifier octets with which the bytes begin (X.690, 8.1.2).
///
/// # Errors
/// [`ItemError::Missing`] where the bytes end before the identifier octets do and others complete them, and
/// [`ItemError::Malformed`] where the number of the tag is 2^32 or more or not the shortest, whatever follows.
#[inline(always)]
pub fn read_identifier(bytes: &[u8]) -> Result<Identified<'_>, ItemError>
    ensures only { IfOk result (λ i. identifier_at bytes.now ≡
        Some (record { tag = i.tag; constructed = i.constructed; rest = i.rest.now })) }
    ensures found { (i : IdentifierView) → identifier_at bytes.now ≡ Some i → IsOk result }
    ensures missing { IfErr result (λ e. IsMissing e ↔ EndEarly identifier_at bytes.now) }
{
    let [first, rest @ ..] = bytes else {
        return Err(ItemError::Missing(1));
    };
    let Some(class) = Class::from_u8(*first / 64) else {
        return Err(ItemError::Malformed);
    };
    let constructed = *first / 32 % 2 == 1;
    let low = *first % 32;
    if low < 31 {
        let value = u32::from(low);
        return Ok(Identified {
            tag: Tag { class, value },
            constructed,
            rest,
        });
    }
    read_high_tag(class, constructed, rest)
}

/// Reads a tag of this class and form: its number, 31 or more, is in these octets, which follow the first.
#[inline(never)]
fn read_high_tag(
    class: Class,
    constructed: bool,
    octets: &[u8],
) -> Result<Identified<'_>, ItemError>
    ensures only { IfOk result (λ i. high_tag_at class constructed octets.now ≡
        Some (record { tag = i.tag; constructed = i.constructed; rest = i.rest.now })) }
    ensures found { (i : IdentifierView) → high_tag_at class constructed octets.now ≡ Some i →
        IsOk result }
    ensures missing { IfErr result (λ e. IsMissing e ↔
        EndEarly (high_tag_at class constructed) octets.now) }
{
    let front = read_base128(octets, 0x200_0000)?;
    match u32::try_from(front.number) {
        Ok(value) if value >= 31 => Ok(Identified {
            tag: Tag { class, value },
            constructed,
            rest: front.rest,
        }),
        _ => Err(ItemError::Malformed),
    }
}
