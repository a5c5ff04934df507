//! Elements in the orders that DER has inside sets.
ghost use Rattle.asn1_buffers.specs.declared.error.WriteError.TheVariants.{Memory};
ghost use Rattle.asn1_der.specs.Scopes.{SortsElements};
ghost use Rattle.asn1_der.specs.Sorting.{AreJoined, ArePieces, AreSorted, IsCutAs, items_or, key_of, piece_cmp};
ghost use Rattle.asn1_der_items.specs.Series.{is_one_element};
ghost use Rattle.std.specs.List.{flat_map};
ghost use Rattle.std.specs.List.Sorted.{IsSorted};
ghost use Rattle.std.specs.Ordering.{is_ge};
ghost use Rattle.std.specs.Prelude.{◌≡◌, ◌++◌, ◌<◌, IfOk, IfSome, IsSomeAnd, IsTrue, List, MatchResult, length, ℕ};

use crate::elements::{bytes_from, is_at_most_one};
use asn1_buffers::WriteError;
use asn1_der_items::find_element;
use asn1_tags::Tag;
use std::alloc::{AllocError, Global};

/// By what elements are sorted.
#[derive(Clone, Copy, Debug, PartialEq, Eq)]
pub(crate) enum Order {
    /// By their tags, as the components of a SET (X.690, 10.3).
    Tags,
    /// As lists of octets, as the elements of a SET OF (X.690, 11.6).
    Encodings,
}

/// An element, and the tag by which it comes before others.
#[derive(Clone, Copy, Debug, PartialEq, Eq, PartialOrd, Ord)]
struct Piece<'a> {
    key: Tag,
    bytes: &'a [u8],
}

/// An element that was cut off, and the bytes after it.
#[derive(Clone, Copy)]
struct Cut<'a> {
    piece: Piece<'a>,
    rest: &'a [u8],
}

/// Sorts the elements of which the bytes consist from an index on. If they are in order they stay as they are, and one element
/// takes no memory.
///
/// # Errors
/// [`WriteError::Memory`]; and [`WriteError::Rejected`] where there are no such elements. After an error nothing is promised about
/// the bytes.
pub(crate) fn sort_elements(
    alloc: Global,
    bytes: &mut Vec<u8>,
    start: usize,
    order: Order,
) -> Result<(), WriteError>
    ensures { SortsElements order start bytes.old.items bytes.new.items result }
{
    let Some(inside) = bytes_from(bytes, start) else {
        return Err(WriteError::Rejected("nothing is open"));
    };
    if is_at_most_one(inside) {
        return Ok(());
    }
    let Some(sorted) = sorted_elements(alloc, inside, order)? else {
        return Ok(());
    };
    bytes.truncate(start);
    bytes.extend_from_slice(&sorted)?;
    Ok(())
}

/// The elements of which these bytes consist, in their order; or nothing where they are in it as they are.
fn sorted_elements(
    alloc: Global,
    inside: &[u8],
    order: Order,
) -> Result<Option<Vec<u8>>, WriteError>
    ensures { (elements : List (List ℕ)) → AreJoined elements inside.now →
        MatchResult result (λ sorted. AreSorted order elements (items_or inside.now sorted))
        (λ e. e ≡ Memory) }
{
    let mut pieces = split(alloc, inside, order)?;
    if are_in_order(&pieces) {
        return Ok(None);
    }
    pieces.sort()?;
    Ok(Some(joined(alloc, &pieces)?))
}

/// Whether no piece comes before the one in front of it.
fn are_in_order(pieces: &[Piece<'_>]) -> bool
    ensures { IsTrue result → IsSorted piece_cmp pieces.now }
{
    pieces.is_sorted_by(may_follow)
}

/// Whether the second piece does not come before the first.
fn may_follow(first: &Piece<'_>, second: &Piece<'_>) -> bool
    ensures { result ≡ is_ge (piece_cmp second.now first.now) }
{
    second.cmp(first).is_ge()
}

/// The elements of which these bytes consist, one after another.
fn split(alloc: Global, inside: &[u8], order: Order) -> Result<Vec<Piece<'_>>, WriteError>
    ensures { (elements : List (List ℕ)) → AreJoined elements inside.now →
        MatchResult result (λ pieces. ArePieces order elements pieces.items) (λ e. e ≡ Memory) }
{
    let mut pieces = Vec::new(alloc);
    let mut left = inside;
    while !left.is_empty() {
        let Some(cut) = first_of(left, order) else {
            return Err(WriteError::Rejected("not an element"));
        };
        if let Err(_) = pieces.push(cut.piece) {
            return Err(WriteError::Memory);
        }
        left = cut.rest;
    }
    Ok(pieces)
}

/// The element with which the bytes begin.
fn first_of(bytes: &[u8], order: Order) -> Option<Cut<'_>>
    ensures found { (own back : List ℕ) → IsTrue (is_one_element own) →
        bytes.now ≡ own ++ back → IsSomeAnd result (IsCutAs order own back) }
    ensures shorter { IfSome result (λ cut. length cut.rest.now < length bytes.now) }
{
    let Ok(element) = find_element(bytes) else {
        return None;
    };
    let Some((own, rest)) = bytes.split_at_checked(bytes.len() - element.rest.len()) else {
        return None;
    };
    Some(Cut {
        piece: Piece {
            key: key_of(element.tag, order),
            bytes: own,
        },
        rest,
    })
}

/// The tag by which an element of this tag comes before others: of a SET OF one and the same.
fn key_of(tag: Tag, order: Order) -> Tag
    ensures { result ≡ key_of order tag }
{
    match order {
        Order::Tags => tag,
        Order::Encodings => Tag::NULL,
    }
}

/// The bytes of these elements, one after another.
fn joined(alloc: Global, pieces: &[Piece<'_>]) -> Result<Vec<u8>, AllocError>
    ensures { IfOk result (λ bytes. bytes.items ≡ flat_map (λ p. p.bytes.now) pieces.now) }
{
    let mut bytes = Vec::new(alloc);
    for piece in pieces {
        bytes.extend_from_slice(piece.bytes)?;
    }
    Ok(bytes)
}
