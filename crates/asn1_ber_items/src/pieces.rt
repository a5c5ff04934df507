//! Strings that are constructed of pieces.
ghost use Rattle.asn1_ber_items.specs.Headers.{header_of};
ghost use Rattle.asn1_ber_items.specs.Pieces.{AreBitPieces, AreOctetPieces, ArePiecesOfBits, BIT_STRING, HaveUnused, OCTET_STRING};
ghost use Rattle.asn1_ber_items.specs.Spellings.{IsDefinite};
ghost use Rattle.asn1_items.specs.declared.error.ItemError.TheVariants.{Memory};
ghost use Rattle.std.specs.Prelude.{◌≡◌, ◌<◌, ◌∷◌, ◌++◌, Decides, IfOk, IsOk, List, MatchResult, length, ℕ};

use crate::header::{Header, read_header};
use crate::normal::check_normal;
use asn1_items::ItemError;
use asn1_tags::Tag;
use std::alloc::Global;

/// The octets of a string that is constructed of pieces (X.690, 8.7.3 and 8.23), nested to any depth, in their normal form, as
/// [`crate::front_element`] gives it.
///
/// # Errors
/// [`ItemError::Memory`]; else the bytes are no such pieces: [`ItemError::Missing`] where they end too early, and otherwise
/// [`ItemError::Malformed`].
pub fn octets_of_pieces(alloc: Global, contents: &[u8]) -> Result<Vec<u8>, ItemError>
    ensures found { (octets : List ℕ) → AreOctetPieces contents.now octets →
        MatchResult result (λ own. own.items ≡ octets) (λ e. e ≡ Memory) }
    ensures only { IfOk result (λ own. AreOctetPieces contents.now own.items) }
{
    check_normal(alloc, contents)?;
    let mut octets = Vec::new(alloc);
    let mut left = contents;
    while !left.is_empty() {
        let header = read_header(left)?;
        if !is_octet_string(header.tag) {
            return Err(ItemError::Malformed);
        }
        if header.constructed {
            left = header.rest;
            continue;
        }
        let piece = primitive_piece(header)?;
        octets.extend_from_slice(piece.contents)?;
        left = piece.rest;
    }
    Ok(octets)
}

/// The contents octets of the primitive form of a bit string that is constructed of pieces (X.690, 8.6.4), nested to any depth: how many
/// bits of the last octet are unused, and the octets. The pieces are in their normal form, as [`crate::front_element`] gives it.
///
/// # Errors
/// [`ItemError::Memory`]; else the bytes are no such pieces: [`ItemError::Missing`] where they end too early, and otherwise
/// [`ItemError::Malformed`].
pub fn bits_of_pieces(alloc: Global, contents: &[u8]) -> Result<Vec<u8>, ItemError>
    ensures found { (unused : ℕ) (octets : List ℕ) → AreBitPieces contents.now unused octets →
        MatchResult result (λ own. own.items ≡ unused ∷ octets) (λ e. e ≡ Memory) }
    ensures only { IfOk result (λ own. ArePiecesOfBits contents.now own.items) }
{
    check_normal(alloc, contents)?;
    let mut bits = Vec::new(alloc);
    bits.extend_from_slice(&[0])?;
    let mut left = contents;
    while !left.is_empty() {
        let header = read_header(left)?;
        if !is_bit_string(header.tag) {
            return Err(ItemError::Malformed);
        }
        if header.constructed {
            left = header.rest;
            continue;
        }
        let piece = primitive_piece(header)?;
        let Some((unused, octets)) = piece.contents.split_first() else {
            return Err(ItemError::Malformed);
        };
        if *unused > 0 {
            if !piece.rest.is_empty() {
                return Err(ItemError::Malformed);
            }
            return with_last(bits, *unused, octets);
        }
        bits.extend_from_slice(octets)?;
        left = piece.rest;
    }
    Ok(bits)
}

/// The bits with the octets of the last piece, of which this many bits are unused.
fn with_last(mut bits: Vec<u8>, unused: u8, octets: &[u8]) -> Result<Vec<u8>, ItemError>
    requires some_octet { 0 < length bits.items }
    requires some_bits { 0 < unused }
    ensures { (whole : List ℕ) → bits.items ≡ 0 ∷ whole → MatchResult result
        (λ own. (own.items ≡ unused ∷ (whole ++ octets.now)) × HaveUnused unused octets.now)
        (λ e. HaveUnused unused octets.now → e ≡ Memory) }
{
    if unused > 7 || octets.is_empty() {
        return Err(ItemError::Malformed);
    }
    bits.extend_from_slice(octets)?;
    bits[0] = unused;
    Ok(bits)
}

/// A primitive piece, and the bytes after it.
#[derive(Clone, Copy)]
struct Piece<'a> {
    /// The contents octets.
    contents: &'a [u8],
    /// The bytes after the piece.
    rest: &'a [u8],
}

/// The primitive piece of this header.
fn primitive_piece(header: Header<'_>) -> Result<Piece<'_>, ItemError>
    ensures found { (contents rest : List ℕ) →
        IsDefinite (header_of header.entry) contents rest → IsOk result }
    ensures only { IfOk result (λ p.
        IsDefinite (header_of header.entry) p.contents.now p.rest.now) }
{
    let Some(size) = header.size else {
        return Err(ItemError::Malformed);
    };
    match header.rest.split_at_checked(size as usize) {
        Some((contents, rest)) => Ok(Piece { contents, rest }),
        None => Err(ItemError::Missing(size as usize - header.rest.len())),
    }
}

/// Whether a tag is that of an OCTET STRING.
fn is_octet_string(tag: Tag) -> bool
    ensures { Decides result (tag ≡ OCTET_STRING) }
{
    tag == Tag::OCTET_STRING
}

/// Whether a tag is that of a BIT STRING.
fn is_bit_string(tag: Tag) -> bool
    ensures { Decides result (tag ≡ BIT_STRING) }
{
    tag == Tag::BIT_STRING
}
