//! The form of elements in BER.
ghost use Rattle.asn1_ber.specs.Bytes.{AreBitsInPieces, HasConstructed, HasPrimitive};
ghost use Rattle.asn1_ber.specs.Form.{AreOnlyOf, IsStringKind};
ghost use Rattle.asn1_ber_items.specs.LooseContents.{AreLooseBits, IsTruthValue};
ghost use Rattle.asn1_der_items.specs.Contents.{HasContents};
ghost use Rattle.asn1_elements.specs.ElementForms.{octets_of};
ghost use Rattle.asn1_items.specs.Kinds.{content_kind};
ghost use Rattle.asn1_items.specs.declared.error.ItemError.TheVariants.{Memory};
ghost use Rattle.asn1_items.specs.declared.kinds.ContentKind.TheVariants as kinds;
ghost use Rattle.asn1_model.specs.Records.{Content, bits, boolean};
ghost use Rattle.asn1_types.specs.declared.any_string.StringKind.TheVariants as strings;
ghost use Rattle.std.specs.Prelude.{◌≡◌, Bool, IfOk, List, MatchResult, OnOk};

use asn1_ber_items::{bits_of_pieces, octets_of_pieces, read_truth_value, strict_bits};
use asn1_bounds::Codec;
use asn1_der_items::ContentOrder;
use asn1_elements::{Contents, ElementForm, ParsedElement};
use asn1_items::{ContentKind, ItemError};
use asn1_types::StringKind;
use std::alloc::Global;

/// The form of elements in BER (X.690, 8): TRUE is any octet but zero, the unused bits of a bit string may be any, a string may be
/// constructed of pieces, and what is inside a set has any order.
pub enum BerForm {}

impl ElementForm for BerForm {
    ghost use Rattle.asn1_ber.specs.Form.{IsFormOf as IsBerFormOf, ber_form, ber_is_lawful_form};
    ghost use Rattle.asn1_bounds.specs.declared.codec.Codec.TheVariants.{Ber};
    ghost use Rattle.std.specs.Prelude.{⊤};

    ghost form = { ber_form };

    ghost IsFormOf = { IsBerFormOf };

    ghost AreInOrder = { λ order inside. ⊤ };

    ghost own_codec = { Ber };

    fn codec() -> Codec {
        Codec::Ber
    }

    fn contents<'a>(
        alloc: Global,
        kind: ContentKind,
        element: ParsedElement<'a>,
    ) -> Result<Contents<'a>, ItemError> {
        if element.constructed {
            whole_string(alloc, kind, element.contents)
        } else {
            strict_contents(alloc, kind, element.contents)
        }
    }

    fn are_in_order(_order: ContentOrder, _inside: &[u8]) -> bool {
        true
    }

    ghost lawful = { ber_is_lawful_form };
}

/// The contents octets, as DER has them, of a content of this kind that has these in a primitive element.
fn strict_contents<'a>(
    alloc: Global,
    kind: ContentKind,
    octets: &'a [u8],
) -> Result<Contents<'a>, ItemError>
    ensures found { (x : Content) → content_kind x ≡ kind → HasPrimitive x octets.now →
        MatchResult result (λ contents. HasContents x (octets_of contents)) (λ e. e ≡ Memory) }
    ensures only { IfOk result (AreOnlyOf HasPrimitive kind octets.now) }
{
    match kind {
        ContentKind::Boolean => truth_contents(octets),
        ContentKind::String(StringKind::Bits) => bit_contents(alloc, octets),
        _ => Ok(Contents::AsParsed(octets)),
    }
}

/// The contents octets, as DER has them, of the truth value of these.
fn truth_contents(octets: &[u8]) -> Result<Contents<'_>, ItemError>
    ensures found { (value : Bool) → IsTruthValue value octets.now → MatchResult result
        (λ contents. HasContents (boolean value) (octets_of contents)) (λ _. ⊥) }
    ensures only { IfOk result (AreOnlyOf HasPrimitive kinds.Boolean octets.now) }
{
    let value = read_truth_value(octets)?;
    Ok(Contents::AsParsed(truth_octets(value)))
}

/// The contents octets, as DER has them, of the bits of these.
fn bit_contents(alloc: Global, octets: &[u8]) -> Result<Contents<'_>, ItemError>
    ensures found { (list : List Bool) → AreLooseBits list octets.now → MatchResult result
        (λ contents. HasContents (bits list) (octets_of contents)) (λ e. e ≡ Memory) }
    ensures only { IfOk result (AreOnlyOf HasPrimitive (kinds.String strings.Bits) octets.now) }
{
    let strict = strict_bits(alloc, octets)?;
    Ok(Contents::Made(strict))
}

/// The contents octets of a truth value in DER (X.690, 11.1).
fn truth_octets(value: bool) -> &'static [u8]
    ensures { HasContents (boolean value) result.now }
{
    if value { &[255] } else { &[0] }
}

/// The contents octets, as DER has them, of a string of this kind that is constructed of these pieces.
///
/// # Errors
/// [`ItemError::Memory`], and [`ItemError::Malformed`] where the kind is none of a string, or the octets are no pieces.
fn whole_string<'a>(
    alloc: Global,
    kind: ContentKind,
    pieces: &[u8],
) -> Result<Contents<'a>, ItemError>
    ensures found { (x : Content) → content_kind x ≡ kind → HasConstructed x pieces.now →
        MatchResult result (λ contents. HasContents x (octets_of contents)) (λ e. e ≡ Memory) }
    ensures only { OnOk result (IsStringKind kind) }
    ensures carried { IfOk result (AreOnlyOf HasConstructed kind pieces.now) }
{
    match kind {
        ContentKind::String(StringKind::Bits) => whole_bits(alloc, pieces),
        ContentKind::String(_) => {
            let whole = octets_of_pieces(alloc, pieces)?;
            Ok(Contents::Made(whole))
        }
        _ => Err(ItemError::Malformed),
    }
}

/// The contents octets, as DER has them, of the bits that are constructed of these pieces.
fn whole_bits<'a>(alloc: Global, pieces: &[u8]) -> Result<Contents<'a>, ItemError>
    ensures found { (list : List Bool) → AreBitsInPieces list pieces.now → MatchResult result
        (λ contents. HasContents (bits list) (octets_of contents)) (λ e. e ≡ Memory) }
    ensures only { IfOk result (AreOnlyOf HasConstructed (kinds.String strings.Bits) pieces.now) }
{
    let whole = bits_of_pieces(alloc, pieces)?;
    let strict = strict_bits(alloc, whole.as_slice())?;
    Ok(Contents::Made(strict))
}
