//! `Signed{T} ::= SEQUENCE { content T, signature OCTET STRING }`
ghost use Rattle.std.specs.Prelude.{[], codes, IfOk, true, ◌≡◌, ◌∷◌};
ghost use Rattle.asn1_schema.specs.Words.{IsWellTagged, constructed_agrees, constructed_type, required, required_slot, sequence, untagged};

use crate::order::Order;
use crate::payment::Payment;
use asn1_schema::{
    AsnType, Constraints, ConstructedType, Decode, DecodeByIndex, DecodeError, Decoded, Decoder,
    Encode, EncodeError, EncodeFields, Encoder, Field, FieldTable, Identifier, OctetString,
    RoundTripError, Rules, Tag, Tagging, TypeTable, decode_sequence_naming_errors, required,
    round_trip,
};
use std::alloc::{AllocError, Global};

/// A value of any type, and a signature.
#[derive(PartialEq, Eq, Debug, Drop)]
pub struct Signed<T> {
    /// `content T`
    pub content: T,
    /// `signature OCTET STRING`
    pub signature: OctetString,
}

impl<T: Decode> DecodeByIndex for Signed<T> {
    type Slots = (Option<T>, Option<OctetString>);

    ghost layout = { required_slot (codes "content") (λ v. v.content) (λ s. s.0) (untagged T.meaning) T.eq ∷
        required_slot (codes "signature") (λ v. v.signature) (λ s. s.1) (untagged ⟦<OctetString as AsnType>⟧.meaning) ⟦<OctetString as PartialEq>⟧.eq ∷ [] };

    fn full(_alloc: Global, slots: Self::Slots) -> Result<Signed<T>, AllocError> {
        Ok(Signed {
            content: slots.0.unwrap(),
            signature: slots.1.unwrap(),
        })
    }

    fn decode_field<D: Decoder>(index: usize, slots: &mut Self::Slots, decoder: &mut D) -> Decoded {
        match index {
            0 => required(&mut slots.0, decoder, Tagging::Untagged),
            1 => required(&mut slots.1, decoder, Tagging::Untagged),
            _ => Ok(()),
        }
    }
}

impl<T: AsnType> FieldTable for Signed<T> {
    ghost components = { sequence (
        required (codes "content") (λ v. v.content) (untagged T.meaning) ∷
        required (codes "signature") (λ v. v.signature) (untagged ⟦<OctetString as AsnType>⟧.meaning) ∷ []) };

    fn field_count() -> usize {
        2
    }

    fn field_at(index: usize) -> Option<Field<'static>> {
        match index {
            0 => Some(Field::new_required_type::<T>(0, "content")),
            1 => Some(Field::new_required_type::<OctetString>(1, "signature")),
            _ => None,
        }
    }

    fn extension_index() -> Option<usize> {
        None
    }
}

impl<T: AsnType> AsnType for Signed<T> {
    ghost meaning = { constructed_type (codes "Signed") ⟦<Signed<T> as FieldTable>⟧.components };

    fn table() -> TypeTable {
        TypeTable::new(Tag::SEQUENCE, Identifier(Some("Signed")))
    }

    fn is_present(&self) -> bool {
        true
    }
}

impl<T: AsnType> ConstructedType for Signed<T> {
    ghost agrees = { constructed_agrees };
}

/// A `Signed` is well tagged if its content is.
pub fn signed_is_well_tagged<T: AsnType>()
    ensures { IsWellTagged T.meaning → IsWellTagged ⟦<Signed<T> as AsnType>⟧.meaning }
{}

impl<T: Encode> Encode for Signed<T> {
    fn encode_with_tag_and_constraints<E: Encoder>(
        &self,
        encoder: &mut E,
        tag: Tag,
        _constraints: &Constraints<'_>,
        name: Identifier,
    ) -> Result<(), EncodeError> {
        encoder.encode_sequence(tag, self, name)
    }
}

impl<T: Encode> EncodeFields for Signed<T> {
    fn encode_field<E: Encoder>(&self, index: usize, encoder: &mut E) -> Result<(), EncodeError> {
        match index {
            0 => self.content.encode(encoder),
            1 => self.signature.encode(encoder),
            _ => Ok(()),
        }
    }
}

impl<T: Decode> Decode for Signed<T> {
    fn decode_with_tag_and_constraints<D: Decoder>(
        decoder: &mut D,
        tag: Tag,
        constraints: &Constraints<'_>,
    ) -> Result<Signed<T>, DecodeError> {
        decode_sequence_naming_errors(decoder, tag, constraints)
    }
}

/// Writes a signed order by a codec, and reads it back: the value that is read equals the one that was written.
///
/// # Errors
/// Those of [`round_trip`].
pub fn signed_order_comes_back<R: Rules>(
    rules: &R,
    signed: &Signed<Order>,
    depth: usize,
) -> Result<Signed<Order>, RoundTripError>
    ensures { IfOk result (λ back. ⟦<Signed<Order> as PartialEq>⟧.eq back signed.now ≡ true) }
{
    round_trip(rules, signed, depth, depth)
}

/// The same of a signed payment: a CHOICE inside another type is well tagged.
///
/// # Errors
/// Those of [`round_trip`].
pub fn signed_payment_comes_back<R: Rules>(
    rules: &R,
    signed: &Signed<Payment>,
    depth: usize,
) -> Result<Signed<Payment>, RoundTripError>
    ensures { IfOk result (λ back. ⟦<Signed<Payment> as PartialEq>⟧.eq back signed.now ≡ true) }
{
    round_trip(rules, signed, depth, depth)
}
