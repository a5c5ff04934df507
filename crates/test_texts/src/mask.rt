//! `Mask ::= BIT STRING (SIZE (4))`
ghost use Rattle.std.specs.Prelude.{codes};
ghost use Rattle.asn1_schema.specs.Words.{restricted_type, size_of, universal};

use asn1_schema::{
    AsnType, BitString, ConstraintTable, Constraints, Decode, DecodeError, Decoder, Encode,
    EncodeError, Encoder, Identifier, Size, Tag, TypeTable,
};

/// Four bits. All strings of the type have one length, so JSON does not tell it.
#[derive(PartialEq, Eq, Debug, Drop)]
pub(crate) struct Mask(BitString);

impl AsnType for Mask {
    ghost meaning = { restricted_type (λ string. string.0) ⟦<BitString as AsnType>⟧.meaning (universal 3) (size_of 4) (codes "Mask") };

    fn table() -> TypeTable {
        let constraints = ConstraintTable::from(Size::fixed(4));
        let table = TypeTable::new(Tag::BIT_STRING, Identifier(Some("Mask")));
        table.with_constraints(constraints)
    }

    fn is_present(&self) -> bool {
        true
    }
}

impl Encode for Mask {
    fn encode_with_tag_and_constraints<E: Encoder>(
        &self,
        encoder: &mut E,
        tag: Tag,
        constraints: &Constraints<'_>,
        name: Identifier,
    ) -> Result<(), EncodeError> {
        let name = name.or(Self::identifier());
        self.0
            .encode_with_tag_and_constraints(encoder, tag, constraints, name)
    }
}

impl Decode for Mask {
    fn decode_with_tag_and_constraints<D: Decoder>(
        decoder: &mut D,
        tag: Tag,
        constraints: &Constraints<'_>,
    ) -> Result<Mask, DecodeError> {
        let bits = BitString::decode_with_tag_and_constraints(decoder, tag, constraints)?;
        Ok(Mask(bits))
    }
}
