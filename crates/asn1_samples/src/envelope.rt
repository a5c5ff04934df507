//! `Envelope ::= SEQUENCE { kind INTEGER (0..255), body ANY }`, where ANY is an open type.
ghost use Rattle.std.specs.Prelude.{◌↔◌, ℕ, Bool, IsTrue, List, [], ◌∷◌, codes};
ghost use Rattle.asn1_types.specs.Words.{untagged, required, sequence, constructed_type, constructed_agrees, IsWellTagged};

use asn1_dec::{Decode, DecodeError, DecodeFields, Decoder};
use asn1_enc::{Encode, EncodeError, EncodeFields, Encoder};
use asn1_types::{
    Any, AsnType, Constraints, ConstructedType, Field, FieldTable, Identifier, Tag, TypeTable,
};

/// A value of any type, and which kind it is.
#[derive(PartialEq, Eq, Debug, Drop)]
pub struct Envelope {
    /// `kind INTEGER (0..255)`
    pub kind: u8,
    /// The open type.
    pub body: Any,
}

impl FieldTable for Envelope {
    ghost components = { sequence (
        required (codes "kind") (λ e. e.kind) (untagged ⟦<u8 as AsnType>⟧.meaning) ∷
        required (codes "body") (λ e. e.body) (untagged ⟦<Any as AsnType>⟧.meaning) ∷ []) };

    fn field_count() -> usize {
        2
    }

    fn field_at(index: usize) -> Option<Field<'static>> {
        match index {
            0 => Some(Field::new_required_type::<u8>(0, "kind")),
            1 => Some(Field::new_required_type::<Any>(1, "body")),
            _ => None,
        }
    }

    fn extension_index() -> Option<usize> {
        None
    }
}

impl AsnType for Envelope {
    ghost meaning = { constructed_type (codes "Envelope") ⟦<Envelope as FieldTable>⟧.components };

    fn table() -> TypeTable {
        TypeTable::new(Tag::SEQUENCE, Identifier(Some("Envelope")))
    }

    fn is_present(&self) -> bool {
        true
    }
}

impl ConstructedType for Envelope {
    ghost agrees = { constructed_agrees };
}

/// An `Envelope` is well tagged: an open type can be a component that is always there.
pub fn envelope_is_well_tagged()
    ensures { IsWellTagged ⟦<Envelope as AsnType>⟧.meaning }
{}

impl Encode for Envelope {
    fn encode_with_tag_and_constraints<E: Encoder>(
        &self,
        encoder: &mut E,
        tag: Tag,
        _constraints: &Constraints<'_>,
        name: Identifier,
    ) -> Result<(), EncodeError> {
        encoder.encode_sequence(tag, self, name)
    }
}

impl EncodeFields for Envelope {
    fn encode_field<E: Encoder>(&self, index: usize, encoder: &mut E) -> Result<(), EncodeError> {
        match index {
            0 => self.kind.encode(encoder),
            1 => self.body.encode(encoder),
            _ => Ok(()),
        }
    }
}

impl Decode for Envelope {
    fn decode_with_tag_and_constraints<D: Decoder>(
        decoder: &mut D,
        tag: Tag,
        _constraints: &Constraints<'_>,
    ) -> Result<Envelope, DecodeError> {
        decoder.decode_sequence(tag)
    }
}

impl DecodeFields for Envelope {
    fn decode_fields<D: Decoder>(decoder: &mut D) -> Result<Envelope, DecodeError> {
        let kind = u8::decode(decoder)?;
        let body = Any::decode(decoder)?;
        Ok(Envelope { kind, body })
    }
}

/// An envelope is valid if and only if the codec accepts the bytes of its body as one value.
pub fn envelope_is_valid(envelope: &Envelope)
    ensures { (accepts : List ℕ → Bool) →
        ⟦<Envelope as AsnType>⟧.meaning.IsValid accepts envelope.now ↔
        IsTrue (accepts envelope.now.body) }
{}
