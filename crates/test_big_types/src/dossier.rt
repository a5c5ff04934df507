//! `Dossier ::= SEQUENCE { number INTEGER, seal [0] Seal OPTIONAL }`
ghost use Rattle.std.specs.Prelude.{[], codes, ◌∷◌};
ghost use Rattle.asn1_schema.specs.Words.{IsWellTagged, constructed_agrees, constructed_type, context, optional_slot, required_slot, sequence_of_slots, tagged, untagged};

use crate::seal::Seal;
use asn1_schema::{
    AsnType, Constraints, ConstructedType, Decode, DecodeByIndex, DecodeError, Decoded, Decoder,
    Field, FieldTable, Identifier, Integer, Tag, Tagging, TypeTable, decode_sequence_naming_errors,
    optional, required,
};
use asn1_tags::tag;
use std::alloc::{AllocError, Global};

/// A SEQUENCE with a SET inside a tagged component that may be absent.
#[derive(PartialEq, Eq, Debug, Drop)]
pub struct Dossier {
    /// `number INTEGER`
    pub number: Integer,
    /// `seal [0] Seal OPTIONAL`
    pub seal: Option<Seal>,
}

impl DecodeByIndex for Dossier {
    type Slots = (Option<Integer>, Option<Seal>);

    ghost layout = { required_slot (codes "number") (λ d. d.number) (λ s. s.0) (untagged ⟦<Integer as AsnType>⟧.meaning) ⟦<Integer as PartialEq>⟧.eq ∷
        optional_slot (codes "seal") (λ d. d.seal) (λ s. s.1) (tagged (context 0) ⟦<Seal as AsnType>⟧.meaning) ⟦<Seal as PartialEq>⟧.eq ∷ [] };

    fn full(_alloc: Global, slots: Self::Slots) -> Result<Dossier, AllocError> {
        Ok(Dossier {
            number: slots.0.unwrap(),
            seal: slots.1,
        })
    }

    fn decode_field<D: Decoder>(index: usize, slots: &mut Self::Slots, decoder: &mut D) -> Decoded {
        match index {
            0 => required(&mut slots.0, decoder, Tagging::Untagged),
            1 => optional(&mut slots.1, decoder, Tagging::Tagged(tag!(context 0))),
            _ => Ok(()),
        }
    }
}

impl FieldTable for Dossier {
    ghost components = { sequence_of_slots ⟦<Dossier as DecodeByIndex>⟧.layout };

    fn field_count() -> usize {
        2
    }

    fn field_at(index: usize) -> Option<Field<'static>> {
        match index {
            0 => Some(Field::new_required_type::<Integer>(0, "number")),
            1 => Some(Field::new_optional_type_with_tag::<Seal>(1, tag!(context 0), "seal")),
            _ => None,
        }
    }

    fn extension_index() -> Option<usize> {
        None
    }
}

impl AsnType for Dossier {
    ghost meaning = { constructed_type (codes "Dossier") ⟦<Dossier as FieldTable>⟧.components };

    fn table() -> TypeTable {
        TypeTable::new(Tag::SEQUENCE, Identifier(Some("Dossier")))
    }

    fn is_present(&self) -> bool {
        true
    }
}

impl ConstructedType for Dossier {
    ghost agrees = { constructed_agrees };
}

/// A `Dossier` can be inside other types.
pub fn dossier_is_well_tagged()
    ensures { IsWellTagged ⟦<Dossier as AsnType>⟧.meaning }
{}

impl Decode for Dossier {
    fn decode_with_tag_and_constraints<D: Decoder>(
        decoder: &mut D,
        tag: Tag,
        constraints: &Constraints<'_>,
    ) -> Result<Dossier, DecodeError> {
        decode_sequence_naming_errors(decoder, tag, constraints)
    }
}
