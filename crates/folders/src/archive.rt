//! `Archive ::= SEQUENCE { version INTEGER, roots SEQUENCE OF Folder }`
ghost use Rattle.std.specs.Prelude.{[], codes, ◌∷◌};
ghost use Rattle.asn1_schema.specs.Words.{IsWellTagged, constructed_agrees, constructed_type, context, required_slot, sequence_of_slots, tagged};

use crate::folder::Folder;
use asn1_schema::{
    AsnType, Constraints, ConstructedType, Decode, DecodeByIndex, DecodeError, Decoded, Decoder,
    Encode, EncodeError, EncodeFields, Encoder, Field, FieldTable, Identifier, Integer, Tag,
    Tagging, TypeTable, decode_sequence_naming_errors, required,
};
use asn1_tags::tag;
use std::alloc::{AllocError, Global};

/// `Archive` of the module `File-Tree`.
#[derive(PartialEq, Eq, Debug, Drop)]
pub struct Archive {
    /// `version INTEGER`
    pub version: Integer,
    /// `roots SEQUENCE OF Folder`
    pub roots: Vec<Folder>,
}

impl DecodeByIndex for Archive {
    type Slots = (Option<Integer>, Option<Vec<Folder>>);

    ghost layout = { required_slot (codes "version") (λ v. v.version) (λ s. s.0) (tagged (context 0) ⟦<Integer as AsnType>⟧.meaning) ⟦<Integer as PartialEq>⟧.eq ∷
        required_slot (codes "roots") (λ v. v.roots) (λ s. s.1) (tagged (context 1) ⟦<Vec<Folder> as AsnType>⟧.meaning) ⟦<Vec<Folder> as PartialEq>⟧.eq ∷ [] };

    fn full(_alloc: Global, slots: Self::Slots) -> Result<Self, AllocError> {
        Ok(Self {
            version: slots.0.unwrap(),
            roots: slots.1.unwrap(),
        })
    }

    fn decode_field<D: Decoder>(index: usize, slots: &mut Self::Slots, decoder: &mut D) -> Decoded {
        match index {
            0 => required(&mut slots.0, decoder, Tagging::Tagged(tag!(context 0))),
            1 => required(&mut slots.1, decoder, Tagging::Tagged(tag!(context 1))),
            _ => Ok(()),
        }
    }
}

impl FieldTable for Archive {
    ghost components = { sequence_of_slots ⟦<Archive as DecodeByIndex>⟧.layout };

    fn field_count() -> usize {
        2
    }

    fn field_at(index: usize) -> Option<Field<'static>> {
        match index {
            0 => Some(Field::new_required_type_with_tag::<Integer>(0, tag!(context 0), "version")),
            1 => Some(Field::new_required_type_with_tag::<Vec<Folder>>(
                1,
                tag!(context 1),
                "roots",
            )),
            _ => None,
        }
    }

    fn extension_index() -> Option<usize> {
        None
    }
}

impl AsnType for Archive {
    ghost meaning = { constructed_type (codes "Archive") ⟦<Archive as FieldTable>⟧.components };

    fn table() -> TypeTable {
        TypeTable::new(Tag::SEQUENCE, Identifier(Some("Archive")))
    }

    fn is_present(&self) -> bool {
        true
    }
}

impl ConstructedType for Archive {
    ghost agrees = { constructed_agrees };
}

/// An `Archive` can be inside other types.
#[tactic(auto, using(asn1_schema::proofs::Trees::tree_shapes, crate::proofs::FolderTags::knot_can))]
pub fn archive_is_well_tagged()
    ensures { IsWellTagged ⟦<Archive as AsnType>⟧.meaning }
{}

impl Encode for Archive {
    fn encode_with_tag_and_constraints<E: Encoder>(
        &self,
        encoder: &mut E,
        tag: Tag,
        _constraints: &Constraints<'_>,
        name: Identifier,
    ) -> Result<(), EncodeError> {
        encoder.encode_sequence(tag, self, name)
    }
}

impl EncodeFields for Archive {
    fn encode_field<E: Encoder>(&self, index: usize, encoder: &mut E) -> Result<(), EncodeError> {
        match index {
            0 => self.version.encode_with_tag(encoder, tag!(context 0)),
            1 => self.roots.encode_with_tag(encoder, tag!(context 1)),
            _ => Ok(()),
        }
    }
}

impl Decode for Archive {
    fn decode_with_tag_and_constraints<D: Decoder>(
        decoder: &mut D,
        tag: Tag,
        constraints: &Constraints<'_>,
    ) -> Result<Self, DecodeError> {
        decode_sequence_naming_errors(decoder, tag, constraints)
    }
}
