//! `Labelled ::= SEQUENCE { key [0] INTEGER (0..255), note [1] INTEGER (0..255) }`, compared by its key.
ghost use Rattle.std.specs.Prelude.{[], ◌∷◌, codes, nat_eq};
ghost use Rattle.std.specs.Cmp.{nat_eq_equiv, on_equiv, on_per, partial_equiv_from_equiv, unsigned_Decides};
ghost use Rattle.std.specs.Hash as fed;
ghost use Rattle.std.specs.Hash.{on_Alike, same_Alike};
ghost use Rattle.std.specs.Ordering.{on};
ghost use Rattle.asn1_slots.specs.Slots.{required_slot, sequence_of_slots};
ghost use Rattle.asn1_types.specs.Words.{context, tagged, constructed_type, constructed_agrees, IsWellTagged};

use asn1_dec::{Decode, DecodeError, DecodeFields, Decoder};
use asn1_enc::{Encode, EncodeError, EncodeFields, Encoder};
use asn1_slots::{DecodeByIndex, Decoded, Tagging, decode_fields_by_index, required};
use asn1_tags::tag;
use asn1_types::{
    AsnType, Constraints, ConstructedType, Field, FieldTable, Identifier, Tag, TypeTable,
};
use std::alloc::{AllocError, Global};
use std::hash::{Hash, Hasher};

/// A number with a note. Two with one key are equal, whatever their notes.
#[derive(Clone, Copy, Debug)]
pub struct Labelled {
    /// `key [0] INTEGER (0..255)`
    pub key: u8,
    /// `note [1] INTEGER (0..255)`
    pub note: u8,
}

impl PartialEq for Labelled {
    ghost eq = { on (λ labelled. labelled.key) nat_eq };

    ghost laws = { on_per (λ labelled. labelled.key) (partial_equiv_from_equiv nat_eq_equiv) };

    fn eq(&self, other: &Self) -> bool {
        self.key == other.key
    }
}

impl Eq for Labelled {
    ghost laws = { on_equiv (λ labelled. labelled.key) nat_eq_equiv };
}

impl Hash for Labelled {
    ghost hash_input = { λ labelled. fed.u8 labelled.key };

    ghost respects_eq = { (on_Alike (λ labelled. labelled.key) (same_Alike fed.u8 unsigned_Decides)).fed };

    fn hash<H: Hasher>(&self, state: &mut H) {
        self.key.hash(state);
    }
}

impl DecodeByIndex for Labelled {
    type Slots = (Option<u8>, Option<u8>);

    ghost layout = { required_slot (codes "key") (λ l. l.key) (λ s. s.0) (tagged (context 0) ⟦<u8 as AsnType>⟧.meaning) ⟦<u8 as PartialEq>⟧.eq ∷
        required_slot (codes "note") (λ l. l.note) (λ s. s.1) (tagged (context 1) ⟦<u8 as AsnType>⟧.meaning) ⟦<u8 as PartialEq>⟧.eq ∷ [] };

    fn full(_alloc: Global, slots: Self::Slots) -> Result<Labelled, AllocError> {
        Ok(Labelled {
            key: slots.0.unwrap(),
            note: slots.1.unwrap(),
        })
    }

    fn decode_field<D: Decoder>(index: usize, slots: &mut Self::Slots, decoder: &mut D) -> Decoded {
        match index {
            0 => required(&mut slots.0, decoder, Tagging::Tagged(tag!(context 0))),
            1 => required(&mut slots.1, decoder, Tagging::Tagged(tag!(context 1))),
            _ => Ok(()),
        }
    }
}

impl FieldTable for Labelled {
    ghost components = { sequence_of_slots ⟦<Labelled as DecodeByIndex>⟧.layout };

    fn field_count() -> usize {
        2
    }

    fn field_at(index: usize) -> Option<Field<'static>> {
        match index {
            0 => Some(Field::new_required_type_with_tag::<u8>(0, tag!(context 0), "key")),
            1 => Some(Field::new_required_type_with_tag::<u8>(1, tag!(context 1), "note")),
            _ => None,
        }
    }

    fn extension_index() -> Option<usize> {
        None
    }
}

impl AsnType for Labelled {
    ghost meaning = { constructed_type (codes "Labelled") ⟦<Labelled as FieldTable>⟧.components };

    fn table() -> TypeTable {
        TypeTable::new(Tag::SEQUENCE, Identifier(Some("Labelled")))
    }

    fn is_present(&self) -> bool {
        true
    }
}

impl ConstructedType for Labelled {
    ghost agrees = { constructed_agrees };
}

/// A `Labelled` is well tagged.
pub fn labelled_is_well_tagged()
    ensures { IsWellTagged ⟦<Labelled as AsnType>⟧.meaning }
{}

impl Encode for Labelled {
    fn encode_with_tag_and_constraints<E: Encoder>(
        &self,
        encoder: &mut E,
        tag: Tag,
        _constraints: &Constraints<'_>,
        name: Identifier,
    ) -> Result<(), EncodeError> {
        encoder.encode_sequence(tag, self, name)
    }
}

impl EncodeFields for Labelled {
    fn encode_field<E: Encoder>(&self, index: usize, encoder: &mut E) -> Result<(), EncodeError> {
        match index {
            0 => self.key.encode_with_tag(encoder, tag!(context 0)),
            1 => self.note.encode_with_tag(encoder, tag!(context 1)),
            _ => Ok(()),
        }
    }
}

impl Decode for Labelled {
    fn decode_with_tag_and_constraints<D: Decoder>(
        decoder: &mut D,
        tag: Tag,
        _constraints: &Constraints<'_>,
    ) -> Result<Labelled, DecodeError> {
        decoder.decode_sequence(tag)
    }
}

impl DecodeFields for Labelled {
    fn decode_fields<D: Decoder>(decoder: &mut D) -> Result<Labelled, DecodeError> {
        decode_fields_by_index(decoder)
    }
}
