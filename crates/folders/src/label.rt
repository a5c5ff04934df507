//! `Label ::= SEQUENCE { key UTF8String, values SET OF UTF8String }`
ghost use Rattle.std.specs.Prelude.{[], codes, ◌∷◌};
ghost use Rattle.asn1_schema.specs.Words.{IsWellTagged, constructed_agrees, constructed_type, context, required_slot, sequence_of_slots, tagged};
ghost use Rattle.asn1_model.specs.DistinctSets.{SetsAreDistinct};
ghost use Rattle.asn1_model.specs.WrittenAlike.{AreWrittenAlike};

use asn1_schema::{
    AsnType, Constraints, ConstructedType, Decode, DecodeByIndex, DecodeError, Decoded, Decoder,
    Encode, EncodeError, EncodeFields, Encoder, Field, FieldTable, Identifier, SetOf, Tag, Tagging,
    TypeTable, Utf8String, decode_sequence_naming_errors, required,
};
use asn1_spelling::{equal_sets_of_are_written_alike, sets_in_sets_of_are_distinct};
use asn1_tags::tag;
use std::alloc::{AllocError, Global};

/// `Label` of the module `File-Tree`.
#[derive(PartialEq, Eq, Debug, Drop)]
pub struct Label {
    /// `key UTF8String`
    pub key: Utf8String,
    /// `values SET OF UTF8String`
    pub values: SetOf<Utf8String>,
}

impl DecodeByIndex for Label {
    type Slots = (Option<Utf8String>, Option<SetOf<Utf8String>>);

    ghost layout = { required_slot (codes "key") (λ v. v.key) (λ s. s.0) (tagged (context 0) ⟦<Utf8String as AsnType>⟧.meaning) ⟦<Utf8String as PartialEq>⟧.eq ∷
        required_slot (codes "values") (λ v. v.values) (λ s. s.1) (tagged (context 1) ⟦<SetOf<Utf8String> as AsnType>⟧.meaning) ⟦<SetOf<Utf8String> as PartialEq>⟧.eq ∷ [] };

    fn full(_alloc: Global, slots: Self::Slots) -> Result<Self, AllocError> {
        Ok(Self {
            key: slots.0.unwrap(),
            values: slots.1.unwrap(),
        })
    }

    fn decode_field<D: Decoder>(index: usize, slots: &mut Self::Slots, decoder: &mut D) -> Decoded {
        match index {
            0 => required(&mut slots.0, decoder, Tagging::Tagged(tag!(context 0))),
            1 => required(&mut slots.1, decoder, Tagging::Tagged(tag!(context 1))),
            _ => Ok(()),
        }
    }
}

impl FieldTable for Label {
    ghost components = { sequence_of_slots ⟦<Label as DecodeByIndex>⟧.layout };

    fn field_count() -> usize {
        2
    }

    fn field_at(index: usize) -> Option<Field<'static>> {
        match index {
            0 => Some(Field::new_required_type_with_tag::<Utf8String>(0, tag!(context 0), "key")),
            1 => Some(Field::new_required_type_with_tag::<SetOf<Utf8String>>(
                1,
                tag!(context 1),
                "values",
            )),
            _ => None,
        }
    }

    fn extension_index() -> Option<usize> {
        None
    }
}

impl AsnType for Label {
    ghost meaning = { constructed_type (codes "Label") ⟦<Label as FieldTable>⟧.components };

    fn table() -> TypeTable {
        TypeTable::new(Tag::SEQUENCE, Identifier(Some("Label")))
    }

    fn is_present(&self) -> bool {
        true
    }
}

impl ConstructedType for Label {
    ghost agrees = { constructed_agrees };
}

/// A `Label` can be inside other types.
pub fn label_is_well_tagged()
    ensures { IsWellTagged ⟦<Label as AsnType>⟧.meaning }
{}

/// Equal values are written alike, and in each value the components of a SET have distinct tags. With `label_is_well_tagged`
/// it follows that the DER of a value is its only spelling (`well_tagged_types_have_one_spelling` of `asn1_der`).
pub fn label_has_one_spelling()
    ensures alike { AreWrittenAlike ⟦<Label as AsnType>⟧.meaning
        ⟦<Label as PartialEq>⟧.eq }
    ensures distinct { SetsAreDistinct ⟦<Label as AsnType>⟧.meaning }
{
    equal_sets_of_are_written_alike::<Utf8String>();
    sets_in_sets_of_are_distinct::<Utf8String>();
}

impl Encode for Label {
    fn encode_with_tag_and_constraints<E: Encoder>(
        &self,
        encoder: &mut E,
        tag: Tag,
        _constraints: &Constraints<'_>,
        name: Identifier,
    ) -> Result<(), EncodeError> {
        encoder.encode_sequence(tag, self, name)
    }
}

impl EncodeFields for Label {
    fn encode_field<E: Encoder>(&self, index: usize, encoder: &mut E) -> Result<(), EncodeError> {
        match index {
            0 => self.key.encode_with_tag(encoder, tag!(context 0)),
            1 => self.values.encode_with_tag(encoder, tag!(context 1)),
            _ => Ok(()),
        }
    }
}

impl Decode for Label {
    fn decode_with_tag_and_constraints<D: Decoder>(
        decoder: &mut D,
        tag: Tag,
        constraints: &Constraints<'_>,
    ) -> Result<Self, DecodeError> {
        decode_sequence_naming_errors(decoder, tag, constraints)
    }
}
