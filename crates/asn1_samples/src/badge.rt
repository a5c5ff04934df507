//! `Badge ::= SET { id INTEGER (0..4294967295), label VisibleString OPTIONAL, shape Shape }`
ghost use Rattle.std.specs.Prelude.{◌≡◌, [], ◌∷◌, IfOk, List, OnOk, map, codes};
ghost use Rattle.asn1_types.specs.Words.{untagged, required, optional, set, constructed_type, constructed_agrees, IsWellTagged};
ghost use Rattle.asn1_components.specs.ComponentLists.{AreReadInAnyOrder};
ghost use Rattle.asn1_components.specs.Components.{all_components, root_views, table};
ghost use Rattle.asn1_laws.specs.SetParts.{EachFits, MakesValue};
ghost use Rattle.asn1_fields.specs.CanonicalOrder.{IsCanonical};
ghost use Rattle.asn1_fields.specs.FieldViews.{component_of};
ghost use Rattle.asn1_model.specs.Readings.{AreElementsRead};
ghost use Rattle.asn1_model.specs.Records.{Record};

use crate::shape::Shape;
use asn1_dec::{Decode, DecodeError, DecodeSet, Decoder, keep_once};
use asn1_enc::{Encode, EncodeError, EncodeFields, Encoder};
use asn1_types::{
    AsnType, Choice, Constraints, ConstructedType, Field, FieldTable, Identifier, Tag, TypeTable,
};
use asn1_values::VisibleString;
use std::alloc::Global;

/// A badge: a SET, with components that may be written in any order.
#[derive(PartialEq, Eq, Debug, Drop)]
pub struct Badge {
    /// `id INTEGER (0..4294967295)`
    pub id: u32,
    /// `label VisibleString OPTIONAL`
    pub label: Option<VisibleString>,
    /// `shape Shape`
    pub shape: Shape,
}

/// A component of a badge that was read.
#[derive(Drop)]
pub enum BadgePart {
    /// `id`
    Id(u32),
    /// `label`
    Label(VisibleString),
    /// `shape`
    Figure(Shape),
}

impl FieldTable for Badge {
    ghost components = { set (
        required (codes "id") (λ b. b.id) (untagged ⟦<u32 as AsnType>⟧.meaning) ∷
        optional (codes "label") (λ b. b.label) (untagged ⟦<VisibleString as AsnType>⟧.meaning) ∷
        required (codes "shape") (λ b. b.shape) (untagged ⟦<Shape as AsnType>⟧.meaning) ∷ []) };

    fn field_count() -> usize {
        3
    }

    fn field_at(index: usize) -> Option<Field<'static>> {
        match index {
            0 => Some(Field::new_required_type::<Shape>(2, "shape")),
            1 => Some(Field::new_required_type::<u32>(0, "id")),
            2 => Some(Field::new_optional_type::<VisibleString>(1, "label")),
            _ => None,
        }
    }

    fn extension_index() -> Option<usize> {
        None
    }
}

impl AsnType for Badge {
    ghost meaning = { constructed_type (codes "Badge") ⟦<Badge as FieldTable>⟧.components };

    fn table() -> TypeTable {
        TypeTable::new(Tag::SET, Identifier(Some("Badge")))
    }

    fn is_present(&self) -> bool {
        true
    }
}

impl ConstructedType for Badge {
    ghost agrees = { constructed_agrees };
}

/// A `Badge` is well tagged: no two of its components share a tag, with those of a `Shape`.
pub fn badge_is_well_tagged()
    ensures { IsWellTagged ⟦<Badge as AsnType>⟧.meaning }
{}

/// The table is in canonical order, by the smallest tag of each component: BOOLEAN of the shape, INTEGER, VisibleString.
pub fn badge_table_is_canonical()
    ensures indices { map (λ entry. entry.index) (table ⟦<Badge as FieldTable>⟧.components) ≡ 2 ∷
        0 ∷ 1 ∷ [] }
    ensures canonical { IsCanonical (map component_of
        (root_views ⟦<Badge as FieldTable>⟧.components)) }
{}

impl Encode for Badge {
    fn encode_with_tag_and_constraints<E: Encoder>(
        &self,
        encoder: &mut E,
        tag: Tag,
        _constraints: &Constraints<'_>,
        name: Identifier,
    ) -> Result<(), EncodeError> {
        encoder.encode_set(tag, self, name)
    }
}

impl EncodeFields for Badge {
    fn encode_field<E: Encoder>(&self, index: usize, encoder: &mut E) -> Result<(), EncodeError> {
        match index {
            0 => self.id.encode(encoder),
            1 => self.label.encode(encoder),
            2 => self.shape.encode(encoder),
            _ => Ok(()),
        }
    }
}

/// A badge is read by parts: each component by itself, and then all are put together.
impl DecodeSet for Badge {
    ghost use Rattle.asn1_samples.specs.BadgeParts.{IsBadgePart, IsReadAsBadgePart, badge_index};
    ghost use Rattle.asn1_laws.proofs.OneRecordEach.{optional_is_one};
    ghost use Rattle.std.proofs.Common.{rules, lit≤};

    type Part = BadgePart;

    ghost index_of = { badge_index };

    ghost is_part_of = { IsBadgePart };

    ghost IsReadAsPart = { IsReadAsBadgePart };

    ghost one_record_each = { λ badge can. (lit≤ tt, (Prim.search (rules, optional_is_one), (lit≤ tt, tt))) };

    fn decode_field<D: Decoder>(
        decoder: &mut D,
        index: usize,
        tag: Tag,
    ) -> Result<BadgePart, DecodeError> {
        match index {
            0 => u32::decode(decoder).map(BadgePart::Id),
            1 => VisibleString::decode(decoder).map(BadgePart::Label),
            2 => Shape::decode(decoder).map(BadgePart::Figure),
            _ => Err(DecodeError::UnknownField { index, tag }),
        }
    }

    fn from_fields(_alloc: Global, parts: Vec<BadgePart>) -> Result<Badge, DecodeError>
        ensures made { MakesValue (all_components ⟦<Badge as FieldTable>⟧.components) badge_index
            IsBadgePart ⟦<Badge as PartialEq>⟧.eq parts.items result }
        ensures only { IfOk result (λ badge. (rs : List Record) →
            AreElementsRead IsReadAsBadgePart parts.items rs →
            AreReadInAnyOrder (all_components ⟦<Badge as FieldTable>⟧.components) badge rs) }
        ensures fitting { OnOk result (EachFits (all_components ⟦<Badge as FieldTable>⟧.components)
            badge_index 0 parts.items) }
    {
        let mut id = None;
        let mut label = None;
        let mut shape = None;
        for part in parts {
            match part {
                BadgePart::Id(value) => keep_once(&mut id, value, "id")?,
                BadgePart::Label(value) => keep_once(&mut label, value, "label")?,
                BadgePart::Figure(value) => keep_once(&mut shape, value, "shape")?,
            }
        }
        let Some(id) = id else {
            return Err(DecodeError::MissingField("id"));
        };
        let Some(shape) = shape else {
            return Err(DecodeError::MissingField("shape"));
        };
        Ok(Badge { id, label, shape })
    }
}

impl Decode for Badge {
    fn decode_with_tag_and_constraints<D: Decoder>(
        decoder: &mut D,
        tag: Tag,
        _constraints: &Constraints<'_>,
    ) -> Result<Badge, DecodeError> {
        decoder.decode_set(tag)
    }
}
