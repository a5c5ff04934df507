//! `Menu ::= SET { soup [1] INTEGER (0..255), ..., [[ main [0] INTEGER (0..255), sweet [2] BOOLEAN OPTIONAL ]] }`, with a group
//! of additions whose components come before and after that of the root.
ghost use Rattle.asn1_slots.specs.GroupsInSets.{group_in_set};
ghost use Rattle.asn1_slots.specs.Slots.{extensible_set_after, optional_slot, required_slot, sequence_of_slots};
ghost use Rattle.asn1_types.specs.Words.{IsWellTagged, constructed_agrees, constructed_type, context, tagged};
ghost use Rattle.std.specs.Prelude.{[], ◌∷◌, codes};

use asn1_dec::{Decode, DecodeError, Decoder};
use asn1_enc::{Encode, EncodeError, EncodeFields, Encoder};
use asn1_slots::{
    DecodeSetByIndex, Decoded, Tagging, component_of_group, decode_set_by_index, decode_unique,
    group_of_slots, missing, missing_in_group,
};
use asn1_tags::{TagTree, tag};
use asn1_types::{
    AsnType, Constraints, ConstructedType, Field, FieldTable, Identifier, Tag, TypeTable,
};
use std::alloc::{AllocError, Global};

/// The courses after the soup.
#[derive(PartialEq, Eq, Debug, Drop)]
pub struct Courses {
    /// `main [0] INTEGER (0..255)`
    pub main: u8,
    /// `sweet [2] BOOLEAN OPTIONAL`
    pub sweet: Option<bool>,
}

/// The trees of the components, which are those of the group.
const COURSES: &[TagTree<'static>] = &[
    TagTree::Leaf(tag!(context 0)),
    TagTree::Leaf(tag!(context 2)),
];

impl DecodeSetByIndex for Courses {
    type Slots = (Option<u8>, Option<bool>);

    ghost layout = { required_slot (codes "main") (λ c. c.main) (λ s. s.0) (tagged (context 0) ⟦<u8 as AsnType>⟧.meaning) ⟦<u8 as PartialEq>⟧.eq ∷
        optional_slot (codes "sweet") (λ c. c.sweet) (λ s. s.1) (tagged (context 2) ⟦<bool as AsnType>⟧.meaning) ⟦<bool as PartialEq>⟧.eq ∷ [] };

    fn full(_alloc: Global, slots: Self::Slots) -> Result<Courses, AllocError> {
        Ok(Courses {
            main: slots.0.unwrap(),
            sweet: slots.1,
        })
    }

    fn missing_at(index: usize, slots: &Self::Slots) -> Option<&'static str> {
        match index {
            0 => missing(&slots.0, "main"),
            _ => None,
        }
    }

    fn decode_field<D: Decoder>(
        index: usize,
        _tag: Tag,
        slots: &mut Self::Slots,
        decoder: &mut D,
    ) -> Decoded {
        match index {
            0 => decode_unique(
                &mut slots.0,
                decoder,
                Tagging::Tagged(tag!(context 0)),
                "main",
            ),
            1 => decode_unique(
                &mut slots.1,
                decoder,
                Tagging::Tagged(tag!(context 2)),
                "sweet",
            ),
            _ => Ok(()),
        }
    }
}

impl FieldTable for Courses {
    ghost components = { sequence_of_slots ⟦<Courses as DecodeSetByIndex>⟧.layout };

    fn field_count() -> usize {
        2
    }

    fn field_at(index: usize) -> Option<Field<'static>> {
        match index {
            0 => Some(Field::new_required_type_with_tag::<u8>(0, tag!(context 0), "main")),
            1 => Some(Field::new_optional_type_with_tag::<bool>(1, tag!(context 2), "sweet")),
            _ => None,
        }
    }

    fn extension_index() -> Option<usize> {
        None
    }
}

impl EncodeFields for Courses {
    fn encode_field<E: Encoder>(&self, index: usize, encoder: &mut E) -> Result<(), EncodeError> {
        match index {
            0 => self.main.encode_with_tag(encoder, tag!(context 0)),
            1 => self.sweet.encode_with_tag(encoder, tag!(context 2)),
            _ => Ok(()),
        }
    }
}

/// A soup, and what follows.
#[derive(PartialEq, Eq, Debug, Drop)]
pub struct Menu {
    /// `soup [1] INTEGER (0..255)`
    pub soup: u8,
    /// The group of additions.
    pub courses: Option<Courses>,
}

impl DecodeSetByIndex for Menu {
    type Slots = (Option<u8>, Option<<Courses as DecodeSetByIndex>::Slots>);

    ghost layout = { required_slot (codes "soup") (λ m. m.soup) (λ s. s.0) (tagged (context 1) ⟦<u8 as AsnType>⟧.meaning) ⟦<u8 as PartialEq>⟧.eq ∷
        group_in_set (codes "courses") (λ m. m.courses) ⟦<Courses as DecodeSetByIndex>⟧.layout (λ s. s.1) ⟦<Courses as PartialEq>⟧.eq ∷ [] };

    fn full(alloc: Global, slots: Self::Slots) -> Result<Menu, AllocError> {
        Ok(Menu {
            soup: slots.0.unwrap(),
            courses: group_of_slots(alloc, slots.1)?,
        })
    }

    fn missing_at(index: usize, slots: &Self::Slots) -> Option<&'static str> {
        match index {
            0 => missing(&slots.0, "soup"),
            1 => missing_in_group::<Courses>(&slots.1, "courses"),
            _ => None,
        }
    }

    fn decode_field<D: Decoder>(
        index: usize,
        tag: Tag,
        slots: &mut Self::Slots,
        decoder: &mut D,
    ) -> Decoded {
        match index {
            0 => decode_unique(
                &mut slots.0,
                decoder,
                Tagging::Tagged(tag!(context 1)),
                "soup",
            ),
            1 => component_of_group::<Courses, D>(&mut slots.1, tag, decoder),
            _ => Ok(()),
        }
    }
}

impl FieldTable for Menu {
    ghost components = { extensible_set_after 1 ⟦<Menu as DecodeSetByIndex>⟧.layout };

    fn field_count() -> usize {
        2
    }

    #[tactic(auto, using(asn1_tags::proofs::Leaves::tree_shapes))]
    fn field_at(index: usize) -> Option<Field<'static>> {
        match index {
            0 => Some(Field::new_required_type_with_tag::<u8>(0, tag!(context 1), "soup")),
            1 => Some(Field::new_group(1, COURSES, "courses")),
            _ => None,
        }
    }

    fn extension_index() -> Option<usize> {
        Some(1)
    }
}

impl AsnType for Menu {
    ghost meaning = { constructed_type (codes "Menu") ⟦<Menu as FieldTable>⟧.components };

    fn table() -> TypeTable {
        TypeTable::new(Tag::SET, Identifier(Some("Menu")))
    }

    fn is_present(&self) -> bool {
        true
    }
}

impl ConstructedType for Menu {
    ghost agrees = { constructed_agrees };
}

/// A `Menu` is well tagged: its tags are distinct, with those of the group.
pub fn menu_is_well_tagged()
    ensures { IsWellTagged ⟦<Menu as AsnType>⟧.meaning }
{}

impl Encode for Menu {
    fn encode_with_tag_and_constraints<E: Encoder>(
        &self,
        encoder: &mut E,
        tag: Tag,
        _constraints: &Constraints<'_>,
        name: Identifier,
    ) -> Result<(), EncodeError> {
        encoder.encode_set(tag, self, name)
    }
}

impl EncodeFields for Menu {
    fn encode_field<E: Encoder>(&self, index: usize, encoder: &mut E) -> Result<(), EncodeError> {
        match index {
            0 => self.soup.encode_with_tag(encoder, tag!(context 1)),
            1 => encoder.encode_extension_addition_group(self.courses.as_ref(), Identifier::EMPTY),
            _ => Ok(()),
        }
    }
}

impl Decode for Menu {
    fn decode_with_tag_and_constraints<D: Decoder>(
        decoder: &mut D,
        tag: Tag,
        constraints: &Constraints<'_>,
    ) -> Result<Menu, DecodeError> {
        decode_set_by_index(decoder, tag, constraints)
    }
}
