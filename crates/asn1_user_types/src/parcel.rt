//! `Parcel ::= CHOICE { letter NULL, inner [0] Parcel }`
ghost use Rattle.std.specs.Prelude.{◌∷◌, [], codes, refl};
ghost use Rattle.asn1_schema.specs.Words.{context, eq_in_box, in_box, its_cases, itself_agrees, itself_inside, tagged, untagged, variant};
ghost use Rattle.asn1_user_types.specs.ParcelAlternatives.{inner_parcel, parcel_agrees, parcel_alternatives, parcel_alternatives_with, parcel_meaning, parcel_means, parcel_pick};
ghost use Rattle.asn1_user_types.specs.declared.parcel.Parcel.{Inner, Inner', Letter};

use crate::parcel_reader::read_parcel;
use asn1_schema::{
    AsnType, Choice, ChoiceType, Class, Constraints, Decode, DecodeError, Decoder, Encode,
    EncodeChoice, EncodeError, Encoder, HoldsItself, Identifier, Tag, TagTree, TypeTable,
};

/// A letter, or a parcel in a parcel.
#[derive(PartialEq, Eq, Debug, Drop)]
pub enum Parcel {
    /// `letter NULL`
    Letter(()),
    /// `inner [0] Parcel`
    Inner(Box<Parcel>),
}

pub(crate) const INNER: Tag = Tag {
    class: Class::Context,
    value: 0,
};

const PARCEL: &[TagTree<'static>] = &[TagTree::Leaf(Tag::NULL), TagTree::Leaf(INNER)];

impl Choice for Parcel {
    ghost alternatives = { parcel_alternatives };

    ghost pick = { parcel_pick };

    fn variants() -> &'static [TagTree<'static>] {
        PARCEL
    }

    fn extended_variants() -> Option<&'static [TagTree<'static>]> {
        None
    }

    fn identifiers() -> &'static [&'static str] {
        &["letter", "inner"]
    }
}

impl AsnType for Parcel {
    ghost meaning = { parcel_meaning };

    fn table() -> TypeTable {
        TypeTable::choice(Identifier(Some("Parcel")), Parcel::variants())
    }

    fn is_present(&self) -> bool {
        true
    }
}

impl ChoiceType for Parcel {
    ghost agrees = { itself_agrees parcel_agrees };
}

impl Encode for Parcel {
    #[cycle(parcel)]
    fn encode_with_tag_and_constraints<E: Encoder>(
        &self,
        encoder: &mut E,
        tag: Tag,
        constraints: &Constraints<'_>,
        name: Identifier,
    ) -> Result<(), EncodeError> {
        encoder.encode_choice_with_tag(tag, constraints, self, name)
    }
}

impl EncodeChoice for Parcel {
    fn chosen_tag(&self) -> Tag {
        match self {
            Parcel::Letter(_) => Tag::NULL,
            Parcel::Inner(_) => INNER,
        }
    }

    #[cycle(parcel)]
    fn encode_alternative<E: Encoder>(&self, encoder: &mut E) -> Result<(), EncodeError> {
        match self {
            Parcel::Letter(nothing) => nothing.encode(encoder),
            Parcel::Inner(inner) => inner.encode_with_tag(encoder, INNER),
        }
    }
}

impl HoldsItself for Parcel {
    ghost use Rattle.asn1_user_types.specs.contracts.parcel.ParcelPartialEq.TheImpl.Laws.{is};

    ghost inside = { inner_parcel };

    ghost cases = { variant (codes "letter") Letter (untagged ⟦<() as AsnType>⟧.meaning) ⟦<() as PartialEq>⟧.eq ∷
        variant (codes "inner") Inner (tagged (context 0) (in_box inner_parcel)) (eq_in_box ⟦<Parcel as PartialEq>⟧.eq) ∷ [] };

    ghost case_of = { parcel_pick };

    ghost made = { elim [ Letter nothing ↦ (refl, λ u. is _ _) | Inner' place inner ↦ (refl, λ u. is _ _) ] };

    ghost are_cases = { its_cases };

    ghost is_inside = { itself_inside (codes "Parcel") parcel_alternatives_with parcel_means parcel_pick parcel_agrees refl };
}

impl Decode for Parcel {
    fn decode_with_tag_and_constraints<D: Decoder>(
        decoder: &mut D,
        tag: Tag,
        constraints: &Constraints<'_>,
    ) -> Result<Parcel, DecodeError> {
        read_parcel(decoder, tag, constraints)
    }
}
