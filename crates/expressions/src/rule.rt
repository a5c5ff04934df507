//! `Rule ::= SEQUENCE { name UTF8String, when Expr, otherwise SEQUENCE OF Expr OPTIONAL }`
ghost use Rattle.std.specs.Prelude.{[], codes, ◌∷◌};
ghost use Rattle.asn1_schema.specs.Words.{IsWellTagged, constructed_agrees, constructed_type, context, explicitly_tagged, optional_slot, required_slot, sequence_of_slots, tagged};

use crate::expr::Expr;
use asn1_schema::{
    AsnType, Constraints, ConstructedType, Decode, DecodeByIndex, DecodeError, Decoded, Decoder,
    Encode, EncodeError, EncodeFields, Encoder, Field, FieldTable, Identifier, Tag, Tagging,
    TypeTable, Utf8String, decode_sequence_naming_errors, optional, required,
};
use asn1_tags::tag;
use std::alloc::{AllocError, Global};

/// `Rule` of the module `Expressions`.
#[derive(PartialEq, Eq, Debug, Drop)]
pub struct Rule {
    /// `name UTF8String`
    pub name: Utf8String,
    /// `when Expr`
    pub when: Expr,
    /// `otherwise SEQUENCE OF Expr OPTIONAL`
    pub otherwise: Option<Vec<Expr>>,
}

impl DecodeByIndex for Rule {
    type Slots = (Option<Utf8String>, Option<Expr>, Option<Vec<Expr>>);

    ghost layout = { required_slot (codes "name") (λ v. v.name) (λ s. s.0) (tagged (context 0) ⟦<Utf8String as AsnType>⟧.meaning) ⟦<Utf8String as PartialEq>⟧.eq ∷
        required_slot (codes "when") (λ v. v.when) (λ s. s.1) (explicitly_tagged (context 1) ⟦<Expr as AsnType>⟧.meaning) ⟦<Expr as PartialEq>⟧.eq ∷
        optional_slot (codes "otherwise") (λ v. v.otherwise) (λ s. s.2) (tagged (context 2) ⟦<Vec<Expr> as AsnType>⟧.meaning) ⟦<Vec<Expr> as PartialEq>⟧.eq ∷ [] };

    fn full(_alloc: Global, slots: Self::Slots) -> Result<Self, AllocError> {
        Ok(Self {
            name: slots.0.unwrap(),
            when: slots.1.unwrap(),
            otherwise: slots.2,
        })
    }

    fn decode_field<D: Decoder>(index: usize, slots: &mut Self::Slots, decoder: &mut D) -> Decoded {
        match index {
            0 => required(&mut slots.0, decoder, Tagging::Tagged(tag!(context 0))),
            1 => required(&mut slots.1, decoder, Tagging::Explicit(tag!(context 1))),
            2 => optional(&mut slots.2, decoder, Tagging::Tagged(tag!(context 2))),
            _ => Ok(()),
        }
    }
}

impl FieldTable for Rule {
    ghost components = { sequence_of_slots ⟦<Rule as DecodeByIndex>⟧.layout };

    fn field_count() -> usize {
        3
    }

    fn field_at(index: usize) -> Option<Field<'static>> {
        match index {
            0 => Some(Field::new_required_type_with_tag::<Utf8String>(0, tag!(context 0), "name")),
            1 => Some(Field::new_required_explicit(1, tag!(context 1), "when")),
            2 => Some(Field::new_optional_type_with_tag::<Vec<Expr>>(
                2,
                tag!(context 2),
                "otherwise",
            )),
            _ => None,
        }
    }

    fn extension_index() -> Option<usize> {
        None
    }
}

impl AsnType for Rule {
    ghost meaning = { constructed_type (codes "Rule") ⟦<Rule as FieldTable>⟧.components };

    fn table() -> TypeTable {
        TypeTable::new(Tag::SEQUENCE, Identifier(Some("Rule")))
    }

    fn is_present(&self) -> bool {
        true
    }
}

impl ConstructedType for Rule {
    ghost agrees = { constructed_agrees };
}

/// A `Rule` can be inside other types.
#[tactic(auto, using(asn1_schema::proofs::Trees::tree_shapes, crate::proofs::ExprTags::knot_can))]
pub fn rule_is_well_tagged()
    ensures { IsWellTagged ⟦<Rule as AsnType>⟧.meaning }
{}

impl Encode for Rule {
    fn encode_with_tag_and_constraints<E: Encoder>(
        &self,
        encoder: &mut E,
        tag: Tag,
        _constraints: &Constraints<'_>,
        name: Identifier,
    ) -> Result<(), EncodeError> {
        encoder.encode_sequence(tag, self, name)
    }
}

impl EncodeFields for Rule {
    fn encode_field<E: Encoder>(&self, index: usize, encoder: &mut E) -> Result<(), EncodeError> {
        match index {
            0 => self.name.encode_with_tag(encoder, tag!(context 0)),
            1 => encoder.encode_explicit_prefix(tag!(context 1), &self.when, Expr::identifier()),
            2 => self.otherwise.encode_with_tag(encoder, tag!(context 2)),
            _ => Ok(()),
        }
    }
}

impl Decode for Rule {
    fn decode_with_tag_and_constraints<D: Decoder>(
        decoder: &mut D,
        tag: Tag,
        constraints: &Constraints<'_>,
    ) -> Result<Self, DecodeError> {
        decode_sequence_naming_errors(decoder, tag, constraints)
    }
}
