//! `Nested ::= CHOICE { null NULL, flag BOOLEAN, inner [0] Nested }`
ghost use Rattle.std.specs.Prelude.{◌≡◌, ◌∷◌, [], Bool, IfOk, List, OnOk, codes, refl, ℕ};
ghost use Rattle.asn1_components.specs.ChoiceTypes.{itself_agrees};
ghost use Rattle.asn1_laws.specs.Reading.{AfterReading, ReadsValue};
ghost use Rattle.asn1_laws.specs.ReadingExactly.{HasReadValue};
ghost use Rattle.asn1_model.specs.ConstraintSets.{constraint_set};
ghost use Rattle.asn1_nesting.specs.InsideItself.{eq_in_box, in_box, its_cases, itself_inside};
ghost use Rattle.asn1_recursive.specs.NestedAlternatives.{inner_nested, nested_agrees, nested_alternatives, nested_alternatives_with, nested_meaning, nested_means, nested_pick};
ghost use Rattle.asn1_recursive.specs.declared.nested.Nested.{Flag, Inner, Inner', Null};
ghost use Rattle.asn1_slots.specs.Cases.{ReadsCaseAt, variant};
ghost use Rattle.asn1_types.specs.Words.{IsWellTagged, context, tagged, untagged};

use asn1_dec::{Decode, DecodeError, Decoder};
use asn1_enc::{Encode, EncodeChoice, EncodeError, Encoder};
use asn1_nesting::{HoldsItself, boxed, close_choice, open_choice_at};
use asn1_slots::{Tagging, alternative};
use asn1_types::{
    AsnType, Choice, ChoiceType, Class, Constraints, Identifier, Tag, TagTree, TypeTable,
};

/// A CHOICE that holds itself.
#[derive(PartialEq, Eq, Debug, Drop)]
pub enum Nested {
    /// `null NULL`
    Null(()),
    /// `flag BOOLEAN`
    Flag(bool),
    /// `inner [0] Nested`
    Inner(Box<Nested>),
}

const INNER: Tag = Tag {
    class: Class::Context,
    value: 0,
};

const NESTED: &[TagTree<'static>] = &[
    TagTree::Leaf(Tag::NULL),
    TagTree::Leaf(Tag::BOOL),
    TagTree::Leaf(INNER),
];

impl Choice for Nested {
    ghost alternatives = { nested_alternatives };

    ghost pick = { nested_pick };

    fn variants() -> &'static [TagTree<'static>] {
        NESTED
    }

    fn extended_variants() -> Option<&'static [TagTree<'static>]> {
        None
    }

    fn identifiers() -> &'static [&'static str] {
        &["null", "flag", "inner"]
    }
}

impl AsnType for Nested {
    ghost meaning = { nested_meaning };

    fn table() -> TypeTable {
        TypeTable::choice(Identifier(Some("Nested")), Nested::variants())
    }

    fn is_present(&self) -> bool {
        true
    }
}

impl ChoiceType for Nested {
    ghost agrees = { itself_agrees nested_agrees };
}

/// A `Nested` is well tagged: the tags of its alternatives are distinct.
pub fn nested_is_well_tagged()
    ensures { IsWellTagged ⟦<Nested as AsnType>⟧.meaning }
{}

/// Each `Nested` is valid, however deep.
#[tactic(auto, using(crate::proofs::Validity::each_nested_valid))]
pub fn each_nested_is_valid(nested: &Nested)
    ensures { (accepts : List ℕ → Bool) → ⟦<Nested as AsnType>⟧.meaning.IsValid accepts nested.now }
{}

impl Encode for Nested {
    #[cycle(nested)]
    fn encode_with_tag_and_constraints<E: Encoder>(
        &self,
        encoder: &mut E,
        tag: Tag,
        constraints: &Constraints<'_>,
        name: Identifier,
    ) -> Result<(), EncodeError> {
        encoder.encode_choice_with_tag(tag, constraints, self, name)
    }
}

impl EncodeChoice for Nested {
    fn chosen_tag(&self) -> Tag {
        match self {
            Nested::Null(_) => Tag::NULL,
            Nested::Flag(_) => Tag::BOOL,
            Nested::Inner(_) => INNER,
        }
    }

    #[cycle(nested)]
    fn encode_alternative<E: Encoder>(&self, encoder: &mut E) -> Result<(), EncodeError> {
        match self {
            Nested::Null(nothing) => nothing.encode(encoder),
            Nested::Flag(flag) => flag.encode(encoder),
            Nested::Inner(inner) => inner.encode_with_tag(encoder, INNER),
        }
    }
}

impl HoldsItself for Nested {
    ghost use Rattle.asn1_recursive.specs.contracts.nested.NestedPartialEq.TheImpl.Laws.{is};

    ghost inside = { inner_nested };

    ghost cases = { variant (codes "null") Null (untagged ⟦<() as AsnType>⟧.meaning) ⟦<() as PartialEq>⟧.eq ∷
        variant (codes "flag") Flag (untagged ⟦<bool as AsnType>⟧.meaning) ⟦<bool as PartialEq>⟧.eq ∷
        variant (codes "inner") Inner (tagged (context 0) (in_box inner_nested)) (eq_in_box ⟦<Nested as PartialEq>⟧.eq) ∷ [] };

    ghost case_of = { nested_pick };

    ghost made = { elim [ Null nothing ↦ (refl, λ u. is _ _) | Flag flag ↦ (refl, λ u. is _ _) | Inner' place inner ↦ (refl, λ u. is _ _) ] };

    ghost are_cases = { its_cases };

    ghost is_inside = { itself_inside (codes "Nested") nested_alternatives_with nested_means nested_pick nested_agrees refl };
}

/// Reads a value under a tag.
#[cycle(nested_reader)]
fn read_nested<D: Decoder>(
    decoder: &mut D,
    tag: Tag,
    constraints: &Constraints<'_>,
) -> Result<Nested, DecodeError>
    ensures read { ReadsValue D.reader nested_meaning ⟦<Nested as PartialEq>⟧.eq tag
        (constraint_set constraints.now) decoder.old decoder.new result }
    ensures only { IfOk result (HasReadValue D.reader decoder.old decoder.new nested_meaning tag
        (constraint_set constraints.now)) }
    ensures after_reading { AfterReading D.reader nested_meaning tag
        (constraint_set constraints.now) decoder.old decoder.new result }
{
    let index = open_choice_at::<Nested, D>(decoder, tag, constraints)?;
    let value = read_alternative(index, decoder);
    close_choice(decoder, tag, value)
}

/// Reads the alternative at an index.
#[cycle(nested_reader)]
fn read_alternative<D: Decoder>(index: usize, decoder: &mut D) -> Result<Nested, DecodeError>
    ensures read { ReadsCaseAt D.reader ⟦<Nested as HoldsItself>⟧.cases
        ⟦<Nested as HoldsItself>⟧.case_of index decoder.old decoder.new result }
    ensures same_depth { OnOk result (D.reader.depth_left decoder.new ≡
        D.reader.depth_left decoder.old) }
{
    match index {
        0 => Ok(Nested::Null(alternative(decoder, Tagging::Untagged)?)),
        1 => Ok(Nested::Flag(alternative(decoder, Tagging::Untagged)?)),
        2 => match boxed(read_nested(decoder, INNER, &Constraints::NONE), decoder) {
            Ok(inner) => Ok(Nested::Inner(inner)),
            Err(error) => Err(error),
        },
        _ => Err(DecodeError::NoValidChoice("Nested")),
    }
}

impl Decode for Nested {
    fn decode_with_tag_and_constraints<D: Decoder>(
        decoder: &mut D,
        tag: Tag,
        constraints: &Constraints<'_>,
    ) -> Result<Nested, DecodeError> {
        read_nested(decoder, tag, constraints)
    }
}
