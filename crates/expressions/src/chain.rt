//! `Chain ::= CHOICE { end NULL, link Chain }`
ghost use Rattle.std.specs.Prelude.{IfOk, ◌≡◌};
ghost use Rattle.asn1_schema.specs.Words.{IsWellTagged};
ghost use Rattle.expressions.specs.ChainMeaning.{in_knot, is_made, meaning};
ghost use Rattle.expressions.specs.declared.chain_of.ChainOf.TheVariants as variants;
ghost use Rattle.asn1_schema.specs.model.Premises.{EachIsValid};

use crate::chain_of::{CHAIN_OF, ChainOf};
use crate::chain_reader::read_chain;
use asn1_circles::Knot;
use asn1_schema::{
    AsnType, Constraints, Decode, DecodeError, Decoder, Encode, EncodeError, Encoder, Identifier,
    Tag, TypeTable,
};
use std::alloc::{AllocError, Global};

/// `Chain` of the module `Expressions`.
///
/// A value is a box of what it is made of.
#[derive(PartialEq, Eq, Debug, Drop)]
pub struct Chain(pub Box<ChainOf<Chain>>);

impl Chain {
    /// A value that is made of this. The error is that of memory.
    pub fn new(alloc: Global, value: ChainOf<Chain>) -> Result<Chain, AllocError>
        ensures { IfOk result (λ made. in_knot made ≡ value) }
    {
        Ok(Chain(Box::new(alloc, value)?))
    }

    /// The value in the box.
    pub fn get(&self) -> &ChainOf<Chain>
        ensures { result.now ≡ in_knot self.now }
    {
        &self.0
    }

    /// Takes the value out of the box.
    pub fn into_inner(self) -> ChainOf<Chain>
        ensures { result ≡ in_knot self }
    {
        Box::into_inner(self.0)
    }

    /// A value of the alternative `end NULL`. The error is that of memory.
    pub fn end(alloc: Global, value: ()) -> Result<Chain, AllocError>
        ensures { IfOk result (λ made. in_knot made ≡ variants.End value) }
    {
        Chain::new(alloc, ChainOf::End(value))
    }

    /// A value of the alternative `link Chain`. The error is that of memory.
    pub fn link(alloc: Global, value: Chain) -> Result<Chain, AllocError>
        ensures { IfOk result (λ made. in_knot made ≡ variants.Link value) }
    {
        Chain::new(alloc, ChainOf::Link(value))
    }
}

impl AsnType for Chain {
    ghost meaning = { meaning };

    fn table() -> TypeTable {
        TypeTable::choice(Identifier(Some("Chain")), CHAIN_OF)
    }

    fn is_present(&self) -> bool {
        true
    }
}

/// `Chain` is well tagged, and can be inside other types.
#[tactic(auto, using(crate::proofs::ChainTags::knot_can))]
pub fn chain_is_well_tagged()
    ensures { IsWellTagged ⟦<Chain as AsnType>⟧.meaning }
{}

/// Each `Chain` is valid.
pub fn each_chain_is_valid()
    ensures { EachIsValid ⟦<Chain as AsnType>⟧.meaning }
{}

impl Encode for Chain {
    #[cycle(chain)]
    fn encode_with_tag_and_constraints<E: Encoder>(
        &self,
        encoder: &mut E,
        tag: Tag,
        constraints: &Constraints<'_>,
        name: Identifier,
    ) -> Result<(), EncodeError> {
        (*self.0).encode_with_tag_and_constraints(encoder, tag, constraints, name)
    }
}

impl Knot<ChainOf<Chain>> for Chain {
    ghost use Rattle.expressions.specs.contracts.chain.ChainPartialEq.TheImpl.Laws.{is};

    ghost made_of = { in_knot };

    fn tie(boxed: Box<ChainOf<Chain>>) -> Chain
        ensures { in_knot result ≡ boxed.value }
    {
        Chain(boxed)
    }

    ghost is_made = { is_made };

    ghost equal = { λ w v. is w v };
}

impl Decode for Chain {
    fn decode_with_tag_and_constraints<D: Decoder>(
        decoder: &mut D,
        tag: Tag,
        constraints: &Constraints<'_>,
    ) -> Result<Chain, DecodeError> {
        read_chain::<DecodeError, D>(decoder, tag, constraints)
    }
}
