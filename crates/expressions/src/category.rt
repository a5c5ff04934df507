//! `Category ::= SEQUENCE { name UTF8String, children SEQUENCE OF Category }`
ghost use Rattle.std.specs.Prelude.{IfOk, ◌≡◌};
ghost use Rattle.asn1_schema.specs.Words.{IsWellTagged};
ghost use Rattle.expressions.specs.CategoryMeaning.{in_knot, is_made, meaning};
ghost use Rattle.asn1_schema.specs.model.Premises.{EachIsValid};

use crate::category_of::CategoryOf;
use crate::category_reader::read_category;
use asn1_circles::Knot;
use asn1_schema::{
    AsnType, Constraints, Decode, DecodeError, Decoder, Encode, EncodeError, Encoder, Identifier,
    Tag, TypeTable,
};
use std::alloc::{AllocError, Global};

/// `Category` of the module `Expressions`.
///
/// A value is a box of what it is made of.
#[derive(PartialEq, Eq, Debug, Drop)]
pub struct Category(pub Box<CategoryOf<Category>>);

impl Category {
    /// A value that is made of this. The error is that of memory.
    pub fn new(alloc: Global, value: CategoryOf<Category>) -> Result<Category, AllocError>
        ensures { IfOk result (λ made. in_knot made ≡ value) }
    {
        Ok(Category(Box::new(alloc, value)?))
    }

    /// The value in the box.
    pub fn get(&self) -> &CategoryOf<Category>
        ensures { result.now ≡ in_knot self.now }
    {
        &self.0
    }

    /// Takes the value out of the box.
    pub fn into_inner(self) -> CategoryOf<Category>
        ensures { result ≡ in_knot self }
    {
        Box::into_inner(self.0)
    }
}

impl AsnType for Category {
    ghost meaning = { meaning };

    fn table() -> TypeTable {
        TypeTable::new(Tag::SEQUENCE, Identifier(Some("Category")))
    }

    fn is_present(&self) -> bool {
        true
    }
}

/// `Category` is well tagged, and can be inside other types.
#[tactic(auto, using(crate::proofs::CategoryTags::knot_can))]
pub fn category_is_well_tagged()
    ensures { IsWellTagged ⟦<Category as AsnType>⟧.meaning }
{}

/// Each `Category` is valid.
pub fn each_category_is_valid()
    ensures { EachIsValid ⟦<Category as AsnType>⟧.meaning }
{}

impl Encode for Category {
    #[cycle(category)]
    fn encode_with_tag_and_constraints<E: Encoder>(
        &self,
        encoder: &mut E,
        tag: Tag,
        constraints: &Constraints<'_>,
        name: Identifier,
    ) -> Result<(), EncodeError> {
        (*self.0).encode_with_tag_and_constraints(encoder, tag, constraints, name)
    }
}

impl Knot<CategoryOf<Category>> for Category {
    ghost use Rattle.expressions.specs.contracts.category.CategoryPartialEq.TheImpl.Laws.{is};

    ghost made_of = { in_knot };

    fn tie(boxed: Box<CategoryOf<Category>>) -> Category
        ensures { in_knot result ≡ boxed.value }
    {
        Category(boxed)
    }

    ghost is_made = { is_made };

    ghost equal = { λ w v. is w v };
}

impl Decode for Category {
    fn decode_with_tag_and_constraints<D: Decoder>(
        decoder: &mut D,
        tag: Tag,
        constraints: &Constraints<'_>,
    ) -> Result<Category, DecodeError> {
        read_category::<DecodeError, D>(decoder, tag, constraints)
    }
}
