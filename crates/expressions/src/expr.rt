//! `Expr ::= CHOICE { number INTEGER, sum Terms, call Call, not Expr, ... }`
ghost use Rattle.std.specs.Prelude.{IfOk, ◌≡◌};
ghost use Rattle.asn1_schema.specs.Words.{IsWellTagged};
ghost use Rattle.expressions.specs.ExprMeaning.{in_knot, is_made, meaning};
ghost use Rattle.expressions.specs.declared.expr_of.ExprOf.TheVariants as variants;
ghost use Rattle.asn1_schema.specs.model.Premises.{EachIsValid};

use crate::call::CallOf;
use crate::expr_of::{EXPR_OF, ExprOf};
use crate::expr_reader::read_expr;
use asn1_circles::Knot;
use asn1_schema::{
    AsnType, Constraints, Decode, DecodeError, Decoder, Encode, EncodeError, Encoder, Identifier,
    Integer, Tag, TypeTable,
};
use std::alloc::{AllocError, Global};

/// `Expr` of the module `Expressions`.
///
/// A value is a box of what it is made of.
#[derive(PartialEq, Eq, Debug, Drop)]
pub struct Expr(pub Box<ExprOf<Expr>>);

impl Expr {
    /// A value that is made of this. The error is that of memory.
    pub fn new(alloc: Global, value: ExprOf<Expr>) -> Result<Expr, AllocError>
        ensures { IfOk result (λ made. in_knot made ≡ value) }
    {
        Ok(Expr(Box::new(alloc, value)?))
    }

    /// The value in the box.
    pub fn get(&self) -> &ExprOf<Expr>
        ensures { result.now ≡ in_knot self.now }
    {
        &self.0
    }

    /// Takes the value out of the box.
    pub fn into_inner(self) -> ExprOf<Expr>
        ensures { result ≡ in_knot self }
    {
        Box::into_inner(self.0)
    }

    /// A value of the alternative `number INTEGER`. The error is that of memory.
    pub fn number(alloc: Global, value: Integer) -> Result<Expr, AllocError>
        ensures { IfOk result (λ made. in_knot made ≡ variants.Number value) }
    {
        Expr::new(alloc, ExprOf::Number(value))
    }

    /// A value of the alternative `sum Terms`. The error is that of memory.
    pub fn sum(alloc: Global, value: Vec<Expr>) -> Result<Expr, AllocError>
        ensures { IfOk result (λ made. in_knot made ≡ variants.Sum value) }
    {
        Expr::new(alloc, ExprOf::Sum(value))
    }

    /// A value of the alternative `call Call`. The error is that of memory.
    pub fn call(alloc: Global, value: CallOf<Expr>) -> Result<Expr, AllocError>
        ensures { IfOk result (λ made. in_knot made ≡ variants.Call value) }
    {
        Expr::new(alloc, ExprOf::Call(value))
    }

    /// A value of the alternative `not Expr`. The error is that of memory.
    pub fn not(alloc: Global, value: Expr) -> Result<Expr, AllocError>
        ensures { IfOk result (λ made. in_knot made ≡ variants.Not value) }
    {
        Expr::new(alloc, ExprOf::Not(value))
    }
}

impl AsnType for Expr {
    ghost meaning = { meaning };

    fn table() -> TypeTable {
        TypeTable::choice(Identifier(Some("Expr")), EXPR_OF)
    }

    fn is_present(&self) -> bool {
        true
    }
}

/// `Expr` is well tagged, and can be inside other types.
#[tactic(auto, using(crate::proofs::ExprTags::knot_can))]
pub fn expr_is_well_tagged()
    ensures { IsWellTagged ⟦<Expr as AsnType>⟧.meaning }
{}

/// Each `Expr` is valid.
pub fn each_expr_is_valid()
    ensures { EachIsValid ⟦<Expr as AsnType>⟧.meaning }
{}

/// Each `Call` is valid.
pub fn each_call_is_valid()
    ensures { EachIsValid ⟦<CallOf<Expr> as AsnType>⟧.meaning }
{}

impl Encode for Expr {
    #[cycle(expr)]
    fn encode_with_tag_and_constraints<E: Encoder>(
        &self,
        encoder: &mut E,
        tag: Tag,
        constraints: &Constraints<'_>,
        name: Identifier,
    ) -> Result<(), EncodeError> {
        (*self.0).encode_with_tag_and_constraints(encoder, tag, constraints, name)
    }
}

impl Knot<ExprOf<Expr>> for Expr {
    ghost use Rattle.expressions.specs.contracts.expr.ExprPartialEq.TheImpl.Laws.{is};

    ghost made_of = { in_knot };

    fn tie(boxed: Box<ExprOf<Expr>>) -> Expr
        ensures { in_knot result ≡ boxed.value }
    {
        Expr(boxed)
    }

    ghost is_made = { is_made };

    ghost equal = { λ w v. is w v };
}

impl Decode for Expr {
    fn decode_with_tag_and_constraints<D: Decoder>(
        decoder: &mut D,
        tag: Tag,
        constraints: &Constraints<'_>,
    ) -> Result<Expr, DecodeError> {
        read_expr::<DecodeError, D>(decoder, tag, constraints)
    }
}
