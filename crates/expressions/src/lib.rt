//! The types of these modules of ASN.1, in files made by `asn1_compile`:
//!
//! - `Expressions`
#![tactic(auto, using(asn1_schema::proofs::Trees::tree_shapes))]

mod aliases;
mod call;
mod category;
mod category_of;
mod category_parts;
mod category_reader;
mod chain;
mod chain_of;
mod chain_parts;
mod chain_reader;
mod expr;
mod expr_of;
mod expr_parts;
mod expr_reader;
mod rule;

pub use aliases::{Call, Terms};
pub use call::CallOf;
pub use category::{Category, category_is_well_tagged, each_category_is_valid};
pub use category_of::CategoryOf;
pub use chain::{Chain, chain_is_well_tagged, each_chain_is_valid};
pub use chain_of::ChainOf;
pub use expr::{Expr, each_call_is_valid, each_expr_is_valid, expr_is_well_tagged};
pub use expr_of::ExprOf;
pub use rule::{Rule, rule_is_well_tagged};
