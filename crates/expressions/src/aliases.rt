//! Types that are other types under names of their own.

use crate::call::CallOf;
use crate::expr::Expr;

/// `Terms ::= SEQUENCE OF Expr`
pub type Terms = Vec<Expr>;

/// `Call ::= SEQUENCE { name UTF8String, args SEQUENCE OF Expr, then Expr OPTIONAL, is-pure BOOLEAN DEFAULT FALSE, ..., rest SET OF Terms OPTIONAL }`
pub type Call = CallOf<Expr>;
