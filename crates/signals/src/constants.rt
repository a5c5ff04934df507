//! The values that the modules define.

/// `cause INTEGER ::= 4`
pub const CAUSE: i128 = 4;

/// `route INTEGER ::= 9`
pub const ROUTE: i128 = 9;
