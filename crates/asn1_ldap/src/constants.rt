//! The values that the modules define.

/// `maxInt INTEGER ::= 2147483647`
pub const MAX_INT: i128 = 2147483647;
