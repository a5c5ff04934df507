//! The lexical items of an ASN.1 module (X.680, clause 12).
//!
//! [`tokens`] cuts a text into names, reserved words, numbers, strings and symbols, each with the octets that it is and the
//! offset at which it begins. White space and comments, of both kinds, are left out. [`position_of`] gives the line and the
//! column of an offset.
//!
//! | Item | What it is | In `specs/` |
//! |---|---|---|
//! | [`tokens`] | the tokens of a text | `Tokens` |
//! | [`Token`], [`TokenKind`] | a lexical item with its place, and its kind | `Items` |
//! | [`RESERVED_WORDS`] | the words that are no names | |
//! | [`TokenError`], [`Refusal`] | why a text has no tokens, and at which octet | `Refusals` |
//! | [`position_of`], [`Position`] | lines and columns | `Positions` |
//!
//! The contracts promise:
//!
//! - The tokens and what is between them are the text, octet by octet. Between them are white space and comments alone, and
//!   no token begins where these do (`text` of `tokens`). `specs/Skipped.antt` defines white space and comments.
//! - Each token is an item of its kind in the words of X.680, and could not be longer.
//! - An error names the first octet at which no item begins, and the cause (`refused`), or memory ran out.
//!
//! A text is in UTF-8, and is limited by memory alone. Characters beyond ASCII are allowed in comments and in character
//! strings. NO-BREAK SPACE is white space between items, but not inside a bstring or an hstring.
#![tactic(auto)]

mod characters;
mod error;
mod kind;
mod names;
mod position;
mod reserved_words;
mod skipped;
mod strings;
mod symbols;
mod token;

pub use error::{Refusal, TokenError};
pub use kind::TokenKind;
pub use position::{Position, position_of};
pub use reserved_words::RESERVED_WORDS;
pub use token::{Token, tokens};
