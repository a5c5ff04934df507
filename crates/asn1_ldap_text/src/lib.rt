//! LDAP messages (RFC 4511) as lines that a person reads, and filters in the text of RFC 4515.
//!
//! | Item | What it is |
//! |---|---|
//! | [`message_text`] | a message: its number and its operation on a line, and a line for each control |
//! | [`operation_name`] | the name with which the text of an operation begins, by the operation's tag |
//! | [`filter_text`] | a filter of a search, as RFC 4515, section 3, writes it |
//! | [`laws`] | what the definitions of these texts amount to |
//!
//! `2 search request: base "dc=example,dc=org", scope wholeSubtree, filter (&(objectClass=person)(cn=A*)), attributes cn mail` is the
//! text of a search. Names of operations are those of RFC 4511 in words; result codes, scopes and the like have the names of their
//! items. Octets are written as they are if they are printable characters of ASCII that mean nothing at their place, and else as two
//! hexadecimal digits after a backslash (`specs/Escapes.antt`). A password of a bind and values without a text, as those of controls
//! and extended operations, are shown by their length alone; values of attributes are shown, whatever the attribute is.
//!
//! The contracts promise:
//!
//! - The text of a message is one definition, `message_lines` of `specs/Messages.antt`, over a definition for each operation and each
//!   part (`specs/Requests.antt`, `specs/Results.antt`, `specs/Filters.antt` and the rest).
//! - A text has printable characters of ASCII and line feeds alone, and a filter's text has no line feed, whatever octets the message
//!   holds (`visible`). So it ends no line early, and reaches a terminal without a control character.
//! - The octets of a name or a value are determined by their text (`escaped_octets_read_back` of [`laws`]).
//!
//! The functions fail only if memory runs out. They call themselves as deep as filters are nested, which a reader bounds by its depth.
#![tactic(auto)]

mod assertions;
mod attributes;
mod binds;
mod changes;
mod controls;
mod escapes;
mod extended;
mod filters;
mod items;
pub mod laws;
mod lengths;
mod messages;
mod names;
mod operations;
mod results;
mod searches;
mod sets;
mod strings;

pub use filters::filter_text;
pub use messages::message_text;
pub use names::operation_name;
