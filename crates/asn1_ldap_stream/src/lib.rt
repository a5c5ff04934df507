//! Streams of LDAP messages (RFC 4511) as lines for a person.
//!
//! | Item | What it is | In `specs/` |
//! |---|---|---|
//! | [`show_messages`], [`Failure`] | writes the lines of each message of an input, as soon as the message is whole | `Showing`, `Failures` |
//! | [`lines_of`], [`OctetLines`] | the lines of the messages with which octets begin | `Octets` |
//! | [`show`], [`MessageRules`] | the first, for any reader of elements and any rules of messages | `Elements`, `Beginnings` |
//!
//! The stream is read as elements of BER, in any spelling, and each element as a message. An element that begins as a message does, a
//! SEQUENCE with an INTEGER first, and is not read as one has a line in its place: the number of the message, its operation, and the
//! cause, as `20 search done: not understood: component resultCode: no value of its type`. Its value may be one that the module does
//! not list, its filters may be nested more than 64 deep, or it may be damaged inside. A number or an operation that is not known is
//! left out. The messages behind it are shown.
//!
//! The contract of `show` covers this for any reader of elements and any rules of messages (`specs/Showing.antt`), however the input is
//! cut into pieces. The elements are the reader's answers for the bytes of the input, one after another. The text of each is
//! written, once and in this order (`specs/Elements.antt`): the lines of a message that the rules may read of it, or the line of one
//! that they may refuse, unless memory runs out. An element that ends the display begins at the byte that the failure
//! names, the sum of the lengths before it.
//!
//! The contract of `lines_of` says this of octets by the elements of BER themselves: those that have lines begin as a message does, and
//! behind them is nothing, or octets that end inside their first element, or octets that begin no message (`specs/Octets.antt`).
#![tactic(auto)]

mod beginning;
mod failure;
mod input;
mod messages;
mod octets;
mod stream;
mod unknown;

pub use failure::Failure;
pub use input::{show, show_messages};
pub use messages::MessageRules;
pub use octets::{OctetLines, lines_of};

/// How many filters may nest: the ANDs, ORs and NOTs around a filter that holds no other.
const NESTED_FILTERS: usize = 64;

/// How many scopes of a message may nest: 3 above the filter of a search (the message, the CHOICE of its operation and the request), 2
/// for each filter that holds others (its CHOICE, and its SET or its tag), and 4 in the deepest that holds none, of substrings (its
/// CHOICE, its SEQUENCE, the SEQUENCE OF its substrings, and the CHOICE of each).
const DEPTH: usize = 3 + 2 * NESTED_FILTERS + 4;

/// How many scopes the reader of elements opens: none, since it takes each element whole.
const ELEMENT_DEPTH: usize = 0;
