//! The questions to every codec: the calls of an encoder and of a decoder one by one, and types and codecs by their names.
//!
//! | Item | Contents |
//! |---|---|
//! | [`each_call_comes_back`] | the case of all calls, over any [`CallRules`] |
//! | [`CallRules`], [`Calls`] | a codec whose calls can be made, and the calls of a case |
//! | [`Request`], [`Codec`] | a line that asks a codec over bytes, and these codecs |
//! | [`TypeCase`], [`TypeNames`] | what is tried of many types, and a list of types by their names |
//! | [`type_kinds`], [`type_lists`] | lists: of each kind of type, and of the types of some lines |
//! | [`print_answer`], [`Answers`] | a line with its answer, and a program's answers |
//! | [`Asked`], [`Action`], [`Answer`] | what a line asks, and what a codec answers |
//! | [`converted`], [`front_in_der`], [`answered`] | answers of two codecs, of the front of packed bytes, and of any codec by any action |
//! | [`Failure`], [`is_same`] | the reason why a case failed, and the comparison of two values |
//! | [`made`], [`node_chain`] | values that tests and programs make |
//!
//! A case answers `Ok`, or why it failed. `test_codecs` calls it for each codec. Values of types are lines of `test_vectors` and
//! `test_module_types`, and damaged bytes and refused growths are lines of `try_codecs`; all read a [`Request`]. A program is compiled for
//! each type of its lists with the codecs that are asked there, so a list has only the types of its lines.
#![tactic(auto)]

mod answer;
mod asked;
mod call_rules;
mod calls;
mod codec;
mod conversion;
mod failure;
mod fronts;
mod hollow;
mod lines;
pub mod made;
mod marker_tags;
mod menu;
mod named_types;
mod nested;
mod question;
mod request;
pub mod spelling;
pub mod type_kinds;
pub mod type_lists;

pub use answer::Answer;
pub use asked::{Action, Asked};
pub use call_rules::{CallRules, Calls, NAME, is_same};
pub use calls::each_call_comes_back;
pub use codec::Codec;
pub use conversion::converted;
pub use failure::Failure;
pub use fronts::front_in_der;
pub use lines::{Answers, print_answer};
pub use named_types::{TypeCase, TypeNames};
pub use nested::node_chain;
pub use question::answered;
pub use request::Request;
