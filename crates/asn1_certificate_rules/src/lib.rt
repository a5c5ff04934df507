//! The rules of DER (X.690) that the octets of a certificate break, each with its position.
//!
//! | Item | What it is |
//! |---|---|
//! | [`find_broken_rule`], [`Finding`] | a rule of DER that octets break, or the position of elements that lie too deep |
//! | [`BrokenRule`] | the rule, and the position at which they break it |
//! | [`Rule`], [`RuleSet`] | a rule of X.690, and the rules that are looked at |
//! | [`Part`], [`ExtensionKind`] | what the notation of a certificate has at a place |
//!
//! The walk goes through the elements in the order of their bytes, into those that hold others, and into the octets of the values of
//! extensions. Of an element it looks at the identifier and the length, at the contents octets of the types of the universal class,
//! and at the components that have a DEFAULT. It ends at what it finds: a rule that is broken, or contents octets that hold elements
//! and lie inside more elements than the depth that was asked for.
//!
//! The promises, for any octets, part, rules and depth (`found` and `asked` of [`find_broken_rule`]):
//!
//! - None is answered only if the octets break none of the rules, at any depth (`KeepsRules`, of `Departs` in
//!   `specs/Departures.antt`, over `specs/Headers.antt` and `specs/Rules.antt`).
//! - The octets break a rule that is answered, at its position (`Departs`), and it is one of those that were asked for. No contract
//!   says that no other rule is broken before it.
//! - Where a position is answered alone, elements begin there that lie deeper than asked (`LiesDeeper` of `specs/Depths.antt`).
//!
//! A caller who wants the very octets of DER writes the value again and compares.
#![tactic(auto)]

mod broken_rules;
mod contents;
mod finding;
mod headers;
mod notation;
mod objects;
mod rule;
mod rules;
mod sets;
mod strings;
mod times;

pub use broken_rules::{BrokenRule, find_broken_rule};
pub use finding::Finding;
pub use notation::{ExtensionKind, Part};
pub use rule::{Rule, RuleSet};
