//! Writes values of ASN.1 types to codecs.
//!
//! An [`Encoder`] writes records, and a type implements [`Encode`] by calls of an encoder. So each type is written once for all
//! codecs.
//!
//! | Item | What it is | In `specs/` of `asn1_laws` |
//! |---|---|---|
//! | [`Encoder`] | a codec: the primitive calls, and on these the calls for whole types | `Writing`, `WritingTypes`, `Defaults` |
//! | [`Encode`] | a type whose values are written, by seven entry points | `WritingTypes`, `GivenTypes` |
//! | [`EncodeFields`] | a SEQUENCE, a SET or a group of additions, each component by its index | `IndexedComponents` |
//! | [`EncodeChoice`] | a CHOICE whose chosen alternative is written | `WritingTypes` |
//! | [`encode_explicit_optional`] | writes a field that is an option, after an explicit tag | |
//! | [`EncodeError`] | why a value was not written | `EncodeErrors` |
//!
//! Each type of the language and of the lower crates that implements `AsnType` is written, but slices and markers of tags.
//!
//! The main promises (docs/PROMISES.md has more):
//!
//! - A success of an entry point appends exactly the records of the value to the innermost open list, under the given tag,
//!   constraints and name (`Appends`). They are nested no deeper than the depth left, and the value meets its type's invariant.
//! - After an error the encoder has failed, and the error is `Failed` if and only if it had failed before. `Depth` comes only if
//!   the records are nested deeper than the depth left, and `Custom` only if the codec rejects them, of an encoder that has
//!   written something (`Fails`).
//! - A SEQUENCE and a SET are written as their type means (`as_meant` of `encode_sequence` and `encode_set`), and a CHOICE too
//!   (`writes` of `encode_choice_with_tag`). Where no depth is left, a call that opens a scope answers `Depth`, before anything
//!   but `Failed` (`depth_first`).
//! - [`EncodeFields::encode_fields`] writes the components in their order, by a loop over the indices that is proved once. A type
//!   has a line for each component (`encode_field`), and a line that is one call needs no proof. A type that holds itself has to
//!   be in one crate with its tables and its writer.
//! - The order inside sets means nothing to an encoder (`lawful`). A codec that states what it has written in one order gets that
//!   law by `up_to_order` (`WritingUpToOrder`).
//!
//! Memory is taken by a codec, by a closure that makes a default, and by constraints with a permitted alphabet.
//! `specs/SequencesAndSets` of this crate has the two kinds of types with components.
#![tactic(auto, using(asn1_tags::proofs::Leaves::tree_shapes))]

mod choices;
mod constructed;
mod defaults;
mod encode;
mod encoder;
mod impls;
mod optionals;
mod own_constraints;

pub use asn1_laws::EncodeError;
pub use encode::{Encode, EncodeChoice, EncodeFields};
pub use encoder::Encoder;
pub use optionals::encode_explicit_optional;
