//! Types that hold themselves: read by a closure, with the meaning of a fixed point.
//!
//! A circle of types is cut at one of them, the *knot*. Each other type of the circle is an ordinary type with one parameter `T`,
//! which stands for the knot, and so is what a value of the knot is made of; the knot alone is recursive, a box of its own generic:
//!
//! ```text
//! pub struct CallOf<T> { pub name: Utf8String, pub args: Vec<T>, pub then: Option<T> }
//! pub enum ExprOf<T> { Number(Integer), Sum(Vec<T>), Call(CallOf<T>) }
//! pub struct Expr(pub Box<ExprOf<Expr>>);
//! pub type Call = CallOf<Expr>;
//! ```
//!
//! The reader of the knot is one function with one closure, which calls it again where less depth is left. The calls of this crate
//! take the closure, so no function of a generic type is part of the cycle.
//!
//! | Item | What it is | In `specs/` |
//! |---|---|---|
//! | [`ReadError`] | the error of the closure | |
//! | [`Reading`], [`Itself`], [`Whole`], [`ListOf`], [`SetOfEach`] | how a component is read by the closure | `Readers` |
//! | [`required_with`], [`optional_with`], [`addition_with`] | read a component into its slot, as `required` of `asn1_slots` | `Readers` |
//! | [`alternative_with`] | reads the value of an alternative | `Readers` |
//! | [`DecodeWith`] | a type that is read by a reader of the type in it | `Readers` |
//! | [`DecodeByIndexWith`], [`decode_sequence_with`] | a SEQUENCE, by its components | `Readers` |
//! | [`DecodeChoiceWith`], [`decode_choice_with`] | a CHOICE, by its alternatives | `Readers` |
//! | [`Knot`], [`close_knot`] | a type that holds itself, and the end of its reader | `Knots` |
//! | [`Meant`] | a name for the meaning of a type that holds no knot | |
//!
//! The promises:
//!
//! - A call for a component ensures what its namesake of `asn1_slots` ensures, if the closure reads values of the type
//!   (`reads`, `IsReaderOf` of `specs/Readers.antt`) and may be called with the depth that is left (`callable`).
//! - [`decode_sequence_with`] and [`decode_choice_with`] keep the contract of `Decode` of `asn1_dec` (`read`, `after_reading`). They
//!   open a scope first, so the closure is called where less depth is left.
//! - After a success nothing was read but what is read as the answer (`only`, `exactly`), as in `asn1_dec` and `asn1_slots`.
//! - An error of a component of a SEQUENCE has its name, unless it is about the decoder or the whole input.
//! - [`close_knot`] answers what was read, in a box, or the error of memory, and keeps that contract.
//!
//! `specs/KnotMeanings.antt` defines the meaning of a knot by that of its generic type, for a CHOICE (`knot_meaning`) and for a
//! SEQUENCE (`sequence_knot_meaning`), from four laws that are read off the lists of the types (`KnotLaws`), and proves that it is
//! the meaning of what a value is made of (`knot_is_made`, `sequence_is_made`). Records are read as a value if they are down to some
//! depth (`read_to`), where a value with no depth left is read of its own records alone; `specs/KnotReadings.antt` has how that of
//! the parts makes that of the whole. Memory is taken for the elements of lists and for the box of the knot.
#![tactic(auto)]

mod choices;
mod decode_with;
mod elements;
mod errors;
mod knots;
mod lists;
mod meant;
mod optionals;
mod readings;
mod sequences;
mod slots;
mod tagged;
mod values;

pub use choices::{DecodeChoiceWith, decode_choice_with};
pub use decode_with::DecodeWith;
pub use errors::ReadError;
pub use knots::{Knot, close_knot};
pub use lists::{read_list_with, read_set_with};
pub use meant::Meant;
pub use readings::{Itself, ListOf, Reading, SetOfEach, Whole};
pub use sequences::{DecodeByIndexWith, decode_sequence_with};
pub use slots::{addition_with, alternative_with, optional_with, required_with};
pub use values::read_by;
