//! Elements of BER (X.690, 8.1), in any of their spellings, and their normal form.
//!
//! BER writes an element in many ways: a length may have more octets than it needs, and a constructed element may have an
//! indefinite length, with end-of-contents octets after the elements inside. [`normal_form`] answers the same elements with definite
//! lengths of the fewest octets, as DER has them, so what reads elements of DER reads those of BER too.
//!
//! | Item | What it is |
//! |---|---|
//! | [`normal_form`] | the elements of which some bytes are, with definite lengths of the fewest octets |
//! | [`front_element`], [`FrontElement`] | the same of the first element alone, and the bytes after it |
//! | [`find_end`], [`Progress`] | the end of the first element, searched in bytes that come in pieces |
//! | [`octets_of_pieces`], [`bits_of_pieces`] | a string that is constructed of pieces, as the primitive form has it |
//! | [`read_truth_value`], [`strict_bits`] | contents octets that BER has and DER has not |
//! | [`laws`] | laws of normal forms |
//!
//! The contracts promise, in the words of `specs/Spellings.antt`, `specs/Ends.antt`, `specs/Pieces.antt` and
//! `specs/LooseContents.antt`:
//!
//! - The answer has the elements of the bytes, each with its tag and its form, primitive or constructed, and with the same contents
//!   octets if it is primitive (`only`, by `Spells`).
//! - Bytes that are elements of BER, with tag numbers below 2^32, have one normal form, and it is the answer, unless memory runs out
//!   (`found`).
//! - [`ItemError::Missing`](asn1_items::ItemError::Missing), on which a reader of a stream waits, comes of bytes that end inside their
//!   first element (`cut`), and of no others (`missing`): by `EndsInside` they end in an identifier or a length that other octets
//!   complete, in contents octets of a definite length, or before end-of-contents octets. A header that no octets complete is
//!   malformed. The error does not come of a whole element (`whole_front`; `found` of [`front_element`] and of [`find_end`]).
//! - The first element of some bytes has one normal form and one end ([`laws::normal_forms_are_unique`]), whatever follows it
//!   ([`laws::trailing_bytes_stay`]). An element of DER is its own normal form ([`laws::der_is_normal`]).
//! - The octets of a string in pieces are those of its primitive pieces, one after another (`AreOctetPieces`). Of a bit string each piece
//!   but the last has whole octets (`AreBitPieces`).
//! - TRUE is any octet but zero (`IsTruthValue`), and unused bits may be any (`AreLooseBits`).
//!
//! Elements may be nested to any depth: the walk (`specs/Walks.antt`) keeps the open elements in a list, of 32 octets each, and does not
//! call itself. The search for an end counts them, and pieces are compared with their normal form, and then read with no list. The
//! walk writes in segments (`specs/Segments.antt`), so a length that grows moves few octets. No length in the bytes reserves memory. A normal form leaves
//! contents octets as they are.
#![tactic(auto)]

mod ahead;
mod front_end;
mod header;
pub mod laws;
mod loose;
mod normal;
mod open_element;
mod pieces;
mod progress;
mod segments;
mod size;
mod walk;

pub use front_end::find_end;
pub use loose::{read_truth_value, strict_bits};
pub use normal::{FrontElement, front_element, normal_form};
pub use pieces::{bits_of_pieces, octets_of_pieces};
pub use progress::Progress;
