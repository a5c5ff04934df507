//! Whole codecs: the round trip of a value, streams of values, and the way of a value from one codec to another.
//!
//! | Item | What it is | In `specs/` |
//! |---|---|---|
//! | [`Rules`] | a whole codec: it writes a value to an output, and reads one back | `Rules` |
//! | [`round_trip`], [`RoundTripError`] | writes a value and reads it back | `RoundTrips` |
//! | [`recode`], [`RecodeError`] | reads by one codec and writes by another | `Recoding` |
//! | [`read_canonical`], [`CanonicalError`] | reads a value only if writing it makes the same bytes | `CanonicalReading` |
//! | [`FrontReader`] | reads one value at the front of an input, and answers its length | `Fronts`, `ItemFronts` |
//! | [`CanonicalReader`] | a reader of fronts that does the same | `CanonicalFronts` |
//! | [`a_canonical_reader_keeps_to_its_rules`] | its law | `CanonicalFronts` |
//! | [`Iter`], [`iter_of`] | values one after another, from bytes in pieces | `States`, `Progress`, `Iters`, `Sources` |
//! | [`write_list`] | the outputs of values, joined | `Outputs` |
//! | [`read_pieces`], [`Pieces`] | the values of pieces of bytes | `Pieces` |
//! | [`round_trip_in_pieces`] | the round trip of streams | `StreamRoundTrips`, `UnreadBytes` |
//! | [`outputs_are_fronts`] | the law for outputs from elsewhere | `StreamRoundTrips` |
//! | [`laws`] | the laws of the derives of the errors | |
//!
//! The main promises, of each codec and each reader that keeps its laws (docs/PROMISES.md has more):
//!
//! - A valid value of a well-tagged type whose writing succeeds is read back equal, by the type's own equality, unless memory
//!   runs out or it is nested deeper than the depth of reading (`back` of [`round_trip`]).
//! - The same of an output from elsewhere that carries the own records of such a value, if the value meets its type's invariant
//!   too (`read` of `read_value`); [`recode`] makes of it an output of an equal value, or fails as reading and writing may
//!   (`recoded`).
//! - Whatever an output is, it carries records that are read as the answer of `read_value` (`only`; `IsReadOf`): the value's own, or
//!   others that say the same to a reader, as a default that is written. So [`recode`] answers an output that carries the own records of
//!   a value that was read of the input (`only`).
//! - [`read_canonical`] answers a value only if writing it makes the input (`canonical`), and only one that the contract of
//!   `read_value` allows (`answered`), which allows the reason of an error too (`departs`). Such a value whose only spelling is
//!   the input is read back equal, unless memory or depth refuses (`read`).
//! - Valid values that were written come back equal and in their order, however their bytes are cut, by each steady reader that
//!   belongs to the codec's rules; one is missing only if memory ran out or it is nested deeper than the reader's depth (`back`
//!   of [`round_trip_in_pieces`]). Whatever the pieces are, the values that come were read of their bytes, one after another (`only` of
//!   [`read_pieces`]).
//! - `next` takes a value with its bytes, or answers an error and changes nothing (`next_gives`). Bytes that are kept after
//!   reading are never more than the unread ones (`kept` of [`Iter::unread`]).
//!
//! A reader is steady if trailing bytes change nothing, and an input has one front at most (`IsSteady`). It belongs to rules if
//! each output is a front of its value, and what it reads of the bytes of an output was read of records that this carries (`BelongsTo`).
#![tactic(auto)]

mod buffer;
mod canonical;
mod canonical_reader;
mod front_reader;
mod iter;
pub mod laws;
mod lists;
mod new_iter;
mod pieces;
mod recoding;
mod round_trips;
mod rules;
mod source;
mod stream_round_trips;

pub use canonical::{CanonicalError, read_canonical};
pub use canonical_reader::{CanonicalReader, a_canonical_reader_keeps_to_its_rules};
pub use front_reader::FrontReader;
pub use iter::Iter;
pub use lists::write_list;
pub use new_iter::iter_of;
pub use pieces::{Pieces, read_pieces};
pub use recoding::{RecodeError, recode};
pub use round_trips::{RoundTripError, round_trip};
pub use rules::Rules;
pub use stream_round_trips::{outputs_are_fronts, round_trip_in_pieces};
