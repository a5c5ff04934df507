//! Types within limits: values that cannot be outside the constraint of their type (X.680, 49 to 52).
//!
//! | Item | What it is | In `specs/` |
//! |---|---|---|
//! | [`Within`] | a value of a type that a constraint admits | `LimitedTypes` |
//! | [`Restriction`] | what a constraint admits, as a marker: a type without values | |
//! | [`Sizes`], [`SizesFrom`] | SIZE (51.5) | `Facets` |
//! | `Between` of asn1_values, [`NumbersFrom`], [`NumbersUpTo`], [`LimitsOf`] | ranges of whole numbers (51.4) | `Facets` |
//! | [`Letters`], [`LetterRanges`] | FROM (51.7), by a [`CharacterList`] or by [`CharacterRanges`] | `Facets`, `CharacterRanges` |
//! | [`And`], [`Or`], [`Except`], [`Anything`] | INTERSECTION, UNION, EXCEPT (50), and what ALL EXCEPT excludes from | |
//! | [`WithMarker`], [`Stated`] | a constraint with an extension marker (52), and one that only tables state | |
//! | [`Constrainable`], [`HasSize`], [`HasNumber`], [`HasCharacters`] | the types that limits can be put on | `Facets`, `FacetLaws` |
//! | [`NumberedUnit`] | a unit of a string, as the character with its number | |
//! | [`TableAdmits`] | a constraint whose table excludes nothing that it admits | `LimitTables` |
//! | [`laws`] | what ghost members and derives amount to | |
//!
//! ```text
//! name PrintableString (SIZE (1..64))          Within<PrintableString, Sizes<1, 64>>
//! lines SEQUENCE SIZE (1..MAX) OF UTF8String   Within<Vec<String>, SizesFrom<1>>
//! rank INTEGER (1..10, ...)                    Within<Integer, WithMarker<Between<1, 10>>>
//! ```
//!
//! The main promises:
//!
//! - [`Within::new`] and [`Within::try_new`] succeed if and only if the constraint admits the value (`within`), with that value
//!   (`same`); `try_new` gives a value outside back (`given_back`). [`Within::get`] and [`Within::into_inner`] tell that the value is
//!   within the limits (`within`), so no caller has to test it again.
//! - [`Within::is_in_root`] tells whether the value is in the extension root. Behind an extension marker every value is within the
//!   limits, but for those that the constraint of a parent type refuses.
//! - A value within limits means what the value means; the table has the constraints of the limits
//!   (`laws::types_within_limits_mean_what_they_hold`). It is written as the value, without a test. Reading answers
//!   `OutOfRange` to the records of a value outside (`refuses`), and an equal value to those of every other (`read`).
//! - [`first_character_except`] names the first character that an alphabet lacks (`first`); it names none if and only if the
//!   alphabet has all (`none`).
//! - A table excludes no value within the limits (`laws::tables_allow_what_is_within`), of every marker but [`Stated`].
//!
//! A limit goes outside an implicit tag, whose own table has no constraints, and inside an explicit one. [`Letters`] takes memory at
//! each call that writes or reads a value, as each table with an alphabet does; no other marker takes any.
#![tactic(auto)]

mod asn_type;
mod constrainable;
mod conversions;
mod decode;
mod encode;
pub mod laws;
mod markers;
mod restriction;
mod table_admits;
mod values;
mod within;

pub use constrainable::{Constrainable, HasCharacters, HasNumber, HasSize};
pub use markers::alphabets::{
    CharacterList, CharacterRange, CharacterRanges, LetterRanges, Letters, first_character_except,
};
pub use markers::extensions::{Stated, WithMarker};
pub use markers::numbers::{LimitsOf, NumbersFrom, NumbersUpTo};
pub use markers::sets::{And, Anything, Except, Or};
pub use markers::sizes::{Sizes, SizesFrom};
pub use restriction::Restriction;
pub use table_admits::TableAdmits;
pub use values::units::NumberedUnit;
pub use within::Within;
