//! Programs that convert values of the types of a crate, as `asn1_compile --program` prints them.
//!
//! | Item | What it is | In `specs/` |
//! |---|---|---|
//! | [`run`], [`TypeList`] | the program over a list of types | `SomeType` |
//! | [`convert_input`], [`answer_input`], [`Outcome`] | its work on an input, and how that ends | `Runs`, `SomeType` |
//! | [`Pieces`] | an input that comes in pieces | `Pieces` |
//! | [`Task`], [`Action`], [`Answer`], [`Converted`] | what is asked of the octets of values of a type, and what is written for it | `Answers`, `Lines` |
//! | [`convert_values`], [`Conversion`], [`Stop`], [`Cause`] | values one after another, in another form | `Conversions` |
//! | [`convert_value`], [`recode_between`] | the octets of one value | `Conversions` |
//! | [`front_length`] | how many octets the first value of an input has | `Forms` |
//! | [`check_der`], [`CheckError`] | whether octets are the DER of a type, and if not why | `Checks` |
//! | [`check_fault`], [`CheckFault`] | where they are not, and the reason in words | `Checks` |
//! | [`CodecForm`], [`OutputForm`] | the forms of values: DER, BER, packed octets, X.680's notation and JSON | `Forms` |
//!
//! The contracts promise:
//!
//! - The octets of an input are cut into values by their first elements, in the packed form by their items (`IsFront` of
//!   `specs/Forms.antt`). The output is the conversion of each value before the one that was not converted, once and in order, and
//!   a stop names how many these are, the position of its first octet and its cause (`IsStop` of `specs/Conversions.antt`).
//! - From codec to codec a value is converted as `recode` does, whose contract holds of each of the nine pairs ([`recode_between`]):
//!   if the octets carry a valid value of a well-tagged type, the output carries one that is equal. JSON is one document in one line.
//!   The output is always that of a value which reading the octets may answer (`IsOfValue`); of octets with records that the type
//!   refuses there is none.
//! - A value that [`check_der`] answers is written as the very octets (`canonical`), which break no rule that reading asks for
//!   (`keeps`). An error is a rule that they break, at its position, or one that
//!   reading or writing them again may answer (`departs`). Octets that keep these rules and are the only DER of a valid value are read, unless
//!   memory or depth refuses (`read`).
//! - The answer to a task ([`Task::perform`]) is such a conversion, with a failure exactly if it was stopped; or it tells whether the
//!   octets are the DER of a value, with a failure exactly if they are refused (`IsAnswer` of `specs/Answers.antt`). The line of a stop
//!   begins with the number of the value in the whole input and its first octet there (`IsLineOf` of `specs/Lines.antt`).
//! - Hexadecimal digits are read as the octets that they stand for, with white space anywhere; another text is refused with the first
//!   position at which it is none (`AreDigitsOf`, `IsFirstFault` of `specs/Digits.antt`).
//! - Over any reader and writer that tell their bytes, a program has the values of an input converted and written, once and in order,
//!   up to the end or to the value that its line names. It ends with 0 only if all of the input was
//!   converted, or checked, and with 1 only if a line names a value or the input is refused (`EndsConversion`, `EndsWork` and
//!   `status_of` of `specs/Runs.antt`). No contract says which type has a name: these words hold whatever the type is, and
//!   [`Task::perform`] says of its type what is written.
//!
//! No contract covers texts in X.680's notation (`asn1_value_text`), nor the cause in a line on standard error, nor the place inside a
//! value that it names (`asn1_paths`); the stored run of test_texts shows them. Only the source shows that [`run`] passes on arguments,
//! status and line. It keeps the octets of the value that is not there whole, and all those of `--check` and `--hex`.
#![tactic(auto)]

mod arguments;
mod causes;
mod check;
mod contents;
mod differences;
mod elements;
mod failing_place;
mod form;
mod fronts;
mod hexadecimal;
mod input;
mod outcome;
mod pieces;
mod places;
mod program;
mod recoding;
mod report;
mod stream;
mod task;
mod type_faults;

pub use check::{CheckError, CheckFault, check_der, check_fault};
pub use form::{CodecForm, OutputForm};
pub use fronts::front_length;
pub use input::{answer_input, convert_input};
pub use outcome::Outcome;
pub use pieces::{Pieces, PiecesError};
pub use program::run;
pub use recoding::{convert_value, recode_between};
pub use stream::{Cause, Conversion, Stop, convert_values};
pub use task::{Action, Answer, Converted, Task, TypeList};
