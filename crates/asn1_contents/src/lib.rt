//! Types whose values are their contents octets: REAL (X.680, 21), RELATIVE-OID (33), the times of 38.4, but for DURATION, and
//! UniversalString (41).
//!
//! | Item | What it is | In `specs/` |
//! |---|---|---|
//! | [`ContentsString`] | the contents octets of a value, which keep the rule of their kind | `ContentsTypes` |
//! | [`ContentsKind`], [`ContentsOf`] | a kind of contents, and its marker for codecs | |
//! | [`Real`], [`BinaryParts`], [`SpecialReal`], [`RealError`] | a REAL, by its contents octets in the normal form (X.690, 8.5 and 11.3) | `Reals` |
//! | [`RelativeOid`], [`RelativeOidError`] | a RELATIVE-OID, by its contents octets (X.690, 8.20) | `RelativeOids` |
//! | [`Date`] | a DATE, by its eight digits (X.690, 8.26) | `Dates`, `Digits` |
//! | [`TimeOfDay`] | a TIME-OF-DAY, by its six digits | `TimesOfDay`, `Digits` |
//! | [`DateTime`] | a DATE-TIME, by its fourteen digits | `DateTimes` |
//! | [`UniversalString`] | a UniversalString, by the numbers of its characters in four octets (X.690, 8.23.7) | `UniversalStrings` |
//! | [`TimeError`] | why numbers make no day and no time | |
//!
//! A codec writes and reads such a value as a string of octets under the tag of its type, so each codec takes it as it is. In DER and BER
//! these are the contents octets of X.690. The compiler prints these types for those of ASN.1, and a type by hand may name them.
//!
//! The contracts promise:
//!
//! - A value has octets that keep the rule of its kind, and no others (`ContentsString::new`); equal values have the same octets.
//! - The rule is the standard's: octets are those of a RELATIVE-OID if and only if they are one arc or more to the base 128, of a DATE
//!   if and only if they are the digits of a day of the calendar, of a UniversalString if and only if they are characters, and so on
//!   (`octets_of_relative_oids_are_arcs` and the like, in `laws`).
//! - A RELATIVE-OID is the arcs that it was made of (`relative_oids_are_their_arcs`), and its arcs are those of its octets (`only` of
//!   `arcs`). A DATE has the year, the month and the day that it was made of (`year`, `month` and `day` of `from_day`), a TIME-OF-DAY
//!   its hour, minute and second (`from_time`), and a DATE-TIME its date and its time (`date_times_are_their_parts`). A REAL has the
//!   octets of the text or the parts that it was made of (`from_decimal`, `from_binary`, `from_special`). A UniversalString is the text
//!   that it was made of (`universal_strings_are_their_texts`).
//! - Each type can be inside other types, and has the tag of X.680 and the name of rasn (`dates_have_the_tag_of_the_standard` and the
//!   like).
//!
//! A REAL in another form than the normal one of DER is refused by all codecs, so BER does not read what BER alone allows.
#![tactic(auto)]

mod contents_kind;
mod contents_string;
mod date;
mod date_time;
mod digits;
mod laws;
mod real;
mod real_form;
mod real_parts;
mod relative_oid;
#[cfg(test)]
mod tests;
mod time_error;
mod time_of_day;
mod universal_string;

pub use contents_kind::{ContentsKind, ContentsOf};
pub use contents_string::ContentsString;
pub use date::{CalendarDate, Date};
pub use date_time::{DateTime, DayTime};
pub use laws::{
    contents_strings_are_compared_by_octets, date_times_are_their_parts,
    date_times_have_the_tag_of_the_standard, dates_have_the_tag_of_the_standard,
    octets_of_date_times_are_their_digits, octets_of_dates_are_their_digits,
    octets_of_reals_are_their_parts, octets_of_relative_oids_are_arcs,
    octets_of_times_are_their_digits, octets_of_universal_strings_are_characters,
    reals_have_the_tag_of_the_standard, relative_oids_are_their_arcs,
    relative_oids_have_the_tag_of_the_standard, times_of_day_have_the_tag_of_the_standard,
    universal_strings_are_their_texts, universal_strings_have_the_tag_of_the_standard,
};
pub use real::{Real, RealError, RealNumber};
pub use real_parts::{BinaryParts, SpecialReal};
pub use relative_oid::{RelativeArcs, RelativeOid, RelativeOidError};
pub use time_error::TimeError;
pub use time_of_day::{ClockTime, TimeOfDay};
pub use universal_string::{UniversalCharacters, UniversalString};
