//! DATE (X.680, 38.4).
ghost use Rattle.std.specs.Prelude.{◌≡◌, ◌⊎◌, codes, false, length, true, IfErr, IfOk};
ghost use Rattle.asn1_contents.specs.Dates as spec;
ghost use Rattle.asn1_contents.specs.Digits.{are_digits};
ghost use Rattle.asn1_model.specs.Tags.{universal};

use crate::contents_kind::ContentsKind;
use crate::contents_string::ContentsString;
use crate::digits::{are_digits, high_digit, low_digit, number_at};
use crate::time_error::TimeError;
use asn1_model::TypeTable;
use asn1_tags::{Identifier, Tag};
use std::alloc::Global;

/// The kind of DATE.
#[derive(Drop)]
pub enum CalendarDate {}

/// A DATE: a day of the Gregorian calendar, from the year 1582 to 9999. It is kept as the octets of X.690, 8.26: its eight digits, as
/// 20261129.
pub type Date = ContentsString<CalendarDate>;

impl ContentsKind for CalendarDate {
    ghost type_tag = { universal 31 };

    ghost type_name = { codes "DATE" };

    ghost allows = { spec.is_date };

    #[inline(always)]
    fn type_table() -> TypeTable {
        TypeTable::new(Tag::DATE, Identifier::DATE)
    }

    fn allows(octets: &[u8]) -> bool {
        is_date(octets)
    }
}

impl ContentsString<CalendarDate> {
    /// The DATE of a year, a month and a day.
    ///
    /// # Errors
    /// [`TimeError::NoSuchTime`] if these are no day from 1582 to 9999, and [`TimeError::Memory`].
    pub fn from_day(alloc: Global, year: u32, month: u32, day: u32) -> Result<Self, TimeError>
        ensures year { IfOk result (λ date. spec.year_of date ≡ year) }
        ensures month { IfOk result (λ date. spec.month_of date ≡ month) }
        ensures day { IfOk result (λ date. spec.day_of date ≡ day) }
        ensures refused { IfErr result (λ error. (error ≡ TimeError.Memory)
            ⊎ (error ≡ TimeError.NoSuchTime) × (spec.is_day year month day ≡ false)) }
    {
        if !is_day(year, month, day) {
            return Err(TimeError::NoSuchTime);
        }
        let digits = digits_of_day(year, month, day);
        let octets = digits.to_vec(alloc)?;
        match ContentsString::new(octets) {
            Some(date) => Ok(date),
            None => Err(TimeError::NoSuchTime),
        }
    }

    /// The year.
    pub fn year(&self) -> u32
        ensures { result ≡ spec.year_of self.now }
    {
        year_of(self.as_slice())
    }

    /// The month, from 1 to 12.
    pub fn month(&self) -> u32
        ensures { result ≡ spec.month_of self.now }
    {
        number_at(self.as_slice(), 4)
    }

    /// The day of the month, from 1 on.
    pub fn day(&self) -> u32
        ensures { result ≡ spec.day_of self.now }
    {
        number_at(self.as_slice(), 6)
    }
}

/// Whether octets are the digits of a day.
pub(crate) fn is_date(octets: &[u8]) -> bool
    ensures { result ≡ spec.is_date octets.now }
{
    octets.len() == 8
        && are_digits(octets)
        && is_day(year_of(octets), number_at(octets, 4), number_at(octets, 6))
}

/// The year of eight digits.
fn year_of(octets: &[u8]) -> u32
    requires { length octets.now ≡ 8 }
    ensures { result ≡ spec.year_of octets.now }
{
    number_at(octets, 0) * 100 + number_at(octets, 2)
}

/// Whether February of a year has 29 days.
fn is_leap_year(year: u32) -> bool
    ensures { result ≡ spec.is_leap_year year }
{
    year % 4 == 0 && (year % 100 != 0 || year % 400 == 0)
}

/// The number of days of a month.
fn days_of_month(year: u32, month: u32) -> u32
    ensures { result ≡ spec.days_of_month year month }
{
    if month == 2 {
        if is_leap_year(year) { 29 } else { 28 }
    } else if month == 4 || month == 6 || month == 9 || month == 11 {
        30
    } else {
        31
    }
}

/// Whether a year, a month and a day are one of the calendar.
fn is_day(year: u32, month: u32, day: u32) -> bool
    ensures { result ≡ spec.is_day year month day }
{
    !(year < 1582)
        && year < 10000
        && !(month == 0)
        && month < 13
        && !(day == 0)
        && !(days_of_month(year, month) < day)
}

/// The eight digits of a day.
fn digits_of_day(year: u32, month: u32, day: u32) -> [u8; 8]
    requires { spec.is_day year month day ≡ true }
    ensures allowed { spec.is_date result ≡ true }
    ensures year { spec.year_of result ≡ year }
    ensures month { spec.month_of result ≡ month }
    ensures day { spec.day_of result ≡ day }
{
    let digits = eight_digits(year, month, day);
    digits
}

/// Four digits of a year, and two of a month and a day.
fn eight_digits(year: u32, month: u32, day: u32) -> [u8; 8]
    requires { spec.is_day year month day ≡ true }
    ensures length { length result ≡ 8 }
    ensures digits { are_digits result ≡ true }
    ensures year { spec.year_of result ≡ year }
    ensures month { spec.month_of result ≡ month }
    ensures day { spec.day_of result ≡ day }
{
    [
        high_digit(year / 100),
        low_digit(year / 100),
        high_digit(year % 100),
        low_digit(year % 100),
        high_digit(month),
        low_digit(month),
        high_digit(day),
        low_digit(day),
    ]
}
