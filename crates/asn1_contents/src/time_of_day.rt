//! TIME-OF-DAY (X.680, 38.4).
ghost use Rattle.std.specs.Prelude.{◌≡◌, ◌⊎◌, codes, false, true, IfErr, IfOk};
ghost use Rattle.asn1_contents.specs.TimesOfDay as spec;
ghost use Rattle.asn1_model.specs.Tags.{universal};

use crate::contents_kind::ContentsKind;
use crate::contents_string::ContentsString;
use crate::digits::{are_digits, high_digit, low_digit, number_at};
use crate::time_error::TimeError;
use asn1_model::TypeTable;
use asn1_tags::{Identifier, tag};
use std::alloc::Global;

/// The kind of TIME-OF-DAY.
#[derive(Drop)]
pub enum ClockTime {}

/// A TIME-OF-DAY: a local time to the second. It is kept as the octets of X.690, 8.26: its six digits, as 180500.
pub type TimeOfDay = ContentsString<ClockTime>;

impl ContentsKind for ClockTime {
    ghost type_tag = { universal 32 };

    ghost type_name = { codes "TIME_OF_DAY" };

    ghost allows = { spec.is_time_of_day };

    #[inline(always)]
    fn type_table() -> TypeTable {
        TypeTable::new(tag!(universal 32), Identifier::TIME_OF_DAY)
    }

    fn allows(octets: &[u8]) -> bool {
        is_time_of_day(octets)
    }
}

impl ContentsString<ClockTime> {
    /// The TIME-OF-DAY of an hour, a minute and a second. The second 60 is a leap second, and 24:00:00 the end of the day.
    ///
    /// # Errors
    /// [`TimeError::NoSuchTime`] if these are no time of a day, and [`TimeError::Memory`].
    pub fn from_time(alloc: Global, hour: u32, minute: u32, second: u32) -> Result<Self, TimeError>
        ensures hour { IfOk result (λ time. spec.hour_of time ≡ hour) }
        ensures minute { IfOk result (λ time. spec.minute_of time ≡ minute) }
        ensures second { IfOk result (λ time. spec.second_of time ≡ second) }
        ensures refused { IfErr result (λ error. (error ≡ TimeError.Memory)
            ⊎ (error ≡ TimeError.NoSuchTime) × (spec.is_time hour minute second ≡ false)) }
    {
        if !is_time(hour, minute, second) {
            return Err(TimeError::NoSuchTime);
        }
        let digits = digits_of_time(hour, minute, second);
        let octets = digits.to_vec(alloc)?;
        match ContentsString::new(octets) {
            Some(time) => Ok(time),
            None => Err(TimeError::NoSuchTime),
        }
    }

    /// The hour, from 0 to 24.
    pub fn hour(&self) -> u32
        ensures { result ≡ spec.hour_of self.now }
    {
        number_at(self.as_slice(), 0)
    }

    /// The minute, from 0 to 59.
    pub fn minute(&self) -> u32
        ensures { result ≡ spec.minute_of self.now }
    {
        number_at(self.as_slice(), 2)
    }

    /// The second, from 0 to 60.
    pub fn second(&self) -> u32
        ensures { result ≡ spec.second_of self.now }
    {
        number_at(self.as_slice(), 4)
    }
}

/// Whether octets are the digits of a time.
pub(crate) fn is_time_of_day(octets: &[u8]) -> bool
    ensures { result ≡ spec.is_time_of_day octets.now }
{
    octets.len() == 6
        && are_digits(octets)
        && is_time(
            number_at(octets, 0),
            number_at(octets, 2),
            number_at(octets, 4),
        )
}

/// Whether numbers are an hour, a minute and a second of a day.
fn is_time(hour: u32, minute: u32, second: u32) -> bool
    ensures { result ≡ spec.is_time hour minute second }
{
    hour < 24 && minute < 60 && second < 61 || hour == 24 && minute == 0 && second == 0
}

/// The six digits of a time.
fn digits_of_time(hour: u32, minute: u32, second: u32) -> [u8; 6]
    requires { spec.is_time hour minute second ≡ true }
    ensures allowed { spec.is_time_of_day result ≡ true }
    ensures hour { spec.hour_of result ≡ hour }
    ensures minute { spec.minute_of result ≡ minute }
    ensures second { spec.second_of result ≡ second }
{
    [
        high_digit(hour),
        low_digit(hour),
        high_digit(minute),
        low_digit(minute),
        high_digit(second),
        low_digit(second),
    ]
}
