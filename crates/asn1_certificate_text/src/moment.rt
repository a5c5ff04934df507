//! Moments, as certificates have them.
ghost use Rattle.std.specs.Prelude.{◌≡◌, ◌<◌, ◌≤◌, ◌%◌, ◌∷◌, [], ℕ, Some};
ghost use Rattle.asn1_certificate_text.specs.Moments.{days_in_month, is_leap_year, two_digits};

use std::fmt;

/// A moment in universal time, to the second.
#[derive(Clone, Copy, PartialEq, Eq, Debug)]
pub struct Moment {
    /// The year.
    pub year: u16,
    /// The month, from 1 on.
    pub month: u8,
    /// The day of the month, from 1 on.
    pub day: u8,
    /// The hour.
    pub hour: u8,
    /// The minute.
    pub minute: u8,
    /// The second.
    pub second: u8,
}

impl Moment {
    ghost use Rattle.std.specs.Prelude.{◌↔◌, IfSome, IsTrue};
    ghost use Rattle.asn1_certificate_text.specs.MomentTexts.{IsInCalendar, IsOfUtcTime, generalized_time, time_in_year, utc_time};

    /// The moment of a UTCTime as RFC 5280 has it (4.1.2.5.1), `YYMMDDHHMMSSZ`, of the years from 1950 to 2049.
    pub fn from_utc_time(text: &[u8]) -> Option<Moment>
        ensures read { (m : Moment) → IsInCalendar m → IsOfUtcTime m → text.now ≡ utc_time m →
            result ≡ Some m }
        ensures only { IfSome result (λ m.
            IsInCalendar m × (IsOfUtcTime m × (text.now ≡ utc_time m))) }
    {
        let Some(moment) = Moment::of_utc_digits(text) else {
            return None;
        };
        if moment.has_utc_time(text) {
            return Some(moment);
        }
        None
    }

    /// The moment of a GeneralizedTime as RFC 5280 has it (4.1.2.5.2), `YYYYMMDDHHMMSSZ`.
    pub fn from_generalized_time(text: &[u8]) -> Option<Moment>
        ensures read { (m : Moment) → IsInCalendar m → text.now ≡ generalized_time m →
            result ≡ Some m }
        ensures only { IfSome result (λ m. IsInCalendar m × (text.now ≡ generalized_time m)) }
    {
        let Some(moment) = Moment::of_generalized_digits(text) else {
            return None;
        };
        if moment.has_generalized_time(text) {
            return Some(moment);
        }
        None
    }

    /// The numbers of the digits of a UTCTime, if these are digits.
    fn of_utc_digits(text: &[u8]) -> Option<Moment>
        ensures { (m : Moment) → IsInCalendar m → IsOfUtcTime m → text.now ≡ utc_time m →
            result ≡ Some m }
    {
        let [y, z, rest @ ..] = text else {
            return None;
        };
        Moment::of_year(full_year(number(*y, *z)), rest)
    }

    /// The numbers of the digits of a GeneralizedTime, if these are digits.
    fn of_generalized_digits(text: &[u8]) -> Option<Moment>
        ensures { (m : Moment) → IsInCalendar m → text.now ≡ generalized_time m → result ≡ Some m }
    {
        let [w, x, y, z, rest @ ..] = text else {
            return None;
        };
        let century = u16::from(number(*w, *x));
        Moment::of_year(century * 100 + u16::from(number(*y, *z)), rest)
    }

    /// The moment in a year, by two digits for each part, if these are digits.
    fn of_year(year: u16, text: &[u8]) -> Option<Moment>
        ensures { (m : Moment) → IsInCalendar m → year ≡ m.year → text.now ≡ time_in_year m →
            result ≡ Some m }
    {
        let [a, b, c, d, e, f, g, h, i, j, _] = text else {
            return None;
        };
        Some(Moment {
            year,
            month: number(*a, *b),
            day: number(*c, *d),
            hour: number(*e, *f),
            minute: number(*g, *h),
            second: number(*i, *j),
        })
    }

    /// Whether it is of the years that a UTCTime says, and this is its text.
    fn has_utc_time(&self, text: &[u8]) -> bool
        ensures { IsTrue result ↔ (IsInCalendar self.now ×
            (IsOfUtcTime self.now × (text.now ≡ utc_time self.now))) }
    {
        self.is_in_calendar()
            && 1950 <= self.year
            && self.year < 2050
            && text == &self.generalized_time()[2..]
    }

    /// Whether it is in the calendar, and this is its text.
    fn has_generalized_time(&self, text: &[u8]) -> bool
        ensures { IsTrue result ↔ (IsInCalendar self.now × (text.now ≡ generalized_time self.now)) }
    {
        self.is_in_calendar() && text == self.generalized_time().as_slice()
    }

    /// Whether there is such a day, of a year below 10000, and such a second in it. There are no leap seconds.
    fn is_in_calendar(&self) -> bool
        ensures { IsTrue result ↔ IsInCalendar self.now }
    {
        self.year < 10000
            && 1 <= self.month
            && self.month <= 12
            && 1 <= self.day
            && self.day <= days_in_month(self.year, self.month)
            && self.hour < 24
            && self.minute < 60
            && self.second < 60
    }

    /// Its text as a GeneralizedTime.
    fn generalized_time(&self) -> [u8; 15]
        ensures { result ≡ generalized_time self.now }
    {
        let [w, x] = digits(self.year / 100);
        let [y, z] = digits(self.year);
        let [a, b] = digits(u16::from(self.month));
        let [c, d] = digits(u16::from(self.day));
        let [e, f] = digits(u16::from(self.hour));
        let [g, h] = digits(u16::from(self.minute));
        let [i, j] = digits(u16::from(self.second));
        [w, x, y, z, a, b, c, d, e, f, g, h, i, j, b'Z']
    }
}

/// The year of which these are the last two digits, from 1950 to 2049.
fn full_year(in_century: u8) -> u16
    ensures { (year : ℕ) → 1950 ≤ year → year < 2050 → in_century ≡ year % 100 → result ≡ year }
{
    if in_century < 50 {
        2000 + u16::from(in_century)
    } else {
        1900 + u16::from(in_century)
    }
}

/// The number of two decimal digits. Other octets give some number.
fn number(tens: u8, ones: u8) -> u8
    ensures { (n : ℕ) → n < 100 → tens ∷ ones ∷ [] ≡ two_digits n → result ≡ n }
{
    tens % 16 * 10 + ones % 16
}

/// The last two decimal digits of a number.
fn digits(number: u16) -> [u8; 2]
    ensures { result ≡ two_digits number }
{
    [b'0' + (number / 10 % 10) as u8, b'0' + (number % 10) as u8]
}

/// How many days a month has.
fn days_in_month(year: u16, month: u8) -> u8
    ensures { result ≡ days_in_month year month }
{
    if month == 4 || month == 6 || month == 9 || month == 11 {
        30
    } else if month == 2 {
        if is_leap_year(year) { 29 } else { 28 }
    } else {
        31
    }
}

/// Whether a year has a 29th of February.
fn is_leap_year(year: u16) -> bool
    ensures { result ≡ is_leap_year year }
{
    year % 4 == 0 && (year % 100 != 0 || year % 400 == 0)
}

/// As `2025-06-01 12:00:00 UTC`.
impl fmt::Display for Moment {
    ghost use Rattle.asn1_certificate_text.specs.MomentTexts.{moment_text};

    ghost output = { λ m. Some (moment_text m) };

    fn fmt<W: fmt::Write>(&self, f: &mut fmt::Formatter<W>) -> fmt::Result {
        write!(
            f,
            "{}{}-{}-{} {}:{}:{} UTC",
            TwoDigits(self.year / 100),
            TwoDigits(self.year),
            TwoDigits(u16::from(self.month)),
            TwoDigits(u16::from(self.day)),
            TwoDigits(u16::from(self.hour)),
            TwoDigits(u16::from(self.minute)),
            TwoDigits(u16::from(self.second))
        )
    }
}

/// The last two decimal digits of a number.
#[derive(Clone, Copy)]
struct TwoDigits(u16);

impl fmt::Display for TwoDigits {
    ghost output = { λ n. Some (two_digits n.0) };

    fn fmt<W: fmt::Write>(&self, f: &mut fmt::Formatter<W>) -> fmt::Result {
        write!(f, "{}{}", self.0 / 10 % 10, self.0 % 10)
    }
}
