//! Examples of X.690, and octets that Erlang's compiler wrote in DER.
use crate::{
    ContentsKind, ContentsString, Date, DateTime, Real, RelativeOid, RelativeOidError, SpecialReal,
    TimeOfDay, UniversalString,
};
use std::alloc::Global;
use std::process::Abort;

/// The octets are a RELATIVE-OID of these arcs, and the arcs have these octets.
fn assert_arcs(rt: &impl Abort, alloc: Global, arcs: &[u32], octets: &[u8]) {
    let made = RelativeOid::from_arcs(alloc, arcs).expect(rt, "arcs");
    assert!(rt; made.as_slice() == octets);
    let own = octets.to_vec(alloc).expect(rt, "memory");
    let read = RelativeOid::new(own).expect(rt, "a RELATIVE-OID");
    assert!(rt; read.arcs(alloc).expect(rt, "arcs").as_slice() == arcs);
}

/// Whether octets are the contents of a value.
fn is_value<K: ContentsKind>(rt: &impl Abort, alloc: Global, octets: &[u8]) -> bool {
    let own = octets.to_vec(alloc).expect(rt, "memory");
    ContentsString::<K>::new(own).is_some()
}

fn assert_refused(rt: &impl Abort, alloc: Global, octets: &[u8]) {
    assert!(rt; !is_value::<crate::RelativeArcs>(rt, alloc, octets));
}

#[test]
fn contents_are_those_of_the_standard(rt: HostRuntime) {
    let alloc = rt.alloc();
    // The example of 8.20.5.
    assert_arcs(&rt, alloc, &[8571, 3, 2], &[0xc2, 0x7b, 3, 2]);
    assert_arcs(&rt, alloc, &[0], &[0]);
    assert_arcs(
        &rt,
        alloc,
        &[u32::MAX, 1],
        &[0x8f, 0xff, 0xff, 0xff, 0x7f, 1],
    );
    assert_refused(&rt, alloc, &[]);
    assert_refused(&rt, alloc, &[0x80, 1]);
    assert_refused(&rt, alloc, &[1, 0xc2]);
    let none = RelativeOid::from_arcs(alloc, &[]);
    assert!(rt; matches!(none, Err(RelativeOidError::NoArcs)));
}

/// A day has these digits.
fn assert_day(rt: &impl Abort, alloc: Global, year: u32, month: u32, day: u32, digits: &[u8]) {
    let date = Date::from_day(alloc, year, month, day).expect(rt, "a day");
    assert!(rt; date.as_slice() == digits);
}

fn is_day(alloc: Global, year: u32, month: u32, day: u32) -> bool {
    Date::from_day(alloc, year, month, day).is_ok()
}

#[test]
fn dates_are_days_of_the_calendar(rt: HostRuntime) {
    let alloc = rt.alloc();
    assert_day(&rt, alloc, 2000, 2, 29, b"20000229");
    assert_day(&rt, alloc, 1582, 1, 1, b"15820101");
    assert_day(&rt, alloc, 9999, 12, 31, b"99991231");
    assert!(&rt; !is_day(alloc, 1900, 2, 29));
    assert!(&rt; !is_day(alloc, 1581, 12, 31));
    assert!(&rt; !is_day(alloc, 2024, 4, 31));
    // Hyphens are in the notation alone (X.690, 8.26).
    assert!(&rt; !is_value::<crate::CalendarDate>(&rt, alloc, b"2024-02-29"));
}

#[test]
fn date_times_are_dates_and_times(rt: HostRuntime) {
    let alloc = rt.alloc();
    let date = Date::from_day(alloc, 1985, 11, 6).expect(&rt, "a day");
    let time = TimeOfDay::from_time(alloc, 21, 6, 27).expect(&rt, "a time");
    let both = DateTime::from_parts(alloc, &date, &time).expect(&rt, "memory");
    assert!(&rt; both.as_slice() == b"19851106210627".as_slice());
}

#[test]
fn times_are_those_of_a_day(rt: HostRuntime) {
    let alloc = rt.alloc();
    assert!(&rt; TimeOfDay::from_time(alloc, 24, 0, 0).is_ok());
    assert!(&rt; TimeOfDay::from_time(alloc, 23, 59, 60).is_ok());
    assert!(&rt; TimeOfDay::from_time(alloc, 24, 0, 1).is_err());
    assert!(&rt; !is_value::<crate::DayTime>(&rt, alloc, b"19851106T210627"));
}

/// Octets are those of a REAL with these parts.
fn assert_binary(rt: &impl Abort, alloc: Global, exponent: &[u8], mantissa: &[u8], octets: &[u8]) {
    let real = Real::from_binary(alloc, false, exponent, mantissa).expect(rt, "normal");
    assert!(rt; real.as_slice() == octets);
    assert!(rt; real.binary().is_some());
}

fn is_decimal(alloc: Global, text: &[u8]) -> bool {
    Real::from_decimal(alloc, text).is_ok()
}

#[test]
fn binary_reals_are_in_the_normal_form(rt: HostRuntime) {
    let alloc = rt.alloc();
    // Erlang's compiler wrote 1.5, 10 and 2^-1076 so.
    assert_binary(&rt, alloc, &[0xff], &[3], &[0x80, 0xff, 3]);
    assert_binary(&rt, alloc, &[1], &[5], &[0x80, 1, 5]);
    assert_binary(&rt, alloc, &[0xfb, 0xcc], &[1], &[0x81, 0xfb, 0xcc, 1]);
    // An even mantissa, and a longer exponent than there need be (11.3.1).
    assert!(&rt; !is_value::<crate::RealNumber>(&rt, alloc, &[0x80, 0, 2]));
    assert!(&rt; !is_value::<crate::RealNumber>(&rt, alloc, &[0x81, 0, 1, 1]));
}

#[test]
fn decimal_reals_are_in_the_normal_form(rt: HostRuntime) {
    let alloc = rt.alloc();
    // Erlang's compiler wrote the first three so.
    assert!(&rt; is_decimal(alloc, b"15.E-1"));
    assert!(&rt; is_decimal(alloc, b"-3.E+0"));
    assert!(&rt; is_decimal(alloc, b"12.E1"));
    assert!(&rt; !is_decimal(alloc, b"1.5E+0"));
    assert!(&rt; !is_decimal(alloc, b"10.E+0"));
    assert!(&rt; !is_decimal(alloc, b"1.E-0"));
    // 8.5.9.
    let real = Real::from_special(alloc, SpecialReal::NotANumber).expect(&rt, "memory");
    assert!(&rt; real.as_slice() == [0x42].as_slice());
}

/// A UniversalString of this text has these octets, and is this text.
fn assert_text(rt: &impl Abort, alloc: Global, text: &str, octets: &[u8]) {
    let made = UniversalString::from_text(alloc, text).expect(rt, "memory");
    assert!(rt; made.as_slice() == octets);
    assert!(rt; made.text(alloc).expect(rt, "memory").as_str() == text);
    assert!(rt; made.characters(alloc).expect(rt, "memory").len() == octets.len() / 4);
}

#[test]
fn universal_strings_have_four_octets_for_each_character(rt: HostRuntime) {
    let alloc = rt.alloc();
    // Erlang's compiler wrote "Aé😀" so.
    let octets = [0, 0, 0, 0x41, 0, 0, 0, 0xe9, 0, 1, 0xf6, 0];
    assert_text(&rt, alloc, "Aé😀", &octets);
    assert_text(&rt, alloc, "", &[]);
    // UTF-8; half of a surrogate pair; a number above the last character; a part of a character.
    for octets in [
        b"A".as_slice(),
        &[0, 0, 0xd8, 0],
        &[0, 0x11, 0, 0],
        &[0, 0, 0, 0x41, 0, 0],
    ] {
        assert!(&rt; !is_value::<crate::UniversalCharacters>(&rt, alloc, octets));
    }
}
