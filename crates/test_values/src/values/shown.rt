//! How strings are written by `{}` and `{:?}`.
use crate::assertions::assert_that;
use asn1_values::{
    BitString, BitVec, BmpString, GeneralString, GraphicString, Ia5String, Integer, NamedBitString,
    ObjectIdentifier, OctetString, TeletexString,
};
use std::alloc::Global;
use std::fmt::{Debug, Display};
use std::process::Abort;

/// Asserts the text of `{:?}`.
fn assert_shown<T: Debug>(rt: &impl Abort, alloc: Global, value: &T, text: &str) {
    let shown = format!(in alloc; "{value:?}").expect(rt, "memory");
    assert_that(rt, shown.as_str() == text, text);
}

/// Asserts the text of `{}`.
fn assert_written<T: Display>(rt: &impl Abort, alloc: Global, value: &T, text: &str) {
    let written = format!(in alloc; "{value}").expect(rt, "memory");
    assert_that(rt, written.as_str() == text, text);
}

/// A list of these units.
fn list<U: Copy>(rt: &impl Abort, alloc: Global, units: &[U]) -> Vec<U> {
    Vec::from_slice(alloc, units).expect(rt, "memory")
}

/// Asserts the text of `{:?}` of an OCTET STRING of these octets.
fn assert_octets(rt: &impl Abort, alloc: Global, octets: &[u8], text: &str) {
    assert_shown(rt, alloc, &OctetString::new(list(rt, alloc, octets)), text);
}

#[test]
fn octets_are_shown_as_a_text_or_in_hexadecimal(rt: HostRuntime) {
    let alloc = rt.alloc();
    assert_octets(&rt, alloc, b"cn", "\"cn\"");
    assert_octets(&rt, alloc, b"a\"b", "\"a\\\"b\"");
    assert_octets(&rt, alloc, &[10], "'0A'H");
    assert_octets(&rt, alloc, &[0xe2, 0x80, 0xae], "'E280AE'H");
}

#[test]
fn bits_are_shown(rt: HostRuntime) {
    let alloc = rt.alloc();
    let bits = list(&rt, alloc, &[true, false, true]);
    assert_shown(&rt, alloc, &BitString::new(bits), "'101'B");
    let octets = list(&rt, alloc, &[0xa0]);
    let four = BitVec::from_octets(octets, 4).expect(&rt, "bits");
    assert_shown(&rt, alloc, &four, "'1010'B");
    assert_written(&rt, alloc, &four, "'1010'B");
    let named = NamedBitString::new(four);
    assert_shown(&rt, alloc, &named, "'101'B");
    assert_written(&rt, alloc, &named, "'101'B");
}

#[test]
fn characters_are_shown(rt: HostRuntime) {
    let alloc = rt.alloc();
    let units = list(&rt, alloc, &[0x41, 0x20ac, 0xd83d, 10]);
    assert_shown(
        &rt,
        alloc,
        &BmpString::new(units),
        "\"A\u{20ac}\\u{d83d}\\u{a}\"",
    );
    let units = list(&rt, alloc, &[0x41, 0x5c]);
    assert_shown(&rt, alloc, &TeletexString::new(units), "\"A\\\\\"");
}

#[test]
fn texts_arcs_and_numbers_are_shown(rt: HostRuntime) {
    let alloc = rt.alloc();
    let mail = Ia5String::try_from_str(alloc, "a@b\n").expect(&rt, "IA5");
    assert_shown(&rt, alloc, &mail, "\"a@b\\u{a}\"");
    let object = ObjectIdentifier::try_from_str(alloc, "1.2.840").expect(&rt, "arcs");
    assert_shown(&rt, alloc, &object, "1.2.840");
    assert_shown(&rt, alloc, &Integer::from_i128(-300), "-300");
}

#[test]
fn characters_are_written_without_quotes(rt: HostRuntime) {
    let alloc = rt.alloc();
    let units = list(&rt, alloc, &[0x41, 0x20ac, 0xd83d]);
    assert_written(&rt, alloc, &BmpString::new(units), "A\u{20ac}\u{fffd}");
    let units = list(&rt, alloc, &[0x41, 0x5c]);
    assert_written(&rt, alloc, &TeletexString::new(units), "A\\");
    let octets = list(&rt, alloc, b"cn");
    assert_written(&rt, alloc, &GeneralString::new(octets), "cn");
    let octets = list(&rt, alloc, &[10]);
    assert_written(&rt, alloc, &GraphicString::new(octets), "'0A'H");
}
