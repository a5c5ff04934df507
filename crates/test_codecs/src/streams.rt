//! Values one after another, out of bytes that come byte by byte, or in two pieces.
use crate::cases::{PERSON, PERSON_IN_DER, assert_bytes, person};
use asn1_bench::{BenchReader, BenchRules};
use asn1_ber::{BerReader, BerRules};
use asn1_dec::{Decode, DecodeError, Needed};
use asn1_der::{DerReader, DerRules};
use asn1_rules::{
    FrontReader, Iter, Rules, iter_of, read_pieces, round_trip_in_pieces, write_list,
};
use asn1_samples::Person;
use asn1_tagform::TagRules;
use std::alloc::Global;
use std::process::Abort;

/// `TRUE` in packed form.
const TRUE: &[u8] = &[1, 0, 0, 0, 0, 1, 1, 0, 0, 0, 1, 1];

/// The same in DER.
const TRUE_IN_DER: &[u8] = &[1, 1, 0xff];

/// Asserts that more bytes are wanted, and that these are unread.
fn assert_incomplete<T: Decode, F: FrontReader<T> + Drop>(
    rt: &impl Abort,
    iter: &mut Iter<'_, T, F>,
    unread: &[u8],
) {
    let next = iter.next();
    assert!(rt; matches!(next, Some(Err(DecodeError::Incomplete(Needed::Size(_))))));
    assert!(rt; iter.unread() == unread);
}

/// Asserts that this value is next, and that no bytes are left.
fn assert_next<T: Decode, F: FrontReader<T> + Drop>(
    rt: &impl Abort,
    iter: &mut Iter<'_, T, F>,
    value: &T,
) {
    match iter.next() {
        Some(Ok(next)) => assert!(rt; next == *value && iter.unread().is_empty()),
        _ => assert!(rt; false),
    }
}

/// Asserts that a value comes with the last of its bytes, and not before.
fn assert_comes<T: Decode, F: FrontReader<T> + Drop>(
    rt: &impl Abort,
    iter: &mut Iter<'_, T, F>,
    bytes: &[u8],
    value: &T,
) {
    for (count, byte) in bytes.iter().enumerate() {
        let (begun, _rest) = bytes.split_at(count.min(bytes.len()));
        assert_incomplete(rt, iter, begun);
        iter.append_bytes(&[*byte]).expect(rt, "memory");
    }
    assert_next(rt, iter, value);
}

fn assert_comes_twice<T: Decode, F: FrontReader<T> + Drop>(
    rt: &impl Abort,
    alloc: Global,
    reader: F,
    bytes: &[u8],
    value: &T,
) {
    let mut iter = iter_of::<T, F>(alloc, &[], reader);
    assert_comes(rt, &mut iter, bytes, value);
    assert_comes(rt, &mut iter, bytes, value);
    assert_incomplete(rt, &mut iter, &[]);
    assert_incomplete(rt, &mut iter, &[]);
}

#[test]
fn a_value_comes_with_its_last_byte(rt: HostRuntime) {
    let alloc = rt.alloc();
    assert_comes_twice(&rt, alloc, BenchReader::new(alloc, 0), TRUE, &true);
    assert_comes_twice(&rt, alloc, DerReader::new(alloc, 0), TRUE_IN_DER, &true);
    assert_comes_twice(&rt, alloc, BerReader::new(alloc, 0), TRUE_IN_DER, &true);
    let ann = person(&rt, alloc, 30, "Ann");
    assert_comes_twice(&rt, alloc, BenchReader::new(alloc, 1), PERSON, &ann);
    assert_comes_twice(&rt, alloc, DerReader::new(alloc, 1), PERSON_IN_DER, &ann);
    assert_comes_twice(&rt, alloc, BerReader::new(alloc, 1), PERSON_IN_DER, &ann);
}

/// Asserts that one byte more is wanted of a truth value, and that these are unread.
fn assert_one_byte_more(rt: &impl Abort, alloc: Global, bytes: &[u8]) {
    let mut iter = iter_of::<bool, BenchReader>(alloc, bytes, BenchReader::new(alloc, 0));
    let next = iter.next();
    assert!(rt; matches!(next, Some(Err(DecodeError::Incomplete(Needed::Size(1))))));
    assert!(rt; iter.unread() == bytes);
}

#[test]
fn missing_bytes_are_counted(rt: HostRuntime) {
    assert_one_byte_more(&rt, rt.alloc(), &[1, 0, 0, 0, 0, 1, 1, 0, 0, 0, 1]);
    assert_one_byte_more(&rt, rt.alloc(), &[]);
}

/// Asserts that these persons come back out of pieces of 20 bytes, of 9, and of the others.
fn assert_round_trip<R: Rules<Output = Vec<u8>>, F: FrontReader<Person> + Drop>(
    rt: &impl Abort,
    alloc: Global,
    rules: &R,
    reader: F,
    persons: &[Person],
) {
    let read = round_trip_in_pieces(alloc, rules, reader, persons, 1, &[20, 9]).expect(
        rt, "memory",
    );
    assert!(rt; read.values.as_slice() == persons && read.last.is_none());
}

fn push(rt: &impl Abort, alloc: Global, persons: &mut Vec<Person>, age: u8, name: &str) {
    let person = person(rt, alloc, age, name);
    persons.push(person).expect(rt, "memory");
}

fn three_persons(rt: &impl Abort, alloc: Global) -> Vec<Person> {
    let mut persons = Vec::new(alloc);
    push(rt, alloc, &mut persons, 30, "Ann");
    push(rt, alloc, &mut persons, 0, "");
    push(rt, alloc, &mut persons, 255, "Zo\u{eb}");
    persons
}

/// Asserts that these persons are read of these bytes, cut at a place.
fn assert_read<F: FrontReader<Person> + Drop>(
    rt: &impl Abort,
    alloc: Global,
    reader: F,
    persons: &[Person],
    (bytes, cut): (&[u8], usize),
) {
    let (first, second) = bytes.split_at(cut.min(bytes.len()));
    let read = read_pieces::<Person, F>(alloc, reader, &[first, second], 3).expect(rt, "memory");
    assert!(rt; read.values.as_slice() == persons && read.last.is_none());
}

fn assert_read_wherever_cut(rt: &impl Abort, alloc: Global, persons: &[Person]) {
    let bytes = write_list(alloc, &BenchRules::new(alloc), persons, 1).expect(rt, "memory");
    for cut in 0..=bytes.len() {
        assert_read(
            rt,
            alloc,
            BenchReader::new(alloc, 1),
            persons,
            (&bytes, cut),
        );
    }
}

fn assert_read_of_der_wherever_cut(rt: &impl Abort, alloc: Global, persons: &[Person]) {
    let bytes = write_list(alloc, &DerRules::new(alloc), persons, 1).expect(rt, "memory");
    for cut in 0..=bytes.len() {
        assert_read(rt, alloc, DerReader::new(alloc, 1), persons, (&bytes, cut));
    }
}

fn assert_read_of_ber_wherever_cut(rt: &impl Abort, alloc: Global, persons: &[Person]) {
    let bytes = write_list(alloc, &BerRules::new(alloc), persons, 1).expect(rt, "memory");
    for cut in 0..=bytes.len() {
        assert_read(rt, alloc, BerReader::new(alloc, 1), persons, (&bytes, cut));
    }
}

#[test]
fn persons_come_back_wherever_their_bytes_are_cut(rt: HostRuntime) {
    let persons = three_persons(&rt, rt.alloc());
    assert_read_wherever_cut(&rt, rt.alloc(), &persons);
    assert_read_of_der_wherever_cut(&rt, rt.alloc(), &persons);
    assert_read_of_ber_wherever_cut(&rt, rt.alloc(), &persons);
}

#[test]
fn persons_make_the_round_trip_in_pieces(rt: HostRuntime) {
    let alloc = rt.alloc();
    let persons = three_persons(&rt, alloc);
    let packed = BenchRules::new(alloc);
    assert_round_trip(&rt, alloc, &packed, BenchReader::new(alloc, 1), &persons);
    assert_round_trip(
        &rt,
        alloc,
        &DerRules::new(alloc),
        DerReader::new(alloc, 1),
        &persons,
    );
    assert_round_trip(
        &rt,
        alloc,
        &BerRules::new(alloc),
        BerReader::new(alloc, 1),
        &persons,
    );
}

fn assert_list<R: Rules<Output = Vec<u8>>>(
    rt: &impl Abort,
    alloc: Global,
    rules: &R,
    values: &[bool],
    bytes: &[u8],
) {
    let written = write_list(alloc, rules, values, 0).expect(rt, "memory");
    assert_bytes(rt, &written, bytes);
}

/// `TRUE` and `FALSE`, one after the other, as items.
const BOTH: &[u8] = &[
    1, 0, 0, 0, 0, 1, 1, 0, 0, 0, 1, 1, 1, 0, 0, 0, 0, 1, 1, 0, 0, 0, 1, 0,
];

#[test]
fn a_list_is_written_value_after_value(rt: HostRuntime) {
    let alloc = rt.alloc();
    assert_list(&rt, alloc, &BenchRules::new(alloc), &[true, false], BOTH);
    assert_list(&rt, alloc, &BenchRules::new(alloc), &[], &[]);
    assert_list(&rt, alloc, &TagRules::new(alloc), &[true, false], BOTH);
    assert_list(&rt, alloc, &TagRules::new(alloc), &[], &[]);
    assert_list(
        &rt,
        alloc,
        &DerRules::new(alloc),
        &[true, false],
        &[1, 1, 0xff, 1, 1, 0],
    );
    assert_list(&rt, alloc, &DerRules::new(alloc), &[], &[]);
    assert_list(
        &rt,
        alloc,
        &BerRules::new(alloc),
        &[true, false],
        &[1, 1, 0xff, 1, 1, 0],
    );
    assert_list(&rt, alloc, &BerRules::new(alloc), &[], &[]);
}
