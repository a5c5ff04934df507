//! Runs over a reader whose values are single bytes, and over rules that refuse everything.
use asn1_bench::{ByteReader, NoRules};
use asn1_dec::{DecodeError, Needed};
use asn1_enc::EncodeError;
use asn1_rules::{
    Iter, RoundTripError, Rules, iter_of, read_pieces, round_trip_in_pieces, write_list,
};
use std::alloc::Global;
use std::process::Abort;

/// The next byte is this one, and then this many bytes have been consumed and shifted.
fn assert_next(
    rt: &impl Abort,
    iter: &mut Iter<'_, u8, ByteReader>,
    byte: u8,
    consumed: u128,
    shifted: u128,
) {
    assert!(rt; iter.next() == Some(Ok(byte)));
    assert!(rt; iter.consumed() == consumed && iter.shifted() == shifted);
}

/// There is no next byte, and this is unread, before and after.
fn assert_ends(rt: &impl Abort, iter: &mut Iter<'_, u8, ByteReader>) {
    let consumed = iter.consumed();
    assert!(rt; iter.next() == Some(Err(DecodeError::Incomplete(Needed::Size(1)))));
    assert!(rt; iter.unread().is_empty() && iter.consumed() == consumed);
}

fn append(rt: &impl Abort, iter: &mut Iter<'_, u8, ByteReader>, piece: &[u8]) {
    iter.append_bytes(piece).expect(rt, "memory");
}

/// Appends the piece. If there is no room for it, the unread bytes stay as they were, and it is appended again.
fn append_again(
    rt: &impl Abort,
    iter: &mut Iter<'_, u8, ByteReader>,
    piece: &[u8],
    before: &[u8],
    after: &[u8],
) {
    if iter.append_bytes(piece).is_err() {
        assert!(rt; iter.unread() == before);
        append(rt, iter, piece);
    }
    assert!(rt; iter.unread() == after);
}

/// The values of these pieces, at most `n`.
fn assert_read(
    rt: &impl Abort,
    alloc: Global,
    pieces: &[&[u8]],
    n: usize,
    values: &[u8],
    last: Option<DecodeError>,
) {
    let read = read_pieces(alloc, ByteReader, pieces, n).expect(rt, "memory");
    assert!(rt; read.values.as_slice() == values && read.last == last);
}

#[test]
fn bytes_that_were_read_are_dropped_at_half(rt: HostRuntime) {
    let mut iter = iter_of(rt.alloc(), &[], ByteReader);
    append(&rt, &mut iter, &[1, 2, 3, 4]);
    assert_next(&rt, &mut iter, 1, 1, 0);
    assert_next(&rt, &mut iter, 2, 2, 0);
    assert_next(&rt, &mut iter, 3, 3, 1);
    assert_next(&rt, &mut iter, 4, 4, 1);
    assert_ends(&rt, &mut iter);
}

#[test]
fn borrowed_bytes_are_copied_at_the_first_append(rt: HostRuntime) {
    let mut iter = Iter::new(rt.alloc(), &[1, 2], ByteReader);
    assert_next(&rt, &mut iter, 1, 1, 0);
    append(&rt, &mut iter, &[3]);
    assert!(rt; iter.unread() == [2, 3].as_slice());
    assert!(rt; iter.consumed() == 1 && iter.shifted() == 0);
}

/// Under `rt try --test --fail-alloc N` the Nth growth is refused.
#[test]
fn a_piece_without_room_changes_nothing(rt: HostRuntime) {
    let mut iter = Iter::new(rt.alloc(), &[1, 2], ByteReader);
    assert_next(&rt, &mut iter, 1, 1, 0);
    append_again(&rt, &mut iter, &[3, 4], &[2], &[2, 3, 4]);
    append_again(
        &rt,
        &mut iter,
        &[5; 8],
        &[2, 3, 4],
        &[2, 3, 4, 5, 5, 5, 5, 5, 5, 5, 5],
    );
    assert_next(&rt, &mut iter, 2, 2, 0);
}

#[test]
fn values_are_read_from_pieces(rt: HostRuntime) {
    let alloc = rt.alloc();
    let pieces: &[&[u8]] = &[&[1, 2], &[], &[3]];
    let missing = Some(DecodeError::Incomplete(Needed::Size(1)));
    assert_read(&rt, alloc, pieces, 4, &[1, 2, 3], missing);
    assert_read(&rt, alloc, pieces, 2, &[1, 2], None);
    assert_read(&rt, alloc, pieces, 0, &[], None);
    assert_read(&rt, alloc, &[], 4, &[], None);
}

#[test]
fn rules_that_refuse_write_only_the_empty_list_and_read_nothing(rt: HostRuntime) {
    let alloc = rt.alloc();
    let none = write_list::<u8, NoRules>(alloc, &NoRules, &[], 1).expect(&rt, "no value");
    assert!(rt; none.is_empty());
    let refused = write_list::<u8, NoRules>(alloc, &NoRules, &[7], 1).err();
    assert!(rt; refused == Some(EncodeError::Custom("refused")));
    let not_read = NoRules.read_value::<u8>(&none, 1).err();
    assert!(rt; not_read == Some(DecodeError::Custom("refused")));
}

#[test]
fn a_list_is_written_before_it_is_read_back(rt: HostRuntime) {
    let alloc = rt.alloc();
    let none = round_trip_in_pieces(alloc, &NoRules, ByteReader, &[], 1, &[2, 0]).expect(
        &rt, "no value",
    );
    assert!(rt; none.values.is_empty() && none.last.is_none());
    let refused = round_trip_in_pieces(alloc, &NoRules, ByteReader, &[7], 1, &[2, 0]).err();
    assert!(rt; refused == Some(RoundTripError::Writing(EncodeError::Custom("refused"))));
}
