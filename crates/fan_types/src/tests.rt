//! Each call succeeds: a contract lets one that always runs out of memory through.
use super::{check, der, json, text};
use asn1_types::Any;
use fan_calls::Status;

/// The DER of TRUE, and other octets that BER has for it (X.690, 8.2.2 and 11.1).
const TRUE: &[u8] = &[1, 1, 0xff];

const OTHER_TRUE: &[u8] = &[1, 1, 1];

/// TRUE as in DER and another one, in a list.
const OTHER_LIST: &[u8] = &[0x30, 6, 1, 1, 0xff, 1, 1, 1];

/// A SEQUENCE with an INTEGER of one octet too many (X.690, 8.3.2).
const PADDED_INSIDE: &[u8] = &[0x30, 4, 2, 2, 0, 1];

/// The rule that OTHER_TRUE breaks.
const RULE: &[u8] = b"the octet of a TRUE is not ff (X.690, 11.1)";

#[test]
fn octets_are_checked(rt: HostRuntime) {
    let mut out = [0u8; 200];
    let (mut position, mut size) = (0usize, 0usize);
    let whole = check::<bool>(rt.alloc(), TRUE, &mut position, &mut out, &mut size);
    assert!(&rt; whole == Status::Ok.number());
    let other = check::<bool>(rt.alloc(), OTHER_TRUE, &mut position, &mut out, &mut size);
    assert!(&rt; other == Status::Fault.number() && size > 0);
}

#[test]
fn faults_have_a_position_and_a_text(rt: HostRuntime) {
    let mut out = [0u8; 200];
    let (mut position, mut size) = (0usize, 0usize);
    let status = check::<bool>(rt.alloc(), OTHER_TRUE, &mut position, &mut out, &mut size);
    assert!(&rt; status == Status::Fault.number() && position == 2);
    assert!(&rt; out.get(..size).unwrap_or(&[]) == RULE);
    let listed = check::<Vec<bool>>(rt.alloc(), OTHER_LIST, &mut position, &mut out, &mut size);
    assert!(&rt; listed == Status::Fault.number() && position == 7);
    let mut little = [0u8; 5];
    let status = check::<bool>(
        rt.alloc(),
        OTHER_TRUE,
        &mut position,
        &mut little,
        &mut size,
    );
    assert!(&rt; status == Status::Room.number() && position == 2 && size == RULE.len());
}

#[test]
fn open_types_are_looked_into(rt: HostRuntime) {
    let mut out = [0u8; 200];
    let (mut position, mut size) = (0usize, 0usize);
    let padded = check::<Any>(
        rt.alloc(),
        PADDED_INSIDE,
        &mut position,
        &mut out,
        &mut size,
    );
    assert!(&rt; padded == Status::Fault.number() && position == 4);
}

#[test]
fn values_are_converted(rt: HostRuntime) {
    let mut out = [0u8; 5];
    let mut size = 0usize;
    let canonical = der::<bool>(rt.alloc(), OTHER_TRUE, &mut out, &mut size);
    assert!(&rt; canonical == Status::Ok.number() && size == 3 && out[2] == 0xff);
    let notation = text::<bool>(rt.alloc(), OTHER_TRUE, &mut out, &mut size);
    assert!(&rt; notation == Status::Ok.number() && out.as_slice() == b"TRUE\n".as_slice());
    let document = json::<bool>(rt.alloc(), OTHER_TRUE, &mut out, &mut size);
    assert!(&rt; document == Status::Ok.number() && out.as_slice() == b"true\n".as_slice());
}
