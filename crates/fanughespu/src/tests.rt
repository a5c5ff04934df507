//! Each call that takes memory succeeds: a contract lets one that always runs out of it through.
use super::{fan_ber_normal, fan_certificate_report, fan_integer_text, fan_ldap_lines};
use fan_calls::Status;

/// A SEQUENCE of an INTEGER, in the indefinite form.
const INDEFINITE: &[u8] = &[0x30, 0x80, 2, 1, 5, 0, 0];

/// A request to unbind (RFC 4511, 4.3), and the first octet of another message.
const UNBIND: &[u8] = &[0x30, 5, 2, 1, 3, 0x42, 0, 0x30];

/// A certificate of one name and a key without octets, whose signature is one too (RFC 5280, 4.1); `openssl x509` reads it.
const CERTIFICATE: &[u8] = &[
    0x30, 0x60, 0x30, 0x53, 0x02, 0x01, 0x05, 0x30, 0x05, 0x06, 0x03, 0x2b, 0x65, 0x70, 0x30, 0x0c,
    0x31, 0x0a, 0x30, 0x08, 0x06, 0x03, 0x55, 0x04, 0x03, 0x0c, 0x01, 0x41, 0x30, 0x1e, 0x17, 0x0d,
    0x32, 0x35, 0x30, 0x31, 0x30, 0x31, 0x30, 0x30, 0x30, 0x30, 0x30, 0x30, 0x5a, 0x17, 0x0d, 0x32,
    0x36, 0x30, 0x31, 0x30, 0x31, 0x30, 0x30, 0x30, 0x30, 0x30, 0x30, 0x5a, 0x30, 0x0c, 0x31, 0x0a,
    0x30, 0x08, 0x06, 0x03, 0x55, 0x04, 0x03, 0x0c, 0x01, 0x41, 0x30, 0x0b, 0x30, 0x05, 0x06, 0x03,
    0x2b, 0x65, 0x70, 0x03, 0x02, 0x00, 0x01, 0x30, 0x05, 0x06, 0x03, 0x2b, 0x65, 0x70, 0x03, 0x02,
    0x00, 0x01,
];

#[test]
fn calls_succeed(rt: HostRuntime) {
    let mut out = [0u8; 100];
    let mut size = 0usize;
    let normal = fan_ber_normal(rt.alloc(), INDEFINITE, &mut out, &mut size);
    assert!(&rt; normal == Status::Ok.number() && size == 5);
    let text = fan_integer_text(rt.alloc(), &[1, 0], &mut out, &mut size);
    assert!(&rt; text == Status::Ok.number() && size == 3);
    let refused = fan_certificate_report(rt.alloc(), &[5, 0], &mut out, &mut size);
    assert!(&rt; refused == Status::Fault.number() && size > 0);
    let report = fan_certificate_report(rt.alloc(), CERTIFICATE, &mut [0u8; 2000], &mut size);
    assert!(&rt; report == Status::Ok.number() && size > 0);
    let mut used = 0usize;
    let lines = fan_ldap_lines(rt.alloc(), UNBIND, &mut out, &mut size, &mut used);
    assert!(&rt; lines == Status::Ok.number() && used == 7 && size == 17);
}
