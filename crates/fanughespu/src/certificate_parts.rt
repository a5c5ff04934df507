//! Elements of a certificate.
ghost use Rattle.std.specs.Prelude.{◌≡◌, ◌⊎◌};
ghost use Rattle.fan_calls.specs.Statuses.{FAN_FAULT, FAN_OK};
ghost use Rattle.fanughespu.specs.CertificateParts.{HasPart, IsPartAt, part_of, position_of_part, version_count};

use asn1_der_items::{find_element, position_at_path};
use asn1_tags::Tag;
use fan_calls::Status;

/// An element of a certificate (RFC 5280, 4.1).
#[derive(Clone, Copy, Drop)]
pub(crate) enum CertificatePart {
    /// The part that is signed.
    Signed,
    /// The serial number.
    SerialNumber,
    /// The name of the issuer.
    Issuer,
    /// The name of the subject.
    Subject,
    /// The key of the subject, with its algorithm.
    Key,
    /// The signature.
    Signature,
}

/// `FAN_OK`, and the position and the length of an element of the certificate that the octets are: 0 is the signed part, 1 the serial
/// number, 2 the issuer, 3 the subject, 4 the key with its algorithm, 5 the signature (RFC 5280, 4.1). `FAN_FAULT` if the octets have no
/// such element, or there is no part of this number. It follows the path of the part, and asks nothing else of the octets.
#[unsafe(no_mangle)]
pub extern "C" fn fan_certificate_part(
    octets: &[u8],
    part: u32,
    position: &mut usize,
    size: &mut usize,
) -> i32
    ensures statuses { (result ≡ FAN_OK) ⊎ (result ≡ FAN_FAULT) }
    ensures found { result ≡ FAN_OK → IsPartAt octets.now part position.new size.new }
    ensures none { result ≡ FAN_FAULT → ¬ HasPart octets.now part }
    ensures some { HasPart octets.now part → result ≡ FAN_OK }
    ensures no_position { result ≡ FAN_FAULT → position.new ≡ position.old }
    ensures no_size { result ≡ FAN_FAULT → size.new ≡ size.old }
{
    let Some(start) = position_of_part(octets, part) else {
        return Status::Fault.number();
    };
    let Some((_before, own)) = octets.split_at_checked(start) else {
        return Status::Fault.number();
    };
    let Ok(element) = find_element(own) else {
        return Status::Fault.number();
    };
    *position = start;
    *size = own.len() - element.rest.len();
    Status::Ok.number()
}

/// The position to which the path of the part of this number leads.
fn position_of_part(octets: &[u8], number: u32) -> Option<usize>
    ensures { result ≡ position_of_part octets.now number }
{
    let Some(part) = part_of(number) else {
        return None;
    };
    let version = version_count(octets);
    match part {
        CertificatePart::Signed => position_at_path(octets, &[0]),
        CertificatePart::SerialNumber => position_at_path(octets, &[0, version]),
        CertificatePart::Issuer => position_at_path(octets, &[0, version + 2]),
        CertificatePart::Subject => position_at_path(octets, &[0, version + 4]),
        CertificatePart::Key => position_at_path(octets, &[0, version + 5]),
        CertificatePart::Signature => position_at_path(octets, &[2]),
    }
}

/// The part of this number.
fn part_of(number: u32) -> Option<CertificatePart>
    ensures { result ≡ part_of number }
{
    match number {
        0 => Some(CertificatePart::Signed),
        1 => Some(CertificatePart::SerialNumber),
        2 => Some(CertificatePart::Issuer),
        3 => Some(CertificatePart::Subject),
        4 => Some(CertificatePart::Key),
        5 => Some(CertificatePart::Signature),
        _ => None,
    }
}

/// How many elements of the signed part are before its serial number: 1 with a version, and else 0.
fn version_count(octets: &[u8]) -> usize
    ensures { result ≡ version_count octets.now }
{
    let Ok(certificate) = find_element(octets) else {
        return 0;
    };
    let Ok(signed) = find_element(certificate.contents) else {
        return 0;
    };
    match find_element(signed.contents) {
        Ok(first) => usize::from(first.tag == Tag::new_context(0)),
        Err(_) => 0,
    }
}
