//! The positions of refused parts in the octets of a certificate.
ghost use Rattle.std.specs.Prelude.{◌≡◌};
ghost use Rattle.asn1_certificate_input.specs.Positions.{contents_of, has_version, index_of, position_at, position_of_key_parameters, position_of_parameters_beside, position_of_signed_parameters, position_of_value};

use asn1_certificate_reader::NameFault;
use asn1_der_items::{find_element, position_at_path};
use asn1_tags::Tag;

/// The index of the algorithm of the signature among the components of the signed part, in a certificate with a version.
const SIGNATURE: usize = 2;

/// The index of the issuer.
pub(crate) const ISSUER: usize = 3;

/// The index of the subject.
pub(crate) const SUBJECT: usize = 5;

/// The index of the key.
const KEY: usize = 6;

/// The position of the value that no name can have, in the name with this index.
pub(crate) fn position_of_value(octets: &[u8], name: usize, fault: NameFault) -> usize
    ensures { result ≡ position_of_value octets.now name fault }
{
    position_at(
        octets,
        &[0, index_of(octets, name), fault.part, fault.attribute, 1],
    )
}

/// The position of the parameters of the key's algorithm.
pub(crate) fn position_of_key_parameters(octets: &[u8]) -> usize
    ensures { result ≡ position_of_key_parameters octets.now }
{
    position_at(octets, &[0, index_of(octets, KEY), 0, 1])
}

/// The position of the parameters of the signature's algorithm in the signed part.
pub(crate) fn position_of_signed_parameters(octets: &[u8]) -> usize
    ensures { result ≡ position_of_signed_parameters octets.now }
{
    position_at(octets, &[0, index_of(octets, SIGNATURE), 1])
}

/// Their position beside it.
pub(crate) fn position_of_parameters_beside(octets: &[u8]) -> usize
    ensures { result ≡ position_of_parameters_beside octets.now }
{
    position_at(octets, &[1, 1])
}

/// The position to which a path leads, or 0 if it leads to none. Tests show that each of these paths leads to one in the octets of a
/// certificate.
fn position_at(octets: &[u8], path: &[usize]) -> usize
    ensures { result ≡ position_at octets.now path.now }
{
    position_at_path(octets, path).unwrap_or(0)
}

/// The index of a component of the signed part, from its index in a certificate with a version.
fn index_of(octets: &[u8], index: usize) -> usize
    ensures { result ≡ index_of octets.now index }
{
    if has_version(octets) {
        return index;
    }
    index.saturating_sub(1)
}

/// Whether a certificate has a version.
fn has_version(octets: &[u8]) -> bool
    ensures { result ≡ has_version octets.now }
{
    match find_element(contents_of(contents_of(octets))) {
        Ok(first) => first.tag == Tag::new_context(0),
        Err(_) => false,
    }
}

/// The contents octets of the first element of octets, or none.
fn contents_of(octets: &[u8]) -> &[u8]
    ensures { result.now ≡ contents_of octets.now }
{
    match find_element(octets) {
        Ok(element) => element.contents,
        Err(_) => &[],
    }
}
