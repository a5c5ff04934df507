//! Questions on texts of certificates, and texts that have certificates.
use asn1_certificate_text::{
    Moment, PemCertificate, bit_length, certificates_in, curve_of, is_pem, object_named,
    push_address, push_escaped, push_octets, push_usages,
};
use std::alloc::Global;
use std::fmt::Write;

/// The text of the value of an attribute in a name.
pub(crate) fn escaped(alloc: Global, value: &str) -> Option<String> {
    let characters: Vec<char> = value.chars().collect(alloc).ok()?;
    let mut text = String::new(alloc);
    push_escaped(&mut text, characters.as_slice()).ok()?;
    Some(text)
}

/// The text of octets.
pub(crate) fn octets(alloc: Global, octets: &[u8]) -> Option<String> {
    let mut text = String::new(alloc);
    push_octets(&mut text, octets).ok()?;
    Some(text)
}

/// The text of an IP address.
pub(crate) fn address(alloc: Global, octets: &[u8]) -> Option<String> {
    let mut text = String::new(alloc);
    push_address(&mut text, octets).ok()?;
    Some(text)
}

/// The text of the bits of a key usage.
pub(crate) fn usages(alloc: Global, bits: &[bool]) -> Option<String> {
    let mut text = String::new(alloc);
    push_usages(&mut text, bits).ok()?;
    Some(text)
}

/// The number of bits of a number with these octets.
pub(crate) fn size(alloc: Global, octets: &[u8]) -> Option<String> {
    format!(in alloc; "{}", bit_length(octets)).ok()
}

/// The moment of a UTCTime.
pub(crate) fn utc_time(alloc: Global, text: &[u8]) -> Option<String> {
    moment(alloc, Moment::from_utc_time(text))
}

/// The moment of a GeneralizedTime.
pub(crate) fn generalized_time(alloc: Global, text: &[u8]) -> Option<String> {
    moment(alloc, Moment::from_generalized_time(text))
}

/// The text of a moment, or `none`.
fn moment(alloc: Global, moment: Option<Moment>) -> Option<String> {
    match moment {
        Some(moment) => format!(in alloc; "{moment}").ok(),
        None => String::from_str(alloc, "none").ok(),
    }
}

/// The name of an object, or `none`.
pub(crate) fn object(alloc: Global, arcs: &[u32]) -> Option<String> {
    match object_named(arcs) {
        Some(object) => String::from_str(alloc, object.name).ok(),
        None => String::from_str(alloc, "none").ok(),
    }
}

/// The name of a curve and the size of its keys, or `none`.
pub(crate) fn curve(alloc: Global, arcs: &[u32]) -> Option<String> {
    match curve_of(arcs) {
        Some(curve) => format!(in alloc; "{}, {} bits", curve.name, curve.bits).ok(),
        None => String::from_str(alloc, "none").ok(),
    }
}

/// The certificates of a text, one behind the other.
pub(crate) fn certificates(alloc: Global, text: &[u8]) -> Option<String> {
    let mut answer = String::from_str(alloc, if is_pem(text) { "a PEM" } else { "no PEM" }).ok()?;
    for certificate in &certificates_in(alloc, text).ok()? {
        match certificate {
            PemCertificate::Octets(octets) => {
                let digits = hex::encode(alloc, octets.as_slice()).ok()?;
                write!(answer, "; [{digits}]").ok()?;
            }
            PemCertificate::Refused(error) => write!(answer, "; {error}").ok()?,
        }
    }
    Some(answer)
}
