//! Versions, numbers and times.
ghost use Rattle.std.specs.Prelude.{◌≡◌, IfOk};
ghost use Rattle.asn1_certificate_reader.specs.Scalars.{IsOctetNumberOf, IsTextOfTime, IsTimeOf, IsVersionOf, SaysInGeneral, SaysInUtc};

use asn1_certificate_text::{Moment, OctetNumber, ShownTime, Version};
use asn1_values::{Integer, VisibleString};
use asn1_x509::Time;
use std::alloc::{AllocError, Global};

/// The version of this number.
pub(crate) fn version_of(alloc: Global, number: &Integer) -> Result<Version, AllocError>
    ensures { IfOk result (IsVersionOf number.now) }
{
    match number.to_i128() {
        Some(0) => Ok(Version::First),
        Some(1) => Ok(Version::Second),
        Some(2) => Ok(Version::Third),
        _ => Ok(Version::Unknown(copy_of(alloc, number)?)),
    }
}

/// A copy of a number.
pub(crate) fn copy_of(alloc: Global, number: &Integer) -> Result<Integer, AllocError>
    ensures { IfOk result (λ copy. copy ≡ number.now) }
{
    let (is_negative, octets) = number.sign_magnitude(alloc)?;
    Integer::from_sign_magnitude(alloc, is_negative, octets.as_slice())
}

/// A number by its sign and its octets.
pub(crate) fn octet_number(alloc: Global, number: &Integer) -> Result<OctetNumber, AllocError>
    ensures { IfOk result (IsOctetNumberOf number.now) }
{
    let (is_negative, octets) = number.sign_magnitude(alloc)?;
    Ok(OctetNumber {
        is_negative,
        octets,
    })
}

/// A time as a moment, or its own text if it is no time of RFC 5280.
pub(crate) fn time_of(alloc: Global, time: &Time) -> Result<ShownTime, AllocError>
    ensures { IfOk result (IsTimeOf time.now) }
{
    match time {
        Time::UtcTime(utc) => utc_time_of(alloc, &utc.value),
        Time::GeneralTime(general) => generalized_time_of(alloc, &general.value),
    }
}

/// The same of the text of a UTCTime.
#[tactic(auto, using(std::proofs::lemmas::Str::chars_from_encodes))]
fn utc_time_of(alloc: Global, text: &VisibleString) -> Result<ShownTime, AllocError>
    ensures { IfOk result (IsTextOfTime SaysInUtc text.now) }
{
    match Moment::from_utc_time(text.as_slice()) {
        Some(moment) => Ok(ShownTime::Moment(moment)),
        None => Ok(ShownTime::Text(text.as_str().chars().collect(alloc)?)),
    }
}

/// The same of the text of a GeneralizedTime.
#[tactic(auto, using(std::proofs::lemmas::Str::chars_from_encodes))]
fn generalized_time_of(alloc: Global, text: &VisibleString) -> Result<ShownTime, AllocError>
    ensures { IfOk result (IsTextOfTime SaysInGeneral text.now) }
{
    match Moment::from_generalized_time(text.as_slice()) {
        Some(moment) => Ok(ShownTime::Moment(moment)),
        None => Ok(ShownTime::Text(text.as_str().chars().collect(alloc)?)),
    }
}
