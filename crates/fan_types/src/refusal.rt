//! The statuses of octets that were refused.
ghost use Rattle.std.specs.Prelude.{◌≡◌};
ghost use Rattle.fan_types.specs.Refusals.{status_of_canonical, status_of_check, status_of_recoding, status_of_reading, status_of_writing};

use asn1_certificate_rules::Finding;
use asn1_convert::CheckError;
use asn1_dec::DecodeError;
use asn1_enc::EncodeError;
use asn1_rules::{CanonicalError, RecodeError};
use fan_calls::Status;

/// The status of octets that [`asn1_convert::check_der`] refuses for this error.
pub(crate) fn status_of_check(error: CheckError) -> Status
    ensures { result ≡ status_of_check error }
{
    match error {
        CheckError::Broken(Finding::Broken(_)) => Status::Fault,
        CheckError::Broken(Finding::Deeper(_)) => Status::Deep,
        CheckError::NotCanonical(error) => status_of_canonical(error),
    }
}

/// The status of octets that [`asn1_rules::read_canonical`] refuses for this error.
fn status_of_canonical(error: CanonicalError) -> Status
    ensures { result ≡ status_of_canonical error }
{
    match error {
        CanonicalError::Read(error) => status_of_reading(error),
        CanonicalError::Write(error) => status_of_writing(error),
        CanonicalError::NotCanonical { .. } => Status::Fault,
    }
}

/// The status of octets that are not read by one codec, or not written by another, for this error.
pub(crate) fn status_of_recoding(error: RecodeError) -> Status
    ensures { result ≡ status_of_recoding error }
{
    match error {
        RecodeError::Read(error) => status_of_reading(error),
        RecodeError::Write(error) => status_of_writing(error),
    }
}

/// The status of octets that are not read for this error.
fn status_of_reading(error: DecodeError) -> Status
    ensures { result ≡ status_of_reading error }
{
    match error {
        DecodeError::Memory => Status::Memory,
        DecodeError::Depth => Status::Deep,
        _ => Status::Fault,
    }
}

/// The status of octets whose value is not written for this error.
fn status_of_writing(error: EncodeError) -> Status
    ensures { result ≡ status_of_writing error }
{
    match error {
        EncodeError::Memory => Status::Memory,
        EncodeError::Depth => Status::Deep,
        EncodeError::Failed | EncodeError::Custom(_) => Status::Fault,
    }
}
