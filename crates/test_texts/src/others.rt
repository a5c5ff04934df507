//! Types of lines that no list of `test_calls` has together.
use crate::mask::Mask;
use asn1_ldap::Filter;
use asn1_samples::Envelope;
use asn1_samples::personnel::PersonnelRecord;
use asn1_schema::{GeneralizedTime, UtcTime};
use asn1_types::Any;
use test_calls::{TypeCase, TypeNames};

/// Open types, times, bits of one length, filters of LDAP, characters of four octets, a list of lists, and X.690's example.
#[derive(Clone, Copy, Drop)]
pub(crate) struct Others;

impl TypeNames for Others {
    fn try_named<C: TypeCase>(&self, case: &C, name: &str) -> Option<C::Answer> {
        match name {
            "Any" => Some(case.try_type::<Any>()),
            "Envelope" => Some(case.try_type::<Envelope>()),
            "Filter" => Some(case.try_type::<Filter>()),
            "GeneralizedTime" => Some(case.try_type::<GeneralizedTime>()),
            "Mask" => Some(case.try_type::<Mask>()),
            "PersonnelRecord" => Some(case.try_type::<PersonnelRecord>()),
            "UtcTime" => Some(case.try_type::<UtcTime>()),
            "asn1_contents::UniversalString" => {
                Some(case.try_type::<asn1_contents::UniversalString>())
            }
            "Vec<Vec<bool>>" => Some(case.try_type::<Vec<Vec<bool>>>()),
            _ => None,
        }
    }
}
