//! The types of modules, and the codecs that are asked for them.
use asn1_bench::BenchRules;
use asn1_ber::BerRules;
use asn1_der::DerRules;
use asn1_ldap::{Filter, LdapMessage};
use asn1_tagform::TagRules;
use asn1_user_types::Price;
use asn1_x509::RdnSequence;
use test_calls::{Answer, Answers, Asked, Codec, TypeCase, TypeNames, converted};

/// The types of modules, in DER and BER.
#[derive(Clone, Copy, Drop)]
pub(crate) struct ModuleTypes;

impl TypeNames for ModuleTypes {
    fn try_named<C: TypeCase>(&self, case: &C, name: &str) -> Option<C::Answer> {
        match name {
            "LdapMessage" => Some(case.try_type::<LdapMessage>()),
            "RdnSequence" => Some(case.try_type::<RdnSequence>()),
            _ => SmallTypes.try_named(case, name),
        }
    }
}

/// Filters and the type of a shop, in the packed form and in the tag form too.
#[derive(Clone, Copy, Drop)]
struct SmallTypes;

impl TypeNames for SmallTypes {
    fn try_named<C: TypeCase>(&self, case: &C, name: &str) -> Option<C::Answer> {
        match name {
            "Filter" => Some(case.try_type::<Filter>()),
            "Price" => Some(case.try_type::<Price>()),
            _ => None,
        }
    }
}

impl Answers for ModuleTypes {
    fn answer_to(&self, asked: &Asked<'_>) -> Option<Answer> {
        let (packed, der) = (BenchRules::new(asked.alloc), DerRules::new(asked.alloc));
        let (tags, ber) = (TagRules::new(asked.alloc), BerRules::new(asked.alloc));
        match asked.conversion() {
            Some((Codec::Der, Codec::Der)) => converted(self, asked, &der, &der),
            Some((Codec::Ber, Codec::Der)) => converted(self, asked, &ber, &der),
            Some((Codec::Packed, Codec::Der)) => converted(&SmallTypes, asked, &packed, &der),
            Some((Codec::Der, Codec::Packed)) => converted(&SmallTypes, asked, &der, &packed),
            Some((Codec::TagForm, Codec::Der)) => converted(&SmallTypes, asked, &tags, &der),
            Some((Codec::Der, Codec::TagForm)) => converted(&SmallTypes, asked, &der, &tags),
            _ => None,
        }
    }
}
