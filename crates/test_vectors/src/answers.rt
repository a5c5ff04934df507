//! The types of each pair of codecs.
use asn1_bench::BenchRules;
use asn1_ber::BerRules;
use asn1_der::DerRules;
use asn1_tagform::TagRules;
use test_calls::type_kinds::{
    Items, Lists, Numbers, Samples, Sequences, Strings, TaggedItems, TypesOfX690, Wrappers,
};
use test_calls::type_lists::{DerTypes, FrontTypes, TypesOfEachAction};
use test_calls::{Action, Answer, Answers, Asked, Codec, answered, converted, front_in_der};

/// A type of each kind, those of X.690, 8.14.3, and the sample types.
type EachKind = (Items, (TypesOfX690, (Sequences, Samples)));

const EACH_KIND: EachKind = (Items, (TypesOfX690, (Sequences, Samples)));

/// All types but those of lines in DER and BER alone.
type EveryType = (
    EachKind,
    (Numbers, (Strings, (Lists, (Wrappers, TaggedItems)))),
);

const EVERY_TYPE: EveryType = (
    EACH_KIND,
    (Numbers, (Strings, (Lists, (Wrappers, TaggedItems)))),
);

/// The types of BER.
const TYPES_OF_BER: (EveryType, DerTypes) = (EVERY_TYPE, DerTypes);

/// The lines of the program: conversions between two codecs, each with its types, and the other actions.
#[derive(Clone, Copy, Drop)]
pub(crate) struct Pairs;

impl Answers for Pairs {
    fn answer_to(&self, asked: &Asked<'_>) -> Option<Answer> {
        let (packed, der) = (BenchRules::new(asked.alloc), DerRules::new(asked.alloc));
        let (tags, ber) = (TagRules::new(asked.alloc), BerRules::new(asked.alloc));
        match asked.conversion() {
            Some((Codec::Packed, Codec::Der)) => converted(&EVERY_TYPE, asked, &packed, &der),
            Some((Codec::Der, Codec::Packed)) => converted(&EVERY_TYPE, asked, &der, &packed),
            Some((Codec::TagForm, Codec::Der)) => converted(&EACH_KIND, asked, &tags, &der),
            Some((Codec::Der, Codec::TagForm)) => converted(&EACH_KIND, asked, &der, &tags),
            Some((Codec::Ber, Codec::Der)) => converted(&TYPES_OF_BER, asked, &ber, &der),
            Some((Codec::Der, Codec::Der)) => converted(&DerTypes, asked, &der, &der),
            _ => other_answer(asked),
        }
    }
}

/// The answer to what is asked of few types.
fn other_answer(asked: &Asked<'_>) -> Option<Answer> {
    match (asked.action, asked.request.codec, asked.other) {
        (Action::ReadFront, Codec::Packed, Codec::Der) => front_in_der(&FrontTypes, asked),
        _ => answered(&TypesOfEachAction, asked),
    }
}
