//! The value at the front of bytes.
use crate::answer::Answer;
use crate::asked::Asked;
use crate::conversion::not_read;
use crate::named_types::{TypeCase, TypeNames};
use asn1_bench::BenchReader;
use asn1_dec::{Decode, DecodeError};
use asn1_der::DerRules;
use asn1_enc::{Encode, EncodeError};
use asn1_rules::{FrontReader, Rules};

/// The answer to a request for the value at the front of packed bytes in DER, if its type is in the list.
pub fn front_in_der<N: TypeNames>(types: &N, asked: &Asked<'_>) -> Option<Answer> {
    types.try_named(&PackedFront { asked }, asked.request.type_name)
}

/// The front of packed bytes, for any type.
#[derive(Drop)]
struct PackedFront<'a> {
    asked: &'a Asked<'a>,
}

impl TypeCase for PackedFront<'_> {
    type Answer = Answer;

    fn try_type<T: Encode + Decode>(&self) -> Answer {
        let asked = self.asked;
        let reader = BenchReader::new(asked.alloc, asked.reading_depth());
        let front: Result<(T, usize), DecodeError> = reader.read_front(&asked.request.bytes);
        match front {
            Ok((value, length)) => {
                let rules = DerRules::new(asked.alloc);
                front_of(rules.write_value(&value, asked.writing_depth()), length)
            }
            Err(error) => not_read(asked, error),
        }
    }
}

/// The answer where a value of this length was read.
pub(crate) fn front_of(written: Result<Vec<u8>, EncodeError>, length: usize) -> Answer {
    match written {
        Ok(written) => Answer::Front { written, length },
        Err(error) => Answer::NotWrittenByOther(error),
    }
}
