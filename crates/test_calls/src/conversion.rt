//! A value that one codec reads and another writes.
use crate::answer::Answer;
use crate::asked::Asked;
use crate::named_types::{TypeCase, TypeNames};
use asn1_dec::{Decode, DecodeError};
use asn1_enc::{Encode, EncodeError};
use asn1_rules::Rules;

/// The answer to a request, of whose codecs these rules are, if its type is in the list.
pub fn converted<N: TypeNames, R: Rules<Output = Vec<u8>>, W: Rules<Output = Vec<u8>>>(
    types: &N,
    asked: &Asked<'_>,
    reading: &R,
    writing: &W,
) -> Option<Answer> {
    let conversion = Conversion {
        asked,
        reading,
        writing,
    };
    types.try_named(&conversion, asked.request.type_name)
}

/// A conversion, for any type.
#[derive(Drop)]
struct Conversion<'a, R, W> {
    asked: &'a Asked<'a>,
    reading: &'a R,
    writing: &'a W,
}

impl<R: Rules<Output = Vec<u8>>, W: Rules<Output = Vec<u8>>> TypeCase for Conversion<'_, R, W> {
    type Answer = Answer;

    fn try_type<T: Encode + Decode>(&self) -> Answer {
        let asked = self.asked;
        match self
            .reading
            .read_value::<T>(&asked.request.bytes, asked.reading_depth())
        {
            Ok(value) => written(
                asked,
                self.writing.write_value(&value, asked.writing_depth()),
            ),
            Err(error) => not_read(asked, error),
        }
    }
}

/// The answer where a value was read.
pub(crate) fn written(asked: &Asked<'_>, written: Result<Vec<u8>, EncodeError>) -> Answer {
    match written {
        Ok(bytes) => Answer::Written(bytes),
        Err(error) if asked.writes() => Answer::NotWritten(error),
        Err(error) => Answer::NotWrittenByOther(error),
    }
}

/// The answer where no value was read.
pub(crate) fn not_read(asked: &Asked<'_>, error: DecodeError) -> Answer {
    if asked.writes() {
        Answer::NoValue(error)
    } else {
        Answer::NotRead(error)
    }
}
