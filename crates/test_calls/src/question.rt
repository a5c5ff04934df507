//! A request that any codec answers, by any action.
use crate::answer::Answer;
use crate::asked::{Action, Asked};
use crate::conversion::{not_read, written};
use crate::fronts::front_of;
use crate::named_types::{TypeCase, TypeNames};
use asn1_dec::{Decode, DecodeError};
use asn1_enc::{Encode, EncodeError};
use asn1_rules::Pieces;

/// The answer to a request, if its type is in the list.
pub fn answered<N: TypeNames>(types: &N, asked: &Asked<'_>) -> Option<Answer> {
    types.try_named(&Question { asked }, asked.request.type_name)
}

/// A request, for any type.
#[derive(Drop)]
struct Question<'a> {
    asked: &'a Asked<'a>,
}

impl TypeCase for Question<'_> {
    type Answer = Answer;

    fn try_type<T: Encode + Decode>(&self) -> Answer {
        match self.asked.action {
            Action::Read => self.read::<T>(),
            Action::ReadFront => self.read_front::<T>(),
            Action::ReadCanonical => self.read_canonical::<T>(),
            Action::ReadStream => self.read_stream::<T>(),
            Action::Write => self.write::<T>(),
        }
    }
}

impl Question<'_> {
    fn read<T: Encode + Decode>(&self) -> Answer {
        let asked = self.asked;
        let request = asked.request;
        match request
            .codec
            .read::<T>(asked.alloc, &request.bytes, request.depth)
        {
            Ok(value) => written(asked, self.write_by_other(&value)),
            Err(error) => Answer::NotRead(error),
        }
    }

    fn read_front<T: Encode + Decode>(&self) -> Answer {
        let asked = self.asked;
        let request = asked.request;
        match request
            .codec
            .read_front::<T>(asked.alloc, &request.bytes, request.depth)
        {
            Ok((value, length)) => front_of(self.write_by_other(&value), length),
            Err(error) => Answer::NotRead(error),
        }
    }

    fn read_canonical<T: Encode + Decode>(&self) -> Answer {
        let asked = self.asked;
        let request = asked.request;
        match request
            .codec
            .read_canonical::<T>(asked.alloc, &request.bytes, request.depth)
        {
            Ok(value) => written(asked, self.write_by_other(&value)),
            Err(error) => Answer::NotCanonical(error),
        }
    }

    fn read_stream<T: Encode + Decode>(&self) -> Answer {
        let asked = self.asked;
        let request = asked.request;
        match request
            .codec
            .read_canonical_stream::<T>(asked.alloc, &request.bytes, request.depth)
        {
            Ok(read) => self.stream(&read),
            Err(error) => Answer::NotRead(error),
        }
    }

    /// The answer where values were read out of a stream.
    fn stream<T: Encode>(&self, read: &Pieces<T>) -> Answer {
        match self.write_all(&read.values) {
            Ok(written) => Answer::Stream {
                written,
                count: read.values.len(),
                last: read.last,
            },
            Err(error) => Answer::NotWrittenByOther(error),
        }
    }

    /// The bytes of values, one after another, by the other codec.
    fn write_all<T: Encode>(&self, values: &[T]) -> Result<Vec<u8>, EncodeError> {
        let mut written = Vec::new(self.asked.alloc);
        for value in values {
            let bytes = self.write_by_other(value)?;
            written.extend_from_slice(&bytes)?;
        }
        Ok(written)
    }

    /// The bytes of a value, by the other codec.
    fn write_by_other<T: Encode>(&self, value: &T) -> Result<Vec<u8>, EncodeError> {
        self.asked.other.write(self.asked.alloc, value, usize::MAX)
    }

    fn write<T: Encode + Decode>(&self) -> Answer {
        let asked = self.asked;
        let request = asked.request;
        let value: Result<T, DecodeError> = asked
            .other
            .read(asked.alloc, &request.bytes, usize::MAX);
        match value {
            Ok(value) => written(
                asked,
                request.codec.write(asked.alloc, &value, request.depth),
            ),
            Err(error) => not_read(asked, error),
        }
    }
}
