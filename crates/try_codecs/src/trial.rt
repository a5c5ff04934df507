//! A value, and what is tried of it.
use crate::bytes::{beginnings_are_too_short, values_with_one_other_byte};
use crate::damage::try_damage;
use crate::growths::{try_growths, try_pieces};
use crate::recoded::try_recoding;
use crate::report::{Answer, Report};
use asn1_dec::{Decode, DecodeError};
use asn1_enc::Encode;
use std::alloc::Global;
use test_calls::type_kinds::{Samples, Sequences};
use test_calls::type_lists::TriedTypes;
use test_calls::{Codec, Failure, Request, TypeCase, TypeNames, is_same};

/// What is tried.
#[derive(Clone, Copy, Drop)]
enum Action {
    /// To damage the bytes, by this seed.
    Damage(u32),
    /// To write and read with each growth that memory allows.
    Growths,
    /// To read out of pieces.
    Pieces,
    /// To read each beginning.
    Begun,
    /// To read with each other byte.
    Changed,
    /// To recode to the tag form and back.
    Recode,
}

impl Action {
    /// The action of this name, with its word.
    fn of_name(name: &str, word: &str) -> Option<Action> {
        match name {
            "damage" => Some(Action::Damage(word.parse::<u32>().ok()?)),
            "growths" => Some(Action::Growths),
            "pieces" => Some(Action::Pieces),
            "begun" => Some(Action::Begun),
            "changed" => Some(Action::Changed),
            "recode" => Some(Action::Recode),
            _ => None,
        }
    }
}

/// A codec, and the bytes of a value of which something is tried.
#[derive(Drop)]
pub(crate) struct Trial<'a> {
    /// The memory.
    pub(crate) alloc: Global,
    /// The codec that is tried.
    pub(crate) codec: Codec,
    /// The greatest number of nested scopes.
    pub(crate) depth: usize,
    /// The bytes of the value.
    pub(crate) bytes: &'a Vec<u8>,
    action: Action,
}

/// The answer to a request, if its words are some that `main` lists.
pub(crate) fn answer_to(alloc: Global, request: &Request<'_>) -> Option<Answer> {
    let trial = Trial {
        alloc,
        codec: request.codec,
        depth: request.depth,
        bytes: &request.bytes,
        action: Action::of_name(request.action, request.word)?,
    };
    (TriedTypes, (Sequences, Samples)).try_named(&trial, request.type_name)
}

impl TypeCase for Trial<'_> {
    type Answer = Answer;

    fn try_type<T: Encode + Decode>(&self) -> Answer {
        match self.codec.read::<T>(self.alloc, self.bytes, usize::MAX) {
            Ok(value) => Answer(self.try_value(value)),
            Err(error) => Answer(Err(Failure::of_reading(error))),
        }
    }
}

impl Trial<'_> {
    fn try_value<T: Encode + Decode>(&self, value: T) -> Result<Report, Failure> {
        match self.action {
            Action::Damage(seed) => try_damage(self, &value, seed),
            Action::Growths => try_growths(self, value),
            Action::Pieces => try_pieces(self, value),
            Action::Begun => beginnings_are_too_short::<T>(self, &self.written(&value)?),
            Action::Recode => try_recoding(self, &value),
            Action::Changed => values_with_one_other_byte::<T>(self, &self.written(&value)?),
        }
    }

    /// The bytes of a value.
    pub(crate) fn written<T: Encode>(&self, value: &T) -> Result<Vec<u8>, Failure> {
        match self.codec.write(self.alloc, value, self.depth) {
            Ok(bytes) => Ok(bytes),
            Err(error) => Err(Failure::of_writing(error)),
        }
    }

    /// The value of all of these bytes.
    pub(crate) fn read<T: Decode>(&self, bytes: &Vec<u8>) -> Result<T, DecodeError> {
        self.codec.read(self.alloc, bytes, self.depth)
    }

    /// Whether this value is read of these bytes.
    pub(crate) fn is_read<T: Decode>(&self, bytes: &Vec<u8>, value: &T) -> Result<(), Failure> {
        match self.read::<T>(bytes) {
            Ok(back) => is_same(&back, value),
            Err(error) => Err(Failure::of_reading(error)),
        }
    }
}
