//! The work of a program on the octets of values of a type.
ghost use Rattle.asn1_convert.specs.Answers.{IsAnswer, IsConversion, IsVerdict, missing_octets};
ghost use Rattle.asn1_convert.specs.SomeType.{IsAnswerOfSomeType};
ghost use Rattle.std.specs.Prelude.{◌≡◌, IfOk, IfSome};

use crate::check::{check_der, check_line};
use crate::form::{CodecForm, OutputForm};
use crate::report::stop_line;
use crate::stream::{Cause, convert_values};
use asn1_dec::Decode;
use asn1_enc::Encode;
use asn1_items::ItemError;
use std::alloc::{AllocError, Global};

/// A piece of work on octets.
#[derive(Clone, Copy, Debug, Drop, PartialEq, Eq)]
pub enum Action {
    /// The values of one form in another.
    Convert {
        /// The codec of which they are read.
        from: CodecForm,
        /// The form in which they are written.
        to: OutputForm,
    },
    /// Whether they are the DER of a value.
    Check,
}

/// How many values and octets of an input were converted.
#[derive(Clone, Copy, Debug, Default, Drop, PartialEq, Eq)]
pub struct Converted {
    /// The values.
    pub values: usize,
    /// The octets.
    pub octets: usize,
}

impl Converted {
    ghost use Rattle.asn1_convert.specs.Lines.{sum_within};

    /// The sum of this and of more behind it.
    pub(crate) fn followed_by(self, more: Converted) -> Converted
        ensures values { result.values ≡ sum_within self.values more.values }
        ensures octets { result.octets ≡ sum_within self.octets more.octets }
    {
        Converted {
            values: self.values.saturating_add(more.values),
            octets: self.octets.saturating_add(more.octets),
        }
    }
}

/// Octets, and the work on them.
#[derive(Clone, Copy)]
pub struct Task<'a> {
    /// The allocator.
    pub alloc: Global,
    /// The part of an input that was converted before the octets.
    pub before: Converted,
    /// The octets.
    pub input: &'a Vec<u8>,
    /// The work.
    pub action: Action,
    /// How many nested scopes may be open.
    pub depth: usize,
}

/// The outcome of a task.
#[derive(Debug, Drop)]
pub struct Answer {
    /// The part of the octets that was converted.
    pub converted: Converted,
    /// The output.
    pub output: Vec<u8>,
    /// The line on standard error, where something failed.
    pub failure: Option<String>,
    /// How many octets the value at which the work failed lacks at least, if the octets end inside it.
    pub missing: Option<usize>,
}

/// The names of types, and what each does with a task.
pub trait TypeList {
    /// The names of the types, with spaces between them.
    fn names() -> &'static str;

    /// The answer of the type of that name, by [`Task::perform`]; `None` if no type has the name.
    fn answer(name: &str, task: Task<'_>) -> Option<Result<Answer, AllocError>>
        ensures { IfSome result (λ answered. IfOk answered (IsAnswerOfSomeType
            task.entry.input.now.items task.entry.before task.entry.action)) };
}

impl<'a> Task<'a> {
    /// The answer for a type: the conversions of the values of the input, up to the first that is not converted; or whether the input is
    /// the DER of a value. There is a failure exactly if a value is not converted, or the input refused.
    ///
    /// # Errors
    /// [`AllocError`] if memory runs out for the answer. A value for whose conversion it does is a failure.
    pub fn perform<T: Encode + Decode + Drop>(self) -> Result<Answer, AllocError>
        ensures answers { IfOk result (IsAnswer T.meaning T.eq T.refusals self.entry.depth
            self.entry.input.now self.entry.before self.entry.action) }
        ensures of_some_type { IfOk result (IsAnswerOfSomeType
            self.entry.input.now.items self.entry.before self.entry.action) }
    {
        match self.action {
            Action::Convert { from, to } => self.convert::<T>(from, to),
            Action::Check => self.check::<T>(),
        }
    }

    fn convert<T: Encode + Decode>(
        self,
        from: CodecForm,
        to: OutputForm,
    ) -> Result<Answer, AllocError>
        ensures { IfOk result (IsConversion T.meaning T.eq T.refusals self.entry.depth
            self.entry.input.now self.entry.before from to) }
    {
        let conversion = convert_values::<T>(self.alloc, from, self.input, to, self.depth);
        let values = conversion.count;
        match conversion.stop {
            None => Ok(Answer {
                converted: Converted {
                    values,
                    octets: self.input.len(),
                },
                output: conversion.output,
                failure: None,
                missing: None,
            }),
            Some(stop) => Ok(Answer {
                converted: Converted {
                    values,
                    octets: stop.start,
                },
                output: conversion.output,
                failure: Some(stop_line::<T>(self, from, stop)?),
                missing: missing_octets(stop.cause),
            }),
        }
    }

    fn check<T: Encode + Decode + Drop>(self) -> Result<Answer, AllocError>
        ensures { IfOk result (IsVerdict T.meaning T.eq T.refusals self.entry.depth
            self.entry.input.now) }
    {
        let failure = match check_der::<T>(self.alloc, self.input, self.depth) {
            Ok(_value) => None,
            Err(error) => Some(check_line::<T>(self.alloc, self.input, error, self.depth)?),
        };
        Ok(Answer {
            converted: Converted::default(),
            output: Vec::new(self.alloc),
            failure,
            missing: None,
        })
    }
}

/// How many octets a value lacks at least that was not converted, if the input ends inside it.
fn missing_octets(cause: Cause) -> Option<usize>
    ensures { result ≡ missing_octets cause }
{
    match cause {
        Cause::NoFront(ItemError::Missing(count)) => Some(count),
        _ => None,
    }
}
