//! The calls of an encoder and of a decoder, each by itself.
ghost use Rattle.std.specs.Prelude.{◌≡◌, Err, IsOk, MatchResult, None, Ok, OnErr, OnOk, Some, false, true};
ghost use Rattle.test_calls.specs.declared.failure.Failure.TheVariants.{Another};

use crate::failure::Failure;
use asn1_dec::{DecodeError, Decoder};
use asn1_enc::{EncodeError, Encoder};
use asn1_tags::{Class, Identifier, Tag};

/// The tag of what is written inside.
pub const FIRST: Tag = Tag {
    class: Class::Context,
    value: 0,
};

/// The tag of what is written around.
const AROUND: Tag = Tag {
    class: Class::Application,
    value: 31,
};

/// The name of what is written.
pub const NAME: Identifier = Identifier(Some("n"));

/// Calls that write, and calls that read what these wrote.
pub trait Calls: Drop {
    /// Makes the writing calls.
    ///
    /// # Errors
    /// The first error of a call.
    fn write<E: Encoder>(&self, encoder: &mut E) -> Result<(), EncodeError>;

    /// Makes the reading calls, and looks at what they answer.
    ///
    /// # Errors
    /// [`Failure::Another`] where a call answers something else than was written, and else the first error of a call.
    fn read<D: Decoder>(&self, decoder: &mut D) -> Result<(), Failure>;
}

/// A codec whose encoder and decoder can be called by themselves.
pub trait CallRules {
    /// The output of the calls.
    type Output: Drop;

    /// Makes writing calls with a new encoder.
    ///
    /// # Errors
    /// Why a call failed.
    fn write_calls<C: Calls>(&self, calls: &C, depth: usize) -> Result<Self::Output, EncodeError>;

    /// Makes reading calls with a new decoder, which then has nothing left to read.
    ///
    /// # Errors
    /// The error of the reading calls, or of what they left.
    fn read_calls<C: Calls>(
        &self,
        calls: &C,
        output: &Self::Output,
        depth: usize,
    ) -> Result<(), Failure>;
}

/// Whether what the writing calls write is read by the reading calls, in a scope of its own.
///
/// # Errors
/// The error of the reading calls, or of the writing calls.
pub fn calls_come_back<R: CallRules, C: Calls>(rules: &R, calls: C) -> Result<(), Failure> {
    let inside = Inside(calls);
    match rules.write_calls(&inside, 4) {
        Ok(output) => rules.read_calls(&inside, &output, 4),
        Err(error) => Err(Failure::of_writing(error)),
    }
}

/// Several calls in a row, each by its number.
///
/// An implementation is a `match` on the number. It costs much less to prove than the same calls in one body, where each call is
/// proved beside all that the calls before it have promised.
pub trait NumberedCalls: Drop {
    /// How many writing calls there are, and as many reading calls. They are numbered from 0.
    fn count(&self) -> usize;

    /// Makes the writing call of this number.
    ///
    /// # Errors
    /// The error of the call.
    fn write_call<E: Encoder>(&self, encoder: &mut E, number: usize) -> Result<(), EncodeError>;

    /// Makes the reading call of this number, and looks at what it answers.
    ///
    /// # Errors
    /// [`Failure::Another`] where the call answers something else than was written, and else the error of the call.
    fn read_call<D: Decoder>(&self, decoder: &mut D, number: usize) -> Result<(), Failure>;
}

/// Whether what the writing calls write, in the order of their numbers, is read by the reading calls, in a scope of its own.
///
/// # Errors
/// As `calls_come_back`.
pub fn numbered_calls_come_back<R: CallRules, C: NumberedCalls>(
    rules: &R,
    calls: C,
) -> Result<(), Failure> {
    calls_come_back(rules, InOrder(calls))
}

/// Numbered calls, in the order of their numbers.
#[derive(Drop)]
struct InOrder<C>(C);

impl<C: NumberedCalls> Calls for InOrder<C> {
    fn write<E: Encoder>(&self, encoder: &mut E) -> Result<(), EncodeError> {
        for number in 0..self.0.count() {
            self.0.write_call(encoder, number)?;
        }
        Ok(())
    }

    fn read<D: Decoder>(&self, decoder: &mut D) -> Result<(), Failure> {
        for number in 0..self.0.count() {
            self.0.read_call(decoder, number)?;
        }
        Ok(())
    }
}

/// Calls after an explicit tag: a codec without presence marks knows there where the last component ends.
#[derive(Drop)]
struct Inside<C>(C);

impl<C: Calls> Calls for Inside<C> {
    fn write<E: Encoder>(&self, encoder: &mut E) -> Result<(), EncodeError> {
        encoder.open_explicit_prefix(AROUND, NAME)?;
        self.0.write(encoder)?;
        encoder.close()
    }

    fn read<D: Decoder>(&self, decoder: &mut D) -> Result<(), Failure> {
        done(decoder.open_explicit_prefix(AROUND))?;
        self.0.read(decoder)?;
        done(decoder.close())
    }
}

/// Whether a call succeeded.
///
/// # Errors
/// Why it failed.
pub fn done(answer: Result<(), DecodeError>) -> Result<(), Failure>
    ensures succeeded { OnOk result (IsOk answer) }
{
    answer.map_err(Failure::of_reading)
}

/// Whether a call answers this value.
///
/// # Errors
/// [`Failure::Another`] where it answers another, and else why it failed.
pub fn answers<T: PartialEq + Drop>(
    answer: Result<T, DecodeError>,
    expected: &T,
) -> Result<(), Failure>
    ensures expected { OnOk result (MatchResult answer (λ v. T.eq v expected.now ≡ true) (λ _. ⊥)) }
{
    match answer {
        Ok(value) => is_same(&value, expected),
        Err(error) => Err(Failure::of_reading(error)),
    }
}

/// Whether a call answers that this value is there.
///
/// # Errors
/// As `answers`.
pub fn answers_some<T: PartialEq + Drop>(
    answer: Result<Option<T>, DecodeError>,
    expected: &T,
) -> Result<(), Failure>
    ensures expected { OnOk result ((v : T) × ((answer ≡ Ok (Some v)) × (T.eq v expected.now ≡
        true))) }
{
    match answer {
        Ok(Some(value)) => is_same(&value, expected),
        Ok(None) => Err(Failure::Another),
        Err(error) => Err(Failure::of_reading(error)),
    }
}

/// Whether a call answers that no value is there.
///
/// # Errors
/// As `answers`.
pub fn answers_none<T: Drop>(answer: Result<Option<T>, DecodeError>) -> Result<(), Failure>
    ensures absent { OnOk result (answer ≡ Ok None) }
{
    match answer {
        Ok(None) => Ok(()),
        Ok(Some(_)) => Err(Failure::Another),
        Err(error) => Err(Failure::of_reading(error)),
    }
}

/// Whether two values are equal.
///
/// # Errors
/// [`Failure::Another`] if they are not.
pub fn is_same<T: PartialEq>(left: &T, right: &T) -> Result<(), Failure>
    ensures equal { T.eq left.now right.now ≡ true → IsOk result }
    ensures unequal { T.eq left.now right.now ≡ false → result ≡ Err Another }
    ensures only { OnOk result (T.eq left.now right.now ≡ true) }
{
    if *left == *right {
        Ok(())
    } else {
        Err(Failure::Another)
    }
}

/// Whether an error is the expected one.
///
/// # Errors
/// The error, if it is another.
pub fn is_this(error: DecodeError, expected: DecodeError) -> Result<(), Failure>
    ensures expected { OnOk result (⟦<DecodeError as PartialEq>⟧.eq error expected ≡ true) }
    ensures other { OnErr result (⟦<DecodeError as PartialEq>⟧.eq error expected ≡ false) }
{
    if error == expected {
        Ok(())
    } else {
        Err(Failure::of_reading(error))
    }
}
