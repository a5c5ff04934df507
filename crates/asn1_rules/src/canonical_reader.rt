//! A reader of fronts that are the very bytes that writing their values makes.
ghost use Rattle.asn1_model.specs.Meaning.{own_records};
ghost use Rattle.asn1_rules.specs.CanonicalFronts.{HasOneSpellingEach, as_error_of_reading, canonical_fronts};
ghost use Rattle.asn1_rules.specs.Fronts.{BelongsTo, IsSteady};
ghost use Rattle.std.specs.Prelude.{◌≡◌};

use crate::canonical::first_difference;
use crate::front_reader::FrontReader;
use crate::rules::Rules;
use asn1_dec::{Decode, DecodeError};
use asn1_enc::{Encode, EncodeError};

/// A reader of fronts over another, which answers a value only if writing it makes the very bytes that were read (`canonical` of its
/// `read_front`).
///
/// # Errors
/// An error is one that the inner reader may answer; or that of writing the value that was read, as an error of reading; or
/// [`DecodeError::Custom`] with the text `not canonical`, where the value is written as other bytes (`departs`).
#[derive(Clone, Copy, Debug, Drop)]
pub struct CanonicalReader<F, R> {
    reader: F,
    rules: R,
    depth: usize,
}

impl<F, R> CanonicalReader<F, R> {
    /// A reader over another, whose values these rules write with at most this many nested scopes.
    pub fn new(reader: F, rules: R, depth: usize) -> CanonicalReader<F, R>
        ensures reader { result.reader ≡ reader }
        ensures rules { result.rules ≡ rules }
        ensures depth { result.depth ≡ depth }
    {
        CanonicalReader {
            reader,
            rules,
            depth,
        }
    }
}

impl<T: Encode + Decode, F: FrontReader<T>, R: Rules<Output = Vec<u8>>> FrontReader<T>
    for CanonicalReader<F, R> {
    ghost use Rattle.asn1_rules.specs.CanonicalFronts.{FrontDepartsAs, canonical_fronts};
    ghost use Rattle.asn1_rules.specs.CanonicalReading.{IsWrittenAs};
    ghost use Rattle.asn1_rules.specs.Fronts.{ReadsFront};
    ghost use Rattle.std.specs.Prelude.{◌≤◌, IfErr, IfOk, length, take};

    ghost fronts = { canonical_fronts F.fronts R.format T.meaning };

    type Progress = F::Progress;

    ghost came = { λ reader progress bytes. F.came reader.reader progress bytes };

    fn read_front(&self, input: &[u8]) -> Result<(T, usize), DecodeError>
        ensures read { ReadsFront (canonical_fronts F.fronts R.format T.meaning) self.now input.now
            result }
        ensures canonical { IfOk result (λ answer. IsWrittenAs R.format T.meaning self.now.depth
            answer.0 (take answer.1 input.now)) }
        ensures departs { IfErr result (FrontDepartsAs F.fronts R.format T.meaning
            self.now.reader self.now.depth input.now) }
    {
        let mut progress = self.reader.start();
        self.read_on(input, &mut progress)
    }

    fn start(&self) -> F::Progress {
        self.reader.start()
    }

    fn read_on(&self, input: &[u8], progress: &mut F::Progress) -> Result<(T, usize), DecodeError>
        ensures read { ∥ F.came self.now.reader progress.old input.now ∥₁ →
            ReadsFront (canonical_fronts F.fronts R.format T.meaning) self.now input.now result }
        ensures within { IfOk result (λ answer. answer.1 ≤ length input.now) }
        ensures came { ∥ F.came self.now.reader progress.old input.now ∥₁ →
            ∥ F.came self.now.reader progress.new input.now ∥₁ }
        ensures canonical { ∥ F.came self.now.reader progress.old input.now ∥₁ →
            IfOk result (λ answer. IsWrittenAs R.format T.meaning self.now.depth
            answer.0 (take answer.1 input.now)) }
        ensures departs { ∥ F.came self.now.reader progress.old input.now ∥₁ →
            IfErr result (FrontDepartsAs F.fronts R.format T.meaning
            self.now.reader self.now.depth input.now) }
    {
        let (value, length) = self.reader.read_on(input, progress)?;
        let output = match self.rules.write_value(&value, self.depth) {
            Ok(output) => output,
            Err(error) => return Err(as_error_of_reading(error)),
        };
        match first_difference(&input[..length], &output) {
            None => Ok((value, length)),
            Some(_at) => Err(DecodeError::Custom("not canonical")),
        }
    }

    ghost lawful = { record {
      is_cut = λ reader bytes v n front. (F.lawful.is_cut reader.reader bytes v n front.front, (v, front.spelled));
      within = λ reader bytes n cut. F.lawful.within reader.reader bytes n cut.0;
    } };

    ghost goes_on = { λ reader progress bytes behind came.
        F.goes_on reader.reader progress bytes behind came };
}

/// An error of writing, as a reader answers it that writes what it has read.
fn as_error_of_reading(error: EncodeError) -> DecodeError
    ensures { result ≡ as_error_of_reading error }
{
    match error {
        EncodeError::Memory => DecodeError::Memory,
        EncodeError::Depth => DecodeError::Depth,
        EncodeError::Failed => DecodeError::Failed,
        EncodeError::Custom(text) => DecodeError::Custom(text),
    }
}

/// A law of a canonical reader: it is steady if the inner reader is (`steady`). It belongs to the rules if the inner reader does and
/// each output is the only spelling of its value (`belongs`).
pub fn a_canonical_reader_keeps_to_its_rules<
    T: Encode + Decode,
    F: FrontReader<T>,
    R: Rules<Output = Vec<u8>>,
>(reader: &CanonicalReader<F, R>)
    ensures steady { IsSteady F.fronts reader.now.reader →
        IsSteady ⟦<CanonicalReader<F, R> as FrontReader<T>>⟧.fronts reader.now }
    ensures belongs { HasOneSpellingEach F.fronts R.format T.meaning →
        BelongsTo F.fronts reader.now.reader R.format T.meaning T.eq →
        BelongsTo ⟦<CanonicalReader<F, R> as FrontReader<T>>⟧.fronts reader.now R.format
        T.meaning T.eq }
{}
