//! Values at the front of octets of BER.
ghost use Rattle.asn1_ber.specs.Cuts.{IsCut};
ghost use Rattle.asn1_ber_items.specs.Ends.{EndsInside};
ghost use Rattle.asn1_der_items.specs.Cuts.{IsMissing};
ghost use Rattle.asn1_items.specs.declared.error.ItemError.TheVariants.{Memory};
ghost use Rattle.std.specs.Prelude.{◌≡◌, IfErr, MatchResult, ℕ};

use crate::errors::decode_error_of;
use crate::reading::read_normal;
use asn1_ber_items::{Progress, find_end, front_element};
use asn1_dec::{Decode, DecodeError};
use asn1_items::ItemError;
use asn1_rules::FrontReader;
use std::alloc::Global;

/// Reads values from the front of octets of BER, each with at most this many nested scopes.
///
/// The reader finds the first element of an input by its identifier and its length, or by its end-of-contents octets, and reads it as
/// a whole. If the element is not complete, the error is [`DecodeError::Incomplete`]; if the input does not begin with an element, it is
/// [`DecodeError::Custom`] with the text `bad item`.
///
/// The search for the end of an element of indefinite length goes on with each piece from where it came (`read_on`), and the element
/// is read once it is whole.
#[derive(Clone, Copy, Debug, Drop)]
pub struct BerReader {
    alloc: Global,
    depth: usize,
}

impl BerReader {
    /// A reader that may open this many nested scopes, with the allocator that values are made by.
    pub fn new(alloc: Global, depth: usize) -> BerReader
        ensures alloc { result.alloc ≡ alloc }
        ensures depth { result.depth ≡ depth }
    {
        BerReader { alloc, depth }
    }

    /// How many octets the first value of an input has: those of the element that it begins with.
    ///
    /// # Errors
    /// [`ItemError::Missing`] if the input ends inside its first element, else [`ItemError::Malformed`] if it begins with none.
    /// [`ItemError::Memory`] may come of any input.
    pub fn front_length(&self, input: &[u8]) -> Result<usize, ItemError>
        ensures length { MatchResult result (IsCut input.now)
            (λ e. (n : ℕ) → IsCut input.now n → e ≡ Memory) }
        ensures missing { IfErr result (λ e. IsMissing e → EndsInside 0 input.now) }
        ensures cut { EndsInside 0 input.now → MatchResult result (λ _. ⊥) IsMissing }
    {
        let front = front_element(self.alloc, input)?;
        Ok(input.len() - front.rest.len())
    }
}

impl<D: Decode> FrontReader<D> for BerReader {
    ghost use Rattle.asn1_ber.specs.Cuts.{ber_fronts, cut_within};
    ghost use Rattle.asn1_ber_items.specs.Progress.{HasCome, goes_on};

    ghost fronts = { ber_fronts D.meaning D.eq };

    type Progress = Progress;

    ghost came = { λ reader progress octets. HasCome progress octets };

    fn read_front(&self, input: &[u8]) -> Result<(D, usize), DecodeError> {
        match front_element(self.alloc, input) {
            Ok(front) => {
                let length = input.len() - front.rest.len();
                let value = read_normal(self.alloc, front.normal.as_slice(), self.depth)?;
                Ok((value, length))
            }
            Err(error) => Err(decode_error_of(error)),
        }
    }

    fn start(&self) -> Progress {
        Progress::new()
    }

    fn read_on(&self, input: &[u8], progress: &mut Progress) -> Result<(D, usize), DecodeError> {
        match find_end(input, progress) {
            Ok(()) => self.read_front(input),
            Err(error) => Err(decode_error_of(error)),
        }
    }

    ghost lawful = { record {
      is_cut = λ reader bytes v n front. front.cut;
      within = λ reader bytes n cut. cut_within bytes n cut;
    } };

    ghost goes_on = { λ reader progress octets behind came.
        goes_on progress octets behind came };
}
