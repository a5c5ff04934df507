//! Values at the front of packed bytes.
ghost use Rattle.asn1_bench.specs.Fronts.{IsCut};
ghost use Rattle.std.specs.Prelude.{MatchResult, ℕ};

use crate::PackedDecoder;
use asn1_buffers::read_whole;
use asn1_dec::{Decode, DecodeError};
use asn1_items::{ItemError, find_header};
use asn1_rules::FrontReader;
use std::alloc::Global;

/// Reads values from the front of packed bytes, each with at most this many nested scopes.
///
/// The reader finds the first item of an input by its header, and reads it as a whole. If the item is not complete, or the input does
/// not begin with an item, the error is that of `read_value` of [`BenchRules`](crate::BenchRules) for all of the input; or
/// [`DecodeError::Custom`] with the text `bad item`, if the input is a value of a type that is no item, as an absent `Option`.
#[derive(Clone, Copy, Debug, Drop)]
pub struct BenchReader {
    alloc: Global,
    depth: usize,
}

impl BenchReader {
    ghost use Rattle.asn1_items.specs.Headers.{is_one_item};
    ghost use Rattle.asn1_bench.specs.Carried.{Carries};
    ghost use Rattle.asn1_rules.specs.Rules.{IsReadOf, ReadsCarried};
    ghost use Rattle.std.specs.Prelude.{◌≡◌, IfOk};

    /// A reader that may open this many nested scopes, with the allocator that values are made by.
    pub fn new(alloc: Global, depth: usize) -> BenchReader
        ensures alloc { result.alloc ≡ alloc }
        ensures depth { result.depth ≡ depth }
    {
        BenchReader { alloc, depth }
    }

    /// How many bytes the first value of an input has: those of the item that it begins with.
    ///
    /// # Errors
    /// Why the input begins with no whole item; [`ItemError::Missing`] if it ends inside one.
    pub fn front_length(&self, input: &[u8]) -> Result<usize, ItemError>
        ensures { MatchResult result (IsCut input.now) (λ e. (n : ℕ) → ¬ IsCut input.now n) }
    {
        let header = find_header(input)?;
        match header.body.split_at_checked(header.size as usize) {
            Some((_inside, rest)) => Ok(input.len() - rest.len()),
            None => Err(ItemError::Missing(header.size as usize - header.body.len())),
        }
    }

    /// Reads the value whose bytes these are.
    fn read<D: Decode>(&self, bytes: &[u8]) -> Result<D, DecodeError>
        ensures read { ReadsCarried (λ own. is_one_item own) (Carries bytes.now) D.meaning D.eq
            self.now.depth result }
        ensures only { IfOk result (IsReadOf (Carries bytes.now) D.meaning) }
    {
        let decoder = PackedDecoder::new(self.alloc, bytes, self.depth);
        read_whole(decoder)
    }

    /// The error for an input that begins with no complete item.
    fn refusal<D: Decode>(&self, input: &[u8]) -> DecodeError {
        match self.read::<D>(input) {
            Ok(_no_item) => DecodeError::Custom("bad item"),
            Err(error) => error,
        }
    }
}

impl<D: Decode> FrontReader<D> for BenchReader {
    ghost use Rattle.asn1_bench.specs.Fronts.{cut_within, packed_fronts};
    ghost use Rattle.std.specs.Prelude.{⊤};

    ghost fronts = { packed_fronts D.meaning D.eq };

    type Progress = ();

    ghost came = { λ reader progress bytes. ⊤ };

    fn read_front(&self, input: &[u8]) -> Result<(D, usize), DecodeError> {
        let Ok(length) = self.front_length(input) else {
            return Err(self.refusal::<D>(input));
        };
        let value = self.read(&input[..length])?;
        Ok((value, length))
    }

    fn start(&self) {}

    ghost lawful = { record {
      is_cut = λ reader bytes v n front. front.cut;
      within = λ reader bytes n cut. cut_within bytes n cut;
    } };

    ghost goes_on = { λ reader progress bytes behind came. tt };
}
