//! The round trip of streams: values written as a list are read back from pieces.
ghost use Rattle.asn1_rules.specs.Fronts.{BelongsTo, IsSteady};
ghost use Rattle.asn1_rules.specs.Pieces.{joined};
ghost use Rattle.asn1_rules.specs.Outputs.{OutputsAreFronts};
ghost use Rattle.asn1_rules.specs.StreamRoundTrips.{AreReadBack, FailsInPieces, ValuesComeBack};
ghost use Rattle.std.specs.Prelude.{◌≡◌, ◌≤◌, ◌<◌, ◌↔◌, All, IfErr, IfOk, None, length, ℕ};

use crate::front_reader::FrontReader;
use crate::lists::write_list;
use crate::pieces::{Pieces, read_pieces};
use crate::{RoundTripError, Rules};
use asn1_dec::DecodeError;
use asn1_enc::Encode;
use std::alloc::{AllocError, Global};

/// Writes values one after another, cuts the bytes into pieces of these lengths and a last one, and
/// reads them back.
///
/// The round trip of streams: for every codec, and every steady reader that belongs to it, valid
/// values that were written are read back equal, in their order, however their bytes are cut,
/// unless memory runs out, or a value is nested deeper than the reader's depth (`back`). Values that
/// come were read of the outputs of these, valid or not (`only`).
///
/// # Errors
/// [`RoundTripError::Writing`] with the error of [`write_list`], and [`RoundTripError::Reading`]
/// with [`DecodeError::Memory`].
pub fn round_trip_in_pieces<
    T: Encode + Eq + Drop,
    R: Rules<Output = Vec<u8>>,
    F: FrontReader<T> + Drop,
>(
    alloc: Global,
    rules: &R,
    reader: F,
    values: &[T],
    depth: usize,
    lengths: &[usize],
) -> Result<Pieces<T>, RoundTripError>
    ensures back { IsSteady F.fronts reader → BelongsTo F.fronts reader R.format T.meaning T.eq →
        All (T.meaning.IsValid R.format.accepts) values.now →
        IfOk result (ValuesComeBack T.meaning T.eq (F.fronts.depth reader) values.now) }
    ensures at_most { IfOk result (λ read. length read.values.items ≤ length values.now) }
    ensures ended { IfOk result (λ read.
        (read.last ≡ None) ↔ (length read.values.items ≡ length values.now)) }
    ensures only { IfOk result (λ read. AreReadBack F.fronts reader R.format T.meaning depth
        values.now read.values.items) }
    ensures fails { IfErr result (FailsInPieces R.format T.meaning depth values.now) }
{
    let bytes = write_list(alloc, rules, values, depth).map_err(RoundTripError::Writing)?;
    let pieces = match cut(alloc, &bytes, lengths) {
        Ok(pieces) => pieces,
        Err(_refused) => return Err(RoundTripError::Reading(DecodeError::Memory)),
    };
    read_pieces(alloc, reader, &pieces, values.len()).map_err(RoundTripError::Reading)
}

/// A law: bytes that are outputs of valid values, one after another, are fronts of these values to a
/// reader that belongs to the rules. So [`read_pieces`] answers these values, whatever pieces the
/// bytes come in.
#[tactic(auto, using(crate::proofs::Streams::outputs_are_fronts))]
pub fn outputs_are_fronts<T: Encode + Eq, R: Rules<Output = Vec<u8>>, F: FrontReader<T>>(reader: &F)
    ensures fronts { (depth : ℕ) → BelongsTo F.fronts reader.now R.format T.meaning T.eq →
        OutputsAreFronts F.fronts reader.now R.format T.meaning depth }
{}

/// Cuts bytes into pieces of these lengths, in order, as far as there are bytes, and a last piece
/// of the rest.
fn cut<'bytes>(
    alloc: Global,
    bytes: &'bytes [u8],
    lengths: &[usize],
) -> Result<Vec<&'bytes [u8]>, AllocError>
    ensures joined { IfOk result (λ pieces. joined pieces.items ≡ bytes.now) }
    ensures some { IfOk result (λ pieces. 0 < length pieces.items) }
{
    let mut pieces = Vec::new(alloc);
    let mut rest = bytes;
    for length in lengths {
        let (piece, behind) = rest.split_at((*length).min(rest.len()));
        pieces.push(piece)?;
        rest = behind;
    }
    pieces.push(rest)?;
    Ok(pieces)
}
