//! Values out of bytes that come in pieces.
ghost use Rattle.asn1_laws.specs.declared.decode_error.DecodeError.TheVariants.{Memory};
ghost use Rattle.asn1_rules.specs.Fronts.{IsNoFront, IsSteady};
ghost use Rattle.asn1_rules.specs.Iters.{state};
ghost use Rattle.asn1_rules.specs.Pieces.{AreFronts, AreReadOf, FrontsComeBack, joined};
ghost use Rattle.asn1_rules.specs.UnreadBytes.{AddsRead, KeepsRemaining};
ghost use Rattle.std.specs.Prelude.{◌≡◌, ◌≤◌, ◌<◌, ◌↔◌, ◌⊎◌, [], IfErr, IfOk, List, MatchOption, None, length};

use crate::front_reader::FrontReader;
use crate::iter::Iter;
use asn1_dec::DecodeError;
use std::alloc::Global;

/// The values that were read of pieces, and the last error.
#[derive(Drop)]
pub struct Pieces<D> {
    /// The values, in the order of their bytes.
    pub values: Vec<D>,
    /// The last error, or None where as many values were read as were asked for.
    pub last: Option<DecodeError>,
}

/// Reads up to `n` values from pieces of bytes: appends piece after piece to an [`Iter`], and after
/// each takes values until an error comes, or until `n` have come. Whatever the pieces are, the values were read of their bytes, one
/// after another (`only`).
///
/// # Errors
/// [`DecodeError::Memory`], if there is no memory for a piece or a value.
pub fn read_pieces<D: Drop, R: FrontReader<D> + Drop>(
    alloc: Global,
    reader: R,
    pieces: &[&[u8]],
    n: usize,
) -> Result<Pieces<D>, DecodeError>
    ensures come_back { IfOk result (λ read. (vs : List D) → IsSteady R.fronts reader →
        AreFronts R.fronts reader vs (joined pieces.now) →
        FrontsComeBack R.fronts reader read.values.items vs read.last) }
    ensures at_most { IfOk result (λ read. length read.values.items ≤ n) }
    ensures ended { IfOk result (λ read.
        (read.last ≡ None) ↔ ((length read.values.items ≡ n) ⊎ (pieces.now ≡ []))) }
    ensures no_piece { IfOk result (λ read. pieces.now ≡ [] → read.values.items ≡ []) }
    ensures only { IfOk result (λ read.
        AreReadOf R.fronts reader read.values.items (joined pieces.now)) }
    ensures memory { IfErr result (λ e. e ≡ Memory) }
{
    let mut iter = Iter::new(alloc, &[], reader);
    let mut values = Vec::new(alloc);
    let mut last = None;
    for piece in pieces {
        iter.append_bytes(piece)?;
        last = read_more(&mut iter, &mut values, n)?;
        if last.is_none() {
            return Ok(Pieces { values, last });
        }
    }
    Ok(Pieces { values, last })
}

/// Takes values from the iterator until `n` are there, or an error comes, and answers this error.
///
/// # Errors
/// [`DecodeError::Memory`], if there is no memory for a value.
fn read_more<D: Drop, R: FrontReader<D> + Drop>(
    iter: &mut Iter<'_, D, R>,
    values: &mut Vec<D>,
    n: usize,
) -> Result<Option<DecodeError>, DecodeError>
    requires { length values.old.items ≤ n }
    ensures same_reader { (state iter.new).reader ≡ (state iter.old).reader }
    ensures remains { IfOk result (λ _. KeepsRemaining R.fronts (state iter.old) (state iter.new)
        values.old.items values.new.items) }
    ensures only { IfOk result (λ _. AddsRead R.fronts (state iter.old) (state iter.new)
        values.old.items values.new.items) }
    ensures ended { IfOk result (λ last. MatchOption last (length values.new.items ≡ n)
        (λ e. (length values.new.items < n) ×
        IsNoFront R.fronts (state iter.new).reader (state iter.new).unread e)) }
    ensures memory { IfErr result (λ e. e ≡ Memory) }
{
    while values.len() < n {
        match iter.next() {
            Some(Ok(value)) => {
                match values.push(value) {
                    Ok(()) => {}
                    Err(_) => return Err(DecodeError::Memory),
                }
            }
            Some(Err(error)) => return Ok(Some(error)),
            None => unreachable!(),
        }
    }
    Ok(None)
}
