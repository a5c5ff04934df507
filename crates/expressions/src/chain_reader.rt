//! The reader of `Chain`.
ghost use Rattle.std.specs.Prelude.{◌<◌, IfOk};
ghost use Rattle.asn1_circles.specs.Words.{AfterReading, HasReadValue, ReadsValue, constraint_set, said};
ghost use Rattle.expressions.specs.ChainMeaning.{meaning};
ghost use Rattle.expressions.specs.ChainReading.{ReadsKnot};

use crate::chain::Chain;
use crate::chain_of::ChainOf;
use asn1_circles::{ReadError, close_knot, decode_choice_with};
use asn1_schema::{Constraints, DecodeError, Decoder, Tag};

/// Reads a value under a tag and constraints.
#[cycle(chain_reader)]
pub(crate) fn read_chain<E: ReadError, D: Decoder>(
    decoder: &mut D,
    tag: Tag,
    constraints: &Constraints<'_>,
) -> Result<Chain, DecodeError>
    ensures read { ReadsValue D.reader meaning ⟦<Chain as PartialEq>⟧.eq tag
        (constraint_set constraints.now) decoder.old decoder.new result }
    ensures only { IfOk result (HasReadValue D.reader decoder.old decoder.new meaning tag
        (constraint_set constraints.now)) }
    ensures after_reading { AfterReading D.reader meaning tag (constraint_set constraints.now)
        decoder.old decoder.new result }
{
    let depth = decoder.depth();
    let read = move |inside: &mut D, at: Tag| -> Result<Chain, E>
        requires { D.reader.depth_left inside.old < depth }
        ensures { ReadsKnot D.reader at inside.old inside.new (said E.says result) }
    {
        let _ = &depth;
        match read_chain::<E, D>(inside, at, &Constraints::NONE) {
            Ok(value) => Ok(value),
            Err(error) => Err(E::from_error(error)),
        }
    };
    let of: Result<ChainOf<Chain>, DecodeError> = decode_choice_with(
        decoder,
        tag,
        constraints,
        &read,
    );
    close_knot(decoder, of)
}
