//! The reader of `Category`.
ghost use Rattle.std.specs.Prelude.{◌<◌, IfOk};
ghost use Rattle.asn1_circles.specs.Words.{AfterReading, HasReadValue, ReadsValue, constraint_set, said};
ghost use Rattle.expressions.specs.CategoryMeaning.{meaning};
ghost use Rattle.expressions.specs.CategoryReading.{ReadsKnot};

use crate::category::Category;
use crate::category_of::CategoryOf;
use asn1_circles::{ReadError, close_knot, decode_sequence_with};
use asn1_schema::{Constraints, DecodeError, Decoder, Tag};

/// Reads a value under a tag and constraints.
#[cycle(category_reader)]
pub(crate) fn read_category<E: ReadError, D: Decoder>(
    decoder: &mut D,
    tag: Tag,
    constraints: &Constraints<'_>,
) -> Result<Category, DecodeError>
    ensures read { ReadsValue D.reader meaning ⟦<Category as PartialEq>⟧.eq tag
        (constraint_set constraints.now) decoder.old decoder.new result }
    ensures only { IfOk result (HasReadValue D.reader decoder.old decoder.new meaning tag
        (constraint_set constraints.now)) }
    ensures after_reading { AfterReading D.reader meaning tag (constraint_set constraints.now)
        decoder.old decoder.new result }
{
    let depth = decoder.depth();
    let read = move |inside: &mut D, at: Tag| -> Result<Category, E>
        requires { D.reader.depth_left inside.old < depth }
        ensures { ReadsKnot D.reader at inside.old inside.new (said E.says result) }
    {
        let _ = &depth;
        match read_category::<E, D>(inside, at, &Constraints::NONE) {
            Ok(value) => Ok(value),
            Err(error) => Err(E::from_error(error)),
        }
    };
    let of: Result<CategoryOf<Category>, DecodeError> = decode_sequence_with(
        decoder,
        tag,
        constraints,
        &read,
    );
    close_knot(decoder, of)
}
