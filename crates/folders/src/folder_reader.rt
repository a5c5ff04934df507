//! The reader of `Folder`.
ghost use Rattle.std.specs.Prelude.{◌<◌, IfOk};
ghost use Rattle.asn1_circles.specs.Words.{AfterReading, HasReadValue, ReadsValue, constraint_set, said};
ghost use Rattle.folders.specs.FolderMeaning.{meaning};
ghost use Rattle.folders.specs.FolderReading.{ReadsKnot};

use crate::folder::Folder;
use crate::folder_of::FolderOf;
use asn1_circles::{ReadError, close_knot, decode_sequence_with};
use asn1_schema::{Constraints, DecodeError, Decoder, Tag};

/// Reads a value under a tag and constraints.
#[cycle(folder_reader)]
pub(crate) fn read_folder<E: ReadError, D: Decoder>(
    decoder: &mut D,
    tag: Tag,
    constraints: &Constraints<'_>,
) -> Result<Folder, DecodeError>
    ensures read { ReadsValue D.reader meaning ⟦<Folder as PartialEq>⟧.eq tag
        (constraint_set constraints.now) decoder.old decoder.new result }
    ensures only { IfOk result (HasReadValue D.reader decoder.old decoder.new meaning tag
        (constraint_set constraints.now)) }
    ensures after_reading { AfterReading D.reader meaning tag (constraint_set constraints.now)
        decoder.old decoder.new result }
{
    let depth = decoder.depth();
    let read = move |inside: &mut D, at: Tag| -> Result<Folder, E>
        requires { D.reader.depth_left inside.old < depth }
        ensures { ReadsKnot D.reader at inside.old inside.new (said E.says result) }
    {
        let _ = &depth;
        match read_folder::<E, D>(inside, at, &Constraints::NONE) {
            Ok(value) => Ok(value),
            Err(error) => Err(E::from_error(error)),
        }
    };
    let of: Result<FolderOf<Folder>, DecodeError> = decode_sequence_with(
        decoder,
        tag,
        constraints,
        &read,
    );
    close_knot(decoder, of)
}
