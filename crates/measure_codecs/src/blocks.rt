//! Blocks of 1000 bytes.
ghost use Rattle.measure_codecs.specs.Blocks.{block_fronts, block_fronts_are_lawful};

use asn1_dec::{DecodeError, Needed};
use asn1_rules::FrontReader;

/// Reads a block of 1000 bytes, whatever they are.
#[derive(Clone, Copy, Drop)]
pub(crate) struct BlockReader;

impl FrontReader<()> for BlockReader {
    ghost use Rattle.std.specs.Prelude.{⊤};

    ghost fronts = { block_fronts };

    type Progress = ();

    ghost came = { λ reader progress bytes. ⊤ };

    fn read_front(&self, input: &[u8]) -> Result<((), usize), DecodeError> {
        if input.len() < 1000 {
            Err(DecodeError::Incomplete(Needed::Unknown))
        } else {
            Ok(((), 1000))
        }
    }

    fn start(&self) {}

    ghost lawful = { block_fronts_are_lawful };

    ghost goes_on = { λ reader progress bytes behind came. tt };
}
