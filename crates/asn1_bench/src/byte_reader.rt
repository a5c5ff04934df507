//! A reader of single bytes, for runs of streams without a codec.
ghost use Rattle.asn1_bench.specs.Bytes.{byte_fronts, byte_front_is_cut};
ghost use Rattle.std.proofs.Common.{rules};

use asn1_dec::{DecodeError, Needed};
use asn1_rules::FrontReader;

/// Reads one byte as a value: the first byte of the input, with length 1.
///
/// The error is [`DecodeError::Incomplete`] if the input is empty: one byte is missing.
#[derive(Clone, Copy, Debug, Drop)]
pub struct ByteReader;

impl FrontReader<u8> for ByteReader {
    ghost use Rattle.asn1_laws.specs.declared.decode_error.DecodeError.TheVariants.{Incomplete};
    ghost use Rattle.asn1_laws.specs.declared.needed.Needed.TheVariants.{Size};
    ghost use Rattle.asn1_rules.specs.Fronts.{ReadsFront};
    ghost use Rattle.std.specs.Prelude.{◌≡◌, ◌∷◌, ⊤, [], Err, List, Ok, ℕ};

    ghost fronts = { byte_fronts };

    type Progress = ();

    ghost came = { λ reader progress bytes. ⊤ };

    fn read_front(&self, input: &[u8]) -> Result<(u8, usize), DecodeError>
        ensures read { ReadsFront byte_fronts self.now input.now result }
        ensures first { (b : ℕ) (rest : List ℕ) → input.now ≡ b ∷ rest → result ≡ Ok (b, 1) }
        ensures missing { input.now ≡ [] → result ≡ Err (Incomplete (Size 1)) }
    {
        match input {
            [] => Err(DecodeError::Incomplete(Needed::Size(1))),
            [first, ..] => Ok((*first, 1)),
        }
    }

    fn start(&self) {}

    ghost lawful = { record {
      is_cut = λ reader bytes v n front. byte_front_is_cut bytes v n front;
      within = λ reader bytes n cut. Prim.search rules;
    } };

    ghost goes_on = { λ reader progress bytes behind came. tt };
}
