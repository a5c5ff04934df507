//! The octets of the first value of an input.
ghost use Rattle.asn1_convert.specs.Forms.{IsFront};
ghost use Rattle.asn1_items.specs.declared.error.ItemError.TheVariants.{Memory};
ghost use Rattle.std.specs.Prelude.{◌≡◌, MatchResult, ℕ};

use crate::form::CodecForm;
use asn1_bench::BenchReader;
use asn1_ber::BerReader;
use asn1_der::DerReader;
use asn1_items::ItemError;
use std::alloc::Global;

/// How many octets the first value of an input has: those of its first element, in the packed form those of its first item.
pub fn front_length(alloc: Global, form: CodecForm, input: &[u8]) -> Result<usize, ItemError>
    ensures { MatchResult result (IsFront form input.now)
        (λ e. (n : ℕ) → IsFront form input.now n → e ≡ Memory) }
{
    match form {
        CodecForm::Der => DerReader::new(alloc, 0).front_length(input),
        CodecForm::Ber => BerReader::new(alloc, 0).front_length(input),
        CodecForm::Packed => BenchReader::new(alloc, 0).front_length(input),
    }
}
