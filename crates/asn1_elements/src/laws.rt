//! A law of what no other contract names: which spellings of named bits are read.
ghost use Rattle.asn1_elements.specs.Decoder.{element_reader};
ghost use Rattle.asn1_laws.specs.ReadingTypes.{ReadsContent};
ghost use Rattle.asn1_model.specs.ConstraintSets.{constraint_set};
ghost use Rattle.asn1_model.specs.Records.{bits};
ghost use Rattle.asn1_values.specs.Bits.{without_trailing_zeros};
ghost use Rattle.std.specs.Prelude.{◌≡◌, ⊤};

use crate::decoder::ElementDecoder;
use crate::element_form::ElementForm;
use asn1_bounds::Constraints;
use asn1_dec::{DecodeError, Decoder};
use asn1_tags::Tag;
use asn1_values::NamedBitString;
use asn1_values::kind::NamedBits;

/// A law of named bits (X.680, 22.7; X.690, 8.6.2.4 and 11.2.2): they are read without the 0 bits at their end, however many of these
/// come. By this call a `NamedBitString` is read.
pub fn named_bits_are_read_without_zeros<F: ElementForm>(
    decoder: &mut ElementDecoder<'_, F>,
    tag: Tag,
    constraints: &Constraints<'_>,
) -> Result<NamedBitString, DecodeError>
    ensures { ReadsContent (element_reader F.form) tag (constraint_set constraints.now) bits
        (λ _. ⊤) (λ w list. w ≡ without_trailing_zeros list) decoder.old decoder.new result }
{
    decoder.decode_string::<bool, NamedBits>(tag, constraints)
}
