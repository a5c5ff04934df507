//! A value of an ENUMERATED type.
ghost use Rattle.asn1_components.specs.Enumerations.{number_of};
ghost use Rattle.asn1_components.specs.Labels.{labels_of};
ghost use Rattle.asn1_laws.specs.Reading.{OpensNothing};
ghost use Rattle.asn1_laws.specs.ReadingExactly.{HasReadContent};
ghost use Rattle.asn1_laws.specs.ReadingTypes.{ReadsContent};
ghost use Rattle.asn1_model.specs.ConstraintSets.{unconstrained};
ghost use Rattle.asn1_model.specs.Records.{discriminant};
ghost use Rattle.std.specs.Prelude.{◌≡◌, ⊤, IfOk};

use crate::decoder::Decoder;
use asn1_components::Enumerated;
use asn1_laws::DecodeError;
use asn1_tags::Tag;

/// The value with the number that is read.
#[inline(always)]
pub(crate) fn read_enumerated<E: Enumerated, D: Decoder>(
    decoder: &mut D,
    tag: Tag,
) -> Result<E, DecodeError>
    ensures read { ReadsContent D.reader tag unconstrained
        (λ v. discriminant (labels_of E.enumeration) (number_of E.eq E.enumeration v)) (λ _. ⊤)
        (λ w v. w ≡ v) decoder.old decoder.new result }
    ensures only { IfOk result (λ w. HasReadContent D.reader decoder.old decoder.new tag
        unconstrained (discriminant (labels_of E.enumeration) (number_of E.eq E.enumeration w))) }
    ensures opens_nothing { OpensNothing D.reader decoder.old decoder.new result }
{
    let number = decoder.decode_enumerated_number::<E>(tag)?;
    match E::from_discriminant(number) {
        Some(value) => Ok(value),
        None => Err(decoder.refuse(DecodeError::Custom("no item has this number"))),
    }
}
