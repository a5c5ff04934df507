//! `Plate ::= VisibleString (FROM ("A" | "B" | "C"))`
ghost use Rattle.std.specs.Prelude.{Some, IsTrue, All, codes};
ghost use Rattle.asn1_model.specs.Kinds.{scalar_type, under_own_name};
ghost use Rattle.asn1_types.specs.Words.{universal, characters_of, IsWellTagged, units, visible};
ghost use Rattle.asn1_values.specs.Alphabets.{is_visible};

use asn1_dec::{Decode, DecodeError, Decoder};
use asn1_enc::{Encode, EncodeError, Encoder};
use asn1_types::{AsnType, ConstraintTable, Constraints, Identifier, Tag, TypeTable};
use asn1_values::VisibleString;

/// The text of a plate: the letters A, B and C. The caller ensures that a value has no others.
#[derive(PartialEq, Eq, Debug, Drop)]
pub struct Plate(pub VisibleString);

impl AsnType for Plate {
    ghost meaning = { under_own_name (record (scalar_type (universal 26) (characters_of (codes "ABC")) (Some (codes "Plate")) (λ plate. units visible plate.0)) {
      IsOfType = λ plate. All (λ unit. IsTrue (is_visible unit)) plate.0;
    }) };

    fn table() -> TypeTable {
        let letters = ConstraintTable::NONE.with_permitted_alphabet(&[65, 66, 67]);
        TypeTable::new(Tag::VISIBLE_STRING, Identifier(Some("Plate"))).with_constraints(letters)
    }

    fn is_present(&self) -> bool {
        true
    }
}

/// A `Plate` is well tagged.
pub fn plate_is_well_tagged()
    ensures { IsWellTagged ⟦<Plate as AsnType>⟧.meaning }
{}

impl Encode for Plate {
    fn encode_with_tag_and_constraints<E: Encoder>(
        &self,
        encoder: &mut E,
        tag: Tag,
        constraints: &Constraints<'_>,
        name: Identifier,
    ) -> Result<(), EncodeError> {
        encoder.encode_visible_string(tag, constraints, &self.0, name.or(Self::identifier()))
    }
}

impl Decode for Plate {
    fn decode_with_tag_and_constraints<D: Decoder>(
        decoder: &mut D,
        tag: Tag,
        constraints: &Constraints<'_>,
    ) -> Result<Plate, DecodeError> {
        let letters = decoder.decode_visible_string(tag, constraints)?;
        Ok(Plate(letters))
    }
}
