//! `Date ::= [APPLICATION 3] IMPLICIT VisibleString -- YYYYMMDD`
ghost use Rattle.std.specs.Prelude.{◌≡◌, All, IsTrue, Some, codes, List, Bool, ℕ};
ghost use Rattle.asn1_types.specs.Words.{IsWellTagged, application, unconstrained, units, visible};
ghost use Rattle.asn1_model.specs.Kinds.{scalar_type, under_own_name};
ghost use Rattle.asn1_values.specs.Alphabets.{is_visible};

use asn1_dec::{Decode, DecodeError, Decoder};
use asn1_enc::{Encode, EncodeError, Encoder};
use asn1_types::{AsnType, Class, Constraints, Identifier, Tag, TypeTable};
use asn1_values::VisibleString;

/// A day. The caller ensures that its text is one.
#[derive(PartialEq, Eq, Debug, Drop)]
pub struct Date(pub VisibleString);

const DATE: Tag = Tag {
    class: Class::Application,
    value: 3,
};

impl AsnType for Date {
    ghost meaning = { under_own_name (record (scalar_type (application 3) unconstrained (Some (codes "Date")) (λ date. units visible date.0)) {
      IsOfType = λ date. All (λ unit. IsTrue (is_visible unit)) date.0;
    }) };

    fn table() -> TypeTable {
        TypeTable::new(DATE, Identifier(Some("Date")))
    }

    fn is_present(&self) -> bool {
        true
    }
}

/// A `Date` is well tagged.
pub fn date_is_well_tagged()
    ensures { IsWellTagged ⟦<Date as AsnType>⟧.meaning }
{}

/// Each `Date` is valid.
pub fn date_is_valid(date: &Date)
    ensures { (accepts : List ℕ → Bool) →
        ⟦<Date as AsnType>⟧.meaning.IsValid accepts date.now }
{}

impl Encode for Date {
    fn encode_with_tag_and_constraints<E: Encoder>(
        &self,
        encoder: &mut E,
        tag: Tag,
        constraints: &Constraints<'_>,
        name: Identifier,
    ) -> Result<(), EncodeError> {
        encoder.encode_visible_string(tag, constraints, &self.0, name.or(Self::identifier()))
    }
}

impl Decode for Date {
    fn decode_with_tag_and_constraints<D: Decoder>(
        decoder: &mut D,
        tag: Tag,
        constraints: &Constraints<'_>,
    ) -> Result<Date, DecodeError> {
        let text = decoder.decode_visible_string(tag, constraints)?;
        Ok(Date(text))
    }
}
