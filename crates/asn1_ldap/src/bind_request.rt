//! `BindRequest` of the module `Lightweight-Directory-Access-Protocol-V3`.
//!
//! ```text
//! BindRequest ::= [APPLICATION 0] SEQUENCE {
//!     version INTEGER (1..127),
//!     name LDAPDN,
//!     authentication AuthenticationChoice
//! }
//! ```
ghost use Rattle.std.specs.Prelude.{[], codes, ◌∷◌};
ghost use Rattle.asn1_schema.specs.Words.{IsWellTagged, application, constructed_agrees, constructed_type_under, extensible_sequence_after, required_slot, untagged};
ghost use Rattle.asn1_model.specs.DistinctSets.{SetsAreDistinct};
ghost use Rattle.asn1_model.specs.WrittenAlike.{AreWrittenAlike};

use crate::aliases::Ldapdn;
use crate::authentication_choice::{AuthenticationChoice, authentication_choice_has_one_spelling};
use asn1_schema::{
    AsnType, ConstrainedInteger, Constraints, ConstructedType, Decode, DecodeByIndex, DecodeError,
    Decoded, Decoder, Encode, EncodeError, EncodeFields, Encoder, Field, FieldTable, Identifier,
    Tag, Tagging, TypeTable, decode_sequence_naming_errors, required,
};
use asn1_tags::tag;
use std::alloc::{AllocError, Global};

/// `BindRequest` of the module `Lightweight-Directory-Access-Protocol-V3`.
#[derive(PartialEq, Eq, Debug, Drop)]
pub struct BindRequest {
    /// `version INTEGER (1..127)`
    pub version: ConstrainedInteger<1, 127>,
    /// `name LDAPDN`
    pub name: Ldapdn,
    /// `authentication AuthenticationChoice`
    pub authentication: AuthenticationChoice,
}

impl DecodeByIndex for BindRequest {
    type Slots = (
        Option<ConstrainedInteger<1, 127>>,
        Option<Ldapdn>,
        Option<AuthenticationChoice>,
    );

    ghost layout = { required_slot (codes "version") (λ v. v.version) (λ s. s.0) (untagged ⟦<ConstrainedInteger<1, 127> as AsnType>⟧.meaning) ⟦<ConstrainedInteger<1, 127> as PartialEq>⟧.eq ∷
        required_slot (codes "name") (λ v. v.name) (λ s. s.1) (untagged ⟦<Ldapdn as AsnType>⟧.meaning) ⟦<Ldapdn as PartialEq>⟧.eq ∷
        required_slot (codes "authentication") (λ v. v.authentication) (λ s. s.2) (untagged ⟦<AuthenticationChoice as AsnType>⟧.meaning) ⟦<AuthenticationChoice as PartialEq>⟧.eq ∷ [] };

    fn full(_alloc: Global, slots: Self::Slots) -> Result<Self, AllocError> {
        Ok(Self {
            version: slots.0.unwrap(),
            name: slots.1.unwrap(),
            authentication: slots.2.unwrap(),
        })
    }

    fn decode_field<D: Decoder>(index: usize, slots: &mut Self::Slots, decoder: &mut D) -> Decoded {
        match index {
            0 => required(&mut slots.0, decoder, Tagging::Untagged),
            1 => required(&mut slots.1, decoder, Tagging::Untagged),
            2 => required(&mut slots.2, decoder, Tagging::Untagged),
            _ => Ok(()),
        }
    }
}

impl FieldTable for BindRequest {
    ghost components = { extensible_sequence_after 3 ⟦<BindRequest as DecodeByIndex>⟧.layout };

    fn field_count() -> usize {
        3
    }

    fn field_at(index: usize) -> Option<Field<'static>> {
        match index {
            0 => Some(Field::new_required_type::<ConstrainedInteger<1, 127>>(0, "version")),
            1 => Some(Field::new_required_type::<Ldapdn>(1, "name")),
            2 => Some(Field::new_required_type::<AuthenticationChoice>(2, "authentication")),
            _ => None,
        }
    }

    fn extension_index() -> Option<usize> {
        Some(3)
    }
}

impl AsnType for BindRequest {
    ghost meaning = { constructed_type_under ⟦<BindRequest as FieldTable>⟧.components (application 0) (codes "BindRequest") };

    fn table() -> TypeTable {
        TypeTable::new(tag!(application 0), Identifier(Some("BindRequest")))
    }

    fn is_present(&self) -> bool {
        true
    }
}

impl ConstructedType for BindRequest {
    ghost agrees = { constructed_agrees };
}

/// A `BindRequest` can be inside other types.
pub fn bind_request_is_well_tagged()
    ensures { IsWellTagged ⟦<BindRequest as AsnType>⟧.meaning }
{}

/// Equal values are written alike, and in each value the components of a SET have distinct tags. With `bind_request_is_well_tagged`
/// it follows that the DER of a value is its only spelling (`well_tagged_types_have_one_spelling` of `asn1_der`).
pub fn bind_request_has_one_spelling()
    ensures alike { AreWrittenAlike ⟦<BindRequest as AsnType>⟧.meaning
        ⟦<BindRequest as PartialEq>⟧.eq }
    ensures distinct { SetsAreDistinct ⟦<BindRequest as AsnType>⟧.meaning }
{
    authentication_choice_has_one_spelling();
}

impl Encode for BindRequest {
    fn encode_with_tag_and_constraints<E: Encoder>(
        &self,
        encoder: &mut E,
        tag: Tag,
        _constraints: &Constraints<'_>,
        name: Identifier,
    ) -> Result<(), EncodeError> {
        encoder.encode_sequence(tag, self, name)
    }
}

impl EncodeFields for BindRequest {
    fn encode_field<E: Encoder>(&self, index: usize, encoder: &mut E) -> Result<(), EncodeError> {
        match index {
            0 => self.version.encode(encoder),
            1 => self.name.encode(encoder),
            2 => self.authentication.encode(encoder),
            _ => Ok(()),
        }
    }
}

impl Decode for BindRequest {
    fn decode_with_tag_and_constraints<D: Decoder>(
        decoder: &mut D,
        tag: Tag,
        constraints: &Constraints<'_>,
    ) -> Result<Self, DecodeError> {
        decode_sequence_naming_errors(decoder, tag, constraints)
    }
}
