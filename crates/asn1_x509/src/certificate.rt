//! `Certificate` of the module `PKIX1Explicit88`.
//!
//! ```text
//! Certificate ::= SEQUENCE {
//!     tbsCertificate TBSCertificate,
//!     signatureAlgorithm AlgorithmIdentifier,
//!     signatureValue BIT STRING
//! }
//! ```
ghost use Rattle.std.specs.Prelude.{[], codes, ◌∷◌};
ghost use Rattle.asn1_schema.specs.Words.{IsWellTagged, constructed_agrees, constructed_type, required_slot, sequence_of_slots, untagged};
ghost use Rattle.asn1_model.specs.DistinctSets.{SetsAreDistinct};
ghost use Rattle.asn1_model.specs.WrittenAlike.{AreWrittenAlike};

use crate::algorithm_identifier::{AlgorithmIdentifier, algorithm_identifier_has_one_spelling};
use crate::tbs_certificate::{TbsCertificate, tbs_certificate_has_one_spelling};
use asn1_schema::{
    AsnType, BitVec, Constraints, ConstructedType, Decode, DecodeByIndex, DecodeError, Decoded,
    Decoder, Encode, EncodeError, EncodeFields, Encoder, Field, FieldTable, Identifier, Tag,
    Tagging, TypeTable, decode_sequence_naming_errors, required,
};
use std::alloc::{AllocError, Global};

/// `Certificate` of the module `PKIX1Explicit88`.
#[derive(PartialEq, Eq, Debug, Drop)]
pub struct Certificate {
    /// `tbsCertificate TBSCertificate`
    pub tbs_certificate: TbsCertificate,
    /// `signatureAlgorithm AlgorithmIdentifier`
    pub signature_algorithm: AlgorithmIdentifier,
    /// `signatureValue BIT STRING`
    pub signature_value: BitVec,
}

impl DecodeByIndex for Certificate {
    type Slots = (
        Option<TbsCertificate>,
        Option<AlgorithmIdentifier>,
        Option<BitVec>,
    );

    ghost layout = { required_slot (codes "tbsCertificate") (λ v. v.tbs_certificate) (λ s. s.0) (untagged ⟦<TbsCertificate as AsnType>⟧.meaning) ⟦<TbsCertificate as PartialEq>⟧.eq ∷
        required_slot (codes "signatureAlgorithm") (λ v. v.signature_algorithm) (λ s. s.1) (untagged ⟦<AlgorithmIdentifier as AsnType>⟧.meaning) ⟦<AlgorithmIdentifier as PartialEq>⟧.eq ∷
        required_slot (codes "signatureValue") (λ v. v.signature_value) (λ s. s.2) (untagged ⟦<BitVec as AsnType>⟧.meaning) ⟦<BitVec as PartialEq>⟧.eq ∷ [] };

    fn full(_alloc: Global, slots: Self::Slots) -> Result<Self, AllocError> {
        Ok(Self {
            tbs_certificate: slots.0.unwrap(),
            signature_algorithm: slots.1.unwrap(),
            signature_value: slots.2.unwrap(),
        })
    }

    fn decode_field<D: Decoder>(index: usize, slots: &mut Self::Slots, decoder: &mut D) -> Decoded {
        match index {
            0 => required(&mut slots.0, decoder, Tagging::Untagged),
            1 => required(&mut slots.1, decoder, Tagging::Untagged),
            2 => required(&mut slots.2, decoder, Tagging::Untagged),
            _ => Ok(()),
        }
    }
}

impl FieldTable for Certificate {
    ghost components = { sequence_of_slots ⟦<Certificate as DecodeByIndex>⟧.layout };

    fn field_count() -> usize {
        3
    }

    fn field_at(index: usize) -> Option<Field<'static>> {
        match index {
            0 => Some(Field::new_required_type::<TbsCertificate>(0, "tbsCertificate")),
            1 => Some(Field::new_required_type::<AlgorithmIdentifier>(1, "signatureAlgorithm")),
            2 => Some(Field::new_required_type::<BitVec>(2, "signatureValue")),
            _ => None,
        }
    }

    fn extension_index() -> Option<usize> {
        None
    }
}

impl AsnType for Certificate {
    ghost meaning = { constructed_type (codes "Certificate") ⟦<Certificate as FieldTable>⟧.components };

    fn table() -> TypeTable {
        TypeTable::new(Tag::SEQUENCE, Identifier(Some("Certificate")))
    }

    fn is_present(&self) -> bool {
        true
    }
}

impl ConstructedType for Certificate {
    ghost agrees = { constructed_agrees };
}

/// A `Certificate` can be inside other types.
pub fn certificate_is_well_tagged()
    ensures { IsWellTagged ⟦<Certificate as AsnType>⟧.meaning }
{}

/// Equal values are written alike, and in each value the components of a SET have distinct tags. With `certificate_is_well_tagged`
/// it follows that the DER of a value is its only spelling (`well_tagged_types_have_one_spelling` of `asn1_der`).
pub fn certificate_has_one_spelling()
    ensures alike { AreWrittenAlike ⟦<Certificate as AsnType>⟧.meaning
        ⟦<Certificate as PartialEq>⟧.eq }
    ensures distinct { SetsAreDistinct ⟦<Certificate as AsnType>⟧.meaning }
{
    tbs_certificate_has_one_spelling();
    algorithm_identifier_has_one_spelling();
}

impl Encode for Certificate {
    fn encode_with_tag_and_constraints<E: Encoder>(
        &self,
        encoder: &mut E,
        tag: Tag,
        _constraints: &Constraints<'_>,
        name: Identifier,
    ) -> Result<(), EncodeError> {
        encoder.encode_sequence(tag, self, name)
    }
}

impl EncodeFields for Certificate {
    fn encode_field<E: Encoder>(&self, index: usize, encoder: &mut E) -> Result<(), EncodeError> {
        match index {
            0 => self.tbs_certificate.encode(encoder),
            1 => self.signature_algorithm.encode(encoder),
            2 => self.signature_value.encode(encoder),
            _ => Ok(()),
        }
    }
}

impl Decode for Certificate {
    fn decode_with_tag_and_constraints<D: Decoder>(
        decoder: &mut D,
        tag: Tag,
        constraints: &Constraints<'_>,
    ) -> Result<Self, DecodeError> {
        decode_sequence_naming_errors(decoder, tag, constraints)
    }
}
