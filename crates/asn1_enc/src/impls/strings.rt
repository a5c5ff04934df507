//! Writing of strings of each kind, and of object identifiers (X.680, 22, 23, 32 and 41).
use crate::encode::Encode;
use crate::encoder::Encoder;
use asn1_bounds::Constraints;
use asn1_laws::EncodeError;
use asn1_tags::{Identifier, Tag};
use asn1_values::kind::{NamedBits, PackedBits};
use asn1_values::{
    BitString, BitVec, BmpString, GeneralString, GraphicString, Ia5String, NamedBitString,
    NumericString, ObjectIdentifier, OctetString, PrintableString, TeletexString, VisibleString,
};

impl Encode for ObjectIdentifier {
    #[inline(always)]
    fn encode_with_tag_and_constraints<E: Encoder>(
        &self,
        encoder: &mut E,
        tag: Tag,
        _constraints: &Constraints<'_>,
        name: Identifier,
    ) -> Result<(), EncodeError> {
        encoder.encode_object_identifier(
            tag,
            self.as_slice(),
            name.or(Identifier::OBJECT_IDENTIFIER),
        )
    }
}

impl Encode for BitString {
    #[inline(always)]
    fn encode_with_tag_and_constraints<E: Encoder>(
        &self,
        encoder: &mut E,
        tag: Tag,
        constraints: &Constraints<'_>,
        name: Identifier,
    ) -> Result<(), EncodeError> {
        encoder.encode_bit_string(
            tag,
            constraints,
            self.as_slice(),
            name.or(Identifier::BIT_STRING),
        )
    }
}

impl Encode for BitVec {
    #[inline(always)]
    fn encode_with_tag_and_constraints<E: Encoder>(
        &self,
        encoder: &mut E,
        tag: Tag,
        constraints: &Constraints<'_>,
        name: Identifier,
    ) -> Result<(), EncodeError> {
        encoder.encode_packed_bits::<PackedBits>(
            tag,
            constraints,
            self,
            name.or(Identifier::BIT_STRING),
        )
    }
}

impl Encode for NamedBitString {
    #[inline(always)]
    fn encode_with_tag_and_constraints<E: Encoder>(
        &self,
        encoder: &mut E,
        tag: Tag,
        constraints: &Constraints<'_>,
        name: Identifier,
    ) -> Result<(), EncodeError> {
        encoder.encode_packed_bits::<NamedBits>(
            tag,
            constraints,
            self.as_bits(),
            name.or(Identifier::BIT_STRING),
        )
    }
}

impl Encode for OctetString {
    #[inline(always)]
    fn encode_with_tag_and_constraints<E: Encoder>(
        &self,
        encoder: &mut E,
        tag: Tag,
        constraints: &Constraints<'_>,
        name: Identifier,
    ) -> Result<(), EncodeError> {
        encoder.encode_octet_string(
            tag,
            constraints,
            self.as_slice(),
            name.or(Identifier::OCTET_STRING),
        )
    }
}

impl Encode for GeneralString {
    #[inline(always)]
    fn encode_with_tag_and_constraints<E: Encoder>(
        &self,
        encoder: &mut E,
        tag: Tag,
        constraints: &Constraints<'_>,
        name: Identifier,
    ) -> Result<(), EncodeError> {
        encoder.encode_general_string(tag, constraints, self, name.or(Identifier::GENERAL_STRING))
    }
}

impl Encode for GraphicString {
    #[inline(always)]
    fn encode_with_tag_and_constraints<E: Encoder>(
        &self,
        encoder: &mut E,
        tag: Tag,
        constraints: &Constraints<'_>,
        name: Identifier,
    ) -> Result<(), EncodeError> {
        encoder.encode_graphic_string(tag, constraints, self, name.or(Identifier::GRAPHIC_STRING))
    }
}

impl Encode for TeletexString {
    #[inline(always)]
    fn encode_with_tag_and_constraints<E: Encoder>(
        &self,
        encoder: &mut E,
        tag: Tag,
        constraints: &Constraints<'_>,
        name: Identifier,
    ) -> Result<(), EncodeError> {
        encoder.encode_teletex_string(tag, constraints, self, name.or(Identifier::TELETEX_STRING))
    }
}

impl Encode for BmpString {
    #[inline(always)]
    fn encode_with_tag_and_constraints<E: Encoder>(
        &self,
        encoder: &mut E,
        tag: Tag,
        constraints: &Constraints<'_>,
        name: Identifier,
    ) -> Result<(), EncodeError> {
        encoder.encode_bmp_string(tag, constraints, self, name.or(Identifier::BMP_STRING))
    }
}

impl Encode for VisibleString {
    #[inline(always)]
    fn encode_with_tag_and_constraints<E: Encoder>(
        &self,
        encoder: &mut E,
        tag: Tag,
        constraints: &Constraints<'_>,
        name: Identifier,
    ) -> Result<(), EncodeError> {
        encoder.encode_visible_string(tag, constraints, self, name.or(Identifier::VISIBLE_STRING))
    }
}

impl Encode for Ia5String {
    #[inline(always)]
    fn encode_with_tag_and_constraints<E: Encoder>(
        &self,
        encoder: &mut E,
        tag: Tag,
        constraints: &Constraints<'_>,
        name: Identifier,
    ) -> Result<(), EncodeError> {
        encoder.encode_ia5_string(tag, constraints, self, name.or(Identifier::IA5_STRING))
    }
}

impl Encode for NumericString {
    #[inline(always)]
    fn encode_with_tag_and_constraints<E: Encoder>(
        &self,
        encoder: &mut E,
        tag: Tag,
        constraints: &Constraints<'_>,
        name: Identifier,
    ) -> Result<(), EncodeError> {
        encoder.encode_numeric_string(tag, constraints, self, name.or(Identifier::NUMERIC_STRING))
    }
}

impl Encode for PrintableString {
    #[inline(always)]
    fn encode_with_tag_and_constraints<E: Encoder>(
        &self,
        encoder: &mut E,
        tag: Tag,
        constraints: &Constraints<'_>,
        name: Identifier,
    ) -> Result<(), EncodeError> {
        encoder.encode_printable_string(
            tag,
            constraints,
            self,
            name.or(Identifier::PRINTABLE_STRING),
        )
    }
}

impl Encode for String {
    #[inline(always)]
    fn encode_with_tag_and_constraints<E: Encoder>(
        &self,
        encoder: &mut E,
        tag: Tag,
        constraints: &Constraints<'_>,
        name: Identifier,
    ) -> Result<(), EncodeError> {
        encoder.encode_utf8_string(
            tag,
            constraints,
            self.as_str(),
            name.or(Identifier::UTF8_STRING),
        )
    }
}

impl Encode for &str {
    #[inline(always)]
    fn encode_with_tag_and_constraints<E: Encoder>(
        &self,
        encoder: &mut E,
        tag: Tag,
        constraints: &Constraints<'_>,
        name: Identifier,
    ) -> Result<(), EncodeError> {
        encoder.encode_utf8_string(tag, constraints, *self, name.or(Identifier::UTF8_STRING))
    }
}
