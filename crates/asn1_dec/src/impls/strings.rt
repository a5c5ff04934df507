//! Reading of strings of each kind, and of object identifiers (X.680, 22, 23, 32 and 41).
use crate::decode::Decode;
use crate::decoder::Decoder;
use asn1_bounds::Constraints;
use asn1_laws::DecodeError;
use asn1_tags::Tag;
use asn1_values::kind::{NamedBits, PackedBits};
use asn1_values::{
    BitString, BitVec, BmpString, GeneralString, GraphicString, Ia5String, NamedBitString,
    NumericString, ObjectIdentifier, OctetString, PrintableString, TeletexString, VisibleString,
};

impl Decode for ObjectIdentifier {
    #[inline(always)]
    fn decode_with_tag_and_constraints<D: Decoder>(
        decoder: &mut D,
        tag: Tag,
        _constraints: &Constraints<'_>,
    ) -> Result<ObjectIdentifier, DecodeError> {
        decoder.decode_object_identifier(tag)
    }
}

impl Decode for OctetString {
    #[inline(always)]
    fn decode_with_tag_and_constraints<D: Decoder>(
        decoder: &mut D,
        tag: Tag,
        constraints: &Constraints<'_>,
    ) -> Result<OctetString, DecodeError> {
        let octets = decoder.decode_octet_string(tag, constraints)?;
        Ok(OctetString::new(octets))
    }
}

impl Decode for BitString {
    #[inline(always)]
    fn decode_with_tag_and_constraints<D: Decoder>(
        decoder: &mut D,
        tag: Tag,
        constraints: &Constraints<'_>,
    ) -> Result<BitString, DecodeError> {
        decoder.decode_bit_string(tag, constraints)
    }
}

impl Decode for BitVec {
    #[inline(always)]
    fn decode_with_tag_and_constraints<D: Decoder>(
        decoder: &mut D,
        tag: Tag,
        constraints: &Constraints<'_>,
    ) -> Result<BitVec, DecodeError> {
        decoder.decode_string::<bool, PackedBits>(tag, constraints)
    }
}

impl Decode for NamedBitString {
    #[inline(always)]
    fn decode_with_tag_and_constraints<D: Decoder>(
        decoder: &mut D,
        tag: Tag,
        constraints: &Constraints<'_>,
    ) -> Result<NamedBitString, DecodeError> {
        decoder.decode_string::<bool, NamedBits>(tag, constraints)
    }
}

impl Decode for GeneralString {
    #[inline(always)]
    fn decode_with_tag_and_constraints<D: Decoder>(
        decoder: &mut D,
        tag: Tag,
        constraints: &Constraints<'_>,
    ) -> Result<GeneralString, DecodeError> {
        decoder.decode_general_string(tag, constraints)
    }
}

impl Decode for GraphicString {
    #[inline(always)]
    fn decode_with_tag_and_constraints<D: Decoder>(
        decoder: &mut D,
        tag: Tag,
        constraints: &Constraints<'_>,
    ) -> Result<GraphicString, DecodeError> {
        decoder.decode_graphic_string(tag, constraints)
    }
}

impl Decode for TeletexString {
    #[inline(always)]
    fn decode_with_tag_and_constraints<D: Decoder>(
        decoder: &mut D,
        tag: Tag,
        constraints: &Constraints<'_>,
    ) -> Result<TeletexString, DecodeError> {
        decoder.decode_teletex_string(tag, constraints)
    }
}

impl Decode for BmpString {
    #[inline(always)]
    fn decode_with_tag_and_constraints<D: Decoder>(
        decoder: &mut D,
        tag: Tag,
        constraints: &Constraints<'_>,
    ) -> Result<BmpString, DecodeError> {
        decoder.decode_bmp_string(tag, constraints)
    }
}

impl Decode for VisibleString {
    #[inline(always)]
    fn decode_with_tag_and_constraints<D: Decoder>(
        decoder: &mut D,
        tag: Tag,
        constraints: &Constraints<'_>,
    ) -> Result<VisibleString, DecodeError> {
        decoder.decode_visible_string(tag, constraints)
    }
}

impl Decode for Ia5String {
    #[inline(always)]
    fn decode_with_tag_and_constraints<D: Decoder>(
        decoder: &mut D,
        tag: Tag,
        constraints: &Constraints<'_>,
    ) -> Result<Ia5String, DecodeError> {
        decoder.decode_ia5_string(tag, constraints)
    }
}

impl Decode for NumericString {
    #[inline(always)]
    fn decode_with_tag_and_constraints<D: Decoder>(
        decoder: &mut D,
        tag: Tag,
        constraints: &Constraints<'_>,
    ) -> Result<NumericString, DecodeError> {
        decoder.decode_numeric_string(tag, constraints)
    }
}

impl Decode for PrintableString {
    #[inline(always)]
    fn decode_with_tag_and_constraints<D: Decoder>(
        decoder: &mut D,
        tag: Tag,
        constraints: &Constraints<'_>,
    ) -> Result<PrintableString, DecodeError> {
        decoder.decode_printable_string(tag, constraints)
    }
}

impl Decode for String {
    #[inline(always)]
    fn decode_with_tag_and_constraints<D: Decoder>(
        decoder: &mut D,
        tag: Tag,
        constraints: &Constraints<'_>,
    ) -> Result<String, DecodeError> {
        decoder.decode_utf8_string(tag, constraints)
    }
}
