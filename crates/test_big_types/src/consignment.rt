//! A SEQUENCE of fifteen components, with large types among them.
//!
//! ```text
//! Consignment ::= SEQUENCE {
//!     number INTEGER,
//!     version [0] INTEGER (0..255) DEFAULT 1,
//!     sender [1] Address,
//!     receiver [2] Address,
//!     payer [3] EXPLICIT Address OPTIONAL,
//!     weight [4] INTEGER (0..4294967295),
//!     insured [5] BOOLEAN DEFAULT FALSE,
//!     goods [6] SEQUENCE OF UTF8String,
//!     origin [7] OBJECT IDENTIFIER OPTIONAL,
//!     seal [8] OCTET STRING OPTIONAL,
//!     marks [9] BIT STRING,
//!     notes [10] SEQUENCE OF UTF8String DEFAULT {},
//!     remark [11] UTF8String OPTIONAL,
//!     value [12] INTEGER OPTIONAL,
//!     price [13] EXPLICIT INTEGER (0..18446744073709551615)
//! }
//! ```
ghost use Rattle.std.specs.Prelude.{[], codes, false, ◌∷◌};
ghost use Rattle.asn1_schema.specs.Words.{IsWellTagged, constructed_agrees, constructed_type, context, default_slot, empty_list_slot, explicitly_tagged, optional_slot, required_slot, sequence_of_slots, tagged, untagged};

use crate::address::Address;
use asn1_schema::{
    AsnType, BitString, Constraints, ConstructedType, Decode, DecodeByIndex, DecodeError, Decoded,
    Decoder, Encode, EncodeError, EncodeFields, Encoder, Field, FieldTable, Identifier, Integer,
    ObjectIdentifier, OctetString, Tag, Tagging, TypeTable, Utf8String,
    decode_sequence_naming_errors, encode_explicit_optional, optional, or_default, or_empty,
    required,
};
use asn1_tags::tag;
use std::alloc::{AllocError, Global};

/// `SEQUENCE OF UTF8String`
pub type Strings = Vec<Utf8String>;

/// Goods on their way.
#[derive(PartialEq, Eq, Debug, Drop)]
pub struct Consignment {
    /// `number INTEGER`
    pub number: Integer,
    /// `version [0] INTEGER (0..255) DEFAULT 1`
    pub version: u8,
    /// `sender [1] Address`
    pub sender: Address,
    /// `receiver [2] Address`
    pub receiver: Address,
    /// `payer [3] EXPLICIT Address OPTIONAL`
    pub payer: Option<Address>,
    /// `weight [4] INTEGER (0..4294967295)`
    pub weight: u32,
    /// `insured [5] BOOLEAN DEFAULT FALSE`
    pub insured: bool,
    /// `goods [6] SEQUENCE OF UTF8String`
    pub goods: Strings,
    /// `origin [7] OBJECT IDENTIFIER OPTIONAL`
    pub origin: Option<ObjectIdentifier>,
    /// `seal [8] OCTET STRING OPTIONAL`
    pub seal: Option<OctetString>,
    /// `marks [9] BIT STRING`
    pub marks: BitString,
    /// `notes [10] SEQUENCE OF UTF8String DEFAULT {}`
    pub notes: Strings,
    /// `remark [11] UTF8String OPTIONAL`
    pub remark: Option<Utf8String>,
    /// `value [12] INTEGER OPTIONAL`
    pub value: Option<Integer>,
    /// `price [13] EXPLICIT INTEGER (0..18446744073709551615)`
    pub price: u64,
}

impl DecodeByIndex for Consignment {
    type Slots = (
        (
            Option<Integer>,
            Option<u8>,
            Option<Address>,
            Option<Address>,
            Option<Address>,
            Option<u32>,
            Option<bool>,
            Option<Strings>,
            Option<ObjectIdentifier>,
            Option<OctetString>,
            Option<BitString>,
            Option<Strings>,
        ),
        (Option<Utf8String>, Option<Integer>, Option<u64>),
    );

    ghost layout = { required_slot (codes "number") (λ v. v.number) (λ s. s.0.0) (untagged ⟦<Integer as AsnType>⟧.meaning) ⟦<Integer as PartialEq>⟧.eq ∷
        default_slot (codes "version") (λ v. v.version) 1 (λ s. s.0.1) (tagged (context 0) ⟦<u8 as AsnType>⟧.meaning) ⟦<u8 as PartialEq>⟧.eq ∷
        required_slot (codes "sender") (λ v. v.sender) (λ s. s.0.2) (tagged (context 1) ⟦<Address as AsnType>⟧.meaning) ⟦<Address as PartialEq>⟧.eq ∷
        required_slot (codes "receiver") (λ v. v.receiver) (λ s. s.0.3) (tagged (context 2) ⟦<Address as AsnType>⟧.meaning) ⟦<Address as PartialEq>⟧.eq ∷
        optional_slot (codes "payer") (λ v. v.payer) (λ s. s.0.4) (explicitly_tagged (context 3) ⟦<Address as AsnType>⟧.meaning) ⟦<Address as PartialEq>⟧.eq ∷
        required_slot (codes "weight") (λ v. v.weight) (λ s. s.0.5) (tagged (context 4) ⟦<u32 as AsnType>⟧.meaning) ⟦<u32 as PartialEq>⟧.eq ∷
        default_slot (codes "insured") (λ v. v.insured) false (λ s. s.0.6) (tagged (context 5) ⟦<bool as AsnType>⟧.meaning) ⟦<bool as PartialEq>⟧.eq ∷
        required_slot (codes "goods") (λ v. v.goods) (λ s. s.0.7) (tagged (context 6) ⟦<Strings as AsnType>⟧.meaning) ⟦<Strings as PartialEq>⟧.eq ∷
        optional_slot (codes "origin") (λ v. v.origin) (λ s. s.0.8)
        (tagged (context 7) ⟦<ObjectIdentifier as AsnType>⟧.meaning) ⟦<ObjectIdentifier as PartialEq>⟧.eq ∷
        optional_slot (codes "seal") (λ v. v.seal) (λ s. s.0.9) (tagged (context 8) ⟦<OctetString as AsnType>⟧.meaning) ⟦<OctetString as PartialEq>⟧.eq ∷
        required_slot (codes "marks") (λ v. v.marks) (λ s. s.0.10) (tagged (context 9) ⟦<BitString as AsnType>⟧.meaning) ⟦<BitString as PartialEq>⟧.eq ∷
        empty_list_slot (codes "notes") (λ v. v.notes) (λ s. s.0.11) (tagged (context 10) ⟦<Strings as AsnType>⟧.meaning) ⟦<Utf8String as PartialEq>⟧.eq
        ⟦<Strings as PartialEq>⟧.eq ∷
        optional_slot (codes "remark") (λ v. v.remark) (λ s. s.1.0) (tagged (context 11) ⟦<Utf8String as AsnType>⟧.meaning) ⟦<Utf8String as PartialEq>⟧.eq ∷
        optional_slot (codes "value") (λ v. v.value) (λ s. s.1.1) (tagged (context 12) ⟦<Integer as AsnType>⟧.meaning) ⟦<Integer as PartialEq>⟧.eq ∷
        required_slot (codes "price") (λ v. v.price) (λ s. s.1.2) (explicitly_tagged (context 13) ⟦<u64 as AsnType>⟧.meaning) ⟦<u64 as PartialEq>⟧.eq ∷ [] };

    fn full(alloc: Global, slots: Self::Slots) -> Result<Consignment, AllocError> {
        Ok(Consignment {
            number: slots.0.0.unwrap(),
            version: or_default(slots.0.1, 1),
            sender: slots.0.2.unwrap(),
            receiver: slots.0.3.unwrap(),
            payer: slots.0.4,
            weight: slots.0.5.unwrap(),
            insured: or_default(slots.0.6, false),
            goods: slots.0.7.unwrap(),
            origin: slots.0.8,
            seal: slots.0.9,
            marks: slots.0.10.unwrap(),
            notes: or_empty(alloc, slots.0.11),
            remark: slots.1.0,
            value: slots.1.1,
            price: slots.1.2.unwrap(),
        })
    }

    fn decode_field<D: Decoder>(index: usize, slots: &mut Self::Slots, decoder: &mut D) -> Decoded {
        match index {
            0 => required(&mut slots.0.0, decoder, Tagging::Untagged),
            1 => optional(&mut slots.0.1, decoder, Tagging::Tagged(tag!(context 0))),
            2 => required(&mut slots.0.2, decoder, Tagging::Tagged(tag!(context 1))),
            3 => required(&mut slots.0.3, decoder, Tagging::Tagged(tag!(context 2))),
            4 => optional(&mut slots.0.4, decoder, Tagging::Explicit(tag!(context 3))),
            5 => required(&mut slots.0.5, decoder, Tagging::Tagged(tag!(context 4))),
            6 => optional(&mut slots.0.6, decoder, Tagging::Tagged(tag!(context 5))),
            7 => required(&mut slots.0.7, decoder, Tagging::Tagged(tag!(context 6))),
            8 => optional(&mut slots.0.8, decoder, Tagging::Tagged(tag!(context 7))),
            9 => optional(&mut slots.0.9, decoder, Tagging::Tagged(tag!(context 8))),
            10 => required(&mut slots.0.10, decoder, Tagging::Tagged(tag!(context 9))),
            11 => optional(&mut slots.0.11, decoder, Tagging::Tagged(tag!(context 10))),
            12 => optional(&mut slots.1.0, decoder, Tagging::Tagged(tag!(context 11))),
            13 => optional(&mut slots.1.1, decoder, Tagging::Tagged(tag!(context 12))),
            14 => required(&mut slots.1.2, decoder, Tagging::Explicit(tag!(context 13))),
            _ => Ok(()),
        }
    }
}

impl FieldTable for Consignment {
    ghost components = { sequence_of_slots ⟦<Consignment as DecodeByIndex>⟧.layout };

    fn field_count() -> usize {
        15
    }

    fn field_at(index: usize) -> Option<Field<'static>> {
        match index {
            0 => Some(Field::new_required_type::<Integer>(0, "number")),
            1 => Some(Field::new_default_type_with_tag::<u8>(1, tag!(context 0), "version")),
            2 => Some(Field::new_required_type_with_tag::<Address>(2, tag!(context 1), "sender")),
            3 => Some(Field::new_required_type_with_tag::<Address>(3, tag!(context 2), "receiver")),
            4 => Some(Field::new_optional_explicit(4, tag!(context 3), "payer")),
            5 => Some(Field::new_required_type_with_tag::<u32>(5, tag!(context 4), "weight")),
            6 => Some(Field::new_default_type_with_tag::<bool>(6, tag!(context 5), "insured")),
            7 => Some(Field::new_required_type_with_tag::<Strings>(7, tag!(context 6), "goods")),
            8 => Some(Field::new_optional_type_with_tag::<ObjectIdentifier>(
                8,
                tag!(context 7),
                "origin",
            )),
            9 => Some(Field::new_optional_type_with_tag::<OctetString>(9, tag!(context 8), "seal")),
            10 => Some(Field::new_required_type_with_tag::<BitString>(
                10,
                tag!(context 9),
                "marks",
            )),
            11 => Some(Field::new_default_type_with_tag::<Strings>(11, tag!(context 10), "notes")),
            12 => Some(Field::new_optional_type_with_tag::<Utf8String>(
                12,
                tag!(context 11),
                "remark",
            )),
            13 => Some(Field::new_optional_type_with_tag::<Integer>(13, tag!(context 12), "value")),
            14 => Some(Field::new_required_explicit(14, tag!(context 13), "price")),
            _ => None,
        }
    }

    fn extension_index() -> Option<usize> {
        None
    }
}

impl AsnType for Consignment {
    ghost meaning = { constructed_type (codes "Consignment") ⟦<Consignment as FieldTable>⟧.components };

    fn table() -> TypeTable {
        TypeTable::new(Tag::SEQUENCE, Identifier(Some("Consignment")))
    }

    fn is_present(&self) -> bool {
        true
    }
}

impl ConstructedType for Consignment {
    ghost agrees = { constructed_agrees };
}

/// The tags of a `Consignment` are distinct.
pub fn consignment_is_well_tagged()
    ensures { IsWellTagged ⟦<Consignment as AsnType>⟧.meaning }
{}

impl Encode for Consignment {
    fn encode_with_tag_and_constraints<E: Encoder>(
        &self,
        encoder: &mut E,
        tag: Tag,
        _constraints: &Constraints<'_>,
        name: Identifier,
    ) -> Result<(), EncodeError> {
        encoder.encode_sequence(tag, self, name)
    }
}

impl EncodeFields for Consignment {
    fn encode_field<E: Encoder>(&self, index: usize, encoder: &mut E) -> Result<(), EncodeError> {
        match index {
            0 => self.number.encode(encoder),
            1 => encoder.encode_default_with_tag(
                tag!(context 0),
                &self.version,
                |_| Ok(1),
                u8::identifier(),
            ),
            2 => self.sender.encode_with_tag(encoder, tag!(context 1)),
            3 => self.receiver.encode_with_tag(encoder, tag!(context 2)),
            4 => encode_explicit_optional(encoder, tag!(context 3), &self.payer),
            5 => self.weight.encode_with_tag(encoder, tag!(context 4)),
            6 => encoder.encode_default_with_tag(
                tag!(context 5),
                &self.insured,
                |_| Ok(false),
                bool::identifier(),
            ),
            7 => self.goods.encode_with_tag(encoder, tag!(context 6)),
            8 => self.origin.encode_with_tag(encoder, tag!(context 7)),
            9 => self.seal.encode_with_tag(encoder, tag!(context 8)),
            10 => self.marks.encode_with_tag(encoder, tag!(context 9)),
            11 => encoder.encode_default_with_tag(
                tag!(context 10),
                &self.notes,
                |alloc| Ok(Vec::new(alloc)),
                Strings::identifier(),
            ),
            12 => self.remark.encode_with_tag(encoder, tag!(context 11)),
            13 => self.value.encode_with_tag(encoder, tag!(context 12)),
            14 => encoder.encode_explicit_prefix(tag!(context 13), &self.price, u64::identifier()),
            _ => Ok(()),
        }
    }
}

impl Decode for Consignment {
    fn decode_with_tag_and_constraints<D: Decoder>(
        decoder: &mut D,
        tag: Tag,
        constraints: &Constraints<'_>,
    ) -> Result<Consignment, DecodeError> {
        decode_sequence_naming_errors(decoder, tag, constraints)
    }
}
