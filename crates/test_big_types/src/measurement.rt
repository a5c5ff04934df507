//! ```text
//! Measurement ::= CHOICE {
//!     temperature [0] INTEGER,
//!     pressure [1] INTEGER,
//!     humidity [2] INTEGER,
//!     altitude [3] INTEGER,
//!     speed [4] INTEGER,
//!     heading [5] INTEGER,
//!     distance [6] INTEGER,
//!     duration [7] INTEGER,
//!     voltage [8] INTEGER,
//!     current [9] INTEGER,
//!     power [10] INTEGER,
//!     energy [11] INTEGER,
//!     frequency [12] INTEGER,
//!     doorOpen [13] BOOLEAN,
//!     lampOn [14] BOOLEAN,
//!     motion [15] BOOLEAN,
//!     alarm [16] BOOLEAN,
//!     name [17] UTF8String,
//!     place [18] UTF8String,
//!     unit [19] UTF8String,
//!     operator [20] UTF8String,
//!     serial [21] OCTET STRING,
//!     key [22] OCTET STRING,
//!     digest [23] OCTET STRING,
//!     device [24] OBJECT IDENTIFIER
//! }
//! ```
ghost use Rattle.std.specs.Prelude.{[], codes, refl, ◌∷◌};
ghost use Rattle.asn1_schema.specs.Words.{IsWellTagged, choice_agrees, choice_of, choice_of_cases, context, inl, inr, tagged, variant};
ghost use Rattle.test_big_types.specs.declared.measurement.Measurement.TheVariants.{Temperature, Pressure, Humidity, Altitude, Speed, Heading, Distance, Duration, Voltage, Current, Power, Energy, Frequency, DoorOpen, LampOn, Motion, Alarm, Name, Place, Unit, Operator, Serial, Key, Digest, Device};

use asn1_schema::{
    AsnType, Choice, ChoiceType, Constraints, Decode, DecodeChoice, DecodeChoiceByIndex,
    DecodeError, Decoder, Encode, EncodeChoice, EncodeError, Encoder, Identifier, Integer,
    ObjectIdentifier, OctetString, Tag, TagTree, Tagging, TypeTable, Utf8String, alternative,
    from_tag_by_index,
};
use asn1_tags::tag;

/// One of 25 kinds of measurement.
#[derive(PartialEq, Eq, Debug, Drop)]
pub enum Measurement {
    /// `temperature [0] INTEGER`
    Temperature(Integer),
    /// `pressure [1] INTEGER`
    Pressure(Integer),
    /// `humidity [2] INTEGER`
    Humidity(Integer),
    /// `altitude [3] INTEGER`
    Altitude(Integer),
    /// `speed [4] INTEGER`
    Speed(Integer),
    /// `heading [5] INTEGER`
    Heading(Integer),
    /// `distance [6] INTEGER`
    Distance(Integer),
    /// `duration [7] INTEGER`
    Duration(Integer),
    /// `voltage [8] INTEGER`
    Voltage(Integer),
    /// `current [9] INTEGER`
    Current(Integer),
    /// `power [10] INTEGER`
    Power(Integer),
    /// `energy [11] INTEGER`
    Energy(Integer),
    /// `frequency [12] INTEGER`
    Frequency(Integer),
    /// `doorOpen [13] BOOLEAN`
    DoorOpen(bool),
    /// `lampOn [14] BOOLEAN`
    LampOn(bool),
    /// `motion [15] BOOLEAN`
    Motion(bool),
    /// `alarm [16] BOOLEAN`
    Alarm(bool),
    /// `name [17] UTF8String`
    Name(Utf8String),
    /// `place [18] UTF8String`
    Place(Utf8String),
    /// `unit [19] UTF8String`
    Unit(Utf8String),
    /// `operator [20] UTF8String`
    Operator(Utf8String),
    /// `serial [21] OCTET STRING`
    Serial(OctetString),
    /// `key [22] OCTET STRING`
    Key(OctetString),
    /// `digest [23] OCTET STRING`
    Digest(OctetString),
    /// `device [24] OBJECT IDENTIFIER`
    Device(ObjectIdentifier),
}

const MEASUREMENT: &[TagTree<'static>] = &[
    TagTree::Leaf(tag!(context 0)),
    TagTree::Leaf(tag!(context 1)),
    TagTree::Leaf(tag!(context 2)),
    TagTree::Leaf(tag!(context 3)),
    TagTree::Leaf(tag!(context 4)),
    TagTree::Leaf(tag!(context 5)),
    TagTree::Leaf(tag!(context 6)),
    TagTree::Leaf(tag!(context 7)),
    TagTree::Leaf(tag!(context 8)),
    TagTree::Leaf(tag!(context 9)),
    TagTree::Leaf(tag!(context 10)),
    TagTree::Leaf(tag!(context 11)),
    TagTree::Leaf(tag!(context 12)),
    TagTree::Leaf(tag!(context 13)),
    TagTree::Leaf(tag!(context 14)),
    TagTree::Leaf(tag!(context 15)),
    TagTree::Leaf(tag!(context 16)),
    TagTree::Leaf(tag!(context 17)),
    TagTree::Leaf(tag!(context 18)),
    TagTree::Leaf(tag!(context 19)),
    TagTree::Leaf(tag!(context 20)),
    TagTree::Leaf(tag!(context 21)),
    TagTree::Leaf(tag!(context 22)),
    TagTree::Leaf(tag!(context 23)),
    TagTree::Leaf(tag!(context 24)),
];

/// Reads the value under the tag, and makes of it a measurement of this variant.
macro_rules! read {
    ($decoder:expr, $tag:expr, $variant:ident) => {
        match alternative($decoder, Tagging::Tagged($tag)) {
            Ok(value) => Ok(Measurement::$variant(value)),
            Err(error) => Err(error),
        }
    };
}

impl DecodeChoiceByIndex for Measurement {
    ghost cases = { variant (codes "temperature") Temperature (tagged (context 0) ⟦<Integer as AsnType>⟧.meaning) ⟦<Integer as PartialEq>⟧.eq ∷
        variant (codes "pressure") Pressure (tagged (context 1) ⟦<Integer as AsnType>⟧.meaning) ⟦<Integer as PartialEq>⟧.eq ∷
        variant (codes "humidity") Humidity (tagged (context 2) ⟦<Integer as AsnType>⟧.meaning) ⟦<Integer as PartialEq>⟧.eq ∷
        variant (codes "altitude") Altitude (tagged (context 3) ⟦<Integer as AsnType>⟧.meaning) ⟦<Integer as PartialEq>⟧.eq ∷
        variant (codes "speed") Speed (tagged (context 4) ⟦<Integer as AsnType>⟧.meaning) ⟦<Integer as PartialEq>⟧.eq ∷
        variant (codes "heading") Heading (tagged (context 5) ⟦<Integer as AsnType>⟧.meaning) ⟦<Integer as PartialEq>⟧.eq ∷
        variant (codes "distance") Distance (tagged (context 6) ⟦<Integer as AsnType>⟧.meaning) ⟦<Integer as PartialEq>⟧.eq ∷
        variant (codes "duration") Duration (tagged (context 7) ⟦<Integer as AsnType>⟧.meaning) ⟦<Integer as PartialEq>⟧.eq ∷
        variant (codes "voltage") Voltage (tagged (context 8) ⟦<Integer as AsnType>⟧.meaning) ⟦<Integer as PartialEq>⟧.eq ∷
        variant (codes "current") Current (tagged (context 9) ⟦<Integer as AsnType>⟧.meaning) ⟦<Integer as PartialEq>⟧.eq ∷
        variant (codes "power") Power (tagged (context 10) ⟦<Integer as AsnType>⟧.meaning) ⟦<Integer as PartialEq>⟧.eq ∷
        variant (codes "energy") Energy (tagged (context 11) ⟦<Integer as AsnType>⟧.meaning) ⟦<Integer as PartialEq>⟧.eq ∷
        variant (codes "frequency") Frequency (tagged (context 12) ⟦<Integer as AsnType>⟧.meaning) ⟦<Integer as PartialEq>⟧.eq ∷
        variant (codes "doorOpen") DoorOpen (tagged (context 13) ⟦<bool as AsnType>⟧.meaning) ⟦<bool as PartialEq>⟧.eq ∷
        variant (codes "lampOn") LampOn (tagged (context 14) ⟦<bool as AsnType>⟧.meaning) ⟦<bool as PartialEq>⟧.eq ∷
        variant (codes "motion") Motion (tagged (context 15) ⟦<bool as AsnType>⟧.meaning) ⟦<bool as PartialEq>⟧.eq ∷
        variant (codes "alarm") Alarm (tagged (context 16) ⟦<bool as AsnType>⟧.meaning) ⟦<bool as PartialEq>⟧.eq ∷
        variant (codes "name") Name (tagged (context 17) ⟦<Utf8String as AsnType>⟧.meaning) ⟦<Utf8String as PartialEq>⟧.eq ∷
        variant (codes "place") Place (tagged (context 18) ⟦<Utf8String as AsnType>⟧.meaning) ⟦<Utf8String as PartialEq>⟧.eq ∷
        variant (codes "unit") Unit (tagged (context 19) ⟦<Utf8String as AsnType>⟧.meaning) ⟦<Utf8String as PartialEq>⟧.eq ∷
        variant (codes "operator") Operator (tagged (context 20) ⟦<Utf8String as AsnType>⟧.meaning) ⟦<Utf8String as PartialEq>⟧.eq ∷
        variant (codes "serial") Serial (tagged (context 21) ⟦<OctetString as AsnType>⟧.meaning) ⟦<OctetString as PartialEq>⟧.eq ∷
        variant (codes "key") Key (tagged (context 22) ⟦<OctetString as AsnType>⟧.meaning) ⟦<OctetString as PartialEq>⟧.eq ∷
        variant (codes "digest") Digest (tagged (context 23) ⟦<OctetString as AsnType>⟧.meaning) ⟦<OctetString as PartialEq>⟧.eq ∷
        variant (codes "device") Device (tagged (context 24) ⟦<ObjectIdentifier as AsnType>⟧.meaning) ⟦<ObjectIdentifier as PartialEq>⟧.eq ∷ [] };

    ghost case_of = { elim [ Temperature x ↦ inl x | Pressure x ↦ inr (inl x) | Humidity x ↦ inr (inr (inl x)) | Altitude x ↦ inr (inr (inr (inl x))) | Speed x ↦ inr (inr (inr (inr (inl x)))) | Heading x ↦ inr (inr (inr (inr (inr (inl x))))) | Distance x ↦ inr (inr (inr (inr (inr (inr (inl x)))))) | Duration x ↦ inr (inr (inr (inr (inr (inr (inr (inl x))))))) | Voltage x ↦ inr (inr (inr (inr (inr (inr (inr (inr (inl x)))))))) | Current x ↦ inr (inr (inr (inr (inr (inr (inr (inr (inr (inl x))))))))) | Power x ↦ inr (inr (inr (inr (inr (inr (inr (inr (inr (inr (inl x)))))))))) | Energy x ↦ inr (inr (inr (inr (inr (inr (inr (inr (inr (inr (inr (inl x))))))))))) | Frequency x ↦ inr (inr (inr (inr (inr (inr (inr (inr (inr (inr (inr (inr (inl x)))))))))))) | DoorOpen x ↦ inr (inr (inr (inr (inr (inr (inr (inr (inr (inr (inr (inr (inr (inl x))))))))))))) | LampOn x ↦ inr (inr (inr (inr (inr (inr (inr (inr (inr (inr (inr (inr (inr (inr (inl x)))))))))))))) | Motion x ↦ inr (inr (inr (inr (inr (inr (inr (inr (inr (inr (inr (inr (inr (inr (inr (inl x))))))))))))))) | Alarm x ↦ inr (inr (inr (inr (inr (inr (inr (inr (inr (inr (inr (inr (inr (inr (inr (inr (inl x)))))))))))))))) | Name x ↦ inr (inr (inr (inr (inr (inr (inr (inr (inr (inr (inr (inr (inr (inr (inr (inr (inr (inl x))))))))))))))))) | Place x ↦ inr (inr (inr (inr (inr (inr (inr (inr (inr (inr (inr (inr (inr (inr (inr (inr (inr (inr (inl x)))))))))))))))))) | Unit x ↦ inr (inr (inr (inr (inr (inr (inr (inr (inr (inr (inr (inr (inr (inr (inr (inr (inr (inr (inr (inl x))))))))))))))))))) | Operator x ↦ inr (inr (inr (inr (inr (inr (inr (inr (inr (inr (inr (inr (inr (inr (inr (inr (inr (inr (inr (inr (inl x)))))))))))))))))))) | Serial x ↦ inr (inr (inr (inr (inr (inr (inr (inr (inr (inr (inr (inr (inr (inr (inr (inr (inr (inr (inr (inr (inr (inl x))))))))))))))))))))) | Key x ↦ inr (inr (inr (inr (inr (inr (inr (inr (inr (inr (inr (inr (inr (inr (inr (inr (inr (inr (inr (inr (inr (inr (inl x)))))))))))))))))))))) | Digest x ↦ inr (inr (inr (inr (inr (inr (inr (inr (inr (inr (inr (inr (inr (inr (inr (inr (inr (inr (inr (inr (inr (inr (inr (inl x))))))))))))))))))))))) | Device x ↦ inr (inr (inr (inr (inr (inr (inr (inr (inr (inr (inr (inr (inr (inr (inr (inr (inr (inr (inr (inr (inr (inr (inr (inr (inl x)))))))))))))))))))))))) ] };

    fn decode_alternative<D: Decoder>(
        index: usize,
        decoder: &mut D,
    ) -> Result<Measurement, DecodeError> {
        match index {
            0 => read!(decoder, tag!(context 0), Temperature),
            1 => read!(decoder, tag!(context 1), Pressure),
            2 => read!(decoder, tag!(context 2), Humidity),
            3 => read!(decoder, tag!(context 3), Altitude),
            4 => read!(decoder, tag!(context 4), Speed),
            5 => read!(decoder, tag!(context 5), Heading),
            6 => read!(decoder, tag!(context 6), Distance),
            7 => read!(decoder, tag!(context 7), Duration),
            8 => read!(decoder, tag!(context 8), Voltage),
            9 => read!(decoder, tag!(context 9), Current),
            10 => read!(decoder, tag!(context 10), Power),
            11 => read!(decoder, tag!(context 11), Energy),
            12 => read!(decoder, tag!(context 12), Frequency),
            13 => read!(decoder, tag!(context 13), DoorOpen),
            14 => read!(decoder, tag!(context 14), LampOn),
            15 => read!(decoder, tag!(context 15), Motion),
            16 => read!(decoder, tag!(context 16), Alarm),
            17 => read!(decoder, tag!(context 17), Name),
            18 => read!(decoder, tag!(context 18), Place),
            19 => read!(decoder, tag!(context 19), Unit),
            20 => read!(decoder, tag!(context 20), Operator),
            21 => read!(decoder, tag!(context 21), Serial),
            22 => read!(decoder, tag!(context 22), Key),
            23 => read!(decoder, tag!(context 23), Digest),
            24 => read!(decoder, tag!(context 24), Device),
            _ => Err(DecodeError::NoValidChoice("Measurement")),
        }
    }

    ghost made = { elim [ Temperature x ↦ (refl, λ _. refl) | Pressure x ↦ (refl, λ _. refl) | Humidity x ↦ (refl, λ _. refl) | Altitude x ↦ (refl, λ _. refl) | Speed x ↦ (refl, λ _. refl) | Heading x ↦ (refl, λ _. refl) | Distance x ↦ (refl, λ _. refl) | Duration x ↦ (refl, λ _. refl) | Voltage x ↦ (refl, λ _. refl) | Current x ↦ (refl, λ _. refl) | Power x ↦ (refl, λ _. refl) | Energy x ↦ (refl, λ _. refl) | Frequency x ↦ (refl, λ _. refl) | DoorOpen x ↦ (refl, λ _. refl) | LampOn x ↦ (refl, λ _. refl) | Motion x ↦ (refl, λ _. refl) | Alarm x ↦ (refl, λ _. refl) | Name x ↦ (refl, λ _. refl) | Place x ↦ (refl, λ _. refl) | Unit x ↦ (refl, λ _. refl) | Operator x ↦ (refl, λ _. refl) | Serial x ↦ (refl, λ _. refl) | Key x ↦ (refl, λ _. refl) | Digest x ↦ (refl, λ _. refl) | Device x ↦ (refl, λ _. refl) ] };
}

impl Choice for Measurement {
    ghost alternatives = { choice_of_cases ⟦<Measurement as DecodeChoiceByIndex>⟧.cases };

    ghost pick = { ⟦<Measurement as DecodeChoiceByIndex>⟧.case_of };

    fn variants() -> &'static [TagTree<'static>] {
        MEASUREMENT
    }

    fn extended_variants() -> Option<&'static [TagTree<'static>]> {
        None
    }

    fn identifiers() -> &'static [&'static str] {
        &[
            "temperature",
            "pressure",
            "humidity",
            "altitude",
            "speed",
            "heading",
            "distance",
            "duration",
            "voltage",
            "current",
            "power",
            "energy",
            "frequency",
            "doorOpen",
            "lampOn",
            "motion",
            "alarm",
            "name",
            "place",
            "unit",
            "operator",
            "serial",
            "key",
            "digest",
            "device",
        ]
    }
}

impl AsnType for Measurement {
    ghost meaning = { choice_of (codes "Measurement") ⟦<Measurement as Choice>⟧.alternatives ⟦<Measurement as Choice>⟧.pick };

    fn table() -> TypeTable {
        TypeTable::choice(Identifier(Some("Measurement")), Measurement::variants())
    }

    fn is_present(&self) -> bool {
        true
    }
}

impl ChoiceType for Measurement {
    ghost agrees = { choice_agrees };
}

/// A `Measurement` can be inside other types: the tags of its alternatives are distinct.
pub fn measurement_is_well_tagged()
    ensures { IsWellTagged ⟦<Measurement as AsnType>⟧.meaning }
{}

impl Encode for Measurement {
    fn encode_with_tag_and_constraints<E: Encoder>(
        &self,
        encoder: &mut E,
        tag: Tag,
        constraints: &Constraints<'_>,
        name: Identifier,
    ) -> Result<(), EncodeError> {
        encoder.encode_choice_with_tag(tag, constraints, self, name)
    }
}

impl EncodeChoice for Measurement {
    fn chosen_tag(&self) -> Tag {
        match self {
            Measurement::Temperature(_) => tag!(context 0),
            Measurement::Pressure(_) => tag!(context 1),
            Measurement::Humidity(_) => tag!(context 2),
            Measurement::Altitude(_) => tag!(context 3),
            Measurement::Speed(_) => tag!(context 4),
            Measurement::Heading(_) => tag!(context 5),
            Measurement::Distance(_) => tag!(context 6),
            Measurement::Duration(_) => tag!(context 7),
            Measurement::Voltage(_) => tag!(context 8),
            Measurement::Current(_) => tag!(context 9),
            Measurement::Power(_) => tag!(context 10),
            Measurement::Energy(_) => tag!(context 11),
            Measurement::Frequency(_) => tag!(context 12),
            Measurement::DoorOpen(_) => tag!(context 13),
            Measurement::LampOn(_) => tag!(context 14),
            Measurement::Motion(_) => tag!(context 15),
            Measurement::Alarm(_) => tag!(context 16),
            Measurement::Name(_) => tag!(context 17),
            Measurement::Place(_) => tag!(context 18),
            Measurement::Unit(_) => tag!(context 19),
            Measurement::Operator(_) => tag!(context 20),
            Measurement::Serial(_) => tag!(context 21),
            Measurement::Key(_) => tag!(context 22),
            Measurement::Digest(_) => tag!(context 23),
            Measurement::Device(_) => tag!(context 24),
        }
    }

    fn encode_alternative<E: Encoder>(&self, encoder: &mut E) -> Result<(), EncodeError> {
        match self {
            Measurement::Temperature(value) => value.encode_with_tag(encoder, tag!(context 0)),
            Measurement::Pressure(value) => value.encode_with_tag(encoder, tag!(context 1)),
            Measurement::Humidity(value) => value.encode_with_tag(encoder, tag!(context 2)),
            Measurement::Altitude(value) => value.encode_with_tag(encoder, tag!(context 3)),
            Measurement::Speed(value) => value.encode_with_tag(encoder, tag!(context 4)),
            Measurement::Heading(value) => value.encode_with_tag(encoder, tag!(context 5)),
            Measurement::Distance(value) => value.encode_with_tag(encoder, tag!(context 6)),
            Measurement::Duration(value) => value.encode_with_tag(encoder, tag!(context 7)),
            Measurement::Voltage(value) => value.encode_with_tag(encoder, tag!(context 8)),
            Measurement::Current(value) => value.encode_with_tag(encoder, tag!(context 9)),
            Measurement::Power(value) => value.encode_with_tag(encoder, tag!(context 10)),
            Measurement::Energy(value) => value.encode_with_tag(encoder, tag!(context 11)),
            Measurement::Frequency(value) => value.encode_with_tag(encoder, tag!(context 12)),
            Measurement::DoorOpen(value) => value.encode_with_tag(encoder, tag!(context 13)),
            Measurement::LampOn(value) => value.encode_with_tag(encoder, tag!(context 14)),
            Measurement::Motion(value) => value.encode_with_tag(encoder, tag!(context 15)),
            Measurement::Alarm(value) => value.encode_with_tag(encoder, tag!(context 16)),
            Measurement::Name(value) => value.encode_with_tag(encoder, tag!(context 17)),
            Measurement::Place(value) => value.encode_with_tag(encoder, tag!(context 18)),
            Measurement::Unit(value) => value.encode_with_tag(encoder, tag!(context 19)),
            Measurement::Operator(value) => value.encode_with_tag(encoder, tag!(context 20)),
            Measurement::Serial(value) => value.encode_with_tag(encoder, tag!(context 21)),
            Measurement::Key(value) => value.encode_with_tag(encoder, tag!(context 22)),
            Measurement::Digest(value) => value.encode_with_tag(encoder, tag!(context 23)),
            Measurement::Device(value) => value.encode_with_tag(encoder, tag!(context 24)),
        }
    }
}

impl Decode for Measurement {
    fn decode_with_tag_and_constraints<D: Decoder>(
        decoder: &mut D,
        tag: Tag,
        constraints: &Constraints<'_>,
    ) -> Result<Measurement, DecodeError> {
        decoder.decode_choice_with_tag(tag, constraints)
    }
}

impl DecodeChoice for Measurement {
    fn from_tag<D: Decoder>(decoder: &mut D, tag: Tag) -> Result<Measurement, DecodeError> {
        from_tag_by_index(decoder, tag)
    }
}
