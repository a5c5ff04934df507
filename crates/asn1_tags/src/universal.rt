//! The tags that X.680 assigns to its own types (8.4, table 1).

use crate::classes::Class;
use crate::tags::Tag;

/// The tags of the class `Universal`, each named for the type that has it.
impl Tag {
    /// End of contents, which some encodings write.
    pub const EOC: Tag = Tag {
        class: Class::Universal,
        value: 0,
    };

    /// BOOLEAN.
    pub const BOOL: Tag = Tag {
        class: Class::Universal,
        value: 1,
    };

    /// INTEGER.
    pub const INTEGER: Tag = Tag {
        class: Class::Universal,
        value: 2,
    };

    /// BIT STRING.
    pub const BIT_STRING: Tag = Tag {
        class: Class::Universal,
        value: 3,
    };

    /// OCTET STRING.
    pub const OCTET_STRING: Tag = Tag {
        class: Class::Universal,
        value: 4,
    };

    /// NULL.
    pub const NULL: Tag = Tag {
        class: Class::Universal,
        value: 5,
    };

    /// OBJECT IDENTIFIER.
    pub const OBJECT_IDENTIFIER: Tag = Tag {
        class: Class::Universal,
        value: 6,
    };

    /// ObjectDescriptor.
    pub const OBJECT_DESCRIPTOR: Tag = Tag {
        class: Class::Universal,
        value: 7,
    };

    /// EXTERNAL and INSTANCE OF.
    pub const EXTERNAL: Tag = Tag {
        class: Class::Universal,
        value: 8,
    };

    /// REAL.
    pub const REAL: Tag = Tag {
        class: Class::Universal,
        value: 9,
    };

    /// ENUMERATED.
    pub const ENUMERATED: Tag = Tag {
        class: Class::Universal,
        value: 10,
    };

    /// EMBEDDED PDV.
    pub const EMBEDDED_PDV: Tag = Tag {
        class: Class::Universal,
        value: 11,
    };

    /// UTF8String.
    pub const UTF8_STRING: Tag = Tag {
        class: Class::Universal,
        value: 12,
    };

    /// RELATIVE-OID.
    pub const RELATIVE_OID: Tag = Tag {
        class: Class::Universal,
        value: 13,
    };

    /// SEQUENCE and SEQUENCE OF.
    pub const SEQUENCE: Tag = Tag {
        class: Class::Universal,
        value: 16,
    };

    /// SET and SET OF.
    pub const SET: Tag = Tag {
        class: Class::Universal,
        value: 17,
    };

    /// NumericString.
    pub const NUMERIC_STRING: Tag = Tag {
        class: Class::Universal,
        value: 18,
    };

    /// PrintableString.
    pub const PRINTABLE_STRING: Tag = Tag {
        class: Class::Universal,
        value: 19,
    };

    /// TeletexString.
    pub const TELETEX_STRING: Tag = Tag {
        class: Class::Universal,
        value: 20,
    };

    /// VideotexString.
    pub const VIDEOTEX_STRING: Tag = Tag {
        class: Class::Universal,
        value: 21,
    };

    /// IA5String.
    pub const IA5_STRING: Tag = Tag {
        class: Class::Universal,
        value: 22,
    };

    /// UTCTime.
    pub const UTC_TIME: Tag = Tag {
        class: Class::Universal,
        value: 23,
    };

    /// GeneralizedTime.
    pub const GENERALIZED_TIME: Tag = Tag {
        class: Class::Universal,
        value: 24,
    };

    /// GraphicString.
    pub const GRAPHIC_STRING: Tag = Tag {
        class: Class::Universal,
        value: 25,
    };

    /// VisibleString.
    pub const VISIBLE_STRING: Tag = Tag {
        class: Class::Universal,
        value: 26,
    };

    /// GeneralString.
    pub const GENERAL_STRING: Tag = Tag {
        class: Class::Universal,
        value: 27,
    };

    /// UniversalString.
    pub const UNIVERSAL_STRING: Tag = Tag {
        class: Class::Universal,
        value: 28,
    };

    /// CHARACTER STRING.
    pub const CHARACTER_STRING: Tag = Tag {
        class: Class::Universal,
        value: 29,
    };

    /// BMPString.
    pub const BMP_STRING: Tag = Tag {
        class: Class::Universal,
        value: 30,
    };

    /// DATE.
    pub const DATE: Tag = Tag {
        class: Class::Universal,
        value: 31,
    };

    /// The marker tag of an untagged CHOICE, which has no tag of its own: equal to `EOC`.
    pub const CHOICE: Tag = Tag::EOC;
}
