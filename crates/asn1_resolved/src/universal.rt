//! Universal tags.
ghost use Rattle.std.specs.Prelude.{◌≡◌};
ghost use Rattle.asn1_resolved.specs.UniversalTags as spec;

use crate::types::TypeKind;
use asn1_notation::{ContentsKind, StringKind};

impl TypeKind<'_> {
    /// The number of the universal tag of the type, if it has one (X.680, 8.4, table 1).
    pub fn universal_number(&self) -> Option<u32>
        ensures { result ≡ spec.universal_number self.now }
    {
        match self {
            TypeKind::Boolean => Some(1),
            TypeKind::Integer(_) => Some(2),
            TypeKind::BitString(_) => Some(3),
            TypeKind::OctetString => Some(4),
            TypeKind::Null => Some(5),
            TypeKind::ObjectIdentifier => Some(6),
            TypeKind::Enumerated(_) => Some(10),
            TypeKind::Sequence(_) | TypeKind::SequenceOf(_) => Some(16),
            TypeKind::Set(_) | TypeKind::SetOf(_) => Some(17),
            TypeKind::String(kind) => Some(string_number(*kind)),
            TypeKind::Contents(kind) => Some(contents_number(*kind)),
            TypeKind::Choice(_) | TypeKind::Tagged(_, _) | TypeKind::Any | TypeKind::Reference(_) =>
                None,
        }
    }
}

// The number of the universal tag of a string of characters, or a time.
fn string_number(kind: StringKind) -> u32
    ensures { result ≡ spec.string_number kind }
{
    match kind {
        StringKind::ObjectDescriptor => 7,
        StringKind::Utf8 => 12,
        StringKind::Numeric => 18,
        StringKind::Printable => 19,
        StringKind::Teletex => 20,
        StringKind::Videotex => 21,
        StringKind::Ia5 => 22,
        StringKind::UtcTime => 23,
        StringKind::GeneralizedTime => 24,
        StringKind::Graphic => 25,
        StringKind::Visible => 26,
        StringKind::General => 27,
        StringKind::Universal => 28,
        StringKind::Bmp => 30,
    }
}

// The number of the universal tag of a type whose values are kept as their contents octets.
fn contents_number(kind: ContentsKind) -> u32
    ensures { result ≡ spec.contents_number kind }
{
    match kind {
        ContentsKind::Real => 9,
        ContentsKind::RelativeOid => 13,
        ContentsKind::Date => 31,
        ContentsKind::TimeOfDay => 32,
        ContentsKind::DateTime => 33,
        ContentsKind::Duration => 34,
    }
}
