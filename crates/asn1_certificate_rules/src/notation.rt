//! The part of the notation of a certificate at a place (RFC 5280, 4.1 and 4.2).
ghost use Rattle.std.specs.Prelude.{◌≡◌};
ghost use Rattle.asn1_certificate_rules.specs.Notation.{kind_of, opens, part_behind, part_inside};
ghost use Rattle.asn1_der_items.specs.Elements.{element_of};

use asn1_der_items::Element;
use asn1_tags::Tag;

/// A place in a certificate, by what the notation has there.
#[derive(Clone, Copy, Debug, Drop, PartialEq, Eq)]
pub enum Part {
    /// A certificate.
    Certificate,
    /// The part of it that is signed.
    Signed,
    /// The first component of the signed part, a version if its tag is `[0]`.
    Version,
    /// A further component of the signed part.
    Component,
    /// The list of extensions.
    Extensions,
    /// An extension.
    Extension,
    /// The object identifier of an extension.
    ExtensionId,
    /// A component of an extension of this kind, after its object identifier.
    ExtensionBody(ExtensionKind),
    /// A `BasicConstraints`.
    BasicConstraints,
    /// The first component of it, `cA` if it is a BOOLEAN.
    Authority,
    /// A `KeyUsage`, a list of named bits.
    KeyUsage,
    /// Anything else.
    Other,
}

/// A kind of extension, by the parts that the notation has in its value.
#[derive(Clone, Copy, Debug, Drop, PartialEq, Eq)]
pub enum ExtensionKind {
    /// `id-ce-basicConstraints`
    BasicConstraints,
    /// `id-ce-keyUsage`
    KeyUsage,
    /// Any other.
    Other,
}

/// The kind of the extension whose object identifier has these contents octets.
fn kind_of(octets: &[u8]) -> ExtensionKind
    ensures { result ≡ kind_of octets.now }
{
    match octets {
        [0x55, 0x1d, 15] => ExtensionKind::KeyUsage,
        [0x55, 0x1d, 19] => ExtensionKind::BasicConstraints,
        _ => ExtensionKind::Other,
    }
}

impl Part {
    /// Whether elements are inside an element at this place: inside one that is constructed, and inside the octets of the value of an
    /// extension.
    pub(crate) fn opens(self, element: Element<'_>) -> bool
        ensures { result ≡ opens self (element_of element.entry) }
    {
        match self {
            Part::ExtensionBody(_) => element.constructed || element.tag == Tag::OCTET_STRING,
            _ => element.constructed,
        }
    }

    /// The place of the first element inside an element at this place.
    pub(crate) fn inside(self, element: Element<'_>) -> Part
        ensures { result ≡ part_inside self (element_of element.entry) }
    {
        match self {
            Part::Certificate => Part::Signed,
            Part::Signed => Part::Version,
            Part::Component => {
                if element.tag == Tag::new_context(3) {
                    Part::Extensions
                } else {
                    Part::Other
                }
            }
            Part::Extensions => Part::Extension,
            Part::Extension => Part::ExtensionId,
            Part::ExtensionBody(ExtensionKind::BasicConstraints) => Part::BasicConstraints,
            Part::ExtensionBody(ExtensionKind::KeyUsage) => Part::KeyUsage,
            Part::BasicConstraints => Part::Authority,
            _ => Part::Other,
        }
    }

    /// The place behind an element at this place.
    pub(crate) fn behind(self, element: Element<'_>) -> Part
        ensures { result ≡ part_behind self (element_of element.entry) }
    {
        match self {
            Part::Version => Part::Component,
            Part::Component => Part::Component,
            Part::Extension => Part::Extension,
            Part::ExtensionId => Part::ExtensionBody(kind_of(element.contents)),
            Part::ExtensionBody(kind) => Part::ExtensionBody(kind),
            _ => Part::Other,
        }
    }
}
