//! Laws of names: the kind of string that each name is.
ghost use Rattle.asn1_model.specs.Tags.{universal};
ghost use Rattle.std.specs.Prelude.{◌≡◌};

use crate::{
    BitString, BmpString, GeneralString, GeneralizedTime, GraphicString, Ia5String, NumericString,
    ObjectDescriptor, ObjectIdentifier, OctetString, PrintableString, TeletexString,
    UniversalString, UtcTime, Utf8String, VisibleString,
};
use asn1_types::AsnType;

/// A law of the re-exported names: each kind of string has its tag (X.680, 8.4, table 1).
pub fn names_are_those_of_their_kinds()
    ensures bits { ⟦<BitString as AsnType>⟧.meaning.tag ≡ universal 3 }
    ensures octets { ⟦<OctetString as AsnType>⟧.meaning.tag ≡ universal 4 }
    ensures identifier { ⟦<ObjectIdentifier as AsnType>⟧.meaning.tag ≡ universal 6 }
    ensures descriptor { ⟦<ObjectDescriptor as AsnType>⟧.meaning.tag ≡ universal 7 }
    ensures utf8 { ⟦<Utf8String as AsnType>⟧.meaning.tag ≡ universal 12 }
    ensures numeric { ⟦<NumericString as AsnType>⟧.meaning.tag ≡ universal 18 }
    ensures printable { ⟦<PrintableString as AsnType>⟧.meaning.tag ≡ universal 19 }
    ensures teletex { ⟦<TeletexString as AsnType>⟧.meaning.tag ≡ universal 20 }
    ensures ia5 { ⟦<Ia5String as AsnType>⟧.meaning.tag ≡ universal 22 }
    ensures utc_time { ⟦<UtcTime as AsnType>⟧.meaning.tag ≡ universal 23 }
    ensures generalized_time { ⟦<GeneralizedTime as AsnType>⟧.meaning.tag ≡ universal 24 }
    ensures graphic { ⟦<GraphicString as AsnType>⟧.meaning.tag ≡ universal 25 }
    ensures visible { ⟦<VisibleString as AsnType>⟧.meaning.tag ≡ universal 26 }
    ensures general { ⟦<GeneralString as AsnType>⟧.meaning.tag ≡ universal 27 }
    ensures universal_string { ⟦<UniversalString as AsnType>⟧.meaning.tag ≡ universal 28 }
    ensures bmp { ⟦<BmpString as AsnType>⟧.meaning.tag ≡ universal 30 }
{}
