//! Values that are kept as their contents octets.
ghost use Rattle.std.specs.Prelude.{◌≡◌, ◌↔◌, IsSome, IfSome, IsTrue, length};
ghost use Rattle.asn1_contents.specs.ContentsTypes.{contents_type};

use crate::contents_kind::{ContentsKind, ContentsOf};
use asn1_bounds::Constraints;
use asn1_dec::{Decode, DecodeError, Decoder};
use asn1_enc::{Encode, EncodeError, Encoder};
use asn1_model::{AsnType, TypeTable};
use asn1_tags::{Identifier, Tag};
use asn1_values::UnitString;
use asn1_values::shown::write_octets;
use std::fmt;
use std::marker::Model;

/// A value by its contents octets, which keep the rule of their kind.
///
/// Contracts see it as the list of these octets. Values are equal if their octets are, and go lexicographically; for REAL and
/// RELATIVE-OID this is not the order of numbers or arcs.
#[derive(Drop)]
#[derive_where(PartialEq, Eq, PartialOrd, Ord, Hash)]
pub struct ContentsString<K: ContentsKind> {
    octets: UnitString<u8, K>,
}

impl<K: ContentsKind> Model for ContentsString<K> {
    ghost use Rattle.std.specs.Prelude.{IsTrue, List, ℕ};

    ghost Value = { List ℕ };

    ghost view = { λ s. s.octets };

    ghost invariant = { λ s. IsTrue (K.allows s.octets) };

    ghost inverse = { λ octets. record { octets = octets } };
}

impl<K: ContentsKind> ContentsString<K> {
    /// The value whose contents octets these are, if they keep the rule of the kind.
    pub fn new(octets: Vec<u8>) -> Option<Self>
        ensures allowed { IsSome result ↔ IsTrue (K.allows octets.items) }
        ensures octets { IfSome result (λ s. s ≡ octets.items) }
    {
        if K::allows(&octets) {
            Some(ContentsString {
                octets: UnitString::new(octets),
            })
        } else {
            None
        }
    }

    /// The contents octets.
    pub fn as_slice(&self) -> &[u8]
        ensures octets { result.now ≡ self.now }
        ensures allowed { IsTrue (K.allows self.now) }
    {
        self.octets.as_slice()
    }
}

/// As an `OctetString` is shown: octets as a quoted text where a line can show them in UTF-8, else by hexadecimal digits.
impl<K: ContentsKind> fmt::Debug for ContentsString<K> {
    fn fmt<W: fmt::Write>(&self, f: &mut fmt::Formatter<W>) -> fmt::Result {
        write_octets(self.as_slice(), f)
    }
}

impl<K: ContentsKind> AsnType for ContentsString<K> {
    ghost meaning = { contents_type K.type_tag K.type_name K.allows };

    #[inline(always)]
    fn table() -> TypeTable {
        K::type_table()
    }

    #[inline(always)]
    fn is_present(&self) -> bool {
        true
    }
}

impl<K: ContentsKind> Encode for ContentsString<K> {
    #[inline(always)]
    fn encode_with_tag_and_constraints<E: Encoder>(
        &self,
        encoder: &mut E,
        tag: Tag,
        constraints: &Constraints<'_>,
        name: Identifier,
    ) -> Result<(), EncodeError> {
        let own = K::type_table().identifier;
        encoder.encode_string::<u8, ContentsOf<K>>(tag, constraints, self.as_slice(), name.or(own))
    }
}

impl<K: ContentsKind> Decode for ContentsString<K> {
    #[inline(always)]
    fn decode_with_tag_and_constraints<D: Decoder>(
        decoder: &mut D,
        tag: Tag,
        constraints: &Constraints<'_>,
    ) -> Result<ContentsString<K>, DecodeError> {
        decoder.decode_string::<u8, ContentsOf<K>>(tag, constraints)
    }
}
