//! Kinds of contents octets.
ghost use Rattle.std.specs.Prelude.{◌≡◌, Bool, IsTrue, List, Some, refl, ℕ};
ghost use Rattle.asn1_tags.specs.declared.tags.Tag.{Tag};
ghost use Rattle.asn1_tags.specs.Names.{name_of};
ghost use Rattle.asn1_model.specs.ConstraintSets.{table_constraints, unconstrained};
ghost use Rattle.asn1_model.specs.Records.{octet, units};
ghost use Rattle.asn1_model.specs.declared.type_table.TreeForm.TheVariants.{Leaf};
ghost use Rattle.asn1_types.specs.declared.any_string.OctetKind.TheVariants as octets;
ghost use Rattle.asn1_types.specs.declared.any_string.StringKind.TheVariants as kinds;

use crate::contents_string::ContentsString;
use asn1_model::{StringType, TypeTable};
use asn1_types::{AnyStr, AnyString, CodecString, OctetKind, StringKind};
use std::marker::PhantomData;

/// A kind of contents octets: a type of X.680 whose values are kept as X.690 writes them.
pub trait ContentsKind {
    // The tag of the type (X.680, 8.4, table 1).
    ghost type_tag: { Tag };

    // Its name.
    ghost type_name: { List ℕ };

    // The octets are the contents of a value, in the form that DER has for it.
    ghost allows: { List ℕ → Bool };

    /// The facts that a schema states of the type.
    fn type_table() -> TypeTable
        ensures tag { result.tag ≡ type_tag }
        ensures tree { result.tree ≡ Leaf }
        ensures identifier { name_of result.identifier ≡ Some type_name }
        ensures constraints { table_constraints result.constraints ≡ unconstrained };

    /// Whether octets are the contents of a value, in the form that DER has for it.
    fn allows(octets: &[u8]) -> bool
        ensures { result ≡ allows octets.now };
}

/// The marker of a kind of contents for codecs: a kind of string whose units are octets.
#[derive(Drop)]
pub struct ContentsOf<K> {
    kind: PhantomData<K>,
}

impl<K: ContentsKind> StringType<u8> for ContentsOf<K> {
    ghost own_tag = { K.type_tag };

    ghost own_name = { K.type_name };

    ghost content = { units octet };

    #[inline(always)]
    fn table() -> TypeTable {
        K::type_table()
    }
}

impl<K: ContentsKind> CodecString<u8> for ContentsOf<K> {
    ghost use Rattle.asn1_types.specs.AnyStrings.{as_they_are};

    type Owned = ContentsString<K>;

    ghost own_kind = { kinds.Octets octets.OctetString };

    ghost AreOfKind = { λ list. IsTrue (K.allows list) };

    ghost units_in = { λ string. string };

    ghost units_read = { λ list. list };

    fn kind() -> StringKind {
        StringKind::Octets(OctetKind::OctetString)
    }

    fn as_any(units: &[u8]) -> AnyStr<'_> {
        AnyStr::Octets(OctetKind::OctetString, units)
    }

    fn from_any(string: AnyString) -> Option<ContentsString<K>> {
        match string {
            AnyString::Octets(OctetKind::OctetString, octets) => ContentsString::new(octets),
            _ => None,
        }
    }

    ghost is_string = { λ _ _. refl };

    ghost has_kind = { λ _. refl };

    ghost reads_own = { λ _ _. refl };

    ghost reads_content = { λ _. refl };

    ghost spellings = { λ x list _ read. as_they_are _ x list read };
}
