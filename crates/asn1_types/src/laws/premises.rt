//! When the premises of a round trip hold of each type of this crate: which values are valid, and under which tags the type is
//! well tagged.
ghost use Rattle.std.specs.Prelude.{◌≡◌, ◌↔◌, ℕ, ◌<◌, ◌^◌, Bool, List, All, IsTrue};
ghost use Rattle.asn1_model.specs.Meaning.{IsWellTagged, IsWellTaggedUnder, tags};
ghost use Rattle.asn1_model.specs.Premises.{IsTaggedAs};
ghost use Rattle.asn1_model.specs.Tags.{IsATag, only};
ghost use Rattle.asn1_tags.specs.declared.tags.Tag.{Tag};
ghost use Rattle.asn1_types.specs.declared.explicit.Explicit.{Explicit};
ghost use Rattle.asn1_types.specs.declared.implicit.Implicit.{Implicit};
ghost use Rattle.asn1_types.specs.declared.instance_of.InstanceOf.{InstanceOf};

use crate::any::Any;
use crate::array::Array;
use crate::explicit::Explicit;
use crate::implicit::Implicit;
use crate::instance_of::InstanceOf;
use crate::set_of::SetOf;
use asn1_model::AsnType;

/// A law of validity: an open type is valid if the codec accepts its bytes as one value, and of a value that holds others, what is
/// asked is what is asked of these. Of arrays `arrays_are_their_elements` says it.
pub fn values_are_valid_as_their_contents<T: AsnType, V: AsnType>()
    ensures any { (accepts : List ℕ → Bool) (bytes : List ℕ) →
        ⟦<Any as AsnType>⟧.meaning.IsValid accepts bytes ↔ IsTrue (accepts bytes) }
    ensures set { (accepts : List ℕ → Bool) (set : List V) →
        ⟦<SetOf<V> as AsnType>⟧.meaning.IsValid accepts set ↔ All (V.meaning.IsValid accepts) set }
    ensures implicit { (accepts : List ℕ → Bool) (v : Implicit T V) →
        ⟦<Implicit<T, V> as AsnType>⟧.meaning.IsValid accepts v ↔
        V.meaning.IsValid accepts v.value }
    ensures explicit { (accepts : List ℕ → Bool) (v : Explicit T V) →
        ⟦<Explicit<T, V> as AsnType>⟧.meaning.IsValid accepts v ↔
        V.meaning.IsValid accepts v.value }
    ensures instance { (accepts : List ℕ → Bool) (v : InstanceOf V) →
        ⟦<InstanceOf<V> as AsnType>⟧.meaning.IsValid accepts v ↔ V.meaning.IsValid accepts v.value }
{}

/// A law of the types' invariants: the bytes of an open type may be any; the arcs of the name in an INSTANCE OF are below 2^32; and
/// of what a value holds, its own invariant holds. Of arrays `arrays_are_their_elements` says it.
pub fn values_are_of_type_as_their_contents<T: AsnType, V: AsnType>()
    ensures any { (bytes : List ℕ) → ⟦<Any as AsnType>⟧.meaning.IsOfType bytes }
    ensures set { (set : List V) → ⟦<SetOf<V> as AsnType>⟧.meaning.IsOfType set ↔
        All V.meaning.IsOfType set }
    ensures implicit { (v : Implicit T V) → ⟦<Implicit<T, V> as AsnType>⟧.meaning.IsOfType v ↔
        V.meaning.IsOfType v.value }
    ensures explicit { (v : Explicit T V) → ⟦<Explicit<T, V> as AsnType>⟧.meaning.IsOfType v ↔
        V.meaning.IsOfType v.value }
    ensures instance { (v : InstanceOf V) → ⟦<InstanceOf<V> as AsnType>⟧.meaning.IsOfType v ↔
        (All (λ arc. arc < 2 ^ 32) v.type_id × V.meaning.IsOfType v.value) }
{}

/// A law of tags: an open type is well tagged under each tag, a set and a value after an explicit tag where the type inside is well
/// tagged, and a value under an implicit tag where the type inside is well tagged under it, and begins with it alone.
pub fn types_are_tagged_as_their_contents<T: AsnType, V: AsnType, const N: usize>()
    ensures any { (t : Tag) → IsWellTaggedUnder ⟦<Any as AsnType>⟧.meaning t }
    ensures set { (t : Tag) → IsWellTaggedUnder ⟦<SetOf<V> as AsnType>⟧.meaning t ↔
        (IsATag t × IsWellTagged V.meaning) }
    ensures implicit { (t : Tag) → IsWellTaggedUnder ⟦<Implicit<T, V> as AsnType>⟧.meaning t ↔
        (IsATag t × IsWellTaggedUnder V.meaning t × (tags V.meaning t ≡ only t)) }
    ensures explicit { (t : Tag) → IsWellTaggedUnder ⟦<Explicit<T, V> as AsnType>⟧.meaning t ↔
        (IsATag t × IsWellTagged V.meaning) }
    ensures instance { (t : Tag) → IsWellTaggedUnder ⟦<InstanceOf<V> as AsnType>⟧.meaning t ↔
        (IsATag t × IsWellTagged V.meaning) }
    ensures array { IsTaggedAs ⟦<Array<T, N> as AsnType>⟧.meaning ⟦<[T; N] as AsnType>⟧.meaning }
{}
