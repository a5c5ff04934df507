//! The records that are read as a value of each type of this crate, and no others are.
ghost use Rattle.std.specs.Prelude.{◌≡◌, ◌↔◌, List, ℕ};
ghost use Rattle.asn1_model.specs.ConstraintSets.{ConstraintSet};
ghost use Rattle.asn1_model.specs.Meaning.{IsReadAsOwn};
ghost use Rattle.asn1_model.specs.ReadingLaws.{AreReadOfElements};
ghost use Rattle.asn1_model.specs.Readings.{IsOpenType, IsReadInside};
ghost use Rattle.asn1_model.specs.Records.{Record, explicit_tag, sequence_of, set_of};
ghost use Rattle.asn1_tags.specs.declared.tags.Tag.{Tag};
ghost use Rattle.asn1_types.specs.Kinds.{IsReadAsInstance};
ghost use Rattle.asn1_types.specs.declared.explicit.Explicit.{Explicit};
ghost use Rattle.asn1_types.specs.declared.implicit.Implicit.{Implicit};
ghost use Rattle.asn1_types.specs.declared.instance_of.InstanceOf.{InstanceOf};

use crate::any::Any;
use crate::array::Array;
use crate::explicit::Explicit;
use crate::implicit::Implicit;
use crate::instance_of::InstanceOf;
use crate::set_of::SetOf;
use asn1_model::AsnType;

/// A law of what is read: an open type is read of its bytes, under whatever tag; a SET OF and an array of one record that holds what
/// their elements are read of, in this order; a value under an implicit tag of what the value is read of under it; one under an
/// explicit tag of a record that holds what the value is read of; and an INSTANCE OF of a SEQUENCE of the name of a type, and of a
/// value after the tag Context 0.
pub fn types_are_read_of_what_their_contents_are<T: AsnType, V: AsnType, const N: usize>()
    ensures of_any { (bytes : List ℕ) (t : Tag) (c : ConstraintSet) (rs : List Record) →
        ⟦<Any as AsnType>⟧.meaning.IsReadAs bytes t c rs ↔ IsOpenType bytes rs }
    ensures of_set { AreReadOfElements ⟦<SetOf<V> as AsnType>⟧.meaning V.meaning set_of
        (λ set. set) }
    ensures of_array { AreReadOfElements ⟦<Array<V, N> as AsnType>⟧.meaning V.meaning sequence_of
        (λ array. array.elements) }
    ensures of_implicit { (v : Implicit T V) (t : Tag) (c : ConstraintSet) (rs : List Record) →
        ⟦<Implicit<T, V> as AsnType>⟧.meaning.IsReadAs v t c rs ↔ V.meaning.IsReadAs v.value t c rs }
    ensures of_explicit { (v : Explicit T V) (t : Tag) (c : ConstraintSet) (rs : List Record) →
        ⟦<Explicit<T, V> as AsnType>⟧.meaning.IsReadAs v t c rs ↔
        IsReadInside (IsReadAsOwn V.meaning) (explicit_tag t) v.value rs }
    ensures of_instance { (v : InstanceOf V) (t : Tag) (c : ConstraintSet) (rs : List Record) →
        ⟦<InstanceOf<V> as AsnType>⟧.meaning.IsReadAs v t c rs ↔
        IsReadAsInstance t V.meaning v.type_id v.value rs }
{}
