//! Laws of the own facts of each type of this crate, and of the records of its values.
ghost use Rattle.std.specs.Hash as fed;
ghost use Rattle.std.specs.List.{flat_map};
ghost use Rattle.std.specs.Prelude.{◌≡◌, ℕ, List, [], ◌∷◌, None, Some, codes, false, length};
ghost use Rattle.asn1_components.specs.Components.{rows};
ghost use Rattle.asn1_model.specs.BeginningTags.{HasTagOfItsOwn, IsAlwaysThere};
ghost use Rattle.asn1_model.specs.Composites.{explicit_tag_records, open_type_records, sequence_records, set_of_records};
ghost use Rattle.asn1_model.specs.ConstraintSets.{ConstraintSet, unconstrained};
ghost use Rattle.asn1_model.specs.Meaning.{HasOwn, own_records};
ghost use Rattle.asn1_model.specs.Records.{Name, arcs, name_or, scalar};
ghost use Rattle.asn1_model.specs.Tags.{CHOICE, context, universal};
ghost use Rattle.asn1_tags.specs.Trees.{choice, none};
ghost use Rattle.asn1_tags.specs.declared.tags.Tag.{Tag};
ghost use Rattle.asn1_types.specs.declared.explicit.Explicit.{Explicit};
ghost use Rattle.asn1_types.specs.declared.implicit.Implicit.{Implicit};
ghost use Rattle.asn1_types.specs.declared.instance_of.InstanceOf.{InstanceOf};

use crate::any::Any;
use crate::array::Array;
use crate::explicit::Explicit;
use crate::implicit::Implicit;
use crate::instance_of::InstanceOf;
use crate::set_of::SetOf;
use asn1_components::FieldTable;
use asn1_model::AsnType;
use std::hash::Hash;

/// A law of records. An open type is its bytes, under whatever tag; a SET OF is a record of those of its elements; a value under
/// an implicit tag is the value under it; one under an explicit tag is a record that holds the value's; and an INSTANCE OF is a
/// SEQUENCE of the name of a type, and of a value after the tag Context 0. Of arrays `arrays_are_their_elements` says it.
pub fn types_have_the_records_of_their_contents<T: AsnType, V: AsnType>()
    ensures any_own { HasOwn ⟦<Any as AsnType>⟧.meaning CHOICE unconstrained None }
    ensures of_any { (bytes : List ℕ) (t : Tag) (c : ConstraintSet) (name : Name) →
        ⟦<Any as AsnType>⟧.meaning.records bytes t c name ≡ open_type_records name bytes }
    ensures set_own { HasOwn ⟦<SetOf<V> as AsnType>⟧.meaning (universal 17) unconstrained
        (Some (codes "SET_OF")) }
    ensures of_set { (set : List V) (t : Tag) (c : ConstraintSet) (name : Name) →
        ⟦<SetOf<V> as AsnType>⟧.meaning.records set t c name ≡
        set_of_records t c (name_or name (Some (codes "SET_OF")))
        (flat_map (own_records V.meaning) set) }
    ensures implicit_own { HasOwn ⟦<Implicit<T, V> as AsnType>⟧.meaning T.meaning.tag unconstrained
        None }
    ensures of_implicit { (v : Implicit T V) (t : Tag) (c : ConstraintSet) (name : Name) →
        ⟦<Implicit<T, V> as AsnType>⟧.meaning.records v t c name ≡
        V.meaning.records v.value t c name }
    ensures explicit_own { HasOwn ⟦<Explicit<T, V> as AsnType>⟧.meaning T.meaning.tag unconstrained
        None }
    ensures of_explicit { (v : Explicit T V) (t : Tag) (c : ConstraintSet) (name : Name) →
        ⟦<Explicit<T, V> as AsnType>⟧.meaning.records v t c name ≡
        explicit_tag_records t name (own_records V.meaning v.value) }
    ensures instance_own { HasOwn ⟦<InstanceOf<V> as AsnType>⟧.meaning (universal 8) unconstrained
        (Some (codes "SEQUENCE")) }
    ensures of_instance { (v : InstanceOf V) (t : Tag) (c : ConstraintSet) (name : Name) →
        ⟦<InstanceOf<V> as AsnType>⟧.meaning.records v t c name ≡
        sequence_records t (rows ⟦<InstanceOf<V> as FieldTable>⟧.components) name
        (scalar (universal 6) unconstrained (Some (codes "OBJECT_IDENTIFIER")) (arcs v.type_id) ∷
        explicit_tag_records (context 0) (Some (codes "SEQUENCE"))
        (own_records V.meaning v.value)) }
{}

/// A law of the tags with which a value can begin: every tag for an open type, which is no CHOICE; and for each other type of this
/// crate the tag that it is written under. Each value is there, also where what it holds is an option without one.
pub fn types_begin_with_their_tags<T: AsnType, V: AsnType, const N: usize>()
    ensures any { (t : Tag) → ⟦<Any as AsnType>⟧.meaning.tree t ≡ choice none }
    ensures any_is_no_choice { ⟦<Any as AsnType>⟧.meaning.is_choice ≡ false }
    ensures any_is_there { IsAlwaysThere ⟦<Any as AsnType>⟧.meaning }
    ensures set { HasTagOfItsOwn ⟦<SetOf<V> as AsnType>⟧.meaning }
    ensures implicit { HasTagOfItsOwn ⟦<Implicit<T, V> as AsnType>⟧.meaning }
    ensures explicit { HasTagOfItsOwn ⟦<Explicit<T, V> as AsnType>⟧.meaning }
    ensures instance { HasTagOfItsOwn ⟦<InstanceOf<V> as AsnType>⟧.meaning }
    ensures array { HasTagOfItsOwn ⟦<Array<V, N> as AsnType>⟧.meaning }
{}

/// A law of the hash of a set: it is that of how many elements there are.
pub fn sets_feed_their_length<V: Eq + Hash>()
    ensures { (set : List V) → ⟦<SetOf<V> as Hash>⟧.hash_input set ≡ fed.usize (length set) }
{}
