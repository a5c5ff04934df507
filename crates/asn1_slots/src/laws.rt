//! Laws of defaults: a component is absent of the values that have its default, and of no others.
ghost use Rattle.asn1_model.specs.Meaning.{own_records};
ghost use Rattle.asn1_model.specs.Records.{absent, in_additions, in_root, presence_mark, present};
ghost use Rattle.asn1_model.specs.TaggedTypes.{untagged};
ghost use Rattle.asn1_slots.specs.Slots.{addition_with_default_slot, addition_with_empty_list_slot, default_slot, empty_list_slot, is_empty_list};
ghost use Rattle.std.specs.Prelude.{◌≡◌, ℕ, List, [], ◌∷◌, Option, Vec, true, false};
ghost use Rattle.std.specs.declared.alloc.Global.{Global};

use asn1_model::AsnType;

/// A law of `default_slot` and `addition_with_default_slot`: a component is absent of the values that have what is equal to its
/// default (X.690, 11.5), and there in all others. The default is among the first.
pub fn a_component_is_absent_where_it_has_its_default<S, V, W: AsnType + Eq>(default_value: &W)
    ensures passes { W.eq default_value.now default_value.now ≡ true }
    ensures absent_from_root { (name : List ℕ) (get : V → W) (slot : S → Option W) (v : V) →
        W.eq (get v) default_value.now ≡ true →
        (default_slot name get default_value.now slot (untagged W.meaning) W.eq).component.records v
        ≡ presence_mark (absent in_root W.meaning.tag) ∷ [] }
    ensures in_the_root { (name : List ℕ) (get : V → W) (slot : S → Option W) (v : V) →
        W.eq (get v) default_value.now ≡ false →
        (default_slot name get default_value.now slot (untagged W.meaning) W.eq).component.records v
        ≡ presence_mark (present in_root W.meaning.tag) ∷ own_records W.meaning (get v) }
    ensures absent_from_additions { (name : List ℕ) (get : V → W) (slot : S → Option W)
        (v : V) →
        W.eq (get v) default_value.now ≡ true →
        (addition_with_default_slot name get default_value.now slot (untagged W.meaning)
        W.eq).component.records v ≡
        presence_mark (absent in_additions W.meaning.tag) ∷ [] }
    ensures in_the_additions { (name : List ℕ) (get : V → W) (slot : S → Option W) (v : V) →
        W.eq (get v) default_value.now ≡ false →
        (addition_with_default_slot name get default_value.now slot (untagged W.meaning)
        W.eq).component.records v ≡
        presence_mark (present in_additions W.meaning.tag) ∷ own_records W.meaning (get v) }
{}

/// A law of `empty_list_slot` and `addition_with_empty_list_slot` (`DEFAULT {}`): a list that passes the test is absent, and every
/// other list is there.
pub fn a_list_is_absent_where_it_is_empty<S, V, T: AsnType + Eq>()
    ensures absent_from_root { (name : List ℕ)
        (get : V → Vec T Global) (slot : S → Option (Vec T Global)) (v : V) →
        is_empty_list T.eq (get v) ≡ true →
        (empty_list_slot name get slot (untagged ⟦<Vec<T> as AsnType>⟧.meaning)
        T.eq ⟦<Vec<T> as PartialEq>⟧.eq).component.records v ≡
        presence_mark (absent in_root ⟦<Vec<T> as AsnType>⟧.meaning.tag) ∷ [] }
    ensures in_the_root { (name : List ℕ)
        (get : V → Vec T Global) (slot : S → Option (Vec T Global)) (v : V) →
        is_empty_list T.eq (get v) ≡ false →
        (empty_list_slot name get slot (untagged ⟦<Vec<T> as AsnType>⟧.meaning)
        T.eq ⟦<Vec<T> as PartialEq>⟧.eq).component.records v ≡
        presence_mark (present in_root ⟦<Vec<T> as AsnType>⟧.meaning.tag) ∷
        own_records ⟦<Vec<T> as AsnType>⟧.meaning (get v) }
    ensures absent_from_additions { (name : List ℕ)
        (get : V → Vec T Global) (slot : S → Option (Vec T Global)) (v : V) →
        is_empty_list T.eq (get v) ≡ true →
        (addition_with_empty_list_slot name get slot (untagged ⟦<Vec<T> as AsnType>⟧.meaning)
        T.eq ⟦<Vec<T> as PartialEq>⟧.eq).component.records v ≡
        presence_mark (absent in_additions ⟦<Vec<T> as AsnType>⟧.meaning.tag) ∷ [] }
    ensures in_the_additions { (name : List ℕ)
        (get : V → Vec T Global) (slot : S → Option (Vec T Global)) (v : V) →
        is_empty_list T.eq (get v) ≡ false →
        (addition_with_empty_list_slot name get slot (untagged ⟦<Vec<T> as AsnType>⟧.meaning)
        T.eq ⟦<Vec<T> as PartialEq>⟧.eq).component.records v ≡
        presence_mark (present in_additions ⟦<Vec<T> as AsnType>⟧.meaning.tag) ∷
        own_records ⟦<Vec<T> as AsnType>⟧.meaning (get v) }
{}

/// A law of `is_empty_list`, the test of `DEFAULT {}`: a list without elements passes it, and no other.
pub fn lists_without_elements_pass_their_test<T: Eq>(list: &Vec<T>)
    ensures passes { list.now.items ≡ [] → is_empty_list T.eq list.now ≡ true }
    ensures no_other { is_empty_list T.eq list.now ≡ true → list.now.items ≡ [] }
{}
