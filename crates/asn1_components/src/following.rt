//! The records that follow a component.
ghost use Rattle.std.specs.Prelude.{◌≡◌, List, []};
ghost use Rattle.asn1_model.specs.Records.{Record};
ghost use Rattle.asn1_tags.specs.Trees.{choice};
ghost use Rattle.asn1_components.specs.ComponentLists.{CanBeInSequence, trees_of};
ghost use Rattle.asn1_components.specs.Components.{AreWellTagged, all_components, is_sequence, is_set};
ghost use Rattle.asn1_components.specs.Following.{AllApart, BeginsApart, EachApart, EndsApart};

use crate::field_table::FieldTable;

/// The law of component lists, on which a reader rests that tells by the next tag whether a component is there.
///
/// In a SEQUENCE and in a group, what follows a component that may be absent, whether it is there or not, begins with none
/// of its tags. If a run of such components goes on past the end, this depends on the records after it (`past_the_end`): nothing
/// does in a SEQUENCE (`sequence`), and what follows a group has to begin with none of the group's tags (`group`). In a
/// SET no two components share a tag (`set`).
pub fn components_are_identified_by_tags<T: FieldTable>(_value: &T)
    ensures sequence { T.components.kind ≡ is_sequence → AreWellTagged T.components →
        EachApart (all_components T.components) _value.now [] }
    ensures group { (rest : List Record) → CanBeInSequence (all_components T.components) →
        BeginsApart (choice (trees_of (all_components T.components))) rest →
        EachApart (all_components T.components) _value.now rest }
    ensures past_the_end { (rest : List Record) → CanBeInSequence (all_components T.components) →
        EndsApart (all_components T.components) rest →
        EachApart (all_components T.components) _value.now rest }
    ensures set { T.components.kind ≡ is_set → AreWellTagged T.components →
        AllApart (all_components T.components) }
{}
