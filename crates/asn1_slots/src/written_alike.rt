//! What canonical reading asks of a type: its equal values are written alike, and in its values the components of each SET have
//! distinct tags.
ghost use Rattle.asn1_components.specs.WrittenAlike.{all_equal};
ghost use Rattle.asn1_components.specs.Components.{is_sequence};
ghost use Rattle.asn1_model.specs.DistinctSets.{SetsAreDistinct};
ghost use Rattle.asn1_model.specs.WrittenAlike.{AreWrittenAlike};
ghost use Rattle.asn1_slots.specs.Slots.{EachCanBeAlike, EachCanBeDistinct, IsLayoutOf, can_be_in_set, comparisons};
ghost use Rattle.std.specs.Prelude.{◌≡◌, true};

use crate::by_index::DecodeByIndex;
use crate::set_by_index::DecodeSetByIndex;
use asn1_components::ConstructedType;

/// A law of a SEQUENCE that is read by index, and whose equality compares its components one after another, as a derived one does:
/// equal values are written alike, if those of each component's type are.
pub fn equal_sequences_are_written_alike<S: DecodeByIndex + ConstructedType>()
    requires laid_out { IsLayoutOf S.components S.layout }
    requires compared { (v w : S) → S.eq v w ≡ all_equal (comparisons S.layout) v w }
    requires each { EachCanBeAlike S.layout }
    ensures { AreWrittenAlike S.meaning S.eq }
{}

/// The same of a SET.
pub fn equal_sets_are_written_alike<S: DecodeSetByIndex + ConstructedType>()
    requires laid_out { IsLayoutOf S.components S.layout }
    requires compared { (v w : S) → S.eq v w ≡ all_equal (comparisons S.layout) v w }
    requires each { EachCanBeAlike S.layout }
    ensures { AreWrittenAlike S.meaning S.eq }
{}

/// A law of a SEQUENCE that is read by index: in its values the components of each SET have distinct tags (X.680, 27.3), if they have in
/// those of each component's type.
pub fn sets_in_sequences_are_distinct<S: DecodeByIndex + ConstructedType>()
    requires laid_out { IsLayoutOf S.components S.layout }
    requires kind { S.components.kind ≡ is_sequence }
    requires each { EachCanBeDistinct S.layout }
    ensures { SetsAreDistinct S.meaning }
{}

/// The same of a SET, each of whose components can be read in one.
pub fn sets_in_sets_are_distinct<S: DecodeSetByIndex + ConstructedType>()
    requires laid_out { IsLayoutOf S.components S.layout }
    requires ready { can_be_in_set S.layout ≡ true }
    requires each { EachCanBeDistinct S.layout }
    ensures { SetsAreDistinct S.meaning }
{}
