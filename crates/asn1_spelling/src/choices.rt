//! CHOICE types.
ghost use Rattle.asn1_components.specs.Alternatives.{all_of};
ghost use Rattle.asn1_model.specs.DistinctSets.{SetsAreDistinct};
ghost use Rattle.asn1_model.specs.WrittenAlike.{AreWrittenAlike};
ghost use Rattle.asn1_spelling.specs.Choices.{AreEqualIn, Comparisons, EachIsAlikeInside, EachIsDistinctInside};
ghost use Rattle.std.specs.Prelude.{◌≡◌, true};

use asn1_components::ChoiceType;

/// A law of a CHOICE whose equality is that of its alternatives, as a derived one is: equal values are written alike, if those of each
/// alternative's type are.
pub fn equal_choices_are_written_alike<T: ChoiceType + PartialEq>()
    ghost es: { Comparisons (all_of T.alternatives) }
    requires compared { (v w : T) → T.eq v w ≡ true →
        AreEqualIn (all_of T.alternatives) es (T.pick v) (T.pick w) }
    requires each { EachIsAlikeInside (all_of T.alternatives) es }
    ensures { AreWrittenAlike T.meaning T.eq }
{}

/// A law of a CHOICE: in its values the components of each SET have distinct tags (X.680, 27.3), if they have in those of each
/// alternative's type.
pub fn sets_in_choices_are_distinct<T: ChoiceType>()
    requires each { EachIsDistinctInside (all_of T.alternatives) }
    ensures { SetsAreDistinct T.meaning }
{}
