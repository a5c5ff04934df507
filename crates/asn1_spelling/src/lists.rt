//! SEQUENCE OF and SET OF.
ghost use Rattle.asn1_model.specs.DistinctSets.{SetsAreDistinct};
ghost use Rattle.asn1_model.specs.WrittenAlike.{AreWrittenAlike};

use asn1_model::AsnType;
use asn1_types::SetOf;

/// A law of a SEQUENCE OF: equal lists are written alike, if equal elements are.
pub fn equal_lists_are_written_alike<T: AsnType + PartialEq>()
    ensures { AreWrittenAlike T.meaning T.eq →
        AreWrittenAlike ⟦<Vec<T> as AsnType>⟧.meaning ⟦<Vec<T> as PartialEq>⟧.eq }
{}

/// The same of a SET OF.
pub fn equal_sets_of_are_written_alike<T: AsnType + PartialEq>()
    ensures { AreWrittenAlike T.meaning T.eq →
        AreWrittenAlike ⟦<SetOf<T> as AsnType>⟧.meaning ⟦<SetOf<T> as PartialEq>⟧.eq }
{}

/// A law of a SEQUENCE OF: in its values the components of each SET have distinct tags (X.680, 27.3), if they have in its elements.
pub fn sets_in_lists_are_distinct<T: AsnType>()
    ensures { SetsAreDistinct T.meaning → SetsAreDistinct ⟦<Vec<T> as AsnType>⟧.meaning }
{}

/// The same of a SET OF.
pub fn sets_in_sets_of_are_distinct<T: AsnType>()
    ensures { SetsAreDistinct T.meaning → SetsAreDistinct ⟦<SetOf<T> as AsnType>⟧.meaning }
{}
