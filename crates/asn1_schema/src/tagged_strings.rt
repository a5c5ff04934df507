//! The kinds of string that X.680 defines as another kind under a tag.
ghost use Rattle.asn1_model.specs.Meaning.{IsWellTagged};
ghost use Rattle.asn1_model.specs.Records.{graphic, units, utf8, visible};
ghost use Rattle.asn1_schema.specs.TaggedStrings.{IsContentUnderEachTag, IsOwnContent};
ghost use Rattle.std.specs.Prelude.{ℕ, Bool, List, codes};
ghost use Rattle.std.specs.String.{string_bytes};

use asn1_types::{AsnType, Implicit, tag};
use asn1_values::{GraphicString, Utf8String, VisibleString};

/// A UniversalString (X.680, 41.1): a text under the tag of that kind, which is Universal 28. Its content is that of a
/// UTF8String, as in rasn.
pub type UniversalString = Implicit<tag::UNIVERSAL_STRING, Utf8String>;

/// A UTCTime (X.680, 47): a VisibleString under the tag Universal 23. The caller checks that its text is a time.
pub type UtcTime = Implicit<tag::UTC_TIME, VisibleString>;

/// A GeneralizedTime (X.680, 46): a VisibleString under the tag Universal 24. The caller checks that its text is a time.
pub type GeneralizedTime = Implicit<tag::GENERALIZED_TIME, VisibleString>;

/// An ObjectDescriptor (X.680, 48): a GraphicString under the tag Universal 7.
pub type ObjectDescriptor = Implicit<tag::OBJECT_DESCRIPTOR, GraphicString>;

/// A law: a UniversalString is well tagged, each is valid, and it is its text under the tag Universal 28 (`own`), or
/// under whatever tag, constraints and name it is written (`under`).
pub fn universal_string_is_a_tagged_text(text: &UniversalString)
    ensures is_well_tagged { IsWellTagged ⟦<UniversalString as AsnType>⟧.meaning }
    ensures valid { (accepts : List ℕ → Bool) →
        ⟦<UniversalString as AsnType>⟧.meaning.IsValid accepts text.now }
    ensures own { IsOwnContent ⟦<UniversalString as AsnType>⟧.meaning text.now 28
        (codes "UTF8String") (units utf8 (string_bytes text.now.value)) }
    ensures under { IsContentUnderEachTag ⟦<UniversalString as AsnType>⟧.meaning text.now
        (codes "UTF8String") (units utf8 (string_bytes text.now.value)) }
{}

/// A law: the same of a UTCTime, whose tag is Universal 23, and whose text is a VisibleString.
pub fn utc_time_is_a_tagged_text(time: &UtcTime)
    ensures is_well_tagged { IsWellTagged ⟦<UtcTime as AsnType>⟧.meaning }
    ensures valid { (accepts : List ℕ → Bool) →
        ⟦<UtcTime as AsnType>⟧.meaning.IsValid accepts time.now }
    ensures own { IsOwnContent ⟦<UtcTime as AsnType>⟧.meaning time.now 23 (codes "VisibleString")
        (units visible time.now.value) }
    ensures under { IsContentUnderEachTag ⟦<UtcTime as AsnType>⟧.meaning time.now
        (codes "VisibleString") (units visible time.now.value) }
{}

/// A law: the same of a GeneralizedTime, whose tag is Universal 24.
pub fn generalized_time_is_a_tagged_text(time: &GeneralizedTime)
    ensures is_well_tagged { IsWellTagged ⟦<GeneralizedTime as AsnType>⟧.meaning }
    ensures valid { (accepts : List ℕ → Bool) →
        ⟦<GeneralizedTime as AsnType>⟧.meaning.IsValid accepts time.now }
    ensures own { IsOwnContent ⟦<GeneralizedTime as AsnType>⟧.meaning time.now 24
        (codes "VisibleString") (units visible time.now.value) }
    ensures under { IsContentUnderEachTag ⟦<GeneralizedTime as AsnType>⟧.meaning time.now
        (codes "VisibleString") (units visible time.now.value) }
{}

/// A law: the same of an ObjectDescriptor, whose tag is Universal 7, and whose text is a GraphicString.
pub fn object_descriptor_is_a_tagged_text(text: &ObjectDescriptor)
    ensures is_well_tagged { IsWellTagged ⟦<ObjectDescriptor as AsnType>⟧.meaning }
    ensures valid { (accepts : List ℕ → Bool) →
        ⟦<ObjectDescriptor as AsnType>⟧.meaning.IsValid accepts text.now }
    ensures own { IsOwnContent ⟦<ObjectDescriptor as AsnType>⟧.meaning text.now 7
        (codes "GraphicString") (units graphic text.now.value) }
    ensures under { IsContentUnderEachTag ⟦<ObjectDescriptor as AsnType>⟧.meaning text.now
        (codes "GraphicString") (units graphic text.now.value) }
{}
