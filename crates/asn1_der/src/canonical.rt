//! Laws of one spelling: records have one DER, and so values with the same records have one spelling.
ghost use Rattle.asn1_der.specs.Format.{Carries, der_format};
ghost use Rattle.asn1_der.specs.OneOutput.{HasDistinctSetsIn, HaveDistinctSetsInEach, HaveNoSet, HaveOneOutput};
ghost use Rattle.asn1_der_items.specs.DistinctTags.{HaveDistinctSets};
ghost use Rattle.asn1_model.specs.DistinctSets.{SetsAreDistinct};
ghost use Rattle.asn1_model.specs.Meaning.{IsWellTagged, own_records};
ghost use Rattle.asn1_model.specs.Orders.{SameRecords};
ghost use Rattle.asn1_model.specs.Records.{Record, held};
ghost use Rattle.asn1_model.specs.WrittenAlike.{AreWrittenAlike};
ghost use Rattle.asn1_rules.specs.CanonicalReading.{AreOctets, EqualHaveSameRecords, HasOneSpelling, HaveOneSpelling};
ghost use Rattle.asn1_rules.specs.Fronts.{BelongsTo, IsSteady};
ghost use Rattle.std.specs.Int.Digits.{AllBelowBase};
ghost use Rattle.std.specs.Prelude.{◌≡◌, List, Vec, true, ℕ};
ghost use Rattle.std.specs.declared.alloc.Global.{Global};

use crate::reader::DerReader;
use crate::rules::DerRules;
use asn1_dec::Decode;
use asn1_enc::Encode;
use asn1_model::AsnType;
use asn1_rules::{CanonicalReader, FrontReader, Rules};

/// A law of one encoding: records that are the same up to the order inside sets have one output, if the components of each SET in
/// them have distinct tags (`unique`), as they have if there is no SET (`without_set`). So the octets that carry the records of a
/// value are those that are written of every value with the same records.
pub fn output_is_unique()
    ensures unique { (rs ss : List Record) → SameRecords rs ss → HaveDistinctSets (held rs) →
        HaveOneOutput rs ss }
    ensures without_set { (rs : List Record) → HaveNoSet (held rs) → HaveDistinctSets (held rs) }
{}

/// A law of what has an output: octets that carry some records carry none that are rejected.
pub fn records_with_an_output_are_not_rejected()
    ensures { (bytes : List ℕ) (rs : List Record) → AllBelowBase 256 bytes → Carries bytes rs →
        der_format.rejects rs → ⊥ }
{}

/// A law of one spelling: if two values have the same records, up to the order inside sets, then all octets that writing either of
/// them makes are the same (`same_records`). So are those of equal values of a type whose equal values have the same records
/// (`equal`). Both hold if the components of each SET in the value have distinct tags.
///
/// `read_canonical` of `asn1_rules` answers a value only of octets that writing it makes. So if it answers equal values of such a type by
/// DER, the two inputs were the same octets, and signed octets have no second form that is read as the same value.
pub fn equal_values_have_one_spelling<T: AsnType + PartialEq>()
    ensures same_records { (v w : T) → SameRecords (own_records T.meaning v)
        (own_records T.meaning w) → HasDistinctSetsIn T.meaning v → HaveOneSpelling der_format T.meaning v w }
    ensures equal { EqualHaveSameRecords T.meaning T.eq → (v w : T) →
        HasDistinctSetsIn T.meaning v → T.eq v w ≡ true → HaveOneSpelling der_format T.meaning v w }
{}

/// A law of one spelling: octets that carry the records of a value are its only spelling, if equal values of its type have the same
/// records, and the components of each SET in it have distinct tags. This is the premise of `read` of `read_canonical`. So what
/// DER writes of a valid value of a well-tagged type is read back by `read_canonical`, unless memory runs out or the depth is too
/// small.
pub fn what_is_written_is_the_only_spelling<T: AsnType + PartialEq>()
    ensures { EqualHaveSameRecords T.meaning T.eq → (output : Vec ℕ Global) (v : T) →
        AreOctets output.items → HasDistinctSetsIn T.meaning v →
        der_format.carries output (own_records T.meaning v) →
        HasOneSpelling der_format T.meaning T.eq v output.items }
{}

/// The same of a type whose equal values are written alike, and in which the components of each SET have distinct tags, as the laws of
/// `asn1_slots` say of each type that is read by index: if it is well tagged, octets that carry the records of a value are its only
/// spelling.
pub fn well_tagged_types_have_one_spelling<T: AsnType + PartialEq>()
    ensures { AreWrittenAlike T.meaning T.eq → SetsAreDistinct T.meaning →
        IsWellTagged T.meaning → (output : Vec ℕ Global) (v : T) → AreOctets output.items →
        der_format.carries output (own_records T.meaning v) →
        HasOneSpelling der_format T.meaning T.eq v output.items }
{
    what_is_written_is_the_only_spelling::<T>();
}

/// A law of streams: a canonical reader over the reader of DER is steady (`steady`). It belongs to the rules of DER, for a well-tagged
/// type whose equal values have the same records, if the components of each SET in each valid value have distinct tags (`belongs`).
/// So it reads what DER wrote of valid values of such a type, unless memory runs out or a value is nested deeper than the reader's
/// depth.
pub fn the_canonical_reader_belongs_to_the_rules<T: Encode + Decode>(
    reader: &CanonicalReader<DerReader, DerRules>,
)
    ensures steady { IsSteady
        ⟦<CanonicalReader<DerReader, DerRules> as FrontReader<T>>⟧.fronts reader.now }
    ensures belongs { IsWellTagged T.meaning → EqualHaveSameRecords T.meaning T.eq →
        HaveDistinctSetsInEach T.meaning →
        BelongsTo ⟦<CanonicalReader<DerReader, DerRules> as FrontReader<T>>⟧.fronts reader.now
        ⟦<DerRules as Rules>⟧.format T.meaning T.eq }
{}
