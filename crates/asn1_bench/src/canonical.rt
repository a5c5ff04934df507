//! Laws of one spelling: records without sets have one output, and so values without sets have one spelling.
ghost use Rattle.asn1_bench.specs.Format.{packed_format};
ghost use Rattle.asn1_bench.specs.OneOutput.{HasOrderIn, HaveOrderInEach};
ghost use Rattle.asn1_model.specs.Meaning.{IsWellTagged, own_records};
ghost use Rattle.asn1_rules.specs.CanonicalReading.{AreOctets, EqualHaveSameRecords, HasOneSpelling, HaveOneSpelling};
ghost use Rattle.asn1_rules.specs.Fronts.{BelongsTo, IsSteady};
ghost use Rattle.std.specs.Prelude.{◌≡◌, Vec, true, ℕ};
ghost use Rattle.std.specs.declared.alloc.Global.{Global};

use crate::reader::BenchReader;
use crate::rules::BenchRules;
use asn1_dec::Decode;
use asn1_enc::Encode;
use asn1_model::AsnType;
use asn1_rules::{CanonicalReader, FrontReader, Rules};

/// A law of one spelling: all packed bytes that writing one of two equal values makes are the same, for a type whose equal values have
/// the same records, if there is no SET and no SET OF in the value. So if `read_canonical` of `asn1_rules` answers equal values of two
/// inputs, these are the same bytes.
///
/// The elements of a set have packed bytes in every order, since the codec writes them in the order in which it has them.
pub fn equal_values_have_one_spelling<T: AsnType + PartialEq>()
    ensures { EqualHaveSameRecords T.meaning T.eq → (v w : T) → HasOrderIn T.meaning w →
        T.eq v w ≡ true → HaveOneSpelling packed_format T.meaning v w }
{}

/// A law of one spelling: bytes that carry the records of a value are its only spelling, if equal values of its type have the same
/// records, and there is no SET and no SET OF in it. This is the premise of `read` of `read_canonical`. So what this codec writes of a
/// valid value of a well-tagged type is read back by `read_canonical`, unless memory runs out or the depth is too small.
pub fn what_is_written_is_the_only_spelling<T: AsnType + PartialEq>()
    ensures { EqualHaveSameRecords T.meaning T.eq → (output : Vec ℕ Global) (v : T) →
        AreOctets output.items → HasOrderIn T.meaning v →
        packed_format.carries output (own_records T.meaning v) →
        HasOneSpelling packed_format T.meaning T.eq v output.items }
{}

/// A law of streams: a canonical reader over the reader of packed bytes is steady (`steady`). It belongs to the rules of the packed
/// codec, for a well-tagged type whose equal values have the same records, if there is no SET and no SET OF in any valid value
/// (`belongs`).
pub fn the_canonical_reader_belongs_to_the_rules<T: Encode + Decode>(
    reader: &CanonicalReader<BenchReader, BenchRules>,
)
    ensures steady { IsSteady
        ⟦<CanonicalReader<BenchReader, BenchRules> as FrontReader<T>>⟧.fronts reader.now }
    ensures belongs { IsWellTagged T.meaning → EqualHaveSameRecords T.meaning T.eq →
        HaveOrderInEach T.meaning packed_format →
        BelongsTo ⟦<CanonicalReader<BenchReader, BenchRules> as FrontReader<T>>⟧.fronts
        reader.now ⟦<BenchRules as Rules>⟧.format T.meaning T.eq }
{}
