//! Laws of one spelling: values without sets have one spelling in the tag form.
ghost use Rattle.asn1_bench.specs.OneOutput.{HasOrderIn};
ghost use Rattle.asn1_model.specs.Meaning.{own_records};
ghost use Rattle.asn1_rules.specs.CanonicalReading.{AreOctets, EqualHaveSameRecords, HasOneSpelling, HaveOneSpelling};
ghost use Rattle.asn1_tagform.specs.Format.{tag_format};
ghost use Rattle.std.specs.Prelude.{◌≡◌, Vec, true, ℕ};
ghost use Rattle.std.specs.declared.alloc.Global.{Global};

use asn1_model::AsnType;

/// A law of one spelling: all bytes of the tag form that writing one of two equal values makes are the same, for a type whose equal
/// values have the same records, if there is no SET and no SET OF in the value. So if `read_canonical` of `asn1_rules` answers equal
/// values of two inputs, these are the same bytes.
pub fn equal_values_have_one_spelling<T: AsnType + PartialEq>()
    ensures { EqualHaveSameRecords T.meaning T.eq → (v w : T) → HasOrderIn T.meaning w →
        T.eq v w ≡ true → HaveOneSpelling tag_format T.meaning v w }
{}

/// A law of one spelling: bytes that carry the records of a value are its only spelling, if equal values of its type have the same
/// records, and there is no SET and no SET OF in it. This is the premise of `read` of `read_canonical`. So what this codec writes of a
/// valid value of a well-tagged type is read back by `read_canonical`, unless memory runs out or the depth is too small.
pub fn what_is_written_is_the_only_spelling<T: AsnType + PartialEq>()
    ensures { EqualHaveSameRecords T.meaning T.eq → (output : Vec ℕ Global) (v : T) →
        AreOctets output.items → HasOrderIn T.meaning v →
        tag_format.carries output (own_records T.meaning v) →
        HasOneSpelling tag_format T.meaning T.eq v output.items }
{}
