//! Laws of contents octets.
ghost use Rattle.std.specs.Prelude.{◌≡◌, ◌↔◌, ◌⊎◌, [], Bool, IfErr, IfOk, IsTrue, List, Some, codes, ℕ};
ghost use Rattle.std.specs.Cmp.Lexicographic.{pointwise, slice_cmp, slice_partial_cmp};
ghost use Rattle.std.specs.Hash as fed;
ghost use Rattle.std.specs.Int.Digits.{AllBelowBase};
ghost use Rattle.std.specs.String.{string_bytes};
ghost use Rattle.asn1_contents.specs.Dates.{IsDate, is_date};
ghost use Rattle.asn1_contents.specs.DateTimes.{IsDateTime, is_date_time};
ghost use Rattle.asn1_contents.specs.Reals.{IsReal, is_real};
ghost use Rattle.asn1_contents.specs.RelativeOids.{IsRelativeOid, is_relative_oid};
ghost use Rattle.asn1_contents.specs.TimesOfDay.{IsTimeOfDay, is_time_of_day};
ghost use Rattle.asn1_contents.specs.UniversalStrings.{IsUniversalString, is_universal_string};
ghost use Rattle.asn1_model.specs.ConstraintSets.{unconstrained};
ghost use Rattle.asn1_model.specs.Meaning.{HasOwn, IsWellTagged};
ghost use Rattle.asn1_model.specs.Tags.{universal};
ghost use Rattle.asn1_tags.specs.Derives.{ComparesAll};

use crate::contents_kind::ContentsKind;
use crate::contents_string::ContentsString;
use crate::date::Date;
use crate::date_time::DateTime;
use crate::real::Real;
use crate::relative_oid::{RelativeOid, RelativeOidError};
use crate::time_of_day::TimeOfDay;
use crate::universal_string::UniversalString;
use asn1_model::AsnType;
use asn1_values::StringUnit;
use std::alloc::{AllocError, Global};
use std::hash::Hash;

/// A law of all kinds: values are compared, ordered and hashed as the lists of their octets are.
pub fn contents_strings_are_compared_by_octets<K: ContentsKind>(
    a: &ContentsString<K>,
    b: &ContentsString<K>,
) -> bool
    ensures same { result ≡ pointwise ⟦<u8 as PartialEq>⟧.eq a.now b.now }
    ensures partial_order { ⟦<ContentsString<K> as PartialOrd>⟧.partial_cmp a.now b.now ≡
        slice_partial_cmp ⟦<u8 as PartialOrd>⟧.partial_cmp a.now b.now }
    ensures order { ⟦<ContentsString<K> as Ord>⟧.cmp a.now b.now ≡
        slice_cmp ⟦<u8 as Ord>⟧.cmp a.now b.now }
    ensures hash { ⟦<ContentsString<K> as Hash>⟧.hash_input a.now ≡
        fed.slice ⟦<u8 as Hash>⟧.hash_input a.now }
{
    a == b
}

/// A law of RELATIVE-OID: the arcs of one that was made of arcs are these, unless memory runs out; and equal ones have the same octets.
pub fn relative_oids_are_their_arcs(
    alloc: Global,
    arcs: &Vec<u32>,
) -> Result<Vec<u32>, RelativeOidError>
    ensures arcs { IfOk result (λ own. own.items ≡ arcs.now.items) }
    ensures refused { IfErr result (λ error. (error ≡ RelativeOidError.Memory)
        ⊎ (error ≡ RelativeOidError.NoArcs) × (arcs.now.items ≡ [])) }
    ensures equality { ComparesAll ⟦<RelativeOid as PartialEq>⟧.eq }
{
    u32::units_are_in_range(arcs);
    let own = RelativeOid::from_arcs(alloc, arcs)?;
    own.arcs(alloc)
}

/// A law of UniversalString: the text of one that was made of a text is this one, unless memory runs out.
pub fn universal_strings_are_their_texts(alloc: Global, text: &str) -> Result<String, AllocError>
    ensures { IfOk result (λ own. string_bytes own ≡ text.now) }
{
    let own = UniversalString::from_text(alloc, text)?;
    let read = own.text(alloc)?;
    Ok(read)
}

/// A law of DATE-TIME: the date and the time of one that was made of these are these, unless memory runs out.
pub fn date_times_are_their_parts(
    alloc: Global,
    date: &Date,
    time: &TimeOfDay,
) -> Result<(Date, TimeOfDay), AllocError>
    ensures date { IfOk result (λ parts. parts.0 ≡ date.now) }
    ensures time { IfOk result (λ parts. parts.1 ≡ time.now) }
{
    let both = DateTime::from_parts(alloc, date, time)?;
    let own_date = both.date(alloc)?;
    let own_time = both.time(alloc)?;
    Ok((own_date, own_time))
}

/// A law of RELATIVE-OID: it can be inside other types, and each value is valid; its tag is that of X.680 (8.4, table 1), its name that of
/// rasn, and its values are the octets of X.690, 8.20.
pub fn relative_oids_have_the_tag_of_the_standard()
    ensures is_well_tagged { IsWellTagged ⟦<RelativeOid as AsnType>⟧.meaning }
    ensures valid { (accepts : List ℕ → Bool) (octets : List ℕ) →
        ⟦<RelativeOid as AsnType>⟧.meaning.IsValid accepts octets }
    ensures own { HasOwn ⟦<RelativeOid as AsnType>⟧.meaning (universal 13) unconstrained
        (Some (codes "RELATIVE_OID")) }
    ensures of_type { (octets : List ℕ) → IsTrue (is_relative_oid octets) →
        ⟦<RelativeOid as AsnType>⟧.meaning.IsOfType octets }
    ensures only { (octets : List ℕ) → ⟦<RelativeOid as AsnType>⟧.meaning.IsOfType octets →
        IsTrue (is_relative_oid octets) }
{}

/// A law of REAL: it can be inside other types, and each value is valid; its tag is that of X.680 (8.4, table 1), its name that of
/// rasn, and its values are the octets of X.690, 8.5, in the form of 11.3.
pub fn reals_have_the_tag_of_the_standard()
    ensures is_well_tagged { IsWellTagged ⟦<Real as AsnType>⟧.meaning }
    ensures valid { (accepts : List ℕ → Bool) (octets : List ℕ) →
        ⟦<Real as AsnType>⟧.meaning.IsValid accepts octets }
    ensures own { HasOwn ⟦<Real as AsnType>⟧.meaning (universal 9) unconstrained
        (Some (codes "REAL")) }
    ensures of_type { (octets : List ℕ) → IsTrue (is_real octets) →
        ⟦<Real as AsnType>⟧.meaning.IsOfType octets }
    ensures only { (octets : List ℕ) → ⟦<Real as AsnType>⟧.meaning.IsOfType octets →
        IsTrue (is_real octets) }
{}

/// A law of DATE: it can be inside other types, and each value is valid; its tag is that of X.680 (8.4, table 1), its name that of
/// rasn, and its values are the octets of X.690, 8.26.
pub fn dates_have_the_tag_of_the_standard()
    ensures is_well_tagged { IsWellTagged ⟦<Date as AsnType>⟧.meaning }
    ensures valid { (accepts : List ℕ → Bool) (octets : List ℕ) →
        ⟦<Date as AsnType>⟧.meaning.IsValid accepts octets }
    ensures own { HasOwn ⟦<Date as AsnType>⟧.meaning (universal 31) unconstrained
        (Some (codes "DATE")) }
    ensures of_type { (octets : List ℕ) → IsTrue (is_date octets) →
        ⟦<Date as AsnType>⟧.meaning.IsOfType octets }
    ensures only { (octets : List ℕ) → ⟦<Date as AsnType>⟧.meaning.IsOfType octets →
        IsTrue (is_date octets) }
{}

/// A law of TIME-OF-DAY: it can be inside other types, and each value is valid; its tag is that of X.680 (8.4, table 1), its name that of
/// rasn, and its values are the octets of X.690, 8.26.
pub fn times_of_day_have_the_tag_of_the_standard()
    ensures is_well_tagged { IsWellTagged ⟦<TimeOfDay as AsnType>⟧.meaning }
    ensures valid { (accepts : List ℕ → Bool) (octets : List ℕ) →
        ⟦<TimeOfDay as AsnType>⟧.meaning.IsValid accepts octets }
    ensures own { HasOwn ⟦<TimeOfDay as AsnType>⟧.meaning (universal 32) unconstrained
        (Some (codes "TIME_OF_DAY")) }
    ensures of_type { (octets : List ℕ) → IsTrue (is_time_of_day octets) →
        ⟦<TimeOfDay as AsnType>⟧.meaning.IsOfType octets }
    ensures only { (octets : List ℕ) → ⟦<TimeOfDay as AsnType>⟧.meaning.IsOfType octets →
        IsTrue (is_time_of_day octets) }
{}

/// A law of DATE-TIME: it can be inside other types, and each value is valid; its tag is that of X.680 (8.4, table 1), its name that of
/// rasn, and its values are the octets of X.690, 8.26.
pub fn date_times_have_the_tag_of_the_standard()
    ensures is_well_tagged { IsWellTagged ⟦<DateTime as AsnType>⟧.meaning }
    ensures valid { (accepts : List ℕ → Bool) (octets : List ℕ) →
        ⟦<DateTime as AsnType>⟧.meaning.IsValid accepts octets }
    ensures own { HasOwn ⟦<DateTime as AsnType>⟧.meaning (universal 33) unconstrained
        (Some (codes "DATE_TIME")) }
    ensures of_type { (octets : List ℕ) → IsTrue (is_date_time octets) →
        ⟦<DateTime as AsnType>⟧.meaning.IsOfType octets }
    ensures only { (octets : List ℕ) → ⟦<DateTime as AsnType>⟧.meaning.IsOfType octets →
        IsTrue (is_date_time octets) }
{}

/// A law of UniversalString: it can be inside other types, and each value is valid; its tag is that of X.680 (8.4, table 1), its name its
/// keyword, and its values are the octets of X.690, 8.23.7.
pub fn universal_strings_have_the_tag_of_the_standard()
    ensures is_well_tagged { IsWellTagged ⟦<UniversalString as AsnType>⟧.meaning }
    ensures valid { (accepts : List ℕ → Bool) (octets : List ℕ) →
        ⟦<UniversalString as AsnType>⟧.meaning.IsValid accepts octets }
    ensures own { HasOwn ⟦<UniversalString as AsnType>⟧.meaning (universal 28) unconstrained
        (Some (codes "UniversalString")) }
    ensures of_type { (octets : List ℕ) → IsTrue (is_universal_string octets) →
        ⟦<UniversalString as AsnType>⟧.meaning.IsOfType octets }
    ensures only { (octets : List ℕ) → ⟦<UniversalString as AsnType>⟧.meaning.IsOfType octets →
        IsTrue (is_universal_string octets) }
{}

/// A law of RELATIVE-OID: octets are those of a value if and only if they are one arc or more to the base 128.
pub fn octets_of_relative_oids_are_arcs()
    ensures { (octets : List ℕ) → AllBelowBase 256 octets →
        IsTrue (is_relative_oid octets) ↔ IsRelativeOid octets }
{}

/// A law of REAL: octets are those of a value if and only if they are none for 0, one that stands alone, those of an exponent and a mantissa, or the text of a decimal number.
pub fn octets_of_reals_are_their_parts()
    ensures { (octets : List ℕ) → AllBelowBase 256 octets →
        IsTrue (is_real octets) ↔ IsReal octets }
{}

/// A law of DATE: octets are those of a value if and only if they are the digits of a year, a month and a day of the calendar.
pub fn octets_of_dates_are_their_digits()
    ensures { (octets : List ℕ) → IsTrue (is_date octets) ↔ IsDate octets }
{}

/// A law of TIME-OF-DAY: octets are those of a value if and only if they are the digits of an hour, a minute and a second of a day.
pub fn octets_of_times_are_their_digits()
    ensures { (octets : List ℕ) → IsTrue (is_time_of_day octets) ↔ IsTimeOfDay octets }
{}

/// A law of DATE-TIME: octets are those of a value if and only if they are the digits of a date and of a time.
pub fn octets_of_date_times_are_their_digits()
    ensures { (octets : List ℕ) → IsTrue (is_date_time octets) ↔ IsDateTime octets }
{}

/// A law of UniversalString: octets are those of a value if and only if they are the numbers of characters of ISO/IEC 10646, four octets
/// each.
pub fn octets_of_universal_strings_are_characters()
    ensures { (octets : List ℕ) → AllBelowBase 256 octets →
        IsTrue (is_universal_string octets) ↔ IsUniversalString octets }
{}
