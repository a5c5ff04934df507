//! Types that are read from contents octets, as DER has them.
ghost use Rattle.asn1_der_items.specs.Contents.{HasContents};
ghost use Rattle.asn1_items.specs.declared.error.ItemError.TheVariants.{Memory};
ghost use Rattle.asn1_items.specs.Kinds.{content_kind};
ghost use Rattle.asn1_model.specs.RecordTables.{no_table};
ghost use Rattle.asn1_model.specs.Records as model;
ghost use Rattle.asn1_model.specs.Records.{arcs, boolean, discriminant, null, number};
ghost use Rattle.asn1_types.specs.AnyStrings.{IsMadeAs, IsStringOf, content_kind_of, content_of_string, content_read};
ghost use Rattle.asn1_elements.specs.Decoder.{IsReadOfOctets};
ghost use Rattle.asn1_elements.specs.Strings.{IsReadOfBits, IsReadOfString};
ghost use Rattle.asn1_items.specs.Bits.{AreBits};
ghost use Rattle.asn1_values.specs.Bits.{EndsInOne, without_trailing_zeros};
ghost use Rattle.std.specs.Prelude.{◌≡◌, ⊤, Bool, IfOk, List, MatchResult, ℕ, ℤ, refl};

use asn1_der_items::{read_arcs, read_integer};
use asn1_items::{FromContent, ItemError, StringOf, read_bits, read_packed_bits, read_twos};
use asn1_types::{AnyString, CodecString, StringKind};
use asn1_values::{BitVec, Integer, IntegerType, ObjectIdentifier};
use std::alloc::{AllocError, Global};

/// A type that is read from the contents octets of an element.
pub(crate) trait FromContents: FromContent {
    // Values with contents octets of the kind: those of the type, and others that may mean one of these.
    ghost Spelling: { Type 0 };

    ghost spelled: { Spelling → model.Content };

    // Those that mean a value of the type, which is read.
    ghost MayCome: { Spelling → Type 0 };

    ghost IsReadOf: { Self → Spelling → Type 0 };

    /// Reads a value from contents octets of the kind.
    ///
    /// # Errors
    /// [`ItemError::Memory`], and [`ItemError::Malformed`] where the octets are no contents of the kind, or not of the type.
    fn from_contents(alloc: Global, octets: &[u8]) -> Result<Self, ItemError>
        ensures read { (x : Spelling) → MayCome x → HasContents (spelled x) octets.now →
            MatchResult result (λ w. IsReadOf w x) (λ e. e ≡ Memory) }
        ensures only { IfOk result (λ w. IsReadOfOctets spelled (IsReadOf w) octets.now) };

    // The law of a kind: each content is of it.
    ghost spelled_kind: { (x : Spelling) → content_kind (spelled x) ≡ Self.FromContent.own_kind };
}

impl FromContents for bool {
    ghost Spelling = { Bool };

    ghost spelled = { boolean };

    ghost MayCome = { λ _. ⊤ };

    ghost IsReadOf = { λ w v. w ≡ v };

    fn from_contents(_alloc: Global, octets: &[u8]) -> Result<Self, ItemError> {
        match octets {
            [0] => Ok(false),
            [255] => Ok(true),
            _ => Err(ItemError::Malformed),
        }
    }

    ghost spelled_kind = { λ _. refl };
}

impl FromContents for () {
    ghost Spelling = { Unit {0} };

    ghost spelled = { λ _. null };

    ghost MayCome = { λ _. ⊤ };

    ghost IsReadOf = { λ w v. w ≡ v };

    fn from_contents(_alloc: Global, octets: &[u8]) -> Result<Self, ItemError> {
        match octets {
            [] => Ok(()),
            _ => Err(ItemError::Malformed),
        }
    }

    ghost spelled_kind = { λ _. refl };
}

impl FromContents for Integer {
    ghost Spelling = { ℤ };

    ghost spelled = { number };

    ghost MayCome = { λ _. ⊤ };

    ghost IsReadOf = { λ w v. w ≡ v };

    fn from_contents(alloc: Global, octets: &[u8]) -> Result<Self, ItemError> {
        read_integer(alloc, octets)
    }

    ghost spelled_kind = { λ _. refl };
}

/// The number of an item of an ENUMERATED type.
impl FromContents for isize {
    ghost Spelling = { ℤ };

    ghost spelled = { discriminant no_table };

    ghost MayCome = { λ _. ⊤ };

    ghost IsReadOf = { λ w v. w ≡ v };

    fn from_contents(alloc: Global, octets: &[u8]) -> Result<Self, ItemError> {
        let number = read_integer(alloc, octets)?;
        match isize::try_from_integer(number) {
            Some(number) => Ok(number),
            None => Err(ItemError::Malformed),
        }
    }

    ghost spelled_kind = { λ _. refl };
}

impl FromContents for ObjectIdentifier {
    ghost Spelling = { List ℕ };

    ghost spelled = { arcs };

    ghost MayCome = { λ _. ⊤ };

    ghost IsReadOf = { λ w v. w ≡ v };

    fn from_contents(alloc: Global, octets: &[u8]) -> Result<Self, ItemError> {
        let arcs = read_arcs(alloc, octets)?;
        Ok(ObjectIdentifier::new(arcs))
    }

    ghost spelled_kind = { λ _. refl };
}

impl<U, K: CodecString<U>> FromContents for StringOf<U, K> {
    ghost use Rattle.asn1_items.specs.Contents.{kind_of_string};

    ghost Spelling = { List U };

    ghost spelled = { K.content };

    ghost MayCome = { λ list. K.AreOfKind (K.units_read list) };

    ghost IsReadOf = { λ w list. K.units_in w.string ≡ K.units_read list };

    fn from_contents(alloc: Global, octets: &[u8]) -> Result<Self, ItemError> {
        match K::from_any(read_string(alloc, K::kind(), octets)?) {
            Some(string) => Ok(StringOf { string }),
            None => Err(ItemError::Malformed),
        }
    }

    ghost spelled_kind = { λ list. kind_of_string K.own_kind (K.content list) (K.has_kind list) };
}

/// Reads the octets of a string of this kind. Its units need not be those that strings of the kind can have.
fn read_string(alloc: Global, kind: StringKind, octets: &[u8]) -> Result<AnyString, ItemError>
    ensures read { (x : model.Content) → IsStringOf (content_kind_of kind) x →
        HasContents x octets.now → MatchResult result
        (λ string. IsMadeAs kind string × (content_of_string string ≡ content_read kind x))
        (λ e. e ≡ Memory) }
    ensures only { IfOk result (λ string. IsReadOfString kind string octets.now) }
{
    match kind {
        StringKind::Bits => Ok(AnyString::Bits(read_bits(alloc, octets)?)),
        StringKind::PackedBits => Ok(AnyString::PackedBits(read_packed_bits(alloc, octets)?)),
        StringKind::NamedBits => Ok(AnyString::PackedBits(read_named_bits(alloc, octets)?)),
        StringKind::Octets(kind) => Ok(AnyString::Octets(kind, Vec::from_slice(alloc, octets)?)),
        StringKind::Teletex => Ok(AnyString::Teletex(read_ones(alloc, octets)?)),
        StringKind::Bmp => Ok(AnyString::Bmp(read_twos(alloc, octets)?)),
    }
}

/// Reads named bits, without the 0 bits at their end, of which any number may come (X.690, 8.6.2.4).
///
/// # Errors
/// Those of [`read_packed_bits`].
fn read_named_bits(alloc: Global, octets: &[u8]) -> Result<BitVec, ItemError>
    ensures read { (list : List Bool) → AreBits list octets.now → MatchResult result
        (λ v. v ≡ without_trailing_zeros list) (λ e. e ≡ Memory) }
    ensures only { IfOk result (λ v. IsReadOfBits v octets.now) }
    ensures ends { IfOk result (λ v. EndsInOne v) }
{
    let bits = read_packed_bits(alloc, octets)?;
    Ok(bits.without_trailing_zeros())
}

/// Reads numbers of one octet each.
fn read_ones(alloc: Global, octets: &[u8]) -> Result<Vec<u32>, AllocError>
    ensures { MatchResult result (λ units. units.items ≡ octets.now) (λ _. ⊤) }
{
    let mut units = Vec::new(alloc);
    for octet in octets {
        units.push(u32::from(*octet))?;
    }
    Ok(units)
}
