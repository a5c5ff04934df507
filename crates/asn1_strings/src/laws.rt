//! Laws of what no other contract names: derives, aliases, and the definitions that a trait's implementation picks.
//!
//! A derive compares, an alias names and a ghost member defines without a word in any contract. Each function here
//! says by its contract what they give, so that a wrong one is refused.
ghost use Rattle.std.specs.Prelude.{◌≡◌, ◌↔◌, ◌<◌, ◌≤◌, ◌^◌, ◌⊎◌, ℕ, Bool, List, All, Ok, length, codes, Some, IsTrue, IsOk, IfOk, IfErr, not, position};
ghost use Rattle.std.specs.Cmp.Lexicographic.{pointwise, slice_cmp, slice_partial_cmp};
ghost use Rattle.std.specs.Fmt.{styled_text};
ghost use Rattle.std.specs.Hash as fed;
ghost use Rattle.std.specs.List.{AllPass};
ghost use Rattle.asn1_strings.specs.Alphabets.{is_among, is_ia5, is_numeric, is_printable, is_visible};
ghost use Rattle.asn1_strings.specs.Bits.{without_trailing_zeros};
ghost use Rattle.asn1_strings.specs.Dotted.{arcs_of, dotted};

use crate::error::{AlphabetError, ArcError, ObjectIdentifierError, StringError};
use crate::object_identifier::ObjectIdentifier;
use crate::strings::alphabet_string::{Alphabet, AlphabetString};
use crate::strings::ascii_text::AsciiAlphabet;
use crate::strings::bit_vec::BitVec;
use crate::strings::character::{Ia5String, NumericString, PrintableString, VisibleString};
use crate::strings::named_bits::NamedBitString;
use crate::strings::string_unit::StringUnit;
use crate::strings::unit_string::UnitString;
use std::fmt::Display;
use std::hash::Hash;

/// Whether the units are equal. Strings without an alphabet are compared, ordered and hashed as the lists of their units
/// are.
pub fn unit_strings_are_compared_by_units<U: Ord + Hash, K>(
    a: &UnitString<U, K>,
    b: &UnitString<U, K>,
) -> bool
    ensures same { result ≡ pointwise U.eq a.now b.now }
    ensures partial_order { ⟦<UnitString<U, K> as PartialOrd>⟧.partial_cmp a.now b.now ≡
        slice_partial_cmp U.partial_cmp a.now b.now }
    ensures order { ⟦<UnitString<U, K> as Ord>⟧.cmp a.now b.now ≡ slice_cmp U.cmp a.now b.now }
    ensures hash { ⟦<UnitString<U, K> as Hash>⟧.hash_input a.now ≡ fed.slice U.hash_input a.now }
{
    a == b
}

/// The same of strings with an alphabet.
pub fn alphabet_strings_are_compared_by_units<U: Ord + Hash, A: Alphabet<U>>(
    a: &AlphabetString<U, A>,
    b: &AlphabetString<U, A>,
) -> bool
    ensures same { result ≡ pointwise U.eq a.now b.now }
    ensures partial_order { ⟦<AlphabetString<U, A> as PartialOrd>⟧.partial_cmp a.now b.now ≡
        slice_partial_cmp U.partial_cmp a.now b.now }
    ensures order { ⟦<AlphabetString<U, A> as Ord>⟧.cmp a.now b.now ≡ slice_cmp U.cmp a.now b.now }
    ensures hash { ⟦<AlphabetString<U, A> as Hash>⟧.hash_input a.now ≡
        fed.slice U.hash_input a.now }
{
    a == b
}

/// Whether the bits are equal. Bits that lie in octets are compared as the list of them is, and so are named bits (`named`).
pub fn bits_are_compared_one_by_one(a: &BitVec, b: &BitVec) -> bool
    ensures same { result ≡ pointwise ⟦<bool as PartialEq>⟧.eq a.now b.now }
    ensures named { (c d : List Bool) → ⟦<NamedBitString as PartialEq>⟧.eq c d ≡
        pointwise ⟦<bool as PartialEq>⟧.eq c d }
{
    a == b
}

/// The named bits among these, which `From` makes as `NamedBitString::new` does.
pub fn named_bits_are_made_of_bits(bits: BitVec) -> NamedBitString
    ensures { result ≡ without_trailing_zeros bits }
{
    NamedBitString::from(bits)
}

/// The string of these units, which `From` makes as `UnitString::new` does.
pub fn unit_strings_are_made_of_their_units<U, K>(units: Vec<U>) -> UnitString<U, K>
    ensures { result ≡ units.items }
{
    UnitString::from(units)
}

/// The string of these units or the first that the alphabet lacks, which `TryFrom` answers as `AlphabetString::new` does.
pub fn alphabet_strings_are_made_of_their_units<U: Drop, A: Alphabet<U>>(
    units: Vec<U>,
) -> Result<AlphabetString<U, A>, AlphabetError>
    ensures allowed { IsOk result ↔ AllPass A.allows units.items }
    ensures units { IfOk result (λ s. s ≡ units.items) }
    ensures first { IfErr result (λ e. position (λ u. not (A.allows u)) units.items ≡ Some e.0) }
{
    AlphabetString::try_from(units)
}

/// Whether the units make a VisibleString, which holds the characters 32 to 126.
pub fn is_visible_string(units: Vec<u8>) -> bool
    ensures alphabet { IsTrue result ↔ AllPass is_visible units.items }
    ensures characters { (c : ℕ) → IsTrue (is_visible c) ↔ ((32 ≤ c) × (c ≤ 126)) }
{
    VisibleString::new(units).is_ok()
}

/// Whether the units make an IA5String, which holds the characters 0 to 127.
pub fn is_ia5_string(units: Vec<u8>) -> bool
    ensures alphabet { IsTrue result ↔ AllPass is_ia5 units.items }
    ensures characters { (c : ℕ) → IsTrue (is_ia5 c) ↔ (c ≤ 127) }
{
    Ia5String::new(units).is_ok()
}

/// Whether the units make a NumericString, which holds the digits, 48 to 57, and space, 32.
pub fn is_numeric_string(units: Vec<u8>) -> bool
    ensures alphabet { IsTrue result ↔ AllPass is_numeric units.items }
    ensures characters { (c : ℕ) → IsTrue (is_numeric c) ↔ ((c ≡ 32) ⊎ ((48 ≤ c) × (c ≤ 57))) }
{
    NumericString::new(units).is_ok()
}

/// Whether the units make a PrintableString, which holds the ASCII letters, digits, space and `'()+,-./:=?`.
pub fn is_printable_string(units: Vec<u8>) -> bool
    ensures alphabet { IsTrue result ↔ AllPass is_printable units.items }
    ensures characters { (c : ℕ) → IsTrue (is_printable c) ↔
        (((65 ≤ c) × (c ≤ 90)) ⊎ ((97 ≤ c) × (c ≤ 122)) ⊎ ((48 ≤ c) × (c ≤ 57)) ⊎
        IsTrue (is_among (codes " '()+,-./:=?") c)) }
{
    PrintableString::new(units).is_ok()
}

/// The units of a string are the values of their type, and no other numbers.
pub fn string_units_are_the_values_of_their_type()
    ensures bits { (bit : Bool) → ⟦<bool as StringUnit>⟧.IsInRange bit }
    ensures octets { (unit : ℕ) → ⟦<u8 as StringUnit>⟧.IsInRange unit ↔ (unit ≤ u8.MAX) }
    ensures of_16_bits { (unit : ℕ) → ⟦<u16 as StringUnit>⟧.IsInRange unit ↔ (unit ≤ u16.MAX) }
    ensures of_32_bits { (unit : ℕ) → ⟦<u32 as StringUnit>⟧.IsInRange unit ↔ (unit ≤ u32.MAX) }
{}

/// Whether the errors are the same, which they are if they name the same unit. A clone is its source, and none fails.
pub fn alphabet_errors_are_compared_by_index(a: &AlphabetError, b: &AlphabetError) -> bool
    ensures same { IsTrue result ↔ (a.now ≡ b.now) }
    ensures clone { ⟦<AlphabetError as Clone>⟧.is_clone a.now b.now ↔ (b.now ≡ a.now) }
    ensures clone_succeeds { ⟦<AlphabetError as Clone>⟧.is_infallible a.now }
{
    a == b
}

/// The same of the errors of strings that are made of texts.
pub fn string_errors_are_compared_by_case(a: &StringError, b: &StringError) -> bool
    ensures same { IsTrue result ↔ (a.now ≡ b.now) }
    ensures clone { ⟦<StringError as Clone>⟧.is_clone a.now b.now ↔ (b.now ≡ a.now) }
    ensures clone_succeeds { ⟦<StringError as Clone>⟧.is_infallible a.now }
{
    a == b
}

/// The same of the reasons why a text is no arc.
pub fn arc_errors_are_compared_by_case(a: &ArcError, b: &ArcError) -> bool
    ensures same { IsTrue result ↔ (a.now ≡ b.now) }
    ensures clone { ⟦<ArcError as Clone>⟧.is_clone a.now b.now ↔ (b.now ≡ a.now) }
    ensures clone_succeeds { ⟦<ArcError as Clone>⟧.is_infallible a.now }
{
    a == b
}

/// The same of the errors of object identifiers that are made of texts.
pub fn object_identifier_errors_are_compared_by_case(
    a: &ObjectIdentifierError,
    b: &ObjectIdentifierError,
) -> bool
    ensures same { IsTrue result ↔ (a.now ≡ b.now) }
    ensures clone { ⟦<ObjectIdentifierError as Clone>⟧.is_clone a.now b.now ↔ (b.now ≡ a.now) }
    ensures clone_succeeds { ⟦<ObjectIdentifierError as Clone>⟧.is_infallible a.now }
{
    a == b
}

/// An object identifier is written as its dotted text, and of this text the same one is read, if it has an arc.
pub fn object_identifiers_are_read_as_they_are_written()
    ensures text { (arcs : List ℕ) → ⟦<ObjectIdentifier as Display>⟧.output arcs ≡
        Some (dotted arcs) }
    ensures back { (arcs : List ℕ) → 0 < length arcs → All (λ arc. arc < 2 ^ 32) arcs →
        arcs_of (dotted arcs) ≡ Ok arcs }
{}

/// A string with an alphabet inside ASCII is written as its characters, with options such as a width as a text is.
pub fn ascii_strings_are_written_as_their_characters<A: AsciiAlphabet>()
    ensures text { (units : List ℕ) → ⟦<AlphabetString<u8, A> as Display>⟧.output units ≡
        Some units }
    ensures styled { (units : List ℕ) (options : _) →
        ⟦<AlphabetString<u8, A> as Display>⟧.styled_output units options ≡
        Some (styled_text options units) }
{}
