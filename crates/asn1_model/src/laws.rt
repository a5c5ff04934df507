//! Laws of what no other contract names: the aliases of markers and of kinds of string, and the definitions that an
//! implementation picks. Each is the contract of a function, so that a wrong one is refused.
ghost use Rattle.std.specs.Prelude.{◌≡◌, ◌↔◌, ℕ, ℤ, ◌<◌, ◌^◌, Bool, IsTrue, FitsSigned, List, [], ◌∷◌, All, None, Some, codes};
ghost use Rattle.std.specs.Int.{w8, w16, w32, w64, w128};
ghost use Rattle.asn1_values.specs.Alphabets.{is_visible, is_ia5, is_numeric, is_printable};
ghost use Rattle.asn1_tags.specs.Derives.{ClonesAll};
ghost use Rattle.asn1_tags.specs.declared.tags.Tag.{Tag};
ghost use Rattle.asn1_model.specs.ConstraintSets.{ConstraintSet, unconstrained};
ghost use Rattle.asn1_model.specs.Meaning.{HasOwn, own_records};
ghost use Rattle.asn1_model.specs.Records.{Name, arcs, bits, units, octet, visible, general, graphic, ia5, printable, numeric, teletex, bmp, null, scalar};
ghost use Rattle.asn1_model.specs.Tags.{universal};

mod invariants;
mod premises;
mod readings;
mod records;
mod tags;

use crate::asn_type::AsnType;
use crate::tag::{
    BIT_STRING, BMP_STRING, BOOL, CHARACTER_STRING, DATE, EMBEDDED_PDV, ENUMERATED, EOC, EXTERNAL,
    GENERAL_STRING, GENERALIZED_TIME, GRAPHIC_STRING, IA5_STRING, INTEGER, Marker, NULL,
    NUMERIC_STRING, OBJECT_DESCRIPTOR, OBJECT_IDENTIFIER, OCTET_STRING, PRINTABLE_STRING, REAL,
    RELATIVE_OID, SEQUENCE, SET, TELETEX_STRING, UNIVERSAL_STRING, UTC_TIME, UTF8_STRING,
    VIDEOTEX_STRING, VISIBLE_STRING,
};
use crate::type_table::{TreeForm, TypeTable};
use asn1_values::{
    BitString, BmpString, GeneralString, GraphicString, Ia5String, NumericString, ObjectIdentifier,
    OctetString, PrintableString, TeletexString, VisibleString,
};
pub use invariants::{holders_are_of_type_as_their_contents, plain_types_state_their_invariants};
pub use premises::{
    holders_are_tagged_as_their_contents, holders_are_valid_as_their_contents,
    types_that_hold_no_others_are_plain,
};
pub use readings::{
    holders_are_read_of_what_their_contents_are, numbers_are_read_of_their_contents,
    strings_are_read_of_their_units,
};
pub use records::{
    holders_have_the_records_of_their_contents, numbers_have_their_records,
    strings_have_their_records,
};
pub use tags::{
    holders_are_there_as_their_contents, holders_begin_as_their_contents,
    lists_begin_with_their_tags, types_that_hold_no_others_begin_with_their_tags,
};

/// A law of the markers: each name is that of the number that X.680 gives its type (8.4, table 1), and the marker of a
/// number is a NULL under it.
pub fn markers_have_their_numbers<const NUMBER: u32>(_marker: Marker<NUMBER>)
    ensures own { HasOwn ⟦<Marker<NUMBER> as AsnType>⟧.meaning (universal NUMBER) unconstrained
        None }
    ensures records { (v : _) (t : Tag) (c : ConstraintSet) (name : Name) →
        ⟦<Marker<NUMBER> as AsnType>⟧.meaning.records v t c name ≡
        scalar t unconstrained name null ∷ [] }
    ensures eoc { ⟦<EOC as AsnType>⟧.meaning.tag ≡ universal 0 }
    ensures bool { ⟦<BOOL as AsnType>⟧.meaning.tag ≡ universal 1 }
    ensures integer { ⟦<INTEGER as AsnType>⟧.meaning.tag ≡ universal 2 }
    ensures bit_string { ⟦<BIT_STRING as AsnType>⟧.meaning.tag ≡ universal 3 }
    ensures octet_string { ⟦<OCTET_STRING as AsnType>⟧.meaning.tag ≡ universal 4 }
    ensures null { ⟦<NULL as AsnType>⟧.meaning.tag ≡ universal 5 }
    ensures object_identifier { ⟦<OBJECT_IDENTIFIER as AsnType>⟧.meaning.tag ≡ universal 6 }
    ensures object_descriptor { ⟦<OBJECT_DESCRIPTOR as AsnType>⟧.meaning.tag ≡ universal 7 }
    ensures external { ⟦<EXTERNAL as AsnType>⟧.meaning.tag ≡ universal 8 }
    ensures real { ⟦<REAL as AsnType>⟧.meaning.tag ≡ universal 9 }
    ensures enumerated { ⟦<ENUMERATED as AsnType>⟧.meaning.tag ≡ universal 10 }
    ensures embedded_pdv { ⟦<EMBEDDED_PDV as AsnType>⟧.meaning.tag ≡ universal 11 }
    ensures utf8_string { ⟦<UTF8_STRING as AsnType>⟧.meaning.tag ≡ universal 12 }
    ensures relative_oid { ⟦<RELATIVE_OID as AsnType>⟧.meaning.tag ≡ universal 13 }
    ensures sequence { ⟦<SEQUENCE as AsnType>⟧.meaning.tag ≡ universal 16 }
    ensures set { ⟦<SET as AsnType>⟧.meaning.tag ≡ universal 17 }
    ensures numeric_string { ⟦<NUMERIC_STRING as AsnType>⟧.meaning.tag ≡ universal 18 }
    ensures printable_string { ⟦<PRINTABLE_STRING as AsnType>⟧.meaning.tag ≡ universal 19 }
    ensures teletex_string { ⟦<TELETEX_STRING as AsnType>⟧.meaning.tag ≡ universal 20 }
    ensures videotex_string { ⟦<VIDEOTEX_STRING as AsnType>⟧.meaning.tag ≡ universal 21 }
    ensures ia5_string { ⟦<IA5_STRING as AsnType>⟧.meaning.tag ≡ universal 22 }
    ensures utc_time { ⟦<UTC_TIME as AsnType>⟧.meaning.tag ≡ universal 23 }
    ensures generalized_time { ⟦<GENERALIZED_TIME as AsnType>⟧.meaning.tag ≡ universal 24 }
    ensures graphic_string { ⟦<GRAPHIC_STRING as AsnType>⟧.meaning.tag ≡ universal 25 }
    ensures visible_string { ⟦<VISIBLE_STRING as AsnType>⟧.meaning.tag ≡ universal 26 }
    ensures general_string { ⟦<GENERAL_STRING as AsnType>⟧.meaning.tag ≡ universal 27 }
    ensures universal_string { ⟦<UNIVERSAL_STRING as AsnType>⟧.meaning.tag ≡ universal 28 }
    ensures character_string { ⟦<CHARACTER_STRING as AsnType>⟧.meaning.tag ≡ universal 29 }
    ensures bmp_string { ⟦<BMP_STRING as AsnType>⟧.meaning.tag ≡ universal 30 }
    ensures date { ⟦<DATE as AsnType>⟧.meaning.tag ≡ universal 31 }
{}

/// A law of the kinds of string: what a string of each kind is to a codec, with the tag (X.680, 8.4, table 1) and the name
/// of its kind.
pub fn strings_have_the_records_of_their_kinds()
    ensures bit_string { (s : List Bool) → own_records ⟦<BitString as AsnType>⟧.meaning s ≡
        scalar (universal 3) unconstrained (Some (codes "BIT_STRING")) (bits s) ∷ [] }
    ensures octet_string { (s : List ℕ) → own_records ⟦<OctetString as AsnType>⟧.meaning s ≡
        scalar (universal 4) unconstrained (Some (codes "OCTET_STRING")) (units octet s) ∷ [] }
    ensures object_identifier { (s : List ℕ) →
        own_records ⟦<ObjectIdentifier as AsnType>⟧.meaning s ≡
        scalar (universal 6) unconstrained (Some (codes "OBJECT_IDENTIFIER")) (arcs s) ∷ [] }
    ensures numeric_string { (s : List ℕ) → own_records ⟦<NumericString as AsnType>⟧.meaning s ≡
        scalar (universal 18) unconstrained (Some (codes "NumericString")) (units numeric s) ∷ [] }
    ensures printable_string { (s : List ℕ) → own_records ⟦<PrintableString as AsnType>⟧.meaning s ≡
        scalar (universal 19) unconstrained (Some (codes "PrintableString"))
        (units printable s) ∷ [] }
    ensures teletex_string { (s : List ℕ) → own_records ⟦<TeletexString as AsnType>⟧.meaning s ≡
        scalar (universal 20) unconstrained (Some (codes "TeletexString")) (units teletex s) ∷ [] }
    ensures ia5_string { (s : List ℕ) → own_records ⟦<Ia5String as AsnType>⟧.meaning s ≡
        scalar (universal 22) unconstrained (Some (codes "IA5String")) (units ia5 s) ∷ [] }
    ensures graphic_string { (s : List ℕ) → own_records ⟦<GraphicString as AsnType>⟧.meaning s ≡
        scalar (universal 25) unconstrained (Some (codes "GraphicString")) (units graphic s) ∷ [] }
    ensures visible_string { (s : List ℕ) → own_records ⟦<VisibleString as AsnType>⟧.meaning s ≡
        scalar (universal 26) unconstrained (Some (codes "VisibleString")) (units visible s) ∷ [] }
    ensures general_string { (s : List ℕ) → own_records ⟦<GeneralString as AsnType>⟧.meaning s ≡
        scalar (universal 27) unconstrained (Some (codes "GeneralString")) (units general s) ∷ [] }
    ensures bmp_string { (s : List ℕ) → own_records ⟦<BmpString as AsnType>⟧.meaning s ≡
        scalar (universal 30) unconstrained (Some (codes "BMPString")) (units bmp s) ∷ [] }
{}

/// A law of the kinds of string: which units a string of each kind can have (X.680, 22, 23, 32 and 41).
pub fn strings_have_the_units_of_their_kinds()
    ensures bit_string { (s : List Bool) → ⟦<BitString as AsnType>⟧.meaning.IsOfType s }
    ensures octet_string { (s : List ℕ) → ⟦<OctetString as AsnType>⟧.meaning.IsOfType s ↔
        All (λ unit. unit < 2 ^ 8) s }
    ensures object_identifier { (s : List ℕ) → ⟦<ObjectIdentifier as AsnType>⟧.meaning.IsOfType s ↔
        All (λ unit. unit < 2 ^ 32) s }
    ensures numeric_string { (s : List ℕ) → ⟦<NumericString as AsnType>⟧.meaning.IsOfType s ↔
        All (λ unit. IsTrue (is_numeric unit)) s }
    ensures printable_string { (s : List ℕ) → ⟦<PrintableString as AsnType>⟧.meaning.IsOfType s ↔
        All (λ unit. IsTrue (is_printable unit)) s }
    ensures teletex_string { (s : List ℕ) → ⟦<TeletexString as AsnType>⟧.meaning.IsOfType s ↔
        All (λ unit. unit < 2 ^ 32) s }
    ensures ia5_string { (s : List ℕ) → ⟦<Ia5String as AsnType>⟧.meaning.IsOfType s ↔
        All (λ unit. IsTrue (is_ia5 unit)) s }
    ensures graphic_string { (s : List ℕ) → ⟦<GraphicString as AsnType>⟧.meaning.IsOfType s ↔
        All (λ unit. unit < 2 ^ 8) s }
    ensures visible_string { (s : List ℕ) → ⟦<VisibleString as AsnType>⟧.meaning.IsOfType s ↔
        All (λ unit. IsTrue (is_visible unit)) s }
    ensures general_string { (s : List ℕ) → ⟦<GeneralString as AsnType>⟧.meaning.IsOfType s ↔
        All (λ unit. unit < 2 ^ 8) s }
    ensures bmp_string { (s : List ℕ) → ⟦<BmpString as AsnType>⟧.meaning.IsOfType s ↔
        All (λ unit. unit < 2 ^ 16) s }
{}

/// A law of the built-in integers: the numbers of a type are those of its width, and each value is one of them.
#[allow(clippy::too_many_arguments)]
pub fn built_in_integers_are_numbers_of_their_widths(
    _u8: u8,
    _u16: u16,
    _u32: u32,
    _u64: u64,
    _usize: usize,
    _u128: u128,
    _i8: i8,
    _i16: i16,
    _i32: i32,
    _i64: i64,
    _isize: isize,
    _i128: i128,
)
    ensures u8_values { ⟦<u8 as AsnType>⟧.meaning.IsOfType _u8 }
    ensures u16_values { ⟦<u16 as AsnType>⟧.meaning.IsOfType _u16 }
    ensures u32_values { ⟦<u32 as AsnType>⟧.meaning.IsOfType _u32 }
    ensures u64_values { ⟦<u64 as AsnType>⟧.meaning.IsOfType _u64 }
    ensures usize_values { ⟦<usize as AsnType>⟧.meaning.IsOfType _usize }
    ensures u128_values { ⟦<u128 as AsnType>⟧.meaning.IsOfType _u128 }
    ensures i8_values { ⟦<i8 as AsnType>⟧.meaning.IsOfType _i8 }
    ensures i16_values { ⟦<i16 as AsnType>⟧.meaning.IsOfType _i16 }
    ensures i32_values { ⟦<i32 as AsnType>⟧.meaning.IsOfType _i32 }
    ensures i64_values { ⟦<i64 as AsnType>⟧.meaning.IsOfType _i64 }
    ensures isize_values { ⟦<isize as AsnType>⟧.meaning.IsOfType _isize }
    ensures i128_values { ⟦<i128 as AsnType>⟧.meaning.IsOfType _i128 }
    ensures u8_range { (n : ℕ) → ⟦<u8 as AsnType>⟧.meaning.IsOfType n ↔ n < 2 ^ 8 }
    ensures u16_range { (n : ℕ) → ⟦<u16 as AsnType>⟧.meaning.IsOfType n ↔ n < 2 ^ 16 }
    ensures u32_range { (n : ℕ) → ⟦<u32 as AsnType>⟧.meaning.IsOfType n ↔ n < 2 ^ 32 }
    ensures u64_range { (n : ℕ) → ⟦<u64 as AsnType>⟧.meaning.IsOfType n ↔ n < 2 ^ 64 }
    ensures usize_range { (n : ℕ) → ⟦<usize as AsnType>⟧.meaning.IsOfType n ↔ n < 2 ^ 64 }
    ensures u128_range { (n : ℕ) → ⟦<u128 as AsnType>⟧.meaning.IsOfType n ↔ n < 2 ^ 128 }
    ensures i8_range { (n : ℤ) → ⟦<i8 as AsnType>⟧.meaning.IsOfType n ↔ FitsSigned w8 n }
    ensures i16_range { (n : ℤ) → ⟦<i16 as AsnType>⟧.meaning.IsOfType n ↔ FitsSigned w16 n }
    ensures i32_range { (n : ℤ) → ⟦<i32 as AsnType>⟧.meaning.IsOfType n ↔ FitsSigned w32 n }
    ensures i64_range { (n : ℤ) → ⟦<i64 as AsnType>⟧.meaning.IsOfType n ↔ FitsSigned w64 n }
    ensures isize_range { (n : ℤ) → ⟦<isize as AsnType>⟧.meaning.IsOfType n ↔ FitsSigned w64 n }
    ensures i128_range { (n : ℤ) → ⟦<i128 as AsnType>⟧.meaning.IsOfType n ↔ FitsSigned w128 n }
{}

/// A law of tables: a clone is its source, and none fails.
pub fn tables_are_cloned_as_they_are()
    ensures tables { ClonesAll ⟦<TypeTable as Clone>⟧.is_clone
        ⟦<TypeTable as Clone>⟧.is_infallible }
    ensures forms { ClonesAll ⟦<TreeForm as Clone>⟧.is_clone ⟦<TreeForm as Clone>⟧.is_infallible }
{}
