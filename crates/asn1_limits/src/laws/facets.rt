//! The facets of the values of each type that constraints see.
ghost use Rattle.std.specs.Prelude.{◌≡◌, ℕ, ℤ, pos, Bool, List, Vec, length, map};
ghost use Rattle.std.specs.Str.{chars};
ghost use Rattle.std.specs.String.{string_bytes};
ghost use Rattle.std.specs.declared.alloc.Global.{Global};
ghost use Rattle.asn1_limits.specs.Facets.{growing, numbered, sized, textual};
ghost use Rattle.asn1_types.specs.declared.implicit.Implicit.{Implicit};

use crate::constrainable::Constrainable;
use crate::restriction::Restriction;
use crate::within::Within;
use asn1_types::{Implicit, SetOf};
use asn1_values::{
    Alphabet, AlphabetString, BitString, BitVec, BmpString, GeneralString, GraphicString, Integer,
    LimitedInteger, Limits, NamedBitString, OctetString, TeletexString,
};

/// A law of sizes and characters (X.680, 51.5 and 51.7). Constraints see how many elements a list or a set has, how many bits a
/// BIT STRING and how many octets an OCTET STRING; of a string of characters how many there are, and which; of a UTF8String those of
/// its text. Named bits have each size from their own on, since 0 bits behind them mean nothing (22.7). A value under a tag is seen
/// as the value, and so is one within limits.
pub fn constraints_see_sizes_and_characters<
    G,
    T: Constrainable,
    A: Alphabet<u8>,
    L: Restriction<T>,
>(text: &String)
    ensures list { (v : Vec T Global) → ⟦<Vec<T> as Constrainable>⟧.facets v ≡
        sized (length v.items) }
    ensures set { (v : List T) → ⟦<SetOf<T> as Constrainable>⟧.facets v ≡ sized (length v) }
    ensures bits { (v : List Bool) → (⟦<BitString as Constrainable>⟧.facets v).extent ≡
        (sized (length v)).extent }
    ensures packed_bits { (v : List Bool) → ⟦<BitVec as Constrainable>⟧.facets v ≡
        sized (length v) }
    ensures named_bits { (v : List Bool) → ⟦<NamedBitString as Constrainable>⟧.facets v ≡
        growing (length v) }
    ensures octets { (v : List ℕ) → (⟦<OctetString as Constrainable>⟧.facets v).extent ≡
        (sized (length v)).extent }
    ensures alphabet { (v : List ℕ) → ⟦<AlphabetString<u8, A> as Constrainable>⟧.facets v ≡
        textual (length v) (map (λ c. c) v) }
    ensures bmp { (v : List ℕ) → ⟦<BmpString as Constrainable>⟧.facets v ≡
        textual (length v) (map (λ c. c) v) }
    ensures general { (v : List ℕ) → ⟦<GeneralString as Constrainable>⟧.facets v ≡
        textual (length v) (map (λ c. c) v) }
    ensures graphic { (v : List ℕ) → ⟦<GraphicString as Constrainable>⟧.facets v ≡
        textual (length v) (map (λ c. c) v) }
    ensures teletex { (v : List ℕ) → ⟦<TeletexString as Constrainable>⟧.facets v ≡
        textual (length v) (map (λ c. c) v) }
    ensures utf8 { ⟦<String as Constrainable>⟧.facets text.now ≡
        textual (length (chars (string_bytes text.now))) (chars (string_bytes text.now)) }
    ensures tagged { (v : Implicit G T) → ⟦<Implicit<G, T> as Constrainable>⟧.facets v ≡
        T.facets v.value }
    ensures limited { (v : T) → ⟦<Within<T, L> as Constrainable>⟧.facets v ≡ T.facets v }
{}

/// A law of whole numbers (X.680, 51.4): constraints see the number.
pub fn constraints_see_whole_numbers<L: Limits>()
    ensures integer { (v : ℤ) → ⟦<Integer as Constrainable>⟧.facets v ≡ numbered v }
    ensures limited { (v : ℤ) → ⟦<LimitedInteger<L> as Constrainable>⟧.facets v ≡ numbered v }
    ensures of_i8 { (v : ℤ) → ⟦<i8 as Constrainable>⟧.facets v ≡ numbered v }
    ensures of_i16 { (v : ℤ) → ⟦<i16 as Constrainable>⟧.facets v ≡ numbered v }
    ensures of_i32 { (v : ℤ) → ⟦<i32 as Constrainable>⟧.facets v ≡ numbered v }
    ensures of_i64 { (v : ℤ) → ⟦<i64 as Constrainable>⟧.facets v ≡ numbered v }
    ensures of_i128 { (v : ℤ) → ⟦<i128 as Constrainable>⟧.facets v ≡ numbered v }
    ensures of_isize { (v : ℤ) → ⟦<isize as Constrainable>⟧.facets v ≡ numbered v }
    ensures of_u8 { (v : ℕ) → ⟦<u8 as Constrainable>⟧.facets v ≡ numbered (pos v) }
    ensures of_u16 { (v : ℕ) → ⟦<u16 as Constrainable>⟧.facets v ≡ numbered (pos v) }
    ensures of_u32 { (v : ℕ) → ⟦<u32 as Constrainable>⟧.facets v ≡ numbered (pos v) }
    ensures of_u64 { (v : ℕ) → ⟦<u64 as Constrainable>⟧.facets v ≡ numbered (pos v) }
    ensures of_u128 { (v : ℕ) → ⟦<u128 as Constrainable>⟧.facets v ≡ numbered (pos v) }
    ensures of_usize { (v : ℕ) → ⟦<usize as Constrainable>⟧.facets v ≡ numbered (pos v) }
{}
