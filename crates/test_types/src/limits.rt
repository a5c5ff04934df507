//! Limits of each kind (X.680, 50 to 52), at types that have them.
ghost use Rattle.std.specs.Prelude.{[], ◌∷◌, codes};
ghost use Rattle.asn1_limits.specs.declared.markers.alphabets.CharacterRange.{CharacterRange};

use asn1_limits::{
    And, CharacterList, CharacterRange, CharacterRanges, Except, LetterRanges, Letters, LimitsOf,
    NumbersFrom, Or, Sizes, Stated, WithMarker, Within, first_character_except,
};
use asn1_values::{Between, BitVec, BmpString, Ia5String, Integer, NamedBitString, OctetString};
use std::test::Fail;

// `SIZE (2 | 4..5)`
type Digest = Within<OctetString, And<Sizes<2, 5>, Or<Sizes<2, 2>, Sizes<4, 5>>>>;

// `FROM ("abc")`
#[derive(Drop)]
enum Abc {}

const ABC: &[u32] = &[97, 98, 99];

impl CharacterList for Abc {
    ghost list = { codes "abc" };

    fn list() -> &'static [u32] {
        ABC
    }
}

// The characters of Hangul, from U+AC00 to U+D7A3.
#[derive(Drop)]
enum Hangul {}

const HANGUL: &[CharacterRange] = &[CharacterRange {
    first: 0xAC00,
    last: 0xD7A3,
}];

impl CharacterRanges for Hangul {
    ghost ranges = { record { first = 0xAC00; last = 0xD7A3 } ∷ [] };

    fn ranges() -> &'static [CharacterRange] {
        HANGUL
    }
}

#[test]
fn sizes_have_gaps(rt: HostRuntime) -> Result<(), Fail> {
    for size in 0..8u8 {
        let mut octets = Vec::new(rt.alloc());
        for octet in 0..size {
            octets.push(octet)?;
        }
        let digest = Digest::new(OctetString::new(octets));
        assert_eq!(rt; digest.is_some(), size == 2 || size == 4 || size == 5);
    }
    Ok(())
}

#[test]
fn zeros_behind_named_bits_count_for_nothing(rt: HostRuntime) -> Result<(), Fail> {
    let bits = BitVec::from_octets(Vec::from_slice(rt.alloc(), &[0x20])?, 0);
    let named = bits.map(NamedBitString::new);
    assert!(rt;
        named.is_some_and(|bits| Within::<NamedBitString, Sizes<8, 16>>::new(bits).is_some())
    );
    Ok(())
}

#[test]
fn numbers_outside_a_root_with_a_marker_are_within(rt: HostRuntime) {
    assert!(rt; Within::<Integer, Between<1, 10>>::new(Integer::from_i128(15)).is_none());
    assert!(rt; Within::<Integer, NumbersFrom<15>>::new(Integer::from_i128(15)).is_some());
    assert!(rt;
        Within::<Integer, Except<NumbersFrom<1>, Between<15, 15>>>::new(Integer::from_i128(
            15
        )).is_none()
    );
    assert!(rt; Within::<u8, LimitsOf<Between<15, 16>>>::new(15).is_some());
    let open = Within::<Integer, WithMarker<Between<1, 10>>>::new(Integer::from_i128(15));
    assert!(rt; open.is_some_and(|number| !number.is_in_root()));
    let stated = Within::<Integer, Stated<Between<1, 20>>>::new(Integer::from_i128(15));
    assert!(rt; stated.is_some_and(|number| number.is_in_root()));
}

#[test]
fn characters_are_counted_and_named(rt: HostRuntime) -> Result<(), Fail> {
    let text = Ia5String::new(Vec::from_slice(rt.alloc(), b"abdc")?);
    assert!(rt; text.is_ok_and(|text| first_character_except::<_, Letters<Abc>>(&text) == Some(2)));
    let names = BmpString::new(Vec::from_slice(rt.alloc(), &[0xAC00, 0xD7A3, 0xD7A4])?);
    assert_eq!(rt;
        first_character_except::<_, LetterRanges<Hangul>>(&names),
        Some(2)
    );
    let two = format!(in rt.alloc(); "\u{e9}\u{20ac}")?;
    assert!(rt; Within::<String, Sizes<2, 2>>::new(two).is_some());
    Ok(())
}
