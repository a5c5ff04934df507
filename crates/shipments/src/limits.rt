//! Limits of more than one part, and alphabets.
ghost use Rattle.std.specs.Prelude.{codes};

use asn1_limits::{And, CharacterList, Or, Sizes};

/// `SIZE (16 | 20..32)`
pub type ChecksumSize = And<Sizes<16, 32>, Or<Sizes<16, 16>, Sizes<20, 32>>>;

/// `"0".."9" | "A".."F"`
#[derive(Drop)]
pub enum Hexadecimal {}

const HEXADECIMAL: &[u32] = &[
    48, 49, 50, 51, 52, 53, 54, 55, 56, 57, 65, 66, 67, 68, 69, 70,
];

impl CharacterList for Hexadecimal {
    ghost list = { codes "0123456789ABCDEF" };

    fn list() -> &'static [u32] {
        HEXADECIMAL
    }
}
