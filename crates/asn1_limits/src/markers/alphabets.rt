//! Limits of characters (X.680, 51.7).
ghost use Rattle.std.specs.Prelude.{◌≡◌, ◌↔◌, ℕ, IsNone, List, not, position};
ghost use Rattle.std.proofs.Common.{subst};
ghost use Rattle.asn1_limits.specs.CharacterRanges.{is_in_ranges};
ghost use Rattle.asn1_limits.specs.Facets.{HasOnly};
ghost use Rattle.asn1_limits.specs.LimitTables.{characters_allowed, characters_in_root, with_characters};
ghost use Rattle.asn1_limits.specs.declared.markers.alphabets.CharacterRange.{CharacterRange};
ghost use Rattle.asn1_values.specs.Alphabets.{is_among};

use crate::constrainable::HasCharacters;
use crate::restriction::Restriction;
use crate::table_admits::TableAdmits;
use asn1_bounds::ConstraintTable;
use asn1_values::Alphabet;
use std::marker::PhantomData;

/// The index of the first character of the value that the alphabet lacks, if there is one: [`Letters`] and [`LetterRanges`] are
/// alphabets.
pub fn first_character_except<T: HasCharacters, A: Alphabet<u32>>(value: &T) -> Option<usize>
    ensures first { result ≡ position (λ c. not (A.allows c)) (T.facets value.now).characters }
    ensures none { IsNone result ↔ HasOnly A.allows (T.facets value.now) }
{
    value.first_except::<A>()
}

/// Characters, as a marker.
pub trait CharacterList {
    // The characters, by their numbers.
    ghost list: { List ℕ };

    /// The characters, by their numbers.
    fn list() -> &'static [u32]
        ensures { result.now ≡ list };
}

/// `FROM (..)` with the characters of a list, which a table states.
#[derive(Drop)]
pub struct Letters<C> {
    characters: PhantomData<C>,
}

impl<C: CharacterList> Alphabet<u32> for Letters<C> {
    ghost allows = { is_among C.list };

    fn allows(character: &u32) -> bool {
        C::list().contains(character)
    }
}

impl<T: HasCharacters, C: CharacterList> Restriction<T> for Letters<C> {
    ghost IsWithin = { λ v. HasOnly (is_among C.list) (T.facets v) };

    ghost IsInRoot = { λ v. HasOnly (is_among C.list) (T.facets v) };

    ghost constrained = { with_characters C.list };

    fn admits(value: &T) -> bool {
        first_character_except::<T, Self>(value).is_none()
    }

    fn is_in_root(value: &T) -> bool {
        Self::admits(value)
    }

    fn constrain(table: ConstraintTable<'static>) -> ConstraintTable<'static> {
        table.with_permitted_alphabet(C::list())
    }

    ghost respects = { λ v w equal. subst (HasOnly (is_among C.list)) (T.same_facets v w equal) };

    ghost root_respects = { λ v w equal. subst (HasOnly (is_among C.list)) (T.same_facets v w equal) };

    ghost root_is_within = { λ v root. root };
}

impl<T: HasCharacters, C: CharacterList> TableAdmits<T> for Letters<C> {
    ghost allows = { λ set v. characters_allowed set (T.facets v) C.list };

    ghost has_root = { λ set v. characters_in_root set (T.facets v) C.list };
}

/// The characters from a first to a last one, by their numbers.
#[derive(Clone, Copy, Debug, PartialEq, Eq)]
pub struct CharacterRange {
    /// The first.
    pub first: u32,
    /// The last.
    pub last: u32,
}

/// Ranges of characters, as a marker.
pub trait CharacterRanges {
    // The ranges.
    ghost ranges: { List CharacterRange };

    /// The ranges.
    fn ranges() -> &'static [CharacterRange]
        ensures { result.now ≡ ranges };
}

/// `FROM (..)` with the characters of ranges, for more of them than a list is to have. A table has no constraints for it.
#[derive(Drop)]
pub struct LetterRanges<R> {
    ranges: PhantomData<R>,
}

impl<R: CharacterRanges> Alphabet<u32> for LetterRanges<R> {
    ghost allows = { is_in_ranges R.ranges };

    fn allows(character: &u32) -> bool {
        R::ranges().iter().any(|range| range.first <= *character && *character <= range.last)
    }
}

impl<T: HasCharacters, R: CharacterRanges> Restriction<T> for LetterRanges<R> {
    ghost IsWithin = { λ v. HasOnly (is_in_ranges R.ranges) (T.facets v) };

    ghost IsInRoot = { λ v. HasOnly (is_in_ranges R.ranges) (T.facets v) };

    ghost constrained = { λ set. set };

    fn admits(value: &T) -> bool {
        first_character_except::<T, Self>(value).is_none()
    }

    fn is_in_root(value: &T) -> bool {
        Self::admits(value)
    }

    fn constrain(table: ConstraintTable<'static>) -> ConstraintTable<'static> {
        table
    }

    ghost respects = { λ v w equal. subst (HasOnly (is_in_ranges R.ranges)) (T.same_facets v w equal) };

    ghost root_respects = { λ v w equal. subst (HasOnly (is_in_ranges R.ranges)) (T.same_facets v w equal) };

    ghost root_is_within = { λ v root. root };
}

impl<T: HasCharacters, R: CharacterRanges> TableAdmits<T> for LetterRanges<R> {
    ghost allows = { λ set v within allowed. allowed };

    ghost has_root = { λ set v root has. has };
}
