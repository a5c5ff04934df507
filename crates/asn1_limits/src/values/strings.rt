//! The sizes and the characters of strings (X.680, 51.5 and 51.7): how many bits, octets or characters there are.
ghost use Rattle.std.specs.Prelude.{length, map};
ghost use Rattle.asn1_limits.specs.FacetLaws.{same_text};
ghost use Rattle.asn1_limits.specs.Facets.{textual};

use crate::constrainable::{Constrainable, HasCharacters, HasSize};
use crate::values::units::{NumberedUnit, first_except};
use asn1_bounds::Bounded;
use asn1_values::{
    Alphabet, AlphabetString, BmpString, GeneralString, GraphicString, TeletexString, UnitString,
};

impl<U: NumberedUnit, K> Constrainable for UnitString<U, K> {
    ghost facets = { λ v. textual (length v) (map U.number v) };

    ghost same_facets = { same_text U.eq U.number U.same_number };
}

impl<U: NumberedUnit, K> HasSize for UnitString<U, K> {
    fn has_size_in(&self, sizes: Bounded<usize>) -> bool {
        sizes.contains(&self.len())
    }
}

impl<U: NumberedUnit, A: Alphabet<U>> Constrainable for AlphabetString<U, A> {
    ghost facets = { λ v. textual (length v) (map U.number v) };

    ghost same_facets = { same_text U.eq U.number U.same_number };
}

impl<U: NumberedUnit, A: Alphabet<U>> HasSize for AlphabetString<U, A> {
    fn has_size_in(&self, sizes: Bounded<usize>) -> bool {
        sizes.contains(&self.len())
    }
}

impl<A: Alphabet<u8>> HasCharacters for AlphabetString<u8, A> {
    fn first_except<P: Alphabet<u32>>(&self) -> Option<usize> {
        first_except::<_, P>(self.as_slice())
    }
}

impl HasCharacters for BmpString {
    fn first_except<P: Alphabet<u32>>(&self) -> Option<usize> {
        first_except::<_, P>(self.as_slice())
    }
}

/// The characters are the octets, which with escape sequences are not those that are shown.
impl HasCharacters for GeneralString {
    fn first_except<P: Alphabet<u32>>(&self) -> Option<usize> {
        first_except::<_, P>(self.as_slice())
    }
}

/// The characters are the octets, as those of a GeneralString.
impl HasCharacters for GraphicString {
    fn first_except<P: Alphabet<u32>>(&self) -> Option<usize> {
        first_except::<_, P>(self.as_slice())
    }
}

/// The characters are the units, as those of a GeneralString.
impl HasCharacters for TeletexString {
    fn first_except<P: Alphabet<u32>>(&self) -> Option<usize> {
        first_except::<_, P>(self.as_slice())
    }
}
