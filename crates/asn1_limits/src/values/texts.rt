//! The size and the characters of a UTF8String (X.680, 41): those of the text, and not its octets.
ghost use Rattle.std.specs.Prelude.{◌≡◌, length, not, position};
ghost use Rattle.std.specs.Str.{chars};
ghost use Rattle.std.specs.String.{string_bytes};
ghost use Rattle.asn1_limits.specs.FacetLaws.{same_characters};
ghost use Rattle.asn1_limits.specs.Facets.{textual};

use crate::constrainable::{Constrainable, HasCharacters, HasSize};
use asn1_bounds::Bounded;
use asn1_values::Alphabet;

impl Constrainable for String {
    ghost facets = { λ v. textual (length (chars (string_bytes v))) (chars (string_bytes v)) };

    ghost same_facets = { λ v w. same_characters (string_bytes v) (string_bytes w) };
}

impl HasSize for String {
    fn has_size_in(&self, sizes: Bounded<usize>) -> bool {
        sizes.contains(&count_characters(self.as_str()))
    }
}

impl HasCharacters for String {
    fn first_except<A: Alphabet<u32>>(&self) -> Option<usize> {
        first_character_except::<A>(self.as_str())
    }
}

/// How many characters the text has.
fn count_characters(text: &str) -> usize
    ensures { result ≡ length (chars text.now) }
{
    text.chars().count()
}

/// The index of the first character that the alphabet lacks, if there is one.
fn first_character_except<A: Alphabet<u32>>(text: &str) -> Option<usize>
    ensures { result ≡ position (λ c. not (A.allows c)) (chars text.now) }
{
    text.chars()
        .position(|character| !A::allows(&u32::from(character)))
}
