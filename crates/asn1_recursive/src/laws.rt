//! Laws of what no other contract names: the names in the table.
ghost use Rattle.asn1_components.specs.Alternatives.{all_of, names_of};
ghost use Rattle.std.specs.Prelude.{◌≡◌, [], ◌∷◌, codes};

use crate::nested::Nested;
use asn1_types::Choice;

/// A law of the table: the names of the alternatives of a CHOICE.
pub fn alternatives_have_their_names()
    ensures nested { names_of (all_of ⟦<Nested as Choice>⟧.alternatives) ≡
        codes "null" ∷ codes "flag" ∷ codes "inner" ∷ [] }
{}
