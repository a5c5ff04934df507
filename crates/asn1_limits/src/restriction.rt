//! Constraints by the values that they admit.
ghost use Rattle.std.specs.Prelude.{◌≡◌, ◌↔◌, IsTrue, true};
ghost use Rattle.asn1_model.specs.ConstraintSets.{ConstraintSet, table_constraints};

use asn1_bounds::ConstraintTable;

/// The values of a type that a constraint admits (X.680, 50 and 51), as a marker: a type without values of its own.
///
/// A constraint with an extension marker also admits the values that a later version may add (52), so its root is a test of its own.
pub trait Restriction<T: PartialEq> {
    // The value is admitted.
    ghost IsWithin: { T → Type 0 };

    // The value is in the extension root. Without an extension marker each value is that is admitted.
    ghost IsInRoot: { T → Type 0 };

    // The constraints of the type, with those of the marker.
    ghost constrained: { ConstraintSet → ConstraintSet };

    /// Whether the value is admitted.
    fn admits(value: &T) -> bool
        ensures { IsTrue result ↔ IsWithin value.now };

    /// Whether the value is in the extension root.
    fn is_in_root(value: &T) -> bool
        ensures { IsTrue result ↔ IsInRoot value.now };

    /// The table of a type's constraints, with those of the marker.
    fn constrain(table: ConstraintTable<'static>) -> ConstraintTable<'static>
        ensures { table_constraints result ≡ constrained (table_constraints table.entry) };

    // The laws: of equal values both are admitted, or none, and both are in the root, or none; what is in the root is admitted.
    ghost respects: { (v w : T) → T.eq v w ≡ true → IsWithin v → IsWithin w };

    ghost root_respects: { (v w : T) → T.eq v w ≡ true → IsInRoot v → IsInRoot w };

    ghost root_is_within: { (v : T) → IsInRoot v → IsWithin v };
}
