//! CHOICE types that hold themselves.
ghost use Rattle.asn1_components.specs.Alternatives.{OneOf, all_of};
ghost use Rattle.asn1_model.specs.Meaning.{Meaning};
ghost use Rattle.asn1_nesting.specs.InsideItself.{AreCasesOf, IsInside};
ghost use Rattle.asn1_slots.specs.Cases.{Case, IsMade, alternatives_of};
ghost use Rattle.std.specs.Prelude.{List};

use asn1_components::ChoiceType;

/// A CHOICE that holds itself, by its cases. Its alternatives are read by a function of the type's own, which reads the one at an
/// index. It is no method, since a method that leads back to the reading of the type is refused by the check.
pub trait HoldsItself: ChoiceType + Eq + Sized + Drop {
    // What the type is inside itself.
    ghost inside: { Meaning Self };

    // The cases, in the order of the definition: the alternatives, and how a value is made of each.
    ghost cases: { List (Case Self) };

    // The case of a value.
    ghost case_of: { Self → OneOf (alternatives_of cases) };

    // The laws: a value is what is made of its case, the alternatives are those of the cases, and inside itself the type has the
    // same records.
    ghost made: { (v : Self) → IsMade Self.PartialEq.eq cases (case_of v) v };

    ghost are_cases: { AreCasesOf cases case_of (all_of Self.alternatives) Self.pick };

    ghost is_inside: { IsInside inside Self.meaning };
}
