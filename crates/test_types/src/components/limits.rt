//! Numbers outside their limits.
ghost use Rattle.std.specs.Prelude.{pos};
ghost use Rattle.test_types.specs.ComponentExamples.{number_in_group, number_with_default};

use asn1_model::AsnType;
use asn1_values::ConstrainedInteger;

/// A number that is no default and outside its limits is of no value of the type, in a component with a default and in a group.
/// A default may be any number.
fn numbers_outside_their_limits()
    ensures written { ¬ (number_with_default (pos 1)
        ⟦<ConstrainedInteger<1, 10> as AsnType>⟧.meaning).IsOfType (pos 11) }
    ensures default { (number_with_default (pos 11)
        ⟦<ConstrainedInteger<1, 10> as AsnType>⟧.meaning).IsOfType (pos 11) }
    ensures in_group { ¬ (number_in_group
        ⟦<ConstrainedInteger<1, 10> as AsnType>⟧.meaning).IsOfType (pos 11) }
{}
