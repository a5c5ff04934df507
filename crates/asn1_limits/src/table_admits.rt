//! Constraints whose tables allow all that they admit.
ghost use Rattle.asn1_limits.specs.LimitTables.{IsAllowedBy, IsInRootOf};
ghost use Rattle.asn1_model.specs.ConstraintSets.{ConstraintSet};

use crate::constrainable::Constrainable;
use crate::restriction::Restriction;

/// A constraint whose table excludes no value that it admits, and whose table's root has each value of its root. A codec whose bits
/// come from the table (X.691) has bits for each value then.
pub trait TableAdmits<T: Constrainable>: Restriction<T> {
    // The laws, over any constraints of the type.
    ghost allows: { (set : ConstraintSet) (v : T) → Self.IsWithin v → IsAllowedBy set (T.facets v) → IsAllowedBy (Self.constrained set) (T.facets v) };

    ghost has_root: { (set : ConstraintSet) (v : T) → Self.IsInRoot v → IsInRootOf set (T.facets v) → IsInRootOf (Self.constrained set) (T.facets v) };
}
