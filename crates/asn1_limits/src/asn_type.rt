//! A type within limits in a schema.
ghost use Rattle.asn1_limits.specs.LimitedTypes.{limited_type};

use crate::restriction::Restriction;
use crate::within::Within;
use asn1_model::{AsnType, TypeTable};

impl<T: AsnType + PartialEq, L: Restriction<T>> AsnType for Within<T, L> {
    ghost meaning = { limited_type L.IsWithin L.constrained T.meaning };

    #[inline(always)]
    fn table() -> TypeTable {
        let table = T::table();
        table.with_constraints(L::constrain(table.constraints))
    }

    #[inline(always)]
    fn is_present(&self) -> bool {
        self.get().is_present()
    }
}
