//! Tables of types within limits.
ghost use Rattle.asn1_limits.specs.LimitTables.{IsAllowedBy, IsInRootOf};

use crate::constrainable::Constrainable;
use crate::table_admits::TableAdmits;
use crate::within::Within;
use asn1_model::AsnType;

/// A law of tables: if a type's own table allows a value within limits, so does the table with the constraints of the limits. The same
/// is true of the tables' roots and a value in the root of the limits.
pub fn tables_allow_what_is_within<T: AsnType + Constrainable, L: TableAdmits<T>>(
    value: &Within<T, L>,
)
    ensures allowed { IsAllowedBy T.meaning.constraints (T.facets value.now) →
        IsAllowedBy ⟦<Within<T, L> as AsnType>⟧.meaning.constraints (T.facets value.now) }
    ensures root { L.IsInRoot value.now → IsInRootOf T.meaning.constraints (T.facets value.now) →
        IsInRootOf ⟦<Within<T, L> as AsnType>⟧.meaning.constraints (T.facets value.now) }
{
    let _value = value.get();
}
