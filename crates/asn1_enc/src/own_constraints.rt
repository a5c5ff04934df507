//! The constraints of a type, by its table.
ghost use Rattle.asn1_laws.specs.Writing.{IsOutOfMemory};
ghost use Rattle.asn1_model.specs.ConstraintSets.{constraint_set, table_constraints};
ghost use Rattle.std.specs.Prelude.{◌≡◌, IfErr, IfOk, OnOk};

use crate::encoder::Encoder;
use asn1_bounds::Constraints;
use asn1_laws::EncodeError;
use asn1_model::TypeTable;

/// Makes the constraints of a table. The encoder has failed if memory runs out for them.
#[inline(always)]
pub(crate) fn make_constraints<E: Encoder>(
    encoder: &mut E,
    table: &TypeTable,
) -> Result<Constraints<'static>, EncodeError>
    ensures made { IfOk result
        (λ set. constraint_set set ≡ table_constraints table.now.constraints) }
    ensures same { OnOk result (encoder.new ≡ encoder.old) }
    ensures refused { IfErr result (IsOutOfMemory E.writer encoder.old encoder.new) }
{
    match table.constraints.to_constraints(encoder.global()) {
        Ok(constraints) => Ok(constraints),
        Err(_) => Err(encoder.refuse_memory()),
    }
}
