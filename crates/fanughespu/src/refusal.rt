//! Statuses of octets that were not read.
ghost use Rattle.std.specs.Prelude.{◌≡◌, ◌≢◌};
ghost use Rattle.asn1_items.specs.declared.error.ItemError.TheVariants.{Memory};
ghost use Rattle.fan_calls.specs.declared.status.Status.TheVariants.{Fault, Memory as OutOfMemory};

use asn1_items::ItemError;
use fan_calls::Status;

/// The status of octets that were not read for this reason.
pub(crate) fn refusal(error: ItemError) -> Status
    ensures memory { error ≡ Memory → result ≡ OutOfMemory }
    ensures fault { error ≢ Memory → result ≡ Fault }
{
    match error {
        ItemError::Memory => Status::Memory,
        ItemError::Missing(_) | ItemError::Malformed => Status::Fault,
    }
}
