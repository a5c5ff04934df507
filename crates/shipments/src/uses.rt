//! The use of limits in a program.
ghost use Rattle.std.specs.Prelude.{◌≡◌, IfOk, Some, slice_get, true};

use crate::shipment::Shipment;
use asn1_schema::{RoundTripError, Rules, Utf8String, round_trip};

/// The first line, which each shipment has.
pub fn first_line(shipment: &Shipment) -> &Utf8String
    ensures { slice_get shipment.now.lines.items 0 ≡ Some result.now }
{
    let lines = shipment.lines.get();
    &lines[0]
}

/// The shipment, written and read by a codec.
///
/// # Errors
/// Those of [`round_trip`].
pub fn shipment_comes_back<R: Rules>(
    rules: &R,
    shipment: &Shipment,
    depth: usize,
) -> Result<Shipment, RoundTripError>
    ensures { IfOk result (λ back. ⟦<Shipment as PartialEq>⟧.eq back shipment.now ≡ true) }
{
    round_trip(rules, shipment, depth, depth)
}
