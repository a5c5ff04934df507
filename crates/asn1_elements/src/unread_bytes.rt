//! How many bytes have not been read.
ghost use Rattle.asn1_elements.specs.UnreadBytes.{bytes_left};
ghost use Rattle.std.specs.Prelude.{◌≡◌, ◌<◌, ◌^◌};

use asn1_items::Slices;

/// How many bytes are left of the lists that are open. It leaves them, one after another.
pub(crate) fn bytes_left(slices: &mut Slices<'_>) -> usize
    ensures { bytes_left slices.old < 2 ^ 64 → result ≡ bytes_left slices.old }
{
    let inside = slices.left().len();
    if !slices.leave() {
        return inside;
    }
    inside.saturating_add(bytes_left(slices))
}
