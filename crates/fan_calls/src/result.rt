//! Results in the memory of the caller.
ghost use Rattle.std.specs.Prelude.{◌≡◌, ◌⊎◌};
ghost use Rattle.fan_calls.specs.Results.{HasNoRoom, IsPut};
ghost use Rattle.fan_calls.specs.declared.status.Status.TheVariants.{Ok, Room};

use crate::status::Status;

/// Writes a result at the front of the caller's memory, and its length into `size`: [`Status::Ok`]. Without room for all of it, it
/// writes the length alone: [`Status::Room`].
pub fn put(octets: &[u8], buffer: &mut [u8], size: &mut usize) -> Status
    ensures status { (result ≡ Ok) ⊎ (result ≡ Room) }
    ensures fits { result ≡ Ok → IsPut octets.now buffer.old buffer.new size.new }
    ensures no_room { result ≡ Room → HasNoRoom octets.now buffer.old buffer.new size.new }
{
    *size = octets.len();
    if buffer.len() < octets.len() {
        return Status::Room;
    }
    buffer[..octets.len()].copy_from_slice(octets);
    Status::Ok
}
