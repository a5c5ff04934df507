//! A value that is read into a box.
ghost use Rattle.std.specs.Fn.{FnOnceReturnsAtMut};
ghost use Rattle.std.specs.Prelude.{◌≡◌, Err, MatchResult, Result, alloc_error};

use crate::decoder::Decoder;
use std::alloc::AllocError;

/// Reads a value by the closure, and moves it into a box. The decoder is as the closure left it, also where there was no memory for
/// the box: it has read past the value, and has not failed.
///
/// It takes a closure so that its contract can name what the reading left. By the contract of a type, an error of its own reading
/// may be one of memory too, so the contract of a box's reading cannot tell the two apart.
#[inline(always)]
pub(crate) fn read_boxed<
    T: Drop,
    E: From<AllocError> + Drop,
    D: Decoder,
    F: FnOnce(&mut D) -> Result<T, E>,
>(decoder: &mut D, read: F) -> Result<Box<T>, E>
    requires { F.IsAlwaysCallable read }
    ensures { (answer : Result T E) × FnOnceReturnsAtMut F.FnOnce read decoder.old answer
        decoder.new × MatchResult answer (λ value. MatchResult result (λ boxed. boxed.value ≡ value)
        (λ e. E.from_gives alloc_error e)) (λ e. result ≡ Err e) }
{
    let value = match read(decoder) {
        Ok(value) => value,
        Err(error) => return Err(error),
    };
    match Box::new(decoder.global(), value) {
        Ok(boxed) => Ok(boxed),
        Err(_) => Err(E::from(AllocError)),
    }
}
