//! Values that cases make.
ghost use Rattle.std.specs.Prelude.{◌≡◌, IfOk, string_bytes};

use crate::failure::Failure;
use asn1_values::{Alphabet, AlphabetString, UnitString};
use std::alloc::Global;

/// A string of a kind that has an alphabet.
///
/// # Errors
/// [`Failure::Memory`], or [`Failure::Another`] where a letter is not in the alphabet.
pub fn letters<A: Alphabet<u8>>(
    alloc: Global,
    letters: &[u8],
) -> Result<AlphabetString<u8, A>, Failure>
    ensures units { IfOk result (λ string. string ≡ letters.now) }
{
    let letters = Vec::from_slice(alloc, letters)?;
    match AlphabetString::new(letters) {
        Ok(string) => Ok(string),
        Err(_) => Err(Failure::Another),
    }
}

/// A string of a kind that has no alphabet, or an object identifier of these arcs.
///
/// # Errors
/// [`Failure::Memory`].
pub fn units<U: Copy, K>(alloc: Global, units: &[U]) -> Result<UnitString<U, K>, Failure>
    ensures units { IfOk result (λ string. string ≡ units.now) }
{
    let units = Vec::from_slice(alloc, units)?;
    Ok(UnitString::new(units))
}

/// A text.
///
/// # Errors
/// [`Failure::Memory`].
pub fn text(alloc: Global, text: &str) -> Result<String, Failure>
    ensures text { IfOk result (λ string. string_bytes string ≡ text.now) }
{
    Ok(String::from_str(alloc, text)?)
}

/// A list.
///
/// # Errors
/// [`Failure::Memory`].
pub fn list<T: Copy>(alloc: Global, elements: &[T]) -> Result<Vec<T>, Failure>
    ensures elements { IfOk result (λ list. list.items ≡ elements.now) }
{
    Ok(Vec::from_slice(alloc, elements)?)
}
