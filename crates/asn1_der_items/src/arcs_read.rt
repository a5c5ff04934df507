//! Reading the arcs of an OBJECT IDENTIFIER.
ghost use Rattle.asn1_der_items.specs.Arcs.{AreArcs};
ghost use Rattle.asn1_der_items.specs.Base128.{BeginWithNumber, base128_at, Front as FrontView};
ghost use Rattle.asn1_items.specs.declared.error.ItemError.TheVariants.{Memory};
ghost use Rattle.std.specs.Prelude.{◌≡◌, ◌+◌, ◌*◌, ◌<◌, ◌≤◌, ◌^◌, ◌++◌, ◌∷◌, [], IfOk, List, MatchResult, OnOk, Some, length, ℕ};

use crate::base128::{Front, read_base128};
use asn1_items::ItemError;
use std::alloc::Global;

/// Reads the arcs of an OBJECT IDENTIFIER.
///
/// # Errors
/// [`ItemError::Memory`], and [`ItemError::Malformed`] where there is no number, one is not whole or not the shortest, or an arc
/// is 2^32 or more.
pub fn read_arcs(alloc: Global, octets: &[u8]) -> Result<Vec<u32>, ItemError>
    ensures read { (list : List ℕ) → AreArcs list octets.now →
        MatchResult result (λ arcs. arcs.items ≡ list) (λ e. e ≡ Memory) }
    ensures only { IfOk result (λ arcs. AreArcs arcs.items octets.now) }
{
    let front = read_number(octets)?;
    let first = first_of(front.number);
    let mut arcs = Vec::with_capacity(alloc, octets.len() + 1)?;
    push_arc(&mut arcs, first)?;
    push_arc(&mut arcs, front.number - first * 40)?;
    let mut left = front.rest;
    while !left.is_empty() {
        let front = read_number(left)?;
        push_arc(&mut arcs, front.number)?;
        left = front.rest;
    }
    Ok(arcs)
}

/// The first of the two arcs that are one number.
fn first_of(number: u64) -> u64
    ensures found { (first second : ℕ) → number ≡ first * 40 + second → first ≤ 2 →
        (first < 2 → second < 40) → result ≡ first }
    ensures within { result * 40 ≤ number }
    ensures small { result ≤ 2 }
    ensures second { result < 2 → number < result * 40 + 40 }
{
    if number < 40 {
        0
    } else if number < 80 {
        1
    } else {
        2
    }
}

/// The number to the base 128 with which the octets begin.
#[inline(always)]
fn read_number(octets: &[u8]) -> Result<Front<'_>, ItemError>
    ensures found { (f : FrontView) → base128_at octets.now ≡ Some f → f.number < 2 ^ 64 →
        MatchResult result (λ x. (x.number ≡ f.number) × (x.rest.now ≡ f.rest)) (λ _. ⊥) }
    ensures only { IfOk result (λ x.
        BeginWithNumber (record { number = x.number; rest = x.rest.now }) octets.now) }
    ensures shorter { IfOk result (λ x. length x.rest.now < length octets.now) }
{
    match read_base128(octets, 0x200_0000_0000_0000) {
        Ok(front) => Ok(front),
        Err(_) => Err(ItemError::Malformed),
    }
}

/// Appends an arc.
#[inline(always)]
fn push_arc(arcs: &mut Vec<u32>, number: u64) -> Result<(), ItemError>
    ensures pushed { number < 2 ^ 32 → MatchResult result
        (λ _. arcs.new.items ≡ arcs.old.items ++ number ∷ []) (λ e. e ≡ Memory) }
    ensures only { OnOk result (number < 2 ^ 32) }
{
    let Ok(arc) = u32::try_from(number) else {
        return Err(ItemError::Malformed);
    };
    if let Err(_) = arcs.push(arc) {
        return Err(ItemError::Memory);
    }
    Ok(())
}
