//! The values of slots.
ghost use Rattle.asn1_slots.specs.Slots.{IsOfDefault, holds_or_default, holds_or_passes, is_empty_list, missing_in};
ghost use Rattle.std.specs.Option.{option_map};
ghost use Rattle.std.specs.Prelude.{◌≡◌, Vec, true};

use std::alloc::Global;

/// The name of a required component, if its slot is empty.
#[inline(always)]
pub fn missing<T>(slot: &Option<T>, name: &'static str) -> Option<&'static str>
    ensures { option_map (λ name. name.now) result ≡ missing_in slot.now name.now }
{
    match slot {
        Some(_) => None,
        None => Some(name),
    }
}

/// The component that is in a slot, or the default where there is none.
#[inline(always)]
pub fn or_default<T: Eq + Drop>(slot: Option<T>, default_value: T) -> T
    ensures equal { (v : T) → holds_or_default T.eq default_value slot v ≡ true →
        T.eq result v ≡ true }
    ensures only { IsOfDefault (λ v. T.eq v default_value) slot result }
{
    slot.unwrap_or(default_value)
}

/// The list that is in a slot, or the empty list where there is none: a component with `DEFAULT {}`.
#[inline(always)]
pub fn or_empty<T: Eq + Drop>(alloc: Global, slot: Option<Vec<T>>) -> Vec<T>
    ensures equal { (v : Vec T Global) →
        holds_or_passes ⟦<Vec<T> as PartialEq>⟧.eq (is_empty_list T.eq) slot v ≡ true →
        ⟦<Vec<T> as PartialEq>⟧.eq result v ≡ true }
    ensures only { IsOfDefault (is_empty_list T.eq) slot result }
{
    match slot {
        Some(list) => list,
        None => Vec::new(alloc),
    }
}
