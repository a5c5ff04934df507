//! A law: bytes with a first fault are not elements.
ghost use Rattle.std.specs.Prelude.{List, ℕ};
ghost use Rattle.asn1_der_items.specs.Faults.{AreElementsDownTo, IsFirstFault};

/// Bytes with a first fault, looked into down to a depth, are not elements down to that depth. So the two clauses of [`first_fault`]
/// never both fit: it answers a position if and only if the bytes are not elements down to the depth.
///
/// [`first_fault`]: crate::first_fault
pub fn bytes_with_a_fault_are_no_elements()
    ensures { (depth : ℕ) (bytes : List ℕ) (position : ℕ) → IsFirstFault depth bytes position →
        AreElementsDownTo depth bytes → ⊥ }
{}
