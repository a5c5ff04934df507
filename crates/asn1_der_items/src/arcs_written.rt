//! Writing the arcs of an OBJECT IDENTIFIER.
ghost use Rattle.asn1_der_items.specs.Arcs.{AreArcs, AreNumbers, HaveNoOctets};
ghost use Rattle.asn1_der_items.specs.declared.error.ElementError.TheVariants.{Memory};
ghost use Rattle.asn1_items.specs.Numbers.{Appended};
ghost use Rattle.std.specs.Prelude.{◌≢◌, IfErr, IfOk};

use crate::base128::append_base128;
use crate::error::ElementError;
use std::alloc::AllocError;

/// Appends the contents octets of an OBJECT IDENTIFIER: the first two arcs as one number, and each that follows.
///
/// # Errors
/// [`ElementError::Memory`], after which there may be some of them; and [`ElementError::NoSuchArcs`] where there are fewer than two
/// arcs, the first is above 2, or the second is above 39 after a first below 2.
pub fn append_arcs(bytes: &mut Vec<u8>, arcs: &[u32]) -> Result<(), ElementError>
    ensures appended { IfOk result (λ _.
        Appended (AreArcs arcs.now) bytes.old.items bytes.new.items) }
    ensures refused { IfErr result (λ e. e ≢ Memory → HaveNoOctets arcs.now) }
{
    let [first, second, rest @ ..] = arcs else {
        return Err(ElementError::NoSuchArcs);
    };
    if *first > 2 || (*first < 2 && *second > 39) {
        return Err(ElementError::NoSuchArcs);
    }
    append_base128(bytes, u64::from(*first) * 40 + u64::from(*second))?;
    Ok(append_numbers(bytes, rest)?)
}

/// Appends numbers to the base 128, one after another.
fn append_numbers(bytes: &mut Vec<u8>, numbers: &[u32]) -> Result<(), AllocError>
    ensures { IfOk result (λ _.
        Appended (AreNumbers numbers.now) bytes.old.items bytes.new.items) }
{
    for number in numbers {
        append_base128(bytes, u64::from(*number))?;
    }
    Ok(())
}
