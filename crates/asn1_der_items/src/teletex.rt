//! Writing the units of a TeletexString.
ghost use Rattle.asn1_der_items.specs.Contents.{AreTeletexOctets, SomeIsWide};
ghost use Rattle.asn1_der_items.specs.declared.error.ElementError.TheVariants.{Memory};
ghost use Rattle.asn1_items.specs.Numbers.{Appended};
ghost use Rattle.std.specs.Prelude.{◌≢◌, IfErr, IfOk};

use crate::error::ElementError;

/// Appends the contents octets of a TeletexString, an octet for each unit.
///
/// # Errors
/// [`ElementError::Memory`], and [`ElementError::WideUnit`] where a unit is above 255. After either there may be some of them.
pub fn append_teletex(bytes: &mut Vec<u8>, units: &[u32]) -> Result<(), ElementError>
    ensures appended { IfOk result (λ _.
        Appended (AreTeletexOctets units.now) bytes.old.items bytes.new.items) }
    ensures refused { IfErr result (λ e. e ≢ Memory → SomeIsWide units.now) }
{
    for unit in units {
        let Ok(octet) = u8::try_from(*unit) else {
            return Err(ElementError::WideUnit);
        };
        bytes.extend_from_slice(&[octet])?;
    }
    Ok(())
}
