//! The length octets of an element.
ghost use Rattle.asn1_ber_items.specs.Headers.{Measured as MeasuredView, later_size_at, long_size_at, measured_of, size_at};
ghost use Rattle.asn1_ber_items.specs.Segments.{WritesSize};
ghost use Rattle.asn1_der_items.specs.Cuts.{EndEarly, IsMissing};
ghost use Rattle.asn1_values.specs.Numbers.{magnitude};
ghost use Rattle.std.specs.Prelude.{◌≡◌, ◌*◌, ◌<◌, ◌^◌, ◌↔◌, Decides, IfErr, IfOk, IsOk, Some};

use asn1_der_items::number_of;
use asn1_items::{ItemError, significant};
use std::alloc::AllocError;

/// A length that was read, and the bytes after it.
#[derive(Clone, Copy)]
pub(crate) struct Measured<'a> {
    /// The length, if it is definite.
    pub(crate) size: Option<u64>,
    /// The bytes after the length octets.
    pub(crate) rest: &'a [u8],
}

/// Reads a length, definite or not.
#[inline(always)]
pub(crate) fn read_size(bytes: &[u8]) -> Result<Measured<'_>, ItemError>
    ensures only { IfOk result (λ m. size_at bytes.now ≡ Some (measured_of m)) }
    ensures found { (m : MeasuredView) → size_at bytes.now ≡ Some m → IsOk result }
    ensures missing { IfErr result (λ e. IsMissing e ↔ EndEarly size_at bytes.now) }
{
    let [first, rest @ ..] = bytes else {
        return Err(ItemError::Missing(1));
    };
    if *first < 128 {
        return Ok(Measured {
            size: Some(u64::from(*first)),
            rest,
        });
    }
    read_later_size(usize::from(*first - 128), rest)
}

/// Reads a length after a first octet that is this number and 128.
fn read_later_size(count: usize, octets: &[u8]) -> Result<Measured<'_>, ItemError>
    ensures only { IfOk result (λ m. later_size_at count octets.now ≡ Some (measured_of m)) }
    ensures found { (m : MeasuredView) → later_size_at count octets.now ≡ Some m → IsOk result }
    ensures missing { IfErr result (λ e. IsMissing e ↔
        EndEarly (later_size_at count) octets.now) }
{
    match count {
        0 => Ok(Measured {
            size: None,
            rest: octets,
        }),
        127 => Err(ItemError::Malformed),
        _ => read_long_size(count, octets),
    }
}

/// Reads a length from the first `count` of these octets.
fn read_long_size(count: usize, octets: &[u8]) -> Result<Measured<'_>, ItemError>
    ensures only { IfOk result (λ m. long_size_at count octets.now ≡ Some (measured_of m)) }
    ensures found { (m : MeasuredView) → long_size_at count octets.now ≡ Some m → IsOk result }
    ensures missing { IfErr result (λ e. IsMissing e ↔
        EndEarly (long_size_at count) octets.now) }
{
    let Some((digits, rest)) = octets.split_at_checked(count) else {
        return Err(error_of_cut(octets, count - octets.len()));
    };
    match number_of(digits) {
        Some(number) => Ok(Measured {
            size: Some(number),
            rest,
        }),
        None => Err(ItemError::Malformed),
    }
}

/// The error where this many octets of a length are missing after these. No octets complete a length that is 2^64 or more.
fn error_of_cut(digits: &[u8], missing: usize) -> ItemError
    ensures { IsMissing result ↔ (magnitude digits.now * 256 ^ missing < 2 ^ 64) }
{
    match number_of(digits) {
        Some(number) if fits_before(number, missing) => ItemError::Missing(missing),
        _ => ItemError::Malformed,
    }
}

/// Whether a number is below 2^64 with this many zeros after its digits to the base 256.
fn fits_before(number: u64, zeros: usize) -> bool
    ensures { Decides result (number * 256 ^ zeros < 2 ^ 64) }
{
    let mut shifted = number;
    for _zero in 0..zeros {
        match shifted.checked_mul(256) {
            Some(more) => shifted = more,
            None => return false,
        }
    }
    true
}

/// Writes a length of this size over the octet at an index, and answers how many octets it has beyond one. Those after it are moved
/// only where there are any. Without an octet there nothing is written.
pub(crate) fn write_size(
    octets: &mut Vec<u8>,
    index: usize,
    size: usize,
) -> Result<usize, AllocError>
    ensures { WritesSize index size octets.old.items octets.new.items result }
{
    if octets.len() <= index {
        return Ok(0);
    }
    if size < 128 {
        octets[index] = size as u8;
        return Ok(0);
    }
    let rest = Vec::from_slice(*octets.allocator(), &octets[index + 1..])?;
    octets.truncate(index);
    let long = (size as u64).to_be_bytes();
    let digits = significant(&long);
    octets.push(digits.len() as u8 + 128)?;
    octets.extend_from_slice(digits)?;
    octets.extend_from_slice(rest.as_slice())?;
    Ok(digits.len())
}
