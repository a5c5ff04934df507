//! In how many octets the ends of a bound can be written.
ghost use Rattle.std.specs.Prelude.{◌≡◌, ◌&&◌, find};
ghost use Rattle.asn1_ranges.specs.Octets.{is_signed, fits_octets, octets_of};

use crate::bounded::Bounded;

impl Bounded<i128> {
    /// Whether numbers of the bound need a sign, and the least of 1, 2, 4 and 8 octets that holds both ends, with
    /// that sign or without.
    ///
    /// A sign is needed where the start is negative or missing. There are no octets where 8 do not hold both ends,
    /// or where an end is missing.
    pub fn range_in_bytes(&self) -> (bool, Option<u8>)
        ensures signed { result.0 ≡ is_signed self.now }
        ensures octets { result.1 ≡ octets_of self.now }
    {
        let signed = match self.as_start() {
            Some(start) => *start < 0,
            None => true,
        };
        let octets = match self.start_and_end() {
            (Some(start), Some(end)) => first_width(&[1, 2, 4, 8], signed, *start, *end),
            _ => None,
        };
        (signed, octets)
    }
}

// The first of some numbers of octets that holds both numbers.
fn first_width(widths: &[u8], signed: bool, start: i128, end: i128) -> Option<u8>
    ensures { result ≡ find
        (λ octets. fits_octets signed octets start && fits_octets signed octets end) widths.now }
{
    widths.iter().copied().find(|octets| fits_octets(signed, *octets, start)
        && fits_octets(signed, *octets, end))
}

// Whether this many octets hold the number, in two's complement where there is a sign.
fn fits_octets(signed: bool, octets: u8, number: i128) -> bool
    ensures { result ≡ fits_octets signed octets number }
{
    let bits = 8 * u32::from(octets);
    if signed {
        match 2i128.checked_pow(bits.saturating_sub(1)) {
            Some(half) => -half <= number && number < half,
            None => true,
        }
    } else {
        match 2i128.checked_pow(bits) {
            Some(limit) => 0 <= number && number < limit,
            None => 0 <= number,
        }
    }
}
