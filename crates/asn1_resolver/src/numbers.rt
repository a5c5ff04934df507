//! Whole numbers.
use crate::fault::Fault;
use crate::governed::Scope;
use crate::resolver::Resolver;
use asn1_notation::Number;

impl<'r, 'a> Resolver<'r, 'a> {
    /// The whole number that is written.
    pub(crate) fn number(&mut self, scope: Scope<'a>, number: &Number) -> Result<i128, Fault> {
        match parse_digits(scope.octets(number.digits), number.is_negative) {
            Some(value) => Ok(value),
            None => Err(self.refuse(
                scope.place(number.digits),
                &[b"the number does not fit into 128 bits"],
            )),
        }
    }
}

// The number with these digits, if it fits.
fn parse_digits(digits: &[u8], is_negative: bool) -> Option<i128> {
    let mut value: i128 = 0;
    for digit in digits {
        let digit = (digit.checked_sub(b'0')?) as i128;
        let tens = value.checked_mul(10)?;
        value = if is_negative {
            tens.checked_sub(digit)?
        } else {
            tens.checked_add(digit)?
        };
    }
    Some(value)
}
