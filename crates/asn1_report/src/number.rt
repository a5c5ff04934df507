//! Numbers, as they are written.
ghost use Rattle.std.specs.Prelude.{◌≡◌, ℕ, ◌^◌, ◌<◌, ◌≤◌, List, MatchOption, drop, true, ◌&&◌, pos, neg_ℤ, nat_le, nat_lt, if◌then◌else◌};
ghost use Rattle.std.specs.List.{list_all, prefix_len, take_while};
ghost use Rattle.std.specs.Char.{is_ascii_digit};
ghost use Rattle.std.specs.Str.Parse.{digits_value};
ghost use Rattle.asn1_report.specs.NamesAndNumbers.{BeginsWithNumber, SpellsNumber, begins_with_digit, is_plain_number, integer_of};

/// Reads the decimal number below 2^32, without leading zeros, with which the text begins, and gives what is left of the text
/// after its last digit.
#[inline(always)]
pub(crate) fn read_number(text: &[u8]) -> Option<(u32, &[u8])>
    ensures begins { MatchOption result
        ((number : ℕ) (left : List ℕ) → ¬ BeginsWithNumber text.now number left)
        (λ (number, left). BeginsWithNumber text.now number left.now) }
{
    match text {
        [b'0', left @ ..] if begins_with_digit(left) => None,
        [b'0', left @ ..] => Some((0, left)),
        [b'1'..=b'9', ..] => read_digits(text),
        _ => None,
    }
}

// Whether the text begins with a digit.
fn begins_with_digit(text: &[u8]) -> bool
    ensures digit { result ≡ begins_with_digit text.now }
{
    text.first().is_some_and(u8::is_ascii_digit)
}

// The number below 2^32 that the digits write with which the text begins, and what is left of the text after them.
#[inline(always)]
fn read_digits(text: &[u8]) -> Option<(u32, &[u8])>
    ensures digits { let value = digits_value 10 (take_while is_ascii_digit text.now) in
        MatchOption result (2 ^ 32 ≤ value) (λ (number, left). (number ≡ value) × (number < 2 ^ 32)
        × (left.now ≡ drop (prefix_len is_ascii_digit text.now) text.now)) }
{
    let mut number: u32 = 0;
    let mut left = text;
    while let [digit @ b'0'..=b'9', after @ ..] = left {
        number = number
            .checked_mul(10)?
            .checked_add(u32::from(*digit - b'0'))?;
        left = after;
    }
    Some((number, left))
}

/// The number that the text spells: decimal, without leading zeros, with a minus in front where it is below 0, and
/// of 128 bits.
pub(crate) fn read_integer(text: &[u8]) -> Option<i128>
    ensures read { result ≡ integer_of text.now }
{
    match text {
        [b'-', digits @ ..] => negative_of(read_magnitude(digits)?),
        _ => i128::try_from(read_magnitude(text)?).ok(),
    }
}

// The number of that magnitude below 0, if 128 bits hold it.
fn negative_of(magnitude: u128) -> Option<i128>
    ensures negative { result ≡ (if nat_le 1 magnitude && nat_le magnitude (2 ^ 127)
        then Some (neg_ℤ (pos magnitude)) else None) }
{
    let below = i128::try_from(magnitude.checked_sub(1)?).ok()?;
    Some(-1 - below)
}

// The number that the text spells in decimal, without leading zeros; one above 2^127 may be refused.
fn read_magnitude(text: &[u8]) -> Option<u128>
    ensures read { SpellsNumber (is_plain_number text.now) (digits_value 10 text.now) result }
{
    match text {
        [] | [b'0', _, ..] => None,
        _ => read_u128(text),
    }
}

// How many digits 64 bits always hold.
const DIGITS_OF_64_BITS: usize = 19;

// The number that the text writes, if it is digits alone; one above 2^127 may be refused.
fn read_u128(text: &[u8]) -> Option<u128>
    ensures read { SpellsNumber (list_all is_ascii_digit text.now) (digits_value 10 text.now)
        result }
{
    let (high, low) = text.split_at(text.len().saturating_sub(DIGITS_OF_64_BITS));
    let high = read_u64(high)?;
    let low = read_u64(low)?;
    Some(u128::from(high) * 10_000_000_000_000_000_000 + u128::from(low))
}

// The number that the text writes, if it is digits alone and 64 bits hold the number: 0, if the text is empty.
fn read_u64(text: &[u8]) -> Option<u64>
    ensures read { let value = digits_value 10 text.now in
        result ≡ (if list_all is_ascii_digit text.now && nat_lt value (2 ^ 64)
        then Some value else None) }
{
    let mut number: u64 = 0;
    for byte in text {
        if !byte.is_ascii_digit() {
            return None;
        }
        number = number
            .checked_mul(10)?
            .checked_add(u64::from(*byte - b'0'))?;
    }
    Some(number)
}
