//! Bits: the size of a number, and the usages of a key.
ghost use Rattle.std.specs.Prelude.{◌≡◌, ◌-◌, ◌<◌, ◌++◌, OnOk};
ghost use Rattle.std.specs.Int.{leading_zeros, w8};
ghost use Rattle.std.specs.String.{string_bytes};
ghost use Rattle.asn1_values.specs.Numbers.{IsShortest, magnitude};
ghost use Rattle.asn1_certificate_text.specs.Bits.{IsBitLength, is_set, text_if_set, usage_name, usage_text, usages_text};

use std::alloc::AllocError;

/// The number of bits of a number with these octets, the most significant first and without leading zeros.
pub fn bit_length(octets: &[u8]) -> u128
    ensures { IsShortest octets.now → IsBitLength (magnitude octets.now) result }
{
    match octets {
        [] => 0,
        [first, rest @ ..] => rest.len() as u128 * 8 + used_bits(*first),
    }
}

/// The number of bits of an octet without its leading zeros.
fn used_bits(octet: u8) -> u128
    ensures { result ≡ 8 - leading_zeros w8 octet }
{
    u128::from(8 - octet.leading_zeros())
}

/// The number of usages with names.
const USAGES: usize = 9;

/// Appends the names of the usages of a key (RFC 5280, 4.2.1.3), with a comma between each two. A bit after the ninth
/// has no name.
pub fn push_usages(text: &mut String, bits: &[bool]) -> Result<(), AllocError>
    ensures { OnOk result (string_bytes text.new ≡ string_bytes text.old ++ usages_text bits.now) }
{
    let mut is_later = false;
    for i in 0..USAGES {
        let set = is_set(bits, i);
        push_if_set(text, set, is_later, i)?;
        is_later = is_later | set;
    }
    Ok(())
}

/// Whether the bit of this number is set.
fn is_set(bits: &[bool], number: usize) -> bool
    ensures { result ≡ is_set bits.now number }
{
    bits.get(number).copied().unwrap_or(false)
}

/// Appends the name of a usage whose bit is set.
fn push_if_set(
    text: &mut String,
    set: bool,
    is_later: bool,
    number: usize,
) -> Result<(), AllocError>
    requires { number < 9 }
    ensures { OnOk result (string_bytes text.new ≡
        string_bytes text.old ++ text_if_set set is_later number) }
{
    if set {
        push_usage(text, is_later, number)
    } else {
        Ok(())
    }
}

/// Appends the name of a usage, after a comma if it is a later one.
fn push_usage(text: &mut String, is_later: bool, number: usize) -> Result<(), AllocError>
    requires { number < 9 }
    ensures { OnOk result (string_bytes text.new ≡
        string_bytes text.old ++ usage_text is_later number) }
{
    if is_later {
        text.push_str(", ")?;
        return text.push_str(usage_name(number));
    }
    text.push_str(usage_name(number))
}

/// The name of the usage whose bit has this number.
fn usage_name(number: usize) -> &'static str
    requires { number < 9 }
    ensures { result.now ≡ usage_name number }
{
    match number {
        0 => "digitalSignature",
        1 => "nonRepudiation",
        2 => "keyEncipherment",
        3 => "dataEncipherment",
        4 => "keyAgreement",
        5 => "keyCertSign",
        6 => "cRLSign",
        7 => "encipherOnly",
        8 => "decipherOnly",
        _ => unreachable!(),
    }
}
