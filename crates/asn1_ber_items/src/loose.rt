//! Primitive contents octets as BER has them, more than DER has.
ghost use Rattle.asn1_ber_items.specs.LooseContents.{AreLooseBits, AreSameBits, IsTruthValue};
ghost use Rattle.asn1_items.specs.Bits.{AreBits, bits_of_octet};
ghost use Rattle.asn1_items.specs.declared.error.ItemError.TheVariants.{Malformed, Memory};
ghost use Rattle.std.specs.Prelude.{◌≡◌, ◌⊎◌, ◌<◌, ◌-◌, ◌++◌, Bool, IfErr, IfOk, List, MatchResult, false, replicate, take, ℕ};

use asn1_items::ItemError;
use std::alloc::Global;

/// The truth value of the contents octets (X.690, 8.2.2): TRUE is any octet but zero.
///
/// # Errors
/// [`ItemError::Malformed`] where there is not one octet.
pub fn read_truth_value(octets: &[u8]) -> Result<bool, ItemError>
    ensures found { (value : Bool) → IsTruthValue value octets.now → result ≡ Ok value }
    ensures only { IfOk result (λ value. IsTruthValue value octets.now) }
    ensures refused { IfErr result (λ e. e ≡ Malformed) }
{
    match octets {
        [octet] => Ok(*octet != 0),
        _ => Err(ItemError::Malformed),
    }
}

/// The contents octets of a bit string as DER has them: the unused bits of the last octet are 0 (X.690, 11.2.1).
///
/// # Errors
/// [`ItemError::Memory`], and [`ItemError::Malformed`] where the bytes are no bits (8.6.2).
pub fn strict_bits(alloc: Global, bytes: &[u8]) -> Result<Vec<u8>, ItemError>
    ensures found { (bits : List Bool) → AreLooseBits bits bytes.now →
        MatchResult result (λ own. AreBits bits own.items) (λ e. e ≡ Memory) }
    ensures only { IfOk result (λ own. AreSameBits bytes.now own.items) }
    ensures refused { IfErr result (λ e. (e ≡ Memory) ⊎ (e ≡ Malformed)) }
{
    let Some((unused, octets)) = bytes.split_first() else {
        return Err(ItemError::Malformed);
    };
    if *unused > 7 {
        return Err(ItemError::Malformed);
    }
    let mut bits = Vec::new(alloc);
    bits.extend_from_slice(&[*unused])?;
    match octets.split_last() {
        Some((last, front)) => {
            bits.extend_from_slice(front)?;
            bits.extend_from_slice(&[without_unused(*last, *unused)])?;
            Ok(bits)
        }
        None if *unused == 0 => Ok(bits),
        None => Err(ItemError::Malformed),
    }
}

/// The octet with this many of its last bits set to 0.
fn without_unused(octet: u8, unused: u8) -> u8
    requires { unused < 8 }
    ensures { bits_of_octet result ≡
        take (8 - unused) (bits_of_octet octet) ++ replicate unused false }
{
    match unused {
        0 => octet,
        1 => octet / 2 * 2,
        2 => octet / 4 * 4,
        3 => octet / 8 * 8,
        4 => octet / 16 * 16,
        5 => octet / 32 * 32,
        6 => octet / 64 * 64,
        _ => octet / 128 * 128,
    }
}
