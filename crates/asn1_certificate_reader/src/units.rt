//! Octets of strings that are the numbers of characters.
ghost use Rattle.std.proofs.Math.Utf8.{scalar};
ghost use Rattle.std.specs.Prelude.{◌≡◌};
ghost use Rattle.asn1_certificate_reader.specs.Units.{are_bmp_characters};

/// Whether octets are the numbers of characters, two octets each, as those of a BMPString are.
pub(crate) fn are_bmp_characters(octets: &[u8]) -> bool
    ensures { result ≡ are_bmp_characters octets.now }
{
    let mut left = octets;
    while let [a, b, rest @ ..] = left {
        if !is_character(u32::from(u16::from_be_bytes([*a, *b]))) {
            return false;
        }
        left = rest;
    }
    left.is_empty()
}

/// Whether a character has this number.
#[tactic(auto, using(asn1_contents::proofs::CharactersOfOctets::is_number))]
fn is_character(number: u32) -> bool
    ensures { result ≡ scalar number }
{
    char::from_u32(number).is_some()
}
