//! Strings of bits, of hexadecimal digits and of characters.
ghost use Rattle.std.specs.Prelude.{◌≡◌, ◌≢◌, ◌≤◌, ◌<◌, ◌==◌, ℕ, List, not, false, [], ◌∷◌, ◌++◌, length, IfOk, IfSome, MatchOption, MatchResult};
ghost use Rattle.std.specs.Option.{option_map};
ghost use Rattle.std.specs.List.{list_all, prefix_len};
ghost use Rattle.asn1_tokens.specs.Characters as spec;
ghost use Rattle.asn1_tokens.specs.Characters.{apostrophe, quotation_mark};
ghost use Rattle.asn1_tokens.specs.Items as items;
ghost use Rattle.asn1_tokens.specs.Items.{EndsItem, IsCharacterString, IsItem, Splits};
ghost use Rattle.asn1_tokens.specs.Refusals.{IsRefused};

use crate::characters::{first, is_binary_character, is_hex_character};
use crate::error::Refusal;
use crate::kind::TokenKind;

// The text after the quotation mark that ends a cstring, for the text after the one that begins it.
fn after_quotation(text: &[u8]) -> Option<&[u8]>
    ensures rest { option_map (λ rest. rest.now) result ≡ items.after_quotation false text.now }
    ensures ends { IfSome result (λ rest. spec.first rest.now ≢ quotation_mark) }
{
    let mut rest = text;
    let mut is_second = false;
    while let [octet, after @ ..] = rest {
        let is_mark = !is_second && *octet == b'"';
        if is_mark && first(after) != b'"' {
            return Some(after);
        }
        is_second = is_mark;
        rest = after;
    }
    None
}

/// The text after the cstring with which it begins.
pub(crate) fn after_character_string(text: &[u8]) -> Result<&[u8], Refusal>
    requires quotation { spec.first text.now ≡ quotation_mark }
    ensures string { MatchResult result
        (λ after. Splits IsCharacterString text.now after.now)
        (λ refusal. IsRefused refusal text.now) }
    ensures ends { IfOk result (λ after. spec.first after.now ≢ quotation_mark) }
{
    match after_quotation(&text[1..]) {
        Some(after) => Ok(after),
        None => Err(Refusal::UnclosedString),
    }
}

// Whether each character may stand in a bstring.
fn are_binary(body: &[u8]) -> bool
    ensures { result ≡ list_all spec.is_binary_character body.now }
{
    body.iter().all(|octet| is_binary_character(*octet))
}

// Whether each character may stand in an hstring.
fn are_hex(body: &[u8]) -> bool
    ensures { result ≡ list_all spec.is_hex_character body.now }
{
    body.iter().all(|octet| is_hex_character(*octet))
}

// The kind of the characters between two apostrophes, with the letter behind the second.
fn digits_kind(body: &[u8], letter: u8) -> Option<TokenKind>
    ensures kind { MatchOption result
        ((letter ≡ 66 → list_all spec.is_binary_character body.now ≡ false)
        × (letter ≡ 72 → list_all spec.is_hex_character body.now ≡ false))
        (λ kind. IsItem kind (apostrophe ∷ (body.now ++ apostrophe ∷ letter ∷ []))) }
    ensures letter { IfSome result (λ _. 0 < letter) }
    ensures ends { IfSome result (λ kind. (text after : List ℕ) → EndsItem kind text after) }
{
    if letter == b'B' && are_binary(body) {
        Some(TokenKind::BinaryString)
    } else if letter == b'H' && are_hex(body) {
        Some(TokenKind::HexString)
    } else {
        None
    }
}

// How many characters are before the first apostrophe, or all.
fn apostrophe_index(text: &[u8]) -> usize
    ensures index { result ≡ prefix_len (λ c. not (c == apostrophe)) text.now }
    ensures within { result ≤ length text.now }
{
    text.iter().take_while(|octet| **octet != b'\'').count()
}

/// The kind of the bstring or hstring with which the text begins, and the text after it.
pub(crate) fn take_digits(text: &[u8]) -> Result<(TokenKind, &[u8]), Refusal>
    requires quote { spec.first text.now ≡ apostrophe }
    ensures string { MatchResult result
        (λ (kind, after). Splits (IsItem kind) text.now after.now)
        (λ refusal. IsRefused refusal text.now) }
    ensures ends { IfOk result (λ (kind, after). EndsItem kind text.now after.now) }
{
    let inside = &text[1..];
    let end = apostrophe_index(inside);
    if end == inside.len() {
        return Err(Refusal::UnclosedDigits);
    }
    let body = &inside[..end];
    let after = &inside[end + 1..];
    match digits_kind(body, first(after)) {
        Some(kind) => Ok((kind, &after[1..])),
        None => Err(Refusal::NoDigits),
    }
}
