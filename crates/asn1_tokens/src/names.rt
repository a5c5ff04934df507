//! Names, reserved words and numbers.
ghost use Rattle.std.specs.Prelude.{◌≡◌, ◌≤◌, ◌<◌, ℕ, List, true, false, length, IfOk, MatchResult};
ghost use Rattle.std.specs.List.{prefix_len};
ghost use Rattle.std.specs.Char.{is_ascii_alphabetic, is_ascii_digit};
ghost use Rattle.asn1_tokens.specs.Characters as spec;
ghost use Rattle.asn1_tokens.specs.Items as items;
ghost use Rattle.asn1_tokens.specs.Items.{EndsItem, EndsName, IsItem, IsNumber, Splits, is_spelled_as_name};
ghost use Rattle.asn1_tokens.specs.Refusals.{IsRefused};

use crate::characters::first;
use crate::error::Refusal;
use crate::kind::TokenKind;
use crate::reserved_words::is_reserved;

// Whether the character, with the next one, goes on with a name.
#[inline]
fn is_in_name(octet: u8, next: u8) -> bool
    ensures { result ≡ spec.is_in_name octet next }
{
    octet.is_ascii_alphanumeric() || octet == b'-' && next.is_ascii_alphanumeric()
}

// The text after the letters, digits and hyphens of a name.
fn after_name(text: &[u8]) -> &[u8]
    ensures rest { result.now ≡ items.after_name text.now }
    ensures within { length result.now ≤ length text.now }
{
    let mut rest = text;
    while let [octet, after @ ..] = rest {
        if !is_in_name(*octet, first(after)) {
            return rest;
        }
        rest = after;
    }
    rest
}

// The kind of a word.
fn word_kind(word: &[u8]) -> TokenKind
    requires letter { is_ascii_alphabetic (spec.first word.now) ≡ true }
    requires spelled { is_spelled_as_name word.now ≡ true }
    ensures item { IsItem result word.now }
    ensures ends { (text after : List ℕ) → EndsName after → EndsItem result text after }
{
    if first(word).is_ascii_lowercase() {
        TokenKind::Identifier
    } else if is_reserved(word) {
        TokenKind::ReservedWord
    } else {
        TokenKind::TypeReference
    }
}

/// The kind of the word with which the text begins, and the text after it.
pub(crate) fn take_word(text: &[u8]) -> (TokenKind, &[u8])
    requires letter { is_ascii_alphabetic (spec.first text.now) ≡ true }
    ensures item { Splits (IsItem result.0) text.now result.1.now }
    ensures ends { EndsItem result.0 text.now result.1.now }
{
    let after = after_name(text);
    let word = &text[..text.len() - after.len()];
    (word_kind(word), after)
}

// How many digits the text begins with.
fn digit_count(text: &[u8]) -> usize
    ensures count { result ≡ prefix_len is_ascii_digit text.now }
    ensures within { result ≤ length text.now }
{
    text.iter()
        .take_while(|octet| octet.is_ascii_digit())
        .count()
}

/// The text after the number with which it begins.
pub(crate) fn after_number(text: &[u8]) -> Result<&[u8], Refusal>
    requires digit { is_ascii_digit (spec.first text.now) ≡ true }
    ensures number { MatchResult result
        (λ after. Splits IsNumber text.now after.now)
        (λ refusal. IsRefused refusal text.now) }
    ensures ends { IfOk result (λ after. is_ascii_digit (spec.first after.now) ≡ false) }
{
    let length = digit_count(text);
    if first(text) == b'0' && 1 < length {
        return Err(Refusal::LeadingZero);
    }
    Ok(&text[length..])
}
