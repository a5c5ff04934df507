//! Tokens.
ghost use Rattle.std.specs.Prelude.{◌≡◌, ◌≤◌, ◌<◌, true, [], length, IfOk, IfErr, IfSome, MatchOption, MatchResult};
ghost use Rattle.asn1_tokens.specs.Characters as spec;
ghost use Rattle.asn1_tokens.specs.Items.{EndsItem, IsItem, Splits};
ghost use Rattle.asn1_tokens.specs.Refusals.{IsRefused, Refuses, RefusesAt};
ghost use Rattle.asn1_tokens.specs.Skipped.{Skips, is_unskipped};
ghost use Rattle.asn1_tokens.specs.Tokens.{AreTokens, TakesToken};

use crate::characters::first;
use crate::error::{Refusal, TokenError};
use crate::kind::TokenKind;
use crate::names::{after_number, take_word};
use crate::skipped::skip;
use crate::strings::{after_character_string, take_digits};
use crate::symbols::after_symbol;
use std::alloc::Global;

/// A lexical item of a text.
#[derive(Clone, Copy, Debug, PartialEq, Eq)]
pub struct Token<'a> {
    /// The kind.
    pub kind: TokenKind,
    /// The octets of the item.
    pub text: &'a [u8],
    /// The offset of the first of them in the whole text.
    pub start: usize,
}

// The kind of the item with which the text begins, and the text after it.
fn take_item(text: &[u8]) -> Result<(TokenKind, &[u8]), Refusal>
    requires some { 0 < length text.now }
    requires unskipped { is_unskipped text.now ≡ true }
    ensures item { MatchResult result
        (λ (kind, after). Splits (IsItem kind) text.now after.now)
        (λ refusal. IsRefused refusal text.now) }
    ensures ends { IfOk result (λ (kind, after). EndsItem kind text.now after.now) }
{
    match first(text) {
        b'A'..=b'Z' | b'a'..=b'z' => Ok(take_word(text)),
        b'0'..=b'9' => match after_number(text) {
            Ok(after) => Ok((TokenKind::Number, after)),
            Err(refusal) => Err(refusal),
        },
        b'"' => match after_character_string(text) {
            Ok(after) => Ok((TokenKind::CharacterString, after)),
            Err(refusal) => Err(refusal),
        },
        b'\'' => take_digits(text),
        _ => match after_symbol(text) {
            Some(after) => Ok((TokenKind::Symbol, after)),
            None => Err(Refusal::UnknownCharacter),
        },
    }
}

// The first token of the text, and the text after it, or none where white space and comments alone are left.
//
// The size is that of the whole text. The error is the cause with the offset of the octet at which no item begins.
fn next_token(text: &[u8], size: usize) -> Result<Option<(Token<'_>, &[u8])>, (Refusal, usize)>
    requires within { length text.now ≤ size }
    ensures token { MatchResult result
        (λ next. MatchOption next (Skips text.now [])
        (λ (token, after). TakesToken size text.now token after.now))
        (λ (cause, at). RefusesAt size text.now cause at) }
    ensures shorter { IfOk result (λ next. IfSome next (λ (_, after).
        length after.now < length text.now)) }
{
    let rest = match skip(text) {
        Ok(rest) => rest,
        Err(comment) => return Err((Refusal::UnclosedComment, size - comment.len())),
    };
    if rest.is_empty() {
        return Ok(None);
    }
    let start = size - rest.len();
    match take_item(rest) {
        Ok((kind, after)) => {
            let text = &rest[..rest.len() - after.len()];
            Ok(Some((Token { kind, text, start }, after)))
        }
        Err(cause) => Err((cause, start)),
    }
}

/// The tokens of a text.
pub fn tokens(alloc: Global, text: &[u8]) -> Result<Vec<Token<'_>>, TokenError>
    // The tokens, with all the white space and comments between them, are the text, and none could be longer.
    ensures text { IfOk result (λ tokens. AreTokens text.now tokens.items) }
    // Tokens come before the octet that is refused.
    ensures refused { IfErr result (Refuses text.now) }
{
    let mut tokens = Vec::new(alloc);
    let mut rest = text;
    loop {
        match next_token(rest, text.len()) {
            Ok(Some((token, after))) => {
                if tokens.push(token).is_err() {
                    return Err(TokenError::Memory);
                }
                rest = after;
            }
            Ok(None) => return Ok(tokens),
            Err((cause, at)) => return Err(TokenError::Refused(cause, at)),
        }
    }
}
