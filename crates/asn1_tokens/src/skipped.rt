//! White space and comments.
ghost use Rattle.std.specs.Prelude.{◌≡◌, ◌≤◌, ◌<◌, ℕ, List, true, false, length, IfSome, OnSome, MatchOption, MatchResult, IfOk};
ghost use Rattle.std.specs.Option.{option_map};
ghost use Rattle.asn1_tokens.specs.Skipped as spec;
ghost use Rattle.asn1_tokens.specs.Skipped.{Skips, IsUnclosedComment, is_unskipped};

use crate::characters::{first, is_newline, is_white_space};

/// A comment that has no end.
pub(crate) struct UnclosedComment;

// The text after a comment that two hyphens begin, for the text after these.
fn after_hyphens(text: &[u8]) -> &[u8]
    ensures rest { result.now ≡ spec.after_hyphens text.now }
    ensures within { length result.now ≤ length text.now }
{
    let mut rest = text;
    while let [octet, after @ ..] = rest {
        if is_newline(*octet) {
            return after;
        }
        if *octet == b'-' && first(after) == b'-' {
            return &after[1..];
        }
        rest = after;
    }
    rest
}

// The text after a comment that a slash and an asterisk begin, for the text after these.
fn after_comment(text: &[u8]) -> Option<&[u8]>
    ensures rest { option_map (λ rest. rest.now) result ≡ spec.after_comment false 1 text.now }
    ensures within { IfSome result (λ rest. length rest.now ≤ length text.now) }
{
    let mut rest = text;
    let mut depth: usize = 1;
    let mut is_second = false;
    while let [octet, after @ ..] = rest {
        let begins = !is_second && *octet == b'/' && first(after) == b'*';
        let ends = !is_second && *octet == b'*' && first(after) == b'/';
        if ends && depth == 1 {
            return Some(&after[1..]);
        }
        if begins {
            depth += 1;
        }
        if ends {
            depth -= 1;
        }
        is_second = begins || ends;
        rest = after;
    }
    None
}

// Whether the text begins with these two octets.
fn begins_with_pair(text: &[u8], a: u8, b: u8) -> bool
    requires first { 0 < a }
    requires second { 0 < b }
    ensures value { result ≡ spec.begins_with_pair a b text.now }
    ensures within { result ≡ true → 2 ≤ length text.now }
{
    match text {
        [first, second, ..] => *first == a && *second == b,
        _ => false,
    }
}

// Whether the text begins with a NO-BREAK SPACE, in UTF-8.
fn begins_with_no_break_space(text: &[u8]) -> bool
    ensures value { result ≡ spec.begins_with_no_break_space text.now }
    ensures within { result ≡ true → 2 ≤ length text.now }
{
    begins_with_pair(text, 0xC2, 0xA0)
}

// Skips one character of white space, or one comment, if the text begins with it.
fn skip_one(text: &[u8]) -> Result<Option<&[u8]>, UnclosedComment>
    ensures skipped { MatchResult result
        (λ next. MatchOption next (is_unskipped text.now ≡ true)
        (λ after. (rest : List ℕ) → Skips after.now rest → Skips text.now rest))
        (λ _. IsUnclosedComment text.now) }
    ensures shorter { IfOk result (λ next. IfSome next (λ after. length after.now < length text.now)) }
{
    if is_white_space(first(text)) {
        Ok(Some(&text[1..]))
    } else if begins_with_no_break_space(text) {
        Ok(Some(&text[2..]))
    } else if begins_with_pair(text, b'-', b'-') {
        Ok(Some(after_hyphens(&text[2..])))
    } else if begins_with_pair(text, b'/', b'*') {
        match after_comment(&text[2..]) {
            Some(after) => Ok(Some(after)),
            None => Err(UnclosedComment),
        }
    } else {
        Ok(None)
    }
}

/// Skips all white space and comments with which the text begins. The error is the text from a comment on that has no end.
pub(crate) fn skip(text: &[u8]) -> Result<&[u8], &[u8]>
    ensures skipped { MatchResult result
        (λ rest. Skips text.now rest.now)
        (λ comment. Skips text.now comment.now) }
    ensures ended { MatchResult result
        (λ rest. is_unskipped rest.now ≡ true)
        (λ comment. IsUnclosedComment comment.now) }
    ensures within { MatchResult result
        (λ rest. length rest.now ≤ length text.now)
        (λ comment. length comment.now ≤ length text.now) }
{
    let mut rest = text;
    loop {
        match skip_one(rest) {
            Ok(Some(after)) => rest = after,
            Ok(None) => return Ok(rest),
            Err(UnclosedComment) => return Err(rest),
        }
    }
}
