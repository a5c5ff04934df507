//! Lines and columns.
ghost use Rattle.std.specs.Prelude.{◌≡◌, ◌+◌, ◌≤◌, ◌==◌, length, take, count_by};
ghost use Rattle.asn1_tokens.specs.Positions.{octets_behind};

/// A place in a text, as editors count it.
#[derive(Clone, Copy, Debug, PartialEq, Eq)]
pub struct Position {
    /// The line, counted from 1. LINE FEED ends a line.
    pub line: usize,
    /// The octet in the line, counted from 1.
    pub column: usize,
}

// How many line feeds there are.
fn line_feeds(text: &[u8]) -> usize
    ensures count { result ≡ count_by (λ c. c == 10) text.now }
    ensures within { result ≤ length text.now }
{
    text.iter().filter(|octet| **octet == b'\n').count()
}

// How many octets are behind the last line feed.
fn column_of(text: &[u8]) -> usize
    ensures column { result ≡ octets_behind 0 text.now }
    ensures within { result ≤ length text.now }
{
    let mut rest = text;
    let mut column: usize = 0;
    while let [octet, after @ ..] = rest {
        column = if *octet == b'\n' { 0 } else { column + 1 };
        rest = after;
    }
    column
}

// The octets before an offset.
fn octets_before(text: &[u8], offset: usize) -> &[u8]
    ensures { result.now ≡ take offset text.now }
{
    match text.get(..offset) {
        Some(before) => before,
        None => text,
    }
}

/// The line and the column of the octet with this offset: one more than the line feeds before it, and one more than the
/// octets between the last of these and it. An offset behind the end is that of the end.
pub fn position_of(text: &[u8], offset: usize) -> Position
    ensures line { result.line ≡ count_by (λ c. c == 10) (take offset text.now) + 1 }
    ensures column { result.column ≡ octets_behind 0 (take offset text.now) + 1 }
{
    let before = octets_before(text, offset);
    Position {
        line: line_feeds(before) + 1,
        column: column_of(before) + 1,
    }
}
