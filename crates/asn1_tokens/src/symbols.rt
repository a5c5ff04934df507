//! Symbols.
ghost use Rattle.std.specs.Prelude.{◌≡◌, false, map, find, nat_eq, IfSome, MatchOption};
ghost use Rattle.std.specs.List.{starts_with};
ghost use Rattle.std.specs.Option.{option_map};
ghost use Rattle.asn1_tokens.specs.Items.{IsSymbol, LeavesLeast, Splits};
ghost use Rattle.asn1_tokens.specs.Words as spec;

/// The symbols, each before those with which it begins: assignments, ranges, ellipses and version brackets (X.680, 12.20 to
/// 12.24), the single characters (12.37), and the ampersand with which the name of a field begins (X.681, 7.4).
pub const SYMBOLS: [&[u8]; 26] = [
    b"::=", b"...", b"..", b"[[", b"]]", b"{", b"}", b"(", b")", b"<", b">", b"[", b"]", b",",
    b".", b":", b";", b"|", b"!", b"@", b"^", b"&", b"*", b"/", b"=", b"-",
];

// The first symbol of the table with which the text begins.
fn find_symbol<'a>(mut table: &[&'a [u8]], text: &[u8]) -> Option<&'a [u8]>
    ensures { option_map (λ k. k.now) result
        ≡ find (λ known. starts_with nat_eq text.now known) (map (λ k. k.now) table.entry.now) }
{
    while let [symbol, rest @ ..] = table {
        if text.starts_with(*symbol) {
            return Some(*symbol);
        }
        table = rest;
    }
    None
}

/// The text after the symbol with which it begins.
pub(crate) fn after_symbol(text: &[u8]) -> Option<&[u8]>
    ensures found { MatchOption result
        (spec.begins_with_symbol text.now ≡ false)
        (λ after. Splits IsSymbol text.now after.now) }
    ensures longest { IfSome result (λ after. LeavesLeast IsSymbol text.now after.now) }
{
    match find_symbol(&SYMBOLS, text) {
        Some(symbol) => Some(&text[symbol.len()..]),
        None => None,
    }
}
