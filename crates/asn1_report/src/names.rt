//! Names, as they are written.
ghost use Rattle.std.specs.Prelude.{◌≡◌};
ghost use Rattle.std.specs.List.{list_all};
ghost use Rattle.asn1_report.specs.NamesAndNumbers.{is_name, is_name_byte};

/// Whether the text is a name: 1 to 64 ASCII letters, digits, `-` and `_`.
pub(crate) fn is_name(text: &[u8]) -> bool
    ensures name { result ≡ is_name text.now }
{
    match text.len() {
        1..=64 => has_name_bytes(text),
        _ => false,
    }
}

// Whether each byte may be in a name.
fn has_name_bytes(text: &[u8]) -> bool
    ensures name_bytes { result ≡ list_all is_name_byte text.now }
{
    text.iter().all(|byte| byte.is_ascii_alphanumeric() || *byte == b'-' || *byte == b'_')
}
