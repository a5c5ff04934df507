//! The parts of a text.
ghost use Rattle.std.specs.Prelude.{◌≡◌, ◌==◌, option_map, position};
ghost use Rattle.asn1_report.specs.Parts.{parts_of, split_once};

/// The bytes before the first byte of this value, and the bytes after it, if the text has such a byte.
#[tactic(auto, unfolding(crate::specs::Parts::split_once))]
pub(crate) fn split_once(text: &[u8], separator: u8) -> Option<(&[u8], &[u8])>
    ensures cut { option_map (λ (before, after). (before.now, after.now)) result
        ≡ split_once separator text.now }
{
    let position = position_of(text, separator)?;
    Some((&text[..position], &text[position + 1..]))
}

// The position of the first byte of that value.
fn position_of(text: &[u8], separator: u8) -> Option<usize>
    ensures found { result ≡ position (λ byte. byte == separator) text.now }
{
    text.iter().position(|byte| *byte == separator)
}

/// The parts of a text: its first word, its second, and what comes after these, with a space between each two.
#[derive(Clone, Copy)]
pub(crate) enum Parts<'a> {
    /// A text without a space.
    One(&'a [u8]),
    /// A text with one space.
    Two(&'a [u8], &'a [u8]),
    /// A text with more; the last part has all that comes after the second space.
    Three(&'a [u8], &'a [u8], &'a [u8]),
}

impl<'a> Parts<'a> {
    ghost use Rattle.asn1_report.specs.Views.{parts_view};

    /// Cuts the text into its parts.
    #[tactic(auto, unfolding(crate::specs::Parts::parts_of))]
    pub(crate) fn of(text: &'a [u8]) -> Parts<'a>
        ensures cut { parts_view result ≡ parts_of text.now }
    {
        match split_once(text, b' ') {
            None => Parts::One(text),
            Some((first, rest)) => match split_once(rest, b' ') {
                None => Parts::Two(first, rest),
                Some((second, last)) => Parts::Three(first, second, last),
            },
        }
    }
}
