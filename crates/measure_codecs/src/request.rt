//! The request to the program.

/// The words of a request: a codec, an action, and its operands.
#[derive(Clone, Copy)]
pub(crate) struct Request<'a> {
    pub(crate) words: &'a [String],
}

impl<'a> Request<'a> {
    /// The word at an index, or an empty one.
    pub(crate) fn word(self, index: usize) -> &'a str {
        match self.words.get(index) {
            Some(word) => word.as_str(),
            None => "",
        }
    }

    /// The number at an index, or 0.
    pub(crate) fn number(self, index: usize) -> u32 {
        self.word(index).parse::<u32>().unwrap_or(0)
    }

    /// The request without its first words, this many.
    pub(crate) fn after(self, count: usize) -> Request<'a> {
        match self.words.split_at_checked(count) {
            Some((_, words)) => Request { words },
            None => Request { words: &[] },
        }
    }
}
