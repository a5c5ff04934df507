//! The octets ahead of the search for the end of the first element.
ghost use Rattle.asn1_ber_items.specs.Ends.{IsAtEnd, IsOver, Passes, StopsAt};
ghost use Rattle.std.specs.Prelude.{◌≡◌, ◌≢◌, ◌+◌, ◌<◌, ◌^◌, ◌∷◌, List, MatchOption, MatchResult, length, ℕ};

use crate::header::read_header;
use crate::walk::is_end_of_contents;
use asn1_items::ItemError;

/// The octets that are ahead of the search, and how many elements of indefinite lengths are open there.
#[derive(Clone, Copy)]
pub(crate) struct Ahead<'a> {
    /// The number of the open elements; with none, the first element is ahead.
    pub(crate) levels: usize,
    /// The octets.
    pub(crate) left: &'a [u8],
}

impl<'a> Ahead<'a> {
    /// The octets ahead behind one header more and the contents octets of a definite length, or behind end-of-contents octets; none if
    /// the first element ends there.
    ///
    /// # Errors
    /// [`ItemError::Missing`] where the octets end before that, and [`ItemError::Malformed`] where no element is there.
    pub(crate) fn next(self) -> Result<Option<Ahead<'a>>, ItemError>
        requires { self.levels + length self.left.now < 2 ^ 64 }
        ensures { MatchResult result (λ next. MatchOption next (IsAtEnd self.entry) (Passes self.entry))
            (StopsAt self.entry) }
    {
        if self.levels > 0 {
            if let Some(left) = behind_end_of_contents(self.left) {
                return Ok(inside(self.levels - 1, left));
            }
        }
        self.behind_header()
    }

    /// The same, if no end-of-contents octets come next.
    fn behind_header(self) -> Result<Option<Ahead<'a>>, ItemError>
        requires { self.levels + length self.left.now < 2 ^ 64 }
        ensures { ¬ IsOver self.entry.levels self.entry.left.now →
            MatchResult result (λ next. MatchOption next (IsAtEnd self.entry) (Passes self.entry))
            (StopsAt self.entry) }
    {
        let header = read_header(self.left)?;
        if is_end_of_contents(header.tag) {
            return Err(ItemError::Malformed);
        }
        match header.size {
            Some(size) => {
                let size = size as usize;
                match header.rest.split_at_checked(size) {
                    Some((_contents, back)) => Ok(inside(self.levels, back)),
                    None => Err(ItemError::Missing(size - header.rest.len())),
                }
            }
            None if header.constructed => Ok(inside(self.levels + 1, header.rest)),
            None => Err(ItemError::Malformed),
        }
    }
}

/// The octets behind the end-of-contents octets that come next, if such come.
fn behind_end_of_contents(left: &[u8]) -> Option<&[u8]>
    ensures { MatchOption result ((back : List ℕ) → left.now ≢ 0 ∷ 0 ∷ back)
        (λ back. left.now ≡ 0 ∷ 0 ∷ back.now) }
{
    match left {
        [0, 0, back @ ..] => Some(back),
        _ => None,
    }
}

/// The octets ahead inside this number of open elements, if there are any.
fn inside(levels: usize, left: &[u8]) -> Option<Ahead<'_>>
    ensures { MatchOption result (levels ≡ 0) (λ ahead.
        (ahead.levels ≡ levels) × (ahead.left.now ≡ left.now) × (0 < levels)) }
{
    if levels == 0 {
        return None;
    }
    Some(Ahead { levels, left })
}
