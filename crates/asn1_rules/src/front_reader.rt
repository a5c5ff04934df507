//! Readers of the front of an input.
ghost use Rattle.asn1_rules.specs.Fronts.{Fronts, IsLawful, ReadsFront};
ghost use Rattle.std.specs.Prelude.{◌++◌, ◌≤◌, IfOk, List, length, ℕ};

use asn1_dec::DecodeError;

/// Reads one value at the front of an input, and tells how many bytes it is.
///
/// A reader defines which first bytes of an input are one value's (`cut` of `fronts`), of which
/// value they are (`front`), and as which values bytes are read (`read_as`).
///
/// An input that comes in pieces is read again with each piece, until it begins with a whole value.
/// A reader that would look at the same bytes each time keeps in its `Progress` how far it came.
/// The progress of any other reader is `()`.
pub trait FrontReader<D> {
    // The first bytes that are one value's, the relation of an answer to that value, and the bytes that are read as a value.
    ghost fronts: { Fronts Self D };

    /// How far a reader came in bytes that do not hold a whole value.
    type Progress: Copy;

    // The reader came so far in these bytes. (In clauses it stands in ∥ ∥₁: it is so, in whatever way.)
    ghost came: { Self → Self.Progress → List ℕ → Type 0 };

    /// Reads the value at the front of the input, and answers it with its length in bytes, which is
    /// at most that of the input. So many first bytes of any input are read as the value.
    ///
    /// # Errors
    /// If the input begins with a value that was written: [`DecodeError::Depth`] only if that value
    /// is nested deeper than the reader's depth, and otherwise [`DecodeError::Memory`]. No contract says
    /// by which error other inputs are refused.
    fn read_front(&self, input: &[u8]) -> Result<(D, usize), DecodeError>
        ensures read { ReadsFront fronts self.now input.now result };

    /// The progress before anything is read, which is right for each input.
    fn start(&self) -> Self::Progress
        ensures { (bytes : List ℕ) → came self.now result bytes };

    /// Reads as [`FrontReader::read_front`] does, from where the reader came. The progress is that of
    /// an earlier call for the same bytes, or for fewer of them, and goes on with this one.
    ///
    /// # Errors
    /// As [`FrontReader::read_front`].
    fn read_on(
        &self,
        input: &[u8],
        progress: &mut Self::Progress,
    ) -> Result<(D, usize), DecodeError>
        ensures read { ∥ came self.now progress.old input.now ∥₁ →
            ReadsFront fronts self.now input.now result }
        ensures within { IfOk result (λ answer. answer.1 ≤ length input.now) }
        ensures came { ∥ came self.now progress.old input.now ∥₁ →
            ∥ came self.now progress.new input.now ∥₁ }
    {
        self.read_front(input)
    }

    // The law of a reader.
    ghost lawful: { IsLawful fronts };

    // The law of progress: trailing bytes change nothing of how far the reader came.
    ghost goes_on: { (reader : Self) (progress : Self.Progress) (bytes behind : List ℕ) →
        came reader progress bytes → came reader progress (bytes ++ behind) };
}
