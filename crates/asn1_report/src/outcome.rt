//! How the program ends.
ghost use Rattle.std.specs.Prelude.{◌≡◌, ◌≢◌, ◌↔◌, ◌++◌, ◌∷◌, [], ℕ, List, true, false, codes, option_map, Some, IfErr, IfOk, IfSome, IsErr, IsErrOf, IsOk, OnOk};
ghost use Rattle.std.specs.Io.KnownBytes.{Consumes, IsAtEnd};
ghost use Rattle.std.specs.Option.{option_map_or};
ghost use Rattle.asn1_report.specs.Errors.{error_text};
ghost use Rattle.asn1_report.specs.Report.{all_understood};

use crate::error::CheckError;
use crate::input::check;
use std::alloc::Global;
use std::fmt;
use std::io::{BufWriter, Eprint, Read, Write};
use std::process::{ExitCode, Termination};

/// The end of the program: its status, and the text that `{}` prints on standard error.
#[derive(Clone, Copy)]
pub struct Outcome {
    /// 0 if all was understood, 1 if not, 2 after an error.
    pub status: u8,
    error: Option<CheckError>,
}

impl Outcome {
    /// How the program ends after a check with that answer.
    pub fn of(answer: Result<bool, CheckError>) -> Self
        ensures understood { (result.status ≡ 0) ↔ (answer ≡ Ok true) }
        ensures not_understood { (result.status ≡ 1) ↔ (answer ≡ Ok false) }
        ensures failed { (result.status ≡ 2) ↔ IsErr answer }

        // Standard error gets nothing, or the text of the error on a line of its own.
        ensures silent { IsOk answer → ⟦<Outcome as fmt::Display>⟧.output result ≡ Some [] }
        ensures text { IfErr answer (λ error. ⟦<Outcome as fmt::Display>⟧.output result
            ≡ option_map (λ text. text ++ 10 ∷ []) (⟦<CheckError as fmt::Display>⟧.output error)) }
        ensures reading { answer ≡ Err CheckError.Reading →
            ⟦<Outcome as fmt::Display>⟧.output result ≡
            Some (codes "check: reading failed" ++ 10 ∷ []) }
        ensures writing { answer ≡ Err CheckError.Writing →
            ⟦<Outcome as fmt::Display>⟧.output result ≡
            Some (codes "check: writing failed" ++ 10 ∷ []) }
        ensures memory { answer ≡ Err CheckError.Memory →
            ⟦<Outcome as fmt::Display>⟧.output result ≡ Some (codes "check: no memory" ++ 10 ∷ []) }
    {
        match answer {
            Ok(true) => Outcome {
                status: 0,
                error: None,
            },
            Ok(false) => Outcome {
                status: 1,
                error: None,
            },
            Err(error) => Outcome {
                status: 2,
                error: Some(error),
            },
        }
    }
}

impl fmt::Display for Outcome {
    ghost output = { λ outcome. Some (option_map_or (λ error. error_text error ++ 10 ∷ []) outcome.error []) };

    fn fmt<W: fmt::Write>(&self, f: &mut fmt::Formatter<W>) -> fmt::Result {
        match self.error {
            Some(error) => writeln!(f, "{error}"),
            None => Ok(()),
        }
    }
}

/// The answer of `main`: the text is printed, and the process ends with the status.
impl Termination for Outcome {
    ghost use Rattle.std.specs.Process.{exit_status};

    fn report<R: Eprint>(self, rt: &R) -> ExitCode
        ensures { exit_status result ≡ self.status }
    {
        let _ = rt.eprint(self);
        ExitCode::from(self.status)
    }
}

/// Checks what the reader gives, through a buffer before the writer, and gives the answer of [`check`]. If there is no
/// memory for the buffer, nothing is read, and the answer is [`CheckError::Memory`].
fn run<R: Read, W: Write + Drop>(
    alloc: Global,
    reader: &mut R,
    writer: W,
) -> Result<bool, CheckError>
    ensures understood { IfOk result (λ answer. IfSome (R.remaining reader.old) (λ input. answer
        ≡ all_understood input)) }
    ensures read { OnOk result (IsAtEnd (R.remaining reader.new)) }

    // After an error that is not of the writer, bytes were taken from the front of what was left to read.
    ensures reading { IsErrOf result CheckError.Reading → (given : List ℕ)
        × Consumes (R.remaining reader.old) (R.remaining reader.new) given }
    ensures memory { IsErrOf result CheckError.Memory → (given : List ℕ)
        × Consumes (R.remaining reader.old) (R.remaining reader.new) given }
{
    match BufWriter::new(alloc, writer) {
        Ok(mut buffered) => check(alloc, reader, &mut buffered),
        Err(_) => Err(CheckError::Memory),
    }
}

/// Checks what the reader gives, as `run` does, and answers how the program then ends.
pub fn checked<R: Read, W: Write + Drop>(alloc: Global, reader: &mut R, writer: W) -> Outcome
    ensures understood { result.status ≡ 0 →
        IfSome (R.remaining reader.old) (λ input. all_understood input ≡ true) }
    ensures not_understood { result.status ≡ 1 →
        IfSome (R.remaining reader.old) (λ input. all_understood input ≡ false) }
    ensures read { result.status ≢ 2 → IsAtEnd (R.remaining reader.new) }
{
    Outcome::of(run(alloc, reader, writer))
}
