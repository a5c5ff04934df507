//! The end of a run over one input.
ghost use Rattle.std.specs.Prelude.{◌≡◌, ◌<◌, ◌==◌, IfErr, IfOk, MatchResult, OnOk};
ghost use Rattle.std.specs.Io.KnownBytes.{Appends, IsAtEnd};
ghost use Rattle.asn1_certificate_input.specs.Answers.{AnswersInput, Converts};
ghost use Rattle.asn1_certificate_input.specs.declared.outcome.Failure.TheVariants.{Writing};

use crate::message::Message;
use crate::options::Options;
use crate::output::{Output, output_of};
use std::alloc::Global;
use std::io::{Eprint, Read, Write};
use thiserror::Error;

/// The reason that an input was not read to its end, or its output not written.
#[derive(Clone, Copy, Debug, Drop, Error)]
pub(crate) enum Failure {
    /// The input was not read to its end.
    #[error("reading failed")]
    Reading,
    /// The output was not written.
    #[error("writing failed")]
    Writing,
    /// There was no memory.
    #[error("no memory")]
    Memory,
}

/// The end of a run over one input: its status, and its messages for standard error.
#[derive(Drop)]
pub struct Outcome {
    /// 0 if each certificate was written, 1 if the input or a certificate of it is refused, and 2 if memory ran out, or reading or
    /// writing failed.
    pub status: u8,
    /// Whether a certificate was written.
    pub has_output: bool,
    /// The warnings and refusals, in the order of the certificates.
    pub messages: Vec<Message>,
    failure: Option<Failure>,
}

impl Outcome {
    /// The end of a run after this answer.
    fn of(alloc: Global, answer: Result<Output, Failure>) -> Outcome
        ensures status { MatchResult answer
            (λ output. output.is_refused ≡ (result.status == 1)) (λ _. result.status ≡ 2) }
        ensures messages { IfOk answer (λ output. result.messages ≡ output.messages) }
    {
        match answer {
            Ok(output) => Outcome {
                status: u8::from(output.is_refused),
                has_output: !output.bytes.is_empty(),
                messages: output.messages,
                failure: None,
            },
            Err(failure) => Outcome {
                status: 2,
                has_output: false,
                messages: Vec::new(alloc),
                failure: Some(failure),
            },
        }
    }

    /// Prints a line on standard error for each warning, refusal and failure, behind the name of the input if it has one.
    pub fn print_messages<R: Eprint>(&self, rt: &R, source: Option<&str>) {
        for message in &self.messages {
            let _ = match source {
                Some(name) => eprintln!(rt; "{name}: {message}"),
                None => eprintln!(rt; "{message}"),
            };
        }
        if let Some(failure) = self.failure {
            let _ = match source {
                Some(name) => eprintln!(rt; "{name}: error: {failure}"),
                None => eprintln!(rt; "error: {failure}"),
            };
        }
    }
}

/// Writes the certificates that the reader gives, as the options ask for them, and answers the end of the run.
pub fn run<R: Read, W: Write>(
    alloc: Global,
    options: Options,
    reader: &mut R,
    writer: &mut W,
) -> Outcome
    ensures read { result.status < 2 → IsAtEnd (R.remaining reader.new) }
    ensures converts { result.status < 2 → Converts
        (λ input bytes. AnswersInput options input bytes result.messages.items
        (result.status == 1))
        (R.remaining reader.old) (R.remaining reader.new)
        (W.contents writer.old) (W.contents writer.new) }
{
    Outcome::of(alloc, convert(alloc, options, reader, writer))
}

/// Writes the certificates that the reader gives.
fn convert<R: Read, W: Write>(
    alloc: Global,
    options: Options,
    reader: &mut R,
    writer: &mut W,
) -> Result<Output, Failure>
    ensures read { IfOk result (λ _. IsAtEnd (R.remaining reader.new)) }
    ensures converts { IfOk result (λ output. Converts
        (λ input bytes. AnswersInput options input bytes output.messages.items
        output.is_refused)
        (R.remaining reader.old) (R.remaining reader.new)
        (W.contents writer.old) (W.contents writer.new)) }
{
    let mut input = Vec::new(alloc);
    if reader.read_to_end(&mut input).is_err() {
        return Err(Failure::Reading);
    }
    let Ok(output) = output_of(alloc, options, input) else {
        return Err(Failure::Memory);
    };
    write_bytes(output.bytes.as_slice(), writer)?;
    Ok(output)
}

/// Writes bytes, and flushes the writer.
fn write_bytes<W: Write>(bytes: &[u8], writer: &mut W) -> Result<(), Failure>
    ensures written { OnOk result
        (Appends (W.contents writer.old) (W.contents writer.new) bytes.now) }
    ensures failed { IfErr result (λ failure. failure ≡ Writing) }
{
    if writer.write_all(bytes).is_err() || writer.flush().is_err() {
        return Err(Failure::Writing);
    }
    Ok(())
}
