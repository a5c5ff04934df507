//! The work of a program on an input.
ghost use Rattle.asn1_convert.specs.Digits.{IsDigitsError};
ghost use Rattle.asn1_convert.specs.Runs.{AreOctetsOf, EndsAt, EndsConversion, EndsWork, GoesOn};
ghost use Rattle.std.specs.Io.KnownBytes.{Appends};
ghost use Rattle.asn1_convert.specs.declared.form.CodecForm.{CodecForm};
ghost use Rattle.asn1_convert.specs.declared.form.OutputForm.{OutputForm};
ghost use Rattle.std.specs.Prelude.{◌≡◌, ◌<◌, ◌++◌, ℕ, length, true, List, MatchOption, MatchResult, OnOk, Option};

use crate::form::{CodecForm, OutputForm};
use crate::hexadecimal::{DigitsError, octets_of_digits};
use crate::outcome::Outcome;
use crate::pieces::{Pieces, PiecesError};
use crate::task::{Action, Answer, Converted, Task, TypeList};
use std::alloc::Global;
use std::io::{self, Read, Write};

/// How many nested scopes may be open.
const DEPTH: usize = 64;

/// How many octets are read at once at most.
const PIECE: usize = 4096;

/// Writes the conversions of the values that the reader gives, as soon as each is whole: those of the type of this name.
pub fn convert_input<L: TypeList, R: Read, W: Write>(
    alloc: Global,
    name: &str,
    from: CodecForm,
    to: OutputForm,
    reader: &mut R,
    writer: &mut W,
) -> Outcome
    ensures { EndsConversion from to (R.remaining reader.old) (R.remaining reader.new)
        (W.contents writer.old) (W.contents writer.new) result }
{
    let mut room = [0u8; PIECE];
    convert_pieces::<L, R, W>(alloc, name, from, to, reader, &mut room, writer)
}

/// The same with room for a piece.
fn convert_pieces<L: TypeList, R: Read, W: Write>(
    alloc: Global,
    name: &str,
    from: CodecForm,
    to: OutputForm,
    reader: &mut R,
    room: &mut [u8],
    writer: &mut W,
) -> Outcome
    requires some_room { 0 < length room.old }
    ensures { EndsConversion from to (R.remaining reader.old) (R.remaining reader.new)
        (W.contents writer.old) (W.contents writer.new) result }
{
    let mut pieces = Pieces::new(alloc, from, to, DEPTH);
    for _ in 0..u64::MAX {
        let Ok(size) = reader.read(room) else {
            return Outcome::NotRead;
        };
        let piece = &room[..size];
        if let Some(outcome) = convert_piece::<L, W>(
            alloc,
            name,
            &mut pieces,
            piece,
            size == 0,
            writer,
        ) {
            return outcome;
        }
    }
    Outcome::NotRead
}

/// Writes the conversions of the values that are whole with a piece more. There is an outcome at the end, and before it for a failure.
fn convert_piece<L: TypeList, W: Write>(
    alloc: Global,
    name: &str,
    pieces: &mut Pieces,
    piece: &[u8],
    is_end: bool,
    writer: &mut W,
) -> Option<Outcome>
    ensures { (from : CodecForm) (to : OutputForm) (given : List ℕ) (first : Option (List ℕ)) →
        GoesOn from to given pieces.old first (W.contents writer.old) → MatchOption result
        (GoesOn from to (given ++ piece.now) pieces.new first (W.contents writer.new))
        (EndsAt from to (given ++ piece.now) is_end first (W.contents writer.new)) }
{
    let Ok(()) = pieces.append(piece) else {
        return Some(Outcome::NoMemory);
    };
    match pieces.answer::<L>(alloc, name, is_end) {
        Err(PiecesError::NoType) => Some(Outcome::NoType),
        Err(PiecesError::Memory) => Some(Outcome::NoMemory),
        Ok(None) => None,
        Ok(Some(answer)) => {
            let Answer {
                converted: _,
                output,
                failure,
                missing: _,
            } = answer;
            let Ok(()) = write_output(output.as_slice(), writer) else {
                return Some(Outcome::NotWritten);
            };
            match failure {
                Some(line) => Some(Outcome::Refused(line)),
                None if is_end => Some(Outcome::Done),
                None => None,
            }
        }
    }
}

/// Writes the answer of the type of this name to all that the reader gives.
pub fn answer_input<L: TypeList, R: Read, W: Write>(
    alloc: Global,
    name: &str,
    action: Action,
    is_hexadecimal: bool,
    reader: &mut R,
    writer: &mut W,
) -> Outcome
    ensures { EndsWork action is_hexadecimal (R.remaining reader.old) (R.remaining reader.new)
        (W.contents writer.old) (W.contents writer.new) result }
{
    let mut input = Vec::new(alloc);
    let Ok(_size) = reader.read_to_end(&mut input) else {
        return Outcome::NotRead;
    };
    let octets = match octets_of_input(alloc, input, is_hexadecimal) {
        Ok(octets) => octets,
        Err(DigitsError::Memory) => return Outcome::NoMemory,
        Err(DigitsError::At(position)) => return Outcome::NoDigits(position),
    };
    let task = Task {
        alloc,
        before: Converted {
            values: 0,
            octets: 0,
        },
        input: &octets,
        action,
        depth: DEPTH,
    };
    match L::answer(name, task) {
        None => Outcome::NoType,
        Some(Err(_)) => Outcome::NoMemory,
        Some(Ok(answer)) => {
            let Answer {
                converted: _,
                output,
                failure,
                missing: _,
            } = answer;
            let Ok(()) = write_output(output.as_slice(), writer) else {
                return Outcome::NotWritten;
            };
            match failure {
                Some(line) => Outcome::Refused(line),
                None => Outcome::Done,
            }
        }
    }
}

/// The octets of an input: its own, or those whose hexadecimal digits it has.
fn octets_of_input(
    alloc: Global,
    input: Vec<u8>,
    is_hexadecimal: bool,
) -> Result<Vec<u8>, DigitsError>
    ensures { MatchResult result (λ octets. AreOctetsOf is_hexadecimal octets.items input.items)
        (λ e. (is_hexadecimal ≡ true) × IsDigitsError input.items e) }
{
    if is_hexadecimal {
        octets_of_digits(alloc, input.as_slice())
    } else {
        Ok(input)
    }
}

/// Writes an output, and flushes the writer.
fn write_output<W: Write>(output: &[u8], writer: &mut W) -> io::Result<()>
    ensures { OnOk result
        (Appends (W.contents writer.old) (W.contents writer.new) output.now) }
{
    match writer.write_all(output) {
        Ok(()) => match writer.flush() {
            Ok(()) => Ok(()),
            Err(error) => Err(error),
        },
        Err(error) => Err(error),
    }
}
