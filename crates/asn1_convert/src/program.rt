//! A program that converts values of the types of a list.
ghost use Rattle.std.specs.Process.{exit_status};
ghost use Rattle.std.specs.Prelude.{◌≡◌, ◌≤◌};

use crate::arguments::{action_of, matches_of};
use crate::input::{answer_input, convert_input};
use crate::task::{Action, TypeList};
use clap::Error;
use std::process::ExitCode;
use std::{env, io};

/// The status where the arguments are wrong.
const FAILED: u8 = 2;

/// Runs the program of that name over a list of types: [`convert_input`] or [`answer_input`] on standard input and output, as its
/// arguments ask for. It tells on standard error why it did not do all. The status is that of the outcome, and 2 if the arguments ask
/// for no work, or 0 if they ask for help.
pub fn run<L: TypeList>(rt: &HostRuntime, program: &'static str) -> ExitCode
    ensures { exit_status result ≤ 2 }
{
    let alloc = rt.alloc();
    let words: Vec<String> = match env::args(rt).map(|words| words.collect(alloc)) {
        Ok(Ok(words)) => words,
        _ => return fail(rt, "the arguments were not read"),
    };
    let Ok(types) = format!(in alloc; "Types: {}", L::names()) else {
        return fail(rt, "no memory");
    };
    let matches = match matches_of(alloc, program, types.as_str(), words.as_slice()) {
        Ok(matches) => matches,
        Err(error) => return show(rt, &error),
    };
    let Some(action) = action_of(&matches) else {
        return fail(
            rt,
            "give a type and two forms, or --check and a type; --help has them",
        );
    };
    let name = matches.get_str("TYPE").unwrap_or("");
    if !L::names().split(' ').any(|known| known == name) {
        return fail(rt, "no type has this name; --help lists them");
    }
    let is_hexadecimal = matches.get_flag("hex");
    let reader = &mut rt.reader();
    let writer = &mut io::writer(rt);
    let outcome = match action {
        Action::Convert { from, to } if !is_hexadecimal => {
            convert_input::<L, _, _>(alloc, name, from, to, reader, writer)
        }
        _ => answer_input::<L, _, _>(alloc, name, action, is_hexadecimal, reader, writer),
    };
    outcome.print_reason(rt);
    ExitCode::from(outcome.status())
}

/// Shows the help that the arguments ask for, or why they ask for no work.
fn show(rt: &HostRuntime, error: &Error) -> ExitCode
    ensures { exit_status result ≤ 2 }
{
    let _ = error.print(rt);
    ExitCode::from(if error.use_stderr() { FAILED } else { 0 })
}

/// Tells why the program did not begin its work.
fn fail(rt: &HostRuntime, message: &str) -> ExitCode
    ensures { exit_status result ≡ 2 }
{
    let _ = eprintln!(rt; "error: {message}");
    ExitCode::from(FAILED)
}
