//! Converts values of the types of `greetings` from one form to another, from standard input to standard output.
//!
//! `TYPE FROM TO` reads values of a type by the codec FROM and writes them by the codec TO, or as text or JSON. `--check TYPE` tells
//! whether the input is the DER of a value, and if not where. `--hex` reads digits, and `--help` lists the types.
#![tactic(auto)]

use asn1_convert::{Answer, Task, TypeList, run};
use std::alloc::AllocError;
use std::process::ExitCode;

/// The types of `greetings`.
struct Types {}

impl TypeList for Types {
    fn names() -> &'static str {
        "Greeting \
         Audience"
    }

    fn answer(name: &str, task: Task<'_>) -> Option<Result<Answer, AllocError>> {
        Some(match name {
            "Greeting" => task.perform::<greetings::Greeting>(),
            "Audience" => task.perform::<greetings::Audience>(),
            _ => return None,
        })
    }
}

fn main(rt: HostRuntime) -> ExitCode {
    run::<Types>(&rt, "greetings_convert")
}
