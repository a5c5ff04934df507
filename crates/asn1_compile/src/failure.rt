//! Why a run ends with the status 2.
use std::alloc::{AllocError, AllocFailed};
use std::io;

/// An error that no module has.
#[derive(Drop)]
pub(crate) enum Failure<'a> {
    /// This is not the name of a crate.
    CrateName(&'a str),
    /// This does not name a type that exists already.
    Extern(&'a str),
    /// This does not name a module whose types exist already.
    ExternModule(&'a str),
    /// The file of this name was not read.
    Input(&'a str, io::Error),
    /// The file or the folder of this path was not written.
    Output(String, io::Error),
    /// Standard output was not written.
    StandardOutput(io::Error),
    /// Memory ran out.
    Memory,
}

impl Failure<'_> {
    /// Prints the failure on standard error.
    pub(crate) fn tell(&self, rt: &HostRuntime) {
        let _ = match self {
            Failure::CrateName(name) => {
                eprintln!(rt;
                    "error: '{name}' cannot be the name of this crate: lowercase letters, digits and '_', with a letter first, and no word of Rust or crate that types name"
                )
            }
            Failure::Extern(argument) => {
                eprintln!(rt;
                    "error: '{argument}' is not of the form NAME=some_crate::Type or MODULE.NAME=some_crate::Type"
                )
            }
            Failure::ExternModule(argument) => {
                eprintln!(rt; "error: '{argument}' is not of the form MODULE=some_crate")
            }
            Failure::Input(name, error) => eprintln!(rt; "error: {name}: {error}"),
            Failure::Output(path, error) => eprintln!(rt; "error: {path}: {error}"),
            Failure::StandardOutput(error) => eprintln!(rt; "error: standard output: {error}"),
            Failure::Memory => eprintln!(rt; "error: memory ran out"),
        };
    }
}

impl From<AllocError> for Failure<'_> {
    fn from(_refused: AllocError) -> Self {
        Failure::Memory
    }
}

impl<T: Drop> From<AllocFailed<T>> for Failure<'_> {
    fn from(_refused: AllocFailed<T>) -> Self {
        Failure::Memory
    }
}
