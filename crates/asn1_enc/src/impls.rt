//! The types of the lower crates and of the language, written.
mod holders;
mod instance_of;
mod lists;
mod scalars;
mod strings;
mod tagged;
