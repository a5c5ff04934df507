//! Each call of an encoder and of a decoder.
mod additions;
mod choices;
mod defaults;
mod each;
mod entry_points;
mod explicit_tags;
mod options;
mod own_errors;

pub use each::each_call_comes_back;
