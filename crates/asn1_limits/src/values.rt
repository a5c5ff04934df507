//! The types that limits can be put on: lists and sets, strings, whole numbers, and what holds one of these.
mod bits;
mod holders;
mod lists;
mod numbers;
mod strings;
mod texts;
pub(crate) mod units;
