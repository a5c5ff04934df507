//! Bounds of whole numbers.
mod bounded;
