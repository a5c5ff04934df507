//! Whole numbers, strings, and errors.
mod bits;
mod character_strings;
mod errors;
mod integers;
mod object_identifiers;
mod shown;
