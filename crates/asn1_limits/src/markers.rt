//! The markers of the notation's constraints, each with what it admits and what a table says of it.
pub(crate) mod alphabets;
pub(crate) mod extensions;
pub(crate) mod numbers;
pub(crate) mod sets;
pub(crate) mod sizes;
