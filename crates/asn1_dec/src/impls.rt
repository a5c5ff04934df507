//! The types of the lower crates and of the language, read.
mod arrays;
mod holders;
mod instance_of;
mod lists;
mod option;
mod scalars;
mod strings;
mod tagged;
