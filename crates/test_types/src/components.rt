//! Types with components, each stated once.
mod ambiguous;
mod journey;
mod limits;
mod person;
