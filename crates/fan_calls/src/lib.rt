//! Parts of the calls from C that several static libraries share.
//!
//! | Item | What it is | In `specs/` |
//! |---|---|---|
//! | [`Status`] | what a call answers, and its number | `Statuses` |
//! | [`put`] | writes a result into the memory of the caller, if there is room | `Results` |
//! | [`nests_deeper`], [`DEPTH`] | whether octets lie inside more constructed elements than a call looks into | `Depths` |
//! | [`walk_through`], [`Finding`] | whether octets are elements of DER, and where not | `Walks` |
//!
//! A static library cannot be named by another crate, so these are in a library.
#![tactic(auto)]

mod depth;
mod result;
mod status;
mod walk;

pub use depth::{DEPTH, nests_deeper};
pub use result::put;
pub use status::Status;
pub use walk::{Finding, walk_through};
