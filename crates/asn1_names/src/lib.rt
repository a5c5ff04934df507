//! The names of a set of modules: which are defined, which are used, and which of these are in error.
//!
//! Several texts are one set of modules. Names are given as flat lists ([`Names`]), each with its place.
//!
//! | Item | What it is |
//! |---|---|
//! | [`DefinedName`], [`ImportedName`], [`UsedName`], [`Place`] | the name of a definition, one behind IMPORTS, and a reference |
//! | [`find_doubled`], [`DoubledName`] | the names that a module defines twice |
//! | [`find_unknown_imports`] | the imported names that the module behind FROM does not define |
//! | [`find_undefined`] | the references that are to no definition |
//! | [`check_names`], [`NameProblem`] | all of these |
//! | [`NameIndex`] | the position of the first definition of each name |
//! | [`nearest_name`], [`most_edits`] | the defined name that is most like another; how many letters of it may differ |
//!
//! The contracts promise:
//!
//! - `check_names` finds nothing wrong if and only if no module has a name twice, every import is of a name that is defined,
//!   and every reference is to a definition (`accepted`; `IsAccepted` in `specs/Accepted.antt`). A reference is to a
//!   definition of its own module, of one from which its module imports the name, or of the module that it names
//!   (`IsResolved` in `specs/References.antt`). Everything that is wrong is found, in the order of the lists (`report`).
//! - A `NameIndex` of definitions answers the position of the first with a name, and whether there is one (`IsIndexOf` in
//!   `specs/Index.antt`).
//! - `nearest_name` answers a defined name with few letters that differ, and no other has fewer (`nearest`); `None` if no
//!   name is so near (`none`).
//!
//! Calls fail only if memory runs out. Definitions are found by a hash of their names, so the cost of `check_names` is in
//! line with the number of names, and that of `nearest_name` with the number of definitions.
#![tactic(auto)]

mod doubled;
mod imports;
mod index;
mod names;
mod nearest;
mod problems;
mod undefined;

pub use doubled::{DoubledName, find_doubled};
pub use imports::find_unknown_imports;
pub use index::NameIndex;
pub use names::{DefinedName, ImportedName, Names, Place, UsedName};
pub use nearest::{most_edits, nearest_name};
pub use problems::{NameProblem, check_names};
pub use undefined::find_undefined;
