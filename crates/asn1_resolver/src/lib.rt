//! Resolves the names and numbers in the trees of a set of modules: to a schema, and the problems of the modules.
//!
//! | Item | What it is |
//! |---|---|
//! | [`resolve`] | the schema of all modules of a run (`asn1_resolved`), with the problems |
//! | [`Resolution`] | the two, the names of the modules, and whether the schema is accepted |
//!
//! [`resolve`] follows references, expands COMPONENTS OF, adds automatic tags, numbers the items of each ENUMERATED, reads values
//! by their types, completes types with their arguments (X.683), gives fields of classes their types (X.681), and takes the
//! constraints that a type can carry. Nothing is substituted in a tree: a part of a template is read with the index of the instance
//! that gives its parameters their arguments. A [`Problem`](asn1_resolved::Problem) is an error or a
//! warning with its place, at most one error at a place. A schema with an error is incomplete: a type or value that was not
//! resolved is left out, or is NULL.
//!
//! The contracts promise, in the words of `specs/Accepted`, `specs/References`, `specs/Indices` and `specs/TypePlaces`:
//!
//! - No module of an accepted schema has a name twice (`distinct` of [`resolve`]; `HasDistinctNames`).
//! - Every reference of accepted modules is to a definition of its own module, of one from which its module imports the name, or
//!   of the one that it names (`resolved`; `AreResolved`). The names are all that the modules define and import (`defined`,
//!   `imported`); which references are listed, `collect_names` of `asn1_modules` says.
//! - The schema refers to such a definition for each reference (`find` in `references`; `IsMeant`).
//! - Every reference of an accepted schema, at any depth, is to a definition of it (`known` of [`resolve`]; `HasKnownReferences`).
//! - The schema has a definition for each type that a module defines, in the order of the texts (`types`; `type_places`). A type
//!   whose parameters are objects and object sets is one; those that other arguments complete follow.
//! - A schema is accepted if and only if no problem is an error ([`Resolution::is_accepted`]).
//!
//! Every call returns for all modules, and fails only if memory runs out. No contract covers the rest of the schema, or the
//! problems of a text; the stored run of test_notation shows both.
#![tactic(auto)]

mod accepted;
mod alphabets;
mod ambiguous;
mod arguments;
mod base;
mod bits;
mod component_list;
mod constraints;
mod definitions;
mod distinct;
mod enumerations;
mod exports;
mod fault;
mod fields;
mod finder;
mod followed;
mod governed;
mod included;
mod indices;
mod instances;
mod items;
mod literals;
mod modules;
mod named_numbers;
mod numbers;
mod object_fields;
mod open_values;
mod ranges;
mod references;
mod relations;
mod resolution;
mod resolver;
mod skipped;
mod tables;
mod tags;
mod types;
mod value_parts;
mod values;
mod words;

pub use resolution::{Resolution, resolve};
