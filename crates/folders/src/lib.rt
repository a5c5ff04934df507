//! The types of these modules of ASN.1, in files made by `asn1_compile`:
//!
//! - `File-Tree`
#![tactic(auto, using(asn1_schema::proofs::Trees::tree_shapes))]

mod aliases;
mod archive;
mod file;
mod folder;
mod folder_of;
mod folder_parts;
mod folder_reader;
mod label;
mod link;

pub use aliases::Link;
pub use archive::{Archive, archive_is_well_tagged};
pub use file::{File, file_has_one_spelling, file_is_well_tagged};
pub use folder::{Folder, each_folder_is_valid, each_link_is_valid, folder_is_well_tagged};
pub use folder_of::FolderOf;
pub use label::{Label, label_has_one_spelling, label_is_well_tagged};
pub use link::LinkOf;
