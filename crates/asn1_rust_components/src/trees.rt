//! Trees of tags.
use crate::definitions::{Tree, TypeFile};
use asn1_rust_code::{Draft, ListStyle};
use std::alloc::AllocError;

/// The code of a tree.
pub fn tree_code(draft: &mut Draft, tree: &Tree) -> Result<String, AllocError> {
    match tree {
        Tree::Leaf(tag) => {
            let tag = draft.tag_code(*tag)?;
            format!(in draft.alloc(); "TagTree::Leaf({tag})")
        }
        Tree::Choice(import) => {
            draft.use_import(import)?;
            let constant = import.name.as_str();
            format!(in draft.alloc(); "TagTree::Choice({constant})")
        }
    }
}

/// Appends the constant with the trees of a type.
pub fn append_trees(
    draft: &mut Draft,
    file: &TypeFile,
    trees: &[String],
) -> Result<(), AllocError> {
    draft.use_names(&["TagTree"])?;
    let constant = constant_of(draft, file)?;
    let opening = format!(in draft.alloc();
        "pub(crate) const {constant}: &[TagTree<'static>] = &["
    )?;
    draft.list(0, opening.as_str(), trees, "];", ListStyle::Arguments)?;
    draft.blank()
}

/// The constant with the trees of a type.
pub fn constant_of(draft: &Draft, file: &TypeFile) -> Result<String, AllocError> {
    let mut constant = String::new(draft.alloc());
    for octet in file.module.as_bytes() {
        constant.push(char::from(octet.to_ascii_uppercase()))?;
    }
    Ok(constant)
}
