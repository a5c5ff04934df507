//! Nodes inside one another.
use asn1_samples::Node;
use std::alloc::{AllocError, Global};

/// A node without a label and without children, with this many nodes around it, one in another.
///
/// # Errors
/// There was no memory.
pub fn node_chain(alloc: Global, around: usize) -> Result<Node, AllocError> {
    let mut node = Node {
        label: None,
        children: Vec::new(alloc),
    };
    for _index in 0..around {
        node = parent(alloc, node)?;
    }
    Ok(node)
}

/// A node without a label and with this child.
fn parent(alloc: Global, child: Node) -> Result<Node, AllocError> {
    let mut children = Vec::new(alloc);
    match children.push(child) {
        Ok(()) => Ok(Node {
            label: None,
            children,
        }),
        Err(_) => Err(AllocError),
    }
}
