//! The reader of a node: four functions that call one another.
ghost use Rattle.asn1_laws.specs.Reading.{AfterReading, ReadsValue};
ghost use Rattle.asn1_laws.specs.ReadingExactly.{HasReadElements, HasReadFields, HasReadList, HasReadValue};
ghost use Rattle.asn1_laws.specs.ReadingTypes.{ReadsElements, ReadsElementsLeft, ReadsFields};
ghost use Rattle.asn1_model.specs.ConstraintSets.{constraint_set, unconstrained};
ghost use Rattle.asn1_model.specs.Records.{sequence_of};
ghost use Rattle.asn1_model.specs.Tags.{universal};
ghost use Rattle.asn1_samples.specs.NodeComponents.{node_components, node_meaning};
ghost use Rattle.std.specs.Cmp.Lexicographic.{pointwise};
ghost use Rattle.std.specs.Prelude.{◌≡◌, IfOk, OnOk};

use crate::node::Node;
use asn1_dec::{DecodeError, Decoder};
use asn1_nesting::{close_sequence, close_sequence_of, open_sequence_at, open_sequence_of_at};
use asn1_types::{Constraints, Tag};

/// Reads a value under a tag.
#[cycle(node_reader)]
pub(crate) fn read_node<D: Decoder>(
    decoder: &mut D,
    tag: Tag,
    _constraints: &Constraints<'_>,
) -> Result<Node, DecodeError>
    ensures read { ReadsValue D.reader node_meaning ⟦<Node as PartialEq>⟧.eq tag
        (constraint_set _constraints.now) decoder.old decoder.new result }
    ensures only { IfOk result (HasReadValue D.reader decoder.old decoder.new node_meaning tag
        (constraint_set _constraints.now)) }
    ensures after_reading { AfterReading D.reader node_meaning tag
        (constraint_set _constraints.now) decoder.old decoder.new result }
{
    open_sequence_at::<Node, D>(decoder, tag)?;
    let node = read_components(decoder);
    close_sequence(decoder, tag, node)
}

/// Reads the components.
#[cycle(node_reader)]
pub(crate) fn read_components<D: Decoder>(decoder: &mut D) -> Result<Node, DecodeError>
    ensures read { ReadsFields D.reader node_components ⟦<Node as PartialEq>⟧.eq decoder.old
        decoder.new result }
    ensures only { IfOk result (HasReadFields D.reader decoder.old decoder.new node_components) }
    ensures same_depth { OnOk result (D.reader.depth_left decoder.new ≡
        D.reader.depth_left decoder.old) }
{
    let label = decoder.decode_optional()?;
    let children = read_children(decoder)?;
    Ok(Node { label, children })
}

/// Reads the children.
#[cycle(node_reader)]
fn read_children<D: Decoder>(decoder: &mut D) -> Result<Vec<Node>, DecodeError>
    ensures read { ReadsElements D.reader (sequence_of (universal 16) unconstrained) node_meaning
        (λ w. pointwise ⟦<Node as PartialEq>⟧.eq w.items) decoder.old decoder.new result }
    ensures only { IfOk result (λ w. HasReadList D.reader decoder.old decoder.new
        (sequence_of (universal 16) unconstrained) node_meaning w.items) }
    ensures same_depth { OnOk result (D.reader.depth_left decoder.new ≡
        D.reader.depth_left decoder.old) }
{
    let bound = open_sequence_of_at::<Node, D>(decoder, Tag::SEQUENCE, &Constraints::NONE)?;
    let children = read_nodes(decoder, bound);
    close_sequence_of(decoder, children)
}

/// Reads the nodes that are left in the innermost scope, of which there are at most `bound`.
#[cycle(node_reader)]
fn read_nodes<D: Decoder>(decoder: &mut D, bound: usize) -> Result<Vec<Node>, DecodeError>
    ensures read { ReadsElementsLeft D.reader bound node_meaning
        (λ w. pointwise ⟦<Node as PartialEq>⟧.eq w.items) decoder.old decoder.new result }
    ensures only { IfOk result (λ w. HasReadElements D.reader decoder.old decoder.new node_meaning
        w.items) }
    ensures same_depth { OnOk result (D.reader.depth_left decoder.new ≡
        D.reader.depth_left decoder.old) }
{
    let mut nodes = Vec::new(decoder.global());
    for _index in 0..bound {
        if !decoder.more()? {
            return Ok(nodes);
        }
        let node = read_node(decoder, Tag::SEQUENCE, &Constraints::NONE)?;
        match nodes.push(node) {
            Ok(()) => {}
            Err(_) => return Err(DecodeError::Memory),
        }
    }
    Ok(nodes)
}
