//! `Node ::= SEQUENCE { label UTF8String OPTIONAL, children SEQUENCE OF Node }`
ghost use Rattle.std.specs.List.{flat_map};
ghost use Rattle.std.specs.Prelude.{◌≡◌, ◌+◌, Bool, List, [], ℕ};
ghost use Rattle.asn1_types.specs.Words.{IsWellTagged, own_records};
ghost use Rattle.asn1_model.specs.Records.{highest};
ghost use Rattle.asn1_samples.specs.NodeComponents.{node_components, node_agrees, node_meaning, records_by_children};
ghost use Rattle.asn1_samples.specs.declared.node.Node.{out-Node};

use crate::node_reader::{read_components, read_node};
use asn1_dec::{Decode, DecodeError, DecodeFields, Decoder};
use asn1_enc::{Encode, EncodeError, EncodeFields, Encoder};
use asn1_types::{
    AsnType, Constraints, ConstructedType, Field, FieldTable, Identifier, Tag, TypeTable,
};
use asn1_values::Utf8String;

/// A tree of labels: a type that holds itself.
#[derive(PartialEq, Eq, Debug, Drop)]
pub struct Node {
    /// `label UTF8String OPTIONAL`
    pub label: Option<Utf8String>,
    /// `children SEQUENCE OF Node`
    pub children: Vec<Node>,
}

impl FieldTable for Node {
    ghost components = { node_components };

    fn field_count() -> usize {
        2
    }

    fn field_at(index: usize) -> Option<Field<'static>> {
        match index {
            0 => Some(Field::new_optional_type::<Utf8String>(0, "label")),
            1 => Some(Field::new_required_type::<Vec<Node>>(1, "children")),
            _ => None,
        }
    }

    fn extension_index() -> Option<usize> {
        None
    }
}

impl AsnType for Node {
    ghost meaning = { node_meaning };

    fn table() -> TypeTable {
        TypeTable::new(Tag::SEQUENCE, Identifier(Some("Node")))
    }

    fn is_present(&self) -> bool {
        true
    }
}

impl ConstructedType for Node {
    ghost agrees = { node_agrees };
}

/// A `Node` is well tagged: the tags of its components are distinct.
pub fn node_is_well_tagged()
    ensures { IsWellTagged ⟦<Node as AsnType>⟧.meaning }
{}

/// Each `Node` is valid, whatever labels it holds.
#[tactic(auto, using(crate::proofs::NodeValidity::each_node_valid))]
pub fn each_node_is_valid(node: &Node)
    ensures { (accepts : List ℕ → Bool) → ⟦<Node as AsnType>⟧.meaning.IsValid accepts node.now }
{}

impl Encode for Node {
    #[cycle(node)]
    fn encode_with_tag_and_constraints<E: Encoder>(
        &self,
        encoder: &mut E,
        tag: Tag,
        _constraints: &Constraints<'_>,
        name: Identifier,
    ) -> Result<(), EncodeError> {
        encoder.encode_sequence(tag, self, name)
    }
}

impl EncodeFields for Node {
    #[cycle(node)]
    #[inline(always)]
    fn encode_field<E: Encoder>(&self, index: usize, encoder: &mut E) -> Result<(), EncodeError> {
        match index {
            0 => self.label.encode(encoder),
            1 => self.children.encode(encoder),
            _ => Ok(()),
        }
    }

    // The indices one after the other, with no loop: so the compiler knows which component each call writes.
    #[cycle(node)]
    #[inline(always)]
    fn encode_fields<E: Encoder>(&self, encoder: &mut E) -> Result<(), EncodeError> {
        self.encode_field(0, encoder)?;
        self.encode_field(1, encoder)?;
        Ok(())
    }
}

impl Decode for Node {
    fn decode_with_tag_and_constraints<D: Decoder>(
        decoder: &mut D,
        tag: Tag,
        constraints: &Constraints<'_>,
    ) -> Result<Node, DecodeError> {
        read_node(decoder, tag, constraints)
    }
}

impl DecodeFields for Node {
    fn decode_fields<D: Decoder>(decoder: &mut D) -> Result<Node, DecodeError> {
        read_components(decoder)
    }
}

/// The records of a node, by those of its children.
pub fn node_has_its_records(node: &Node)
    ensures { own_records ⟦<Node as AsnType>⟧.meaning node.now ≡ records_by_children node.now }
{}

/// How deep the records of a node are nested: two more than in its children, which are in a SEQUENCE and in a SEQUENCE OF.
/// So many scopes have to be open at once to write it.
#[tactic(auto, using(crate::proofs::NodeHeights::node_height))]
pub fn node_is_two_higher_than_its_children(node: &Node)
    ensures height { highest (own_records ⟦<Node as AsnType>⟧.meaning node.now) ≡
        highest (flat_map (own_records ⟦<Node as AsnType>⟧.meaning)
        (out-Node node.now).children.items) + 2 }
    ensures without_children { (out-Node node.now).children.items ≡ [] →
        highest (own_records ⟦<Node as AsnType>⟧.meaning node.now) ≡ 2 }
{}
