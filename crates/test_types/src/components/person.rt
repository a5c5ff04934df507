//! Person ::= SEQUENCE { name UTF8String, ..., number [0] INTEGER (0..255) OPTIONAL }, with its tables in static memory.
ghost use Rattle.std.specs.Prelude.{[], ◌∷◌, codes, refl};
ghost use Rattle.asn1_model.specs.TaggedTypes.{tagged, untagged};
ghost use Rattle.asn1_model.specs.Tags.{context};
ghost use Rattle.asn1_components.specs.ComponentTypes.{required, addition};
ghost use Rattle.asn1_components.specs.Components.{extensible_sequence};

use asn1_components::{Constructed, FieldTable, field_in};
use asn1_fields::{Field, FieldPresence};
use asn1_model::AsnType;
use asn1_tags::{Class, Tag, TagTree};

#[derive(Drop)]
struct Person {
    name: String,
    number: Option<u8>,
}

const ROOT: &[Field<'static>] = &[Field {
    index: 0,
    tag: Tag::UTF8_STRING,
    tag_tree: TagTree::Leaf(Tag::UTF8_STRING),
    presence: FieldPresence::Required,
    name: "name",
}];

const NUMBER: Tag = Tag {
    class: Class::Context,
    value: 0,
};

const ADDED: &[Field<'static>] = &[Field {
    index: 1,
    tag: NUMBER,
    tag_tree: TagTree::Leaf(NUMBER),
    presence: FieldPresence::Optional,
    name: "number",
}];

impl FieldTable for Person {
    ghost components = { extensible_sequence
        (required (codes "name") (λ p. p.name) (untagged ⟦<String as AsnType>⟧.meaning) ∷ [])
        (addition (codes "number") (λ p. p.number) (tagged (context 0) ⟦<u8 as AsnType>⟧.meaning) ∷ []) };

    fn field_count() -> usize {
        2
    }

    #[tactic(auto, using(asn1_tags::proofs::Leaves::tree_shapes))]
    fn field_at(index: usize) -> Option<Field<'static>> {
        field_in(ROOT, ADDED, index)
    }

    fn extension_index() -> Option<usize> {
        Some(1)
    }
}

impl Constructed<1, 1> for Person {
    #[tactic(auto, using(asn1_tags::proofs::Leaves::tree_shapes))]
    fn root_fields() -> &'static [Field<'static>] {
        ROOT
    }

    #[tactic(auto, using(asn1_tags::proofs::Leaves::tree_shapes))]
    fn added_fields() -> &'static [Field<'static>] {
        ADDED
    }

    ghost root_length = { refl };

    ghost additions_length = { refl };
}

#[test]
fn tables_go_on_with_the_additions(rt: HostRuntime) {
    assert!(rt; Person::fields().len() == 1 && Person::extended_fields().is_some());
}
