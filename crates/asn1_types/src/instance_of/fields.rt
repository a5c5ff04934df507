//! The fields of INSTANCE OF: the name of the type, and the value [0] (X.681, annex C).
ghost use Rattle.std.specs.Prelude.{refl};
ghost use Rattle.asn1_types.specs.Kinds.{instance_of_components};

use crate::instance_of::InstanceOf;
use asn1_components::{Constructed, FieldTable};
use asn1_fields::{Field, FieldPresence};
use asn1_model::AsnType;
use asn1_tags::{Class, Tag, TagTree};

const VALUE: Tag = Tag {
    class: Class::Context,
    value: 0,
};

const FIELDS: &[Field<'static>] = &[
    Field {
        index: 0,
        tag: Tag::OBJECT_IDENTIFIER,
        tag_tree: TagTree::Leaf(Tag::OBJECT_IDENTIFIER),
        presence: FieldPresence::Required,
        name: "type_id",
    },
    Field {
        index: 1,
        tag: VALUE,
        tag_tree: TagTree::Leaf(VALUE),
        presence: FieldPresence::Required,
        name: "value",
    },
];

impl<T: AsnType> FieldTable for InstanceOf<T> {
    ghost components = { instance_of_components (λ instance. instance.type_id) (λ instance. instance.value) T.meaning };

    fn field_count() -> usize {
        2
    }

    fn field_at(index: usize) -> Option<Field<'static>> {
        FIELDS.get(index).copied()
    }

    fn extension_index() -> Option<usize> {
        None
    }
}

impl<T: AsnType> Constructed<2, 0> for InstanceOf<T> {
    fn root_fields() -> &'static [Field<'static>] {
        FIELDS
    }

    fn added_fields() -> &'static [Field<'static>] {
        &[]
    }

    ghost root_length = { refl };

    ghost additions_length = { refl };
}
