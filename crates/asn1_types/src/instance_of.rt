//! INSTANCE OF (X.681, annex C).
ghost use Rattle.std.specs.Prelude.{codes};
ghost use Rattle.asn1_components.specs.Components.{constructed_type_under, constructed_agrees};
ghost use Rattle.asn1_model.specs.Tags.{universal};

mod fields;

use asn1_components::{ConstructedType, FieldTable};
use asn1_model::{AsnType, TypeTable};
use asn1_tags::{Identifier, Tag};
use asn1_values::ObjectIdentifier;

/// A value beside the name of its type.
#[derive(Debug, PartialEq, Eq, PartialOrd, Ord, Hash, Drop)]
pub struct InstanceOf<T> {
    /// The name of the value's type.
    pub type_id: ObjectIdentifier,
    /// The value.
    pub value: T,
}

impl<T: AsnType> AsnType for InstanceOf<T> {
    ghost meaning = { constructed_type_under ⟦<InstanceOf<T> as FieldTable>⟧.components (universal 8) (codes "SEQUENCE") };

    #[inline(always)]
    fn table() -> TypeTable {
        TypeTable::new(Tag::EXTERNAL, Identifier::INSTANCE_OF)
    }

    #[inline(always)]
    fn is_present(&self) -> bool {
        true
    }
}

impl<T: AsnType> ConstructedType for InstanceOf<T> {
    ghost agrees = { constructed_agrees };
}
