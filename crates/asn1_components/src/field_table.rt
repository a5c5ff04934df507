//! Types with a table of fields.
ghost use Rattle.std.specs.Prelude.{◌≡◌, length, slice_get};
ghost use Rattle.std.specs.Option.{option_map};
ghost use Rattle.asn1_fields.specs.FieldViews.{view_of};
ghost use Rattle.asn1_components.specs.Components.{AgreesWithComponents, Components, extension_index, table};

use asn1_fields::Field;
use asn1_model::AsnType;

/// A type with components (X.680, 25 and 27): a SEQUENCE, a SET, or a group of additions.
///
/// The type states its components once. Its table has a field for each: those of the root, of a SET in canonical order, and
/// then the additions. The calls answer fields by value, so that a generic type has its table too.
pub trait FieldTable {
    // The components, in the order of their definition.
    ghost components: { Components Self };

    /// The number of fields, additions among them.
    fn field_count() -> usize
        ensures { result ≡ length (table components) };

    /// The field at an index of the table; `None` if there is none.
    fn field_at(index: usize) -> Option<Field<'static>>
        ensures { option_map view_of result ≡ slice_get (table components) index };

    /// How many fields come before the extension marker, which are those of the root; `None` if there is no marker.
    fn extension_index() -> Option<usize>
        ensures { result ≡ extension_index components };
}

/// A SEQUENCE or a SET: the law that the type means what its components mean.
///
/// The law is a trait of its own, without methods, since a recursive type's own writer passes `FieldTable` on.
pub trait ConstructedType: AsnType + FieldTable {
    // The law.
    ghost agrees: { AgreesWithComponents Self.components Self.meaning };
}
