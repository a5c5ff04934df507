//! The elements of the arrays of which tables are made.
ghost use Rattle.std.specs.Prelude.{◌≡◌, List, length, refl};
ghost use Rattle.asn1_fields.specs.declared.field.Field.{Field};

use crate::field::Field;

/// An element of an array of which a table is made: [`Field`].
///
/// [`Fields::from_static`](crate::Fields::from_static) takes an array of these, of any length, and no array of `Field` itself, since
/// a function of an array that holds references gets no proof where the length is a parameter.
pub trait TableField<'a>: Copy {
    // the fields that the elements are
    ghost fields: { List Self → List Field };

    /// The elements as a slice of fields.
    fn as_fields(elements: &'a [Self]) -> &'a [Field<'a>]
        ensures { result.now ≡ fields elements.now };

    // there are as many fields as elements
    ghost same_length: { (elements : List Self) → length (fields elements) ≡ length elements };
}

impl<'a> TableField<'a> for Field<'a> {
    ghost fields = { λ elements. elements };

    ghost same_length = { λ elements. refl };

    fn as_fields(elements: &'a [Field<'a>]) -> &'a [Field<'a>] {
        elements
    }
}
