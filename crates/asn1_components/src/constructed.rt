//! Types whose fields are tables in static memory.
ghost use Rattle.std.specs.Prelude.{◌≡◌, ◌++◌, MatchOption, length, slice_get, true, false};
ghost use Rattle.std.specs.Option.{option_map};
ghost use Rattle.asn1_fields.specs.FieldViews.{views, view_of};
ghost use Rattle.asn1_fields.specs.FieldLists.{fields_of};
ghost use Rattle.asn1_components.specs.Components.{added_views, has_marker, root_views};

use crate::field_table::FieldTable;
use asn1_fields::{Field, Fields};

/// A type with a table of `RL` fields of the root and `EL` additions in static memory (rasn's `Constructed`). A generic
/// type has no such table, and its fields by value alone.
pub trait Constructed<const RL: usize, const EL: usize>: FieldTable {
    /// The fields of the root.
    fn root_fields() -> &'static [Field<'static>]
        ensures { views result.now ≡ root_views Self.components };

    /// The additions.
    fn added_fields() -> &'static [Field<'static>]
        ensures { views result.now ≡ added_views Self.components };

    /// Whether the type has an extension marker.
    final fn is_extensible() -> bool
        ensures { result ≡ has_marker Self.components.extension }
    {
        Self::extension_index().is_some()
    }

    /// The fields of the root, as a table.
    final fn fields() -> Fields<'static, RL>
        ensures { views (fields_of result) ≡ root_views Self.components }
    {
        Fields::from_slice(Self::root_fields()).unwrap()
    }

    /// The additions, as a table; `None` if there is no extension marker.
    final fn extended_fields() -> Option<Fields<'static, EL>>
        ensures { MatchOption result (has_marker Self.components.extension ≡ false)
            (λ table. (has_marker Self.components.extension ≡ true) ×
            (views (fields_of table) ≡ added_views Self.components)) }
    {
        if Self::is_extensible() {
            Fields::from_slice(Self::added_fields())
        } else {
            None
        }
    }

    // the counts are those of the tables
    ghost root_length: { length (root_views Self.components) ≡ RL };

    ghost additions_length: { length (added_views Self.components) ≡ EL };
}

/// The field at an index of two tables, the root's and that of the additions; `None` if there is none. For the
/// `field_at` of a type that has them.
pub fn field_in(
    root: &[Field<'static>],
    added: &[Field<'static>],
    index: usize,
) -> Option<Field<'static>>
    ensures { option_map view_of result ≡ slice_get (views root.now ++ views added.now) index }
{
    match index.checked_sub(root.len()) {
        Some(later) => added.get(later).copied(),
        None => root.get(index).copied(),
    }
}
