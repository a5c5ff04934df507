//! The items of an ENUMERATED type.
ghost use Rattle.std.specs.Option.{option_copied, option_map};
ghost use Rattle.std.specs.Prelude.{◌≡◌};
ghost use Rattle.asn1_components.specs.Enumerations.{Enumeration};
ghost use Rattle.asn1_components.specs.ItemTables.{table_items};

use crate::items::EnumerationItem;

/// The items of an ENUMERATED type (X.680, clause 20), each a value with its number and its name. The meaning of the type quotes
/// them, so they are apart from [`crate::Enumerated`], which builds on the meaning.
pub trait EnumeratedItems: Sized + Copy + Eq + 'static {
    // the items of the root, and those after the extension marker
    ghost enumeration: { Enumeration Self };

    /// The items of the root.
    fn items() -> &'static [EnumerationItem<Self>]
        ensures { table_items result.now ≡ enumeration.root };

    /// The items after the extension marker; `None` if there is no marker.
    fn added_items() -> Option<&'static [EnumerationItem<Self>]>
        ensures { option_map table_items (option_copied result) ≡ enumeration.additions };
}
