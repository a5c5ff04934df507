//! The items of ENUMERATED types.
ghost use Rattle.std.specs.Prelude.{◌≡◌, ◌++◌, OnOk};
ghost use Rattle.std.specs.String.{string_bytes};
ghost use Rattle.asn1_components.specs.Enumerations.{name_of};

use asn1_types::Enumerated;
use std::alloc::AllocError;

/// Appends the name of an item.
pub(crate) fn push_item<T: Enumerated>(text: &mut String, item: &T) -> Result<(), AllocError>
    ensures { OnOk result (string_bytes text.new ≡
        string_bytes text.old ++ name_of T.eq T.enumeration item.now) }
{
    text.push_str(item.identifier())
}
