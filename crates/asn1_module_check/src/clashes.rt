//! Components that share a tag.
ghost use Rattle.std.specs.Prelude.{IfOk};
ghost use Rattle.asn1_fields.specs.DistinctTags.{IsLeast};
ghost use Rattle.asn1_clash.specs.Views.{components_view};
ghost use Rattle.asn1_module_check.specs.DistinctTags.{IsClash};

use crate::constructed::{Constructed, ConstructedKind};
use asn1_clash::{find_sequence_clash, find_set_clash};
use std::alloc::{AllocError, Global};

/// The indices of the first two components that share a tag although they must not, if there are such.
pub(crate) fn find_clash(
    alloc: Global,
    constructed: &Constructed<'_>,
) -> Result<Option<(usize, usize)>, AllocError>
    ensures { IfOk result (IsLeast
        (IsClash constructed.now.kind (components_view constructed.now.components.items))) }
{
    match constructed.kind {
        ConstructedKind::Sequence => find_sequence_clash(alloc, constructed.components.as_slice()),
        ConstructedKind::Set => find_set_clash(alloc, constructed.components.as_slice()),
        ConstructedKind::Choice => find_set_clash(alloc, constructed.components.as_slice()),
    }
}
