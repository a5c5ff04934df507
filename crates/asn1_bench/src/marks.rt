//! Presence marks.
ghost use Rattle.asn1_model.specs.Records.{PresenceMark};
ghost use Rattle.asn1_model.specs.Tags.{Tags};
ghost use Rattle.asn1_items.specs.Items.{packed_marks};
ghost use Rattle.asn1_items.specs.Kinds.{kind_of_mark, mark_kind_byte};
ghost use Rattle.asn1_bench.specs.Presence.{FindsPresence, HasTakenEither, KeepsOutside};
ghost use Rattle.std.specs.Prelude.{◌≡◌, ◌≢◌, IfOk};

use crate::presence::Presence;
use asn1_bounds::Codec;
use asn1_components::FieldTable;
use asn1_items::{ItemError, MarkKind, Slices};
use asn1_tags::TagTree;

/// Presence marks of one byte each, by which the packed form tells what may be absent.
pub struct PresenceMarks;

impl Presence for PresenceMarks {
    ghost use Rattle.asn1_bounds.specs.declared.codec.Codec.TheVariants.{Other};
    ghost use Rattle.asn1_items.specs.Items.{packed_marks};
    ghost use Rattle.asn1_bench.specs.Presence.{packed_begin_no_item};

    ghost mark_bytes = { packed_marks };

    ghost own_codec = { Other 0 };

    fn codec() -> Codec {
        Codec::Other(0)
    }

    #[inline(always)]
    fn bytes_of_mark(kind: MarkKind) -> &'static [u8] {
        kind.to_bytes()
    }

    fn component(slices: &mut Slices<'_>, _tree: TagTree<'static>) -> Result<bool, ItemError> {
        tell(slices, MarkKind::Present, MarkKind::Absent)
    }

    fn group<C: FieldTable>(slices: &mut Slices<'_>) -> Result<bool, ItemError> {
        tell(slices, MarkKind::GroupStart, MarkKind::GroupAbsent)
    }

    fn end_of_group(slices: &mut Slices<'_>) -> Result<(), ItemError> {
        if slices.take_mark()? == MarkKind::GroupEnd.to_byte() {
            Ok(())
        } else {
            Err(ItemError::Malformed)
        }
    }

    fn skip_marks(slices: &mut Slices<'_>) {
        slices.skip_marks();
    }

    ghost begin_no_item = { packed_begin_no_item };
}

/// Whether something is there, by the presence marks of two kinds.
fn tell(slices: &mut Slices<'_>, there: MarkKind, away: MarkKind) -> Result<bool, ItemError>
    ensures found { (p a : PresenceMark) (own : Tags) → kind_of_mark p ≡ there →
        kind_of_mark a ≡ away → mark_kind_byte there ≢ mark_kind_byte away →
        FindsPresence packed_marks p a own slices.old slices.new result }
    ensures only { (p a : PresenceMark) → kind_of_mark p ≡ there → kind_of_mark a ≡ away →
        IfOk result (HasTakenEither packed_marks p a slices.old slices.new) }
    ensures keeps_outside { KeepsOutside slices.old slices.new }
{
    let byte = slices.take_mark()?;
    if byte == there.to_byte() {
        Ok(true)
    } else if byte == away.to_byte() {
        Ok(false)
    } else {
        Err(ItemError::Malformed)
    }
}
