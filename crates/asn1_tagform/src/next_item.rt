//! The item that is next.
ghost use Rattle.asn1_items.specs.NextTags.{IsNext};
ghost use Rattle.asn1_model.specs.Records.{Record};
ghost use Rattle.asn1_tagform.specs.Next.{AreLeft};
ghost use Rattle.std.specs.Prelude.{List, MatchResult, refl};

use asn1_bench::Presence;
use asn1_bounds::Codec;
use asn1_buffers::MarkKind;
use asn1_components::FieldTable;
use asn1_items::{ItemError, Slices, group_can_begin_with};
use asn1_model::can_begin_with;
use asn1_tags::{Tag, TagTree};

/// The item that is next, by whose tag the tag form tells what is there. There are no presence marks.
pub struct NextItem;

impl Presence for NextItem {
    ghost use Rattle.asn1_bounds.specs.declared.codec.Codec.TheVariants.{Other};
    ghost use Rattle.asn1_tagform.specs.Next.{no_marks};

    ghost mark_bytes = { no_marks };

    ghost own_codec = { Other 1 };

    fn codec() -> Codec {
        Codec::Other(1)
    }

    fn bytes_of_mark(_kind: MarkKind) -> &'static [u8] {
        &[]
    }

    fn component(slices: &mut Slices<'_>, tree: TagTree<'static>) -> Result<bool, ItemError> {
        match next_tag(slices)? {
            Some(tag) => Ok(can_begin_with(tree, tag)),
            None => Ok(false),
        }
    }

    fn group<C: FieldTable>(slices: &mut Slices<'_>) -> Result<bool, ItemError> {
        match next_tag(slices)? {
            Some(tag) => Ok(group_can_begin_with::<C>(tag)),
            None => Ok(false),
        }
    }

    fn end_of_group(_slices: &mut Slices<'_>) -> Result<(), ItemError> {
        Ok(())
    }

    fn skip_marks(_slices: &mut Slices<'_>) {}

    ghost begin_no_item = { λ _ _ _ _. refl };
}

/// The tag of the next item, if one is left.
fn next_tag(slices: &Slices<'_>) -> Result<Option<Tag>, ItemError>
    ensures { (rs : List Record) → AreLeft rs slices.now →
        MatchResult result (IsNext rs) (λ _. ⊥) }
{
    if slices.is_at_end() {
        return Ok(None);
    }
    let header = slices.next_header()?;
    Ok(Some(header.tag))
}
