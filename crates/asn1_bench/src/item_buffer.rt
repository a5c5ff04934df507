//! The bytes of items, as an encoder writes them.

use crate::presence::Presence;
use asn1_bounds::Codec;
use asn1_buffers::{MarkKind, RecordBuffer, WriteError};
use asn1_items::{Buffer, Content, ScopeKind};
use asn1_tags::Tag;
use std::alloc::Global;
use std::marker::PhantomData;

/// A buffer of the bytes of items. `P` defines how presence is written.
///
/// It does not take the records that are too long, with 2^32 bytes or more inside an item: [`WriteError::Rejected`], with the text
/// `item too long`.
#[derive(Drop)]
pub struct ItemBuffer<P> {
    items: Buffer,
    presence: PhantomData<P>,
}

impl<P: Presence> RecordBuffer for ItemBuffer<P> {
    ghost use Rattle.asn1_buffers.specs.Buffers.{EndsScope, EndsScopeInOrder};
    ghost use Rattle.asn1_bench.specs.WrittenItems.{rejects_by_parts, written_items};

    ghost form = { written_items P.mark_bytes };

    ghost own_codec = { P.own_codec };

    fn codec() -> Codec {
        P::codec()
    }

    fn new(alloc: Global) -> ItemBuffer<P> {
        ItemBuffer {
            items: Buffer::new(alloc),
            presence: PhantomData,
        }
    }

    fn finish(self) -> Vec<u8> {
        self.items.finish()
    }

    #[inline(always)]
    fn append_scalar(&mut self, tag: Tag, content: Content<'_>) -> Result<(), WriteError> {
        self.items.append_scalar(tag, content)?;
        Ok(())
    }

    fn append_open_type(&mut self, bytes: &[u8]) -> Result<(), WriteError> {
        self.items.append_open_type(bytes)?;
        Ok(())
    }

    #[inline(always)]
    fn append_mark(&mut self, kind: MarkKind) -> Result<(), WriteError> {
        self.items.append_mark(P::bytes_of_mark(kind))?;
        Ok(())
    }

    #[inline(always)]
    fn begin_scope(&mut self, kind: ScopeKind, tag: Tag) -> Result<(), WriteError> {
        self.items.open_scope(kind, tag)?;
        Ok(())
    }

    // The items of a SET, and the elements of a SET OF, stay in the order in which they were written (`in_order`).
    #[inline(always)]
    fn end_scope(&mut self) -> Result<(), WriteError>
        ensures ended { EndsScope (written_items P.mark_bytes) self.old self.new result }
        ensures in_order { EndsScopeInOrder (written_items P.mark_bytes)
            self.old self.new result }
    {
        self.items.close_scope()?;
        Ok(())
    }

    fn begin_group(&mut self) -> Result<(), WriteError> {
        self.items
            .open_group(P::bytes_of_mark(MarkKind::GroupStart))?;
        Ok(())
    }

    fn end_group(&mut self) -> Result<(), WriteError> {
        let end = P::bytes_of_mark(MarkKind::GroupEnd);
        let absent = P::bytes_of_mark(MarkKind::GroupAbsent);
        self.items.close_group(end, absent)?;
        Ok(())
    }

    ghost by_parts = { rejects_by_parts P.mark_bytes };
}
