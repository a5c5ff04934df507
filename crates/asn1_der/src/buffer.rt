//! The bytes of DER, as an encoder writes them.
ghost use Rattle.asn1_items.specs.Kinds.{kind_of_scope};
ghost use Rattle.asn1_buffers.specs.declared.error.WriteError.TheVariants.{Memory};
ghost use Rattle.asn1_der_items.specs.Bytes.{content_order_of};
ghost use Rattle.asn1_der_items.specs.declared.error.ElementError.TheVariants as element_error;
ghost use Rattle.asn1_model.specs.Records.{Head};
ghost use Rattle.std.specs.Prelude.{◌≡◌, ◌↔◌};

use crate::frame::Frame;
use crate::scopes::{begin_scope, finish_scope};
use asn1_bounds::Codec;
use asn1_buffers::{MarkKind, RecordBuffer, ScopeKind, WriteError};
use asn1_der_items::{ContentOrder, ElementError, append_primitive, is_one_element};
use asn1_items::Content;
use asn1_tags::Tag;
use std::alloc::Global;

/// A buffer of the DER of records (X.690). An element gets its length when what is inside has been written, and a set is sorted
/// then. A CHOICE has no element of its own, and presence marks and groups have no bytes.
///
/// It does not take records that have no DER: [`WriteError::Rejected`], with the text `no such object identifier`, `unit above
/// 255`, `an open type is not one element` or `a choice is not one element of its tag`.
#[derive(Drop)]
pub struct DerBuffer {
    alloc: Global,
    bytes: Vec<u8>,
    outer: Vec<Frame>,
}

impl RecordBuffer for DerBuffer {
    ghost use Rattle.asn1_bounds.specs.declared.codec.Codec.TheVariants.{Der};
    ghost use Rattle.asn1_der.specs.WrittenElements.{rejects_by_parts, written_der};

    ghost form = { written_der };

    ghost own_codec = { Der };

    fn codec() -> Codec {
        Codec::Der
    }

    fn new(alloc: Global) -> DerBuffer {
        DerBuffer {
            alloc,
            bytes: Vec::new(alloc),
            outer: Vec::new(alloc),
        }
    }

    fn finish(self) -> Vec<u8> {
        self.bytes
    }

    #[inline(always)]
    fn append_scalar(&mut self, tag: Tag, content: Content<'_>) -> Result<(), WriteError> {
        match append_primitive(&mut self.bytes, self.alloc, tag, content) {
            Ok(()) => Ok(()),
            Err(error) => Err(write_error_of(error)),
        }
    }

    fn append_open_type(&mut self, bytes: &[u8]) -> Result<(), WriteError> {
        if !is_one_element(bytes) {
            return Err(WriteError::Rejected("an open type is not one element"));
        }
        self.bytes.extend_from_slice(bytes)?;
        Ok(())
    }

    #[inline(always)]
    fn append_mark(&mut self, _kind: MarkKind) -> Result<(), WriteError> {
        Ok(())
    }

    #[inline(always)]
    fn begin_scope(&mut self, kind: ScopeKind, tag: Tag) -> Result<(), WriteError> {
        let content_order = content_order_of(kind);
        begin_scope(&mut self.bytes, content_order, tag)?;
        let start = self.bytes.len();
        if let Err(_) = self.outer.push(Frame {
            start,
            tag,
            content_order,
        }) {
            return Err(WriteError::Memory);
        }
        Ok(())
    }

    #[inline(always)]
    fn end_scope(&mut self) -> Result<(), WriteError> {
        let Some(frame) = self.outer.pop() else {
            return Err(WriteError::Rejected("nothing is open"));
        };
        finish_scope(self.alloc, &mut self.bytes, frame)
    }

    #[inline(always)]
    fn begin_group(&mut self) -> Result<(), WriteError> {
        Ok(())
    }

    #[inline(always)]
    fn end_group(&mut self) -> Result<(), WriteError> {
        Ok(())
    }

    ghost by_parts = { rejects_by_parts };
}

/// The order of the contents of a kind of scope.
#[inline(always)]
fn content_order_of(kind: ScopeKind) -> ContentOrder
    ensures { (h : Head) → kind_of_scope h ≡ kind → result ≡ content_order_of h }
{
    match kind {
        ScopeKind::Sequence => ContentOrder::AsDefined,
        ScopeKind::Set => ContentOrder::ByTag,
        ScopeKind::SequenceOf => ContentOrder::AsDefined,
        ScopeKind::SetOf => ContentOrder::ByEncoding,
        ScopeKind::ExplicitTag => ContentOrder::AsDefined,
        ScopeKind::Alternative => ContentOrder::Chosen,
    }
}

/// The error of a buffer for this one.
#[cold]
pub(crate) fn write_error_of(error: ElementError) -> WriteError
    ensures { (result ≡ Memory) ↔ (error ≡ element_error.Memory) }
{
    match error {
        ElementError::Memory => WriteError::Memory,
        ElementError::NoSuchArcs => WriteError::Rejected("no such object identifier"),
        ElementError::WideUnit => WriteError::Rejected("unit above 255"),
        ElementError::NotOpen => WriteError::Rejected("nothing is open"),
    }
}
