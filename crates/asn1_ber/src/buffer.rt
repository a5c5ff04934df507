//! The octets that are written for BER: those of DER.
use asn1_bounds::Codec;
use asn1_buffers::{BufferEncoder, MarkKind, RecordBuffer, ScopeKind, WriteError};
use asn1_der::DerBuffer;
use asn1_items::Content;
use asn1_tags::Tag;
use std::alloc::Global;

/// An encoder that writes DER under the name of BER.
pub type BerEncoder = BufferEncoder<BerBuffer>;

/// A buffer of the DER of records, whose codec has the name of BER.
#[derive(Drop)]
pub struct BerBuffer {
    der: DerBuffer,
}

impl RecordBuffer for BerBuffer {
    ghost use Rattle.asn1_ber.specs.Format.{der_rejects, der_under_ber};
    ghost use Rattle.asn1_bounds.specs.declared.codec.Codec.TheVariants.{Ber};

    ghost form = { der_under_ber };

    ghost own_codec = { Ber };

    fn codec() -> Codec {
        Codec::Ber
    }

    fn new(alloc: Global) -> BerBuffer {
        BerBuffer {
            der: DerBuffer::new(alloc),
        }
    }

    fn finish(self) -> Vec<u8> {
        self.der.finish()
    }

    #[inline(always)]
    fn append_scalar(&mut self, tag: Tag, content: Content<'_>) -> Result<(), WriteError> {
        self.der.append_scalar(tag, content)
    }

    fn append_open_type(&mut self, bytes: &[u8]) -> Result<(), WriteError> {
        self.der.append_open_type(bytes)
    }

    #[inline(always)]
    fn append_mark(&mut self, kind: MarkKind) -> Result<(), WriteError> {
        self.der.append_mark(kind)
    }

    #[inline(always)]
    fn begin_scope(&mut self, kind: ScopeKind, tag: Tag) -> Result<(), WriteError> {
        self.der.begin_scope(kind, tag)
    }

    #[inline(always)]
    fn end_scope(&mut self) -> Result<(), WriteError> {
        self.der.end_scope()
    }

    #[inline(always)]
    fn begin_group(&mut self) -> Result<(), WriteError> {
        self.der.begin_group()
    }

    #[inline(always)]
    fn end_group(&mut self) -> Result<(), WriteError> {
        self.der.end_group()
    }

    ghost by_parts = { der_rejects };
}
