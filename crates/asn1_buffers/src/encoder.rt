//! The encoder over a buffer.
ghost use Rattle.std.specs.Prelude.{◌≤◌};

use crate::buffer::RecordBuffer;
use crate::error::WriteError;
use asn1_bounds::{Codec, Constraints};
use asn1_components::{Choice, EnumeratedTable, FieldTable};
use asn1_enc::{EncodeError, Encoder};
use asn1_items::{Content, MarkKind, ScopeKind};
use asn1_tags::{Identifier, Tag};
use asn1_types::{Any, AnyStr, CodecString};
use asn1_values::{BitVec, IntegerType};
use std::alloc::Global;

/// An encoder that writes records in a buffer `B`, whose form they get.
///
/// It rejects the records that the buffer does not take: [`EncodeError::Custom`], with the text of the buffer.
#[derive(Drop)]
pub struct BufferEncoder<B> {
    alloc: Global,
    /// How many nested scopes may be open.
    limit: usize,
    /// How many more may be opened.
    depth_left: usize,
    failed: bool,
    buffer: B,
    ghost within_limit: { depth_left ≤ limit },
}

impl<B: RecordBuffer> BufferEncoder<B> {
    ghost use Rattle.asn1_buffers.specs.Encoder.{CarriesUpToOrder, buffer_writer, scopes_in};
    ghost use Rattle.asn1_buffers.specs.Unlabelled.{unlabelled};
    ghost use Rattle.asn1_items.specs.Kinds.{kind_of_mark};
    ghost use Rattle.asn1_items.specs.Kinds.{kind_of_scope};
    ghost use Rattle.asn1_buffers.specs.declared.error.WriteError.TheVariants as write_error;
    ghost use Rattle.asn1_laws.specs.Writing.{WritesEnd, ClosesGroup, IsRejection, WritesHead, OpensGroup, IsOutOfMemory, Writes, Written, outermost};
    ghost use Rattle.asn1_laws.specs.declared.encode_error.EncodeError.TheVariants.{Depth, Failed, Memory};
    ghost use Rattle.asn1_items.specs.Contents.{content_of};
    ghost use Rattle.asn1_model.specs.ConstraintSets.{ConstraintSet};
    ghost use Rattle.asn1_model.specs.Records as model;
    ghost use Rattle.asn1_model.specs.Records.{Name, presence_mark, open_type, scalar};
    ghost use Rattle.asn1_model.specs.RecordTables.{Row, Table};
    ghost use Rattle.asn1_model.specs.Tags.{head_tag};
    ghost use Rattle.std.specs.Prelude.{◌≡◌, ◌≢◌, ◌∷◌, [], ⊤, IsErr, List, false, true};

    /// An encoder that has written nothing, and may open this many nested scopes.
    pub fn new(alloc: Global, depth: usize) -> BufferEncoder<B>
        ensures nothing_written { (buffer_writer B.form).wrote result (outermost []) }
        ensures depth_left { (buffer_writer B.form).depth_left result ≡ depth }
        ensures no_failure { (buffer_writer B.form).failed result ≡ false }
    {
        BufferEncoder {
            alloc,
            limit: depth,
            depth_left: depth,
            failed: false,
            buffer: B::new(alloc),
        }
    }

    /// The bytes that have been written, where no scope and no group is open and no call has failed.
    pub fn finish(self) -> Vec<u8>
        ensures { (rs : List model.Record) → (buffer_writer B.form).wrote self (outermost rs) →
            CarriesUpToOrder B.form.have_bytes result.items rs }
    {
        self.buffer.finish()
    }

    /// Makes the encoder failed, and answers the error, or `Failed` if it had failed before.
    #[cold]
    #[inline(never)]
    fn fail(&mut self, error: EncodeError) -> EncodeError
        ensures { error ≡ Memory → IsOutOfMemory (buffer_writer B.form) self.old self.new result }
    {
        if self.failed {
            return EncodeError::Failed;
        }
        self.failed = true;
        error
    }

    /// Makes the encoder failed, and answers the error as types see it.
    #[cold]
    #[inline(never)]
    fn refuse(&mut self, error: WriteError) -> EncodeError
        ensures rejection { IsRejection result → error ≢ write_error.Memory }
        ensures not_too_deep { result ≢ Depth }
        ensures not_failed { result ≢ Failed }
        ensures has_failed { self.new.failed ≡ true }
    {
        self.failed = true;
        match error {
            WriteError::Memory => EncodeError::Memory,
            WriteError::Rejected(message) => EncodeError::Custom(message),
        }
    }

    /// Appends a content under a tag.
    #[inline(always)]
    fn append_scalar(&mut self, tag: Tag, content: Content<'_>) -> Result<(), EncodeError>
        ensures { (c : ConstraintSet) (n : Name) (x : model.Content) →
            unlabelled x ≡ content_of content.entry →
            Writes (buffer_writer B.form) self.old (scalar tag c n x ∷ []) ⊤ self.new result }
    {
        if self.failed {
            return Err(EncodeError::Failed);
        }
        match self.buffer.append_scalar(tag, content) {
            Ok(()) => Ok(()),
            Err(error) => Err(self.refuse(error)),
        }
    }

    /// Appends the bytes of an open type.
    #[inline(always)]
    fn append_open_type(&mut self, bytes: &[u8]) -> Result<(), EncodeError>
        ensures { (n : Name) →
            Writes (buffer_writer B.form) self.old (open_type n bytes.now ∷ []) ⊤ self.new result }
    {
        if self.failed {
            return Err(EncodeError::Failed);
        }
        match self.buffer.append_open_type(bytes) {
            Ok(()) => Ok(()),
            Err(error) => Err(self.refuse(error)),
        }
    }

    /// Appends a presence mark of this kind.
    #[inline(always)]
    fn append_mark(&mut self, kind: MarkKind) -> Result<(), EncodeError>
        ensures { (m : model.PresenceMark) → kind_of_mark m ≡ kind →
            Writes (buffer_writer B.form) self.old (presence_mark m ∷ []) ⊤ self.new result }
    {
        if self.failed {
            return Err(EncodeError::Failed);
        }
        match self.buffer.append_mark(kind) {
            Ok(()) => Ok(()),
            Err(error) => Err(self.refuse(error)),
        }
    }

    /// Opens a scope of this kind.
    #[inline(always)]
    fn open_scope(&mut self, kind: ScopeKind, tag: Tag) -> Result<(), EncodeError>
        ensures { (h : model.Head) → kind_of_scope h ≡ kind → head_tag h ≡ tag →
            WritesHead (buffer_writer B.form) self.old h self.new result }
    {
        if self.failed {
            return Err(EncodeError::Failed);
        }
        if self.depth_left == 0 {
            self.failed = true;
            return Err(EncodeError::Depth);
        }
        match self.buffer.begin_scope(kind, tag) {
            Ok(()) => {
                self.depth_left -= 1;
                Ok(())
            }
            Err(error) => Err(self.refuse(error)),
        }
    }

    /// Closes the innermost scope.
    #[inline(always)]
    fn close_scope(&mut self) -> Result<(), EncodeError>
        ensures closed { WritesEnd (buffer_writer B.form) self.old self.new result }
        ensures none_open { (w : Written) → (buffer_writer B.form).wrote self.old w →
            scopes_in w ≡ 0 → IsErr result }
    {
        if self.failed {
            return Err(EncodeError::Failed);
        }
        if self.depth_left == self.limit {
            return Err(self.refuse(WriteError::Rejected("nothing is open")));
        }
        match self.buffer.end_scope() {
            Ok(()) => {
                self.depth_left += 1;
                Ok(())
            }
            Err(error) => Err(self.refuse(error)),
        }
    }

    /// Opens a group.
    #[inline(always)]
    fn open_inner_group(&mut self) -> Result<(), EncodeError>
        ensures { (table : Table Row) →
            OpensGroup (buffer_writer B.form) self.old table self.new result }
    {
        if self.failed {
            return Err(EncodeError::Failed);
        }
        match self.buffer.begin_group() {
            Ok(()) => Ok(()),
            Err(error) => Err(self.refuse(error)),
        }
    }

    /// Closes the innermost group.
    #[inline(always)]
    fn close_inner_group(&mut self) -> Result<(), EncodeError>
        ensures { ClosesGroup (buffer_writer B.form) self.old self.new result }
    {
        if self.failed {
            return Err(EncodeError::Failed);
        }
        match self.buffer.end_group() {
            Ok(()) => Ok(()),
            Err(error) => Err(self.refuse(error)),
        }
    }
}

#[tactic(auto, using(crate::proofs::EncodersOverBuffers::known))]
impl<B: RecordBuffer> Encoder for BufferEncoder<B> {
    ghost use Rattle.asn1_laws.proofs.WritingUpToOrder.{lawful};
    ghost use Rattle.asn1_laws.specs.Writing.{WritesEnd, Written};
    ghost use Rattle.asn1_buffers.specs.Encoder.{buffer_writer, in_one_order, scopes_in};
    ghost use Rattle.std.specs.Prelude.{◌≡◌, IsErr};

    ghost writer = { buffer_writer B.form };

    #[inline(always)]
    fn codec(&self) -> Codec
        ensures { result ≡ B.own_codec }
    {
        B::codec()
    }

    #[inline(always)]
    fn depth(&self) -> usize {
        self.depth_left
    }

    #[inline(always)]
    fn global(&self) -> Global {
        self.alloc
    }

    #[inline(always)]
    fn refuse_memory(&mut self) -> EncodeError {
        self.fail(EncodeError::Memory)
    }

    #[inline(always)]
    fn encode_bool(&mut self, tag: Tag, value: bool, _name: Identifier) -> Result<(), EncodeError> {
        self.append_scalar(tag, Content::Boolean(value))
    }

    #[inline(always)]
    fn encode_null(&mut self, tag: Tag, _name: Identifier) -> Result<(), EncodeError> {
        self.append_scalar(tag, Content::Null)
    }

    #[inline(always)]
    fn encode_enumerated_number<E: EnumeratedTable>(
        &mut self,
        tag: Tag,
        number: isize,
        _name: Identifier,
    ) -> Result<(), EncodeError> {
        self.append_scalar(tag, Content::Discriminant(number))
    }

    #[inline(always)]
    fn encode_object_identifier(
        &mut self,
        tag: Tag,
        value: &[u32],
        _name: Identifier,
    ) -> Result<(), EncodeError> {
        self.append_scalar(tag, Content::Arcs(value))
    }

    #[inline(always)]
    fn encode_integer<T: IntegerType>(
        &mut self,
        tag: Tag,
        _constraints: &Constraints<'_>,
        value: &T,
        _name: Identifier,
    ) -> Result<(), EncodeError> {
        match value.to_integer(self.alloc) {
            Ok(number) => self.append_scalar(tag, Content::Number(&number)),
            Err(_) => Err(self.fail(EncodeError::Memory)),
        }
    }

    #[inline(always)]
    fn encode_string<U, K: CodecString<U>>(
        &mut self,
        tag: Tag,
        _constraints: &Constraints<'_>,
        value: &[U],
        _name: Identifier,
    ) -> Result<(), EncodeError> {
        self.append_scalar(tag, Content::String(K::as_any(value)))
    }

    #[inline(always)]
    fn encode_packed_bits<K: CodecString<bool>>(
        &mut self,
        tag: Tag,
        _constraints: &Constraints<'_>,
        value: &BitVec,
        _name: Identifier,
    ) -> Result<(), EncodeError> {
        self.append_scalar(tag, Content::String(AnyStr::PackedBits(value)))
    }

    #[inline(always)]
    fn encode_any(&mut self, _tag: Tag, value: &Any, _name: Identifier) -> Result<(), EncodeError> {
        self.append_open_type(value.as_bytes())
    }

    #[inline(always)]
    fn mark_present(&mut self, _tag: Tag) -> Result<(), EncodeError> {
        self.append_mark(MarkKind::Present)
    }

    #[inline(always)]
    fn mark_absent(&mut self, _tag: Tag) -> Result<(), EncodeError> {
        self.append_mark(MarkKind::Absent)
    }

    #[inline(always)]
    fn mark_addition_present(&mut self, _tag: Tag) -> Result<(), EncodeError> {
        self.append_mark(MarkKind::Present)
    }

    #[inline(always)]
    fn mark_addition_absent(&mut self, _tag: Tag) -> Result<(), EncodeError> {
        self.append_mark(MarkKind::Absent)
    }

    #[inline(always)]
    fn mark_group_absent<C: FieldTable>(&mut self) -> Result<(), EncodeError> {
        self.append_mark(MarkKind::GroupAbsent)
    }

    #[inline(always)]
    fn open_sequence<C: FieldTable>(
        &mut self,
        tag: Tag,
        _name: Identifier,
    ) -> Result<(), EncodeError> {
        self.open_scope(ScopeKind::Sequence, tag)
    }

    #[inline(always)]
    fn open_set<C: FieldTable>(&mut self, tag: Tag, _name: Identifier) -> Result<(), EncodeError> {
        self.open_scope(ScopeKind::Set, tag)
    }

    #[inline(always)]
    fn open_sequence_of(
        &mut self,
        tag: Tag,
        _constraints: &Constraints<'_>,
        _name: Identifier,
        _count: usize,
    ) -> Result<(), EncodeError> {
        self.open_scope(ScopeKind::SequenceOf, tag)
    }

    #[inline(always)]
    fn open_set_of(
        &mut self,
        tag: Tag,
        _constraints: &Constraints<'_>,
        _name: Identifier,
        _count: usize,
    ) -> Result<(), EncodeError> {
        self.open_scope(ScopeKind::SetOf, tag)
    }

    #[inline(always)]
    fn open_explicit_prefix(&mut self, tag: Tag, _name: Identifier) -> Result<(), EncodeError> {
        self.open_scope(ScopeKind::ExplicitTag, tag)
    }

    #[inline(always)]
    fn open_choice<T: Choice>(
        &mut self,
        chosen: Tag,
        _constraints: &Constraints<'_>,
        _name: Identifier,
    ) -> Result<(), EncodeError> {
        self.open_scope(ScopeKind::Alternative, chosen)
    }

    #[inline(always)]
    fn close(&mut self) -> Result<(), EncodeError>
        ensures closed { WritesEnd (buffer_writer B.form) self.old self.new result }
        ensures none_open { (w : Written) → (buffer_writer B.form).wrote self.old w →
            scopes_in w ≡ 0 → IsErr result }
    {
        self.close_scope()
    }

    #[inline(always)]
    fn open_group<C: FieldTable>(&mut self) -> Result<(), EncodeError> {
        self.open_inner_group()
    }

    #[inline(always)]
    fn close_group(&mut self) -> Result<(), EncodeError> {
        self.close_inner_group()
    }

    ghost lawful = { lawful (in_one_order B.form) B.by_parts };
}
