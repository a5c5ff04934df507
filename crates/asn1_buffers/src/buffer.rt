//! The bytes of records, as an encoder writes them.
ghost use Rattle.asn1_bounds.specs.declared.codec.Codec.{Codec};
ghost use Rattle.asn1_buffers.specs.Buffers.{AppendsRecord, BeginsGroup, BeginsScope, BufferForm, EndsGroup, EndsScope};
ghost use Rattle.asn1_buffers.specs.Encoder.{in_one_order};
ghost use Rattle.asn1_buffers.specs.Unlabelled.{unlabelled};
ghost use Rattle.asn1_laws.specs.Writing.{outermost};
ghost use Rattle.asn1_laws.specs.WritingUpToOrder.{RejectsByParts};
ghost use Rattle.asn1_items.specs.Contents.{content_of};
ghost use Rattle.asn1_items.specs.Kinds.{kind_of_mark, kind_of_scope};
ghost use Rattle.asn1_model.specs.ConstraintSets.{ConstraintSet};
ghost use Rattle.asn1_model.specs.Records as model;
ghost use Rattle.asn1_model.specs.Records.{Head, Name, PresenceMark, Record, open_type, presence_mark, scalar};
ghost use Rattle.asn1_model.specs.RecordTables.{Row, Table};
ghost use Rattle.asn1_model.specs.Tags.{head_tag};
ghost use Rattle.std.specs.Prelude.{◌≡◌, [], List};

use crate::error::WriteError;
use asn1_bounds::Codec;
use asn1_items::{Content, MarkKind, ScopeKind};
use asn1_tags::Tag;
use std::alloc::Global;

/// A buffer of the bytes of records, in which a codec's form is. The calls append to the innermost list that is open, and no call
/// fails because an earlier one did: after an error nothing is promised about what has been written.
///
/// [`WriteError::Rejected`] comes only for records that have no bytes, and where a scope or a group is ended and no such is
/// innermost.
pub trait RecordBuffer: Drop + Sized {
    // The records that have been written, the records that are rejected, and the bytes of records.
    ghost form: { BufferForm Self };

    // The name of the codec.
    ghost own_codec: { Codec };

    /// The name of the codec.
    fn codec() -> Codec
        ensures { result ≡ own_codec };

    /// A buffer in which nothing has been written.
    fn new(alloc: Global) -> Self
        ensures { form.wrote result (outermost []) };

    /// The bytes that have been written, where no scope and no group is open.
    fn finish(self) -> Vec<u8>
        ensures { (rs : List Record) → form.wrote self (outermost rs) →
            form.have_bytes rs result.items };

    /// Appends a content under a tag.
    fn append_scalar(&mut self, tag: Tag, content: Content<'_>) -> Result<(), WriteError>
        ensures { (c : ConstraintSet) (n : Name) (x : model.Content) →
            unlabelled x ≡ content_of content.entry →
            AppendsRecord form self.old (scalar tag c n x) self.new result };

    /// Appends the bytes of an open type.
    fn append_open_type(&mut self, bytes: &[u8]) -> Result<(), WriteError>
        ensures { (n : Name) →
            AppendsRecord form self.old (open_type n bytes.now) self.new result };

    /// Appends a presence mark of this kind.
    fn append_mark(&mut self, kind: MarkKind) -> Result<(), WriteError>
        ensures { (m : PresenceMark) → kind_of_mark m ≡ kind →
            AppendsRecord form self.old (presence_mark m) self.new result };

    /// Begins a scope of this kind and tag; of a CHOICE, the tag is that of the alternative.
    fn begin_scope(&mut self, kind: ScopeKind, tag: Tag) -> Result<(), WriteError>
        ensures { (h : Head) → kind_of_scope h ≡ kind → head_tag h ≡ tag →
            BeginsScope form self.old h self.new result };

    /// Ends the innermost scope.
    fn end_scope(&mut self) -> Result<(), WriteError>
        ensures { EndsScope form self.old self.new result };

    /// Begins a group of additions.
    fn begin_group(&mut self) -> Result<(), WriteError>
        ensures { (table : Table Row) → BeginsGroup form self.old table self.new result };

    /// Ends the innermost group.
    fn end_group(&mut self) -> Result<(), WriteError>
        ensures { EndsGroup form self.old self.new result };

    // The law of a buffer: what is not taken, is not as a part of something else either.
    ghost by_parts: { RejectsByParts (in_one_order form) };
}
