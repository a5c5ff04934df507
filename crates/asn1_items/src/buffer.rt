//! The bytes of items that are written.
ghost use Rattle.asn1_laws.specs.Writing.{Written, followed_by, in_group, in_scope, outermost};
ghost use Rattle.asn1_items.specs.Buffers.{AppendsRecords, EndsGroup, EndsScope, GroupIsInnermost, HasWritten, LeadsOut, inward, is_in_group, is_in_scope};
ghost use Rattle.asn1_items.specs.Contents.{LooksLike, content_of};
ghost use Rattle.asn1_items.specs.Kinds.{kind_of_scope};
ghost use Rattle.asn1_items.specs.Items.{HaveBytes, IsTooLong, MarkBytes, written_with};
ghost use Rattle.asn1_items.specs.declared.error.BufferError.TheVariants.{Memory, NotOpen};
ghost use Rattle.asn1_model.specs.ConstraintSets.{ConstraintSet};
ghost use Rattle.asn1_model.specs.Records as model;
ghost use Rattle.asn1_model.specs.Records.{Name, group_start, held, presence_mark, open_type, scalar};
ghost use Rattle.asn1_model.specs.RecordTables.{Row, Table};
ghost use Rattle.asn1_model.specs.Tags.{head_tag};
ghost use Rattle.std.specs.Prelude.{◌≡◌, ◌≢◌, ◌↔◌, ◌<◌, ◌+◌, ◌^◌, ◌∷◌, [], Err, IfErr, IfOk, IsTrue, List, false, ℕ};

use crate::bytes::{push_mark, push_scope_header, write_length};
use crate::content::Content;
use crate::error::BufferError;
use crate::group::Group;
use crate::kinds::ScopeKind;
use crate::scalars::push_item;
use asn1_tags::Tag;
use std::alloc::{AllocError, Global};

/// How many bytes the header of a scope has.
const SCOPE_HEADER: usize = 10;

/// The bytes of records, as an encoder writes them, which gives the bytes of each presence mark. The length of a scope is
/// written when it is closed, so no byte is moved, however deep the scopes are.
///
/// Until then its four bytes tell where the inside of the scope around it begins: how far it is to there, or 0 where the distance
/// does not fit, and the index is kept apart. So no list of scopes grows beside the bytes, but for scopes 4 GiB apart.
///
/// After an error nothing is promised about what has been written.
#[derive(Drop)]
pub struct Buffer {
    alloc: Global,
    bytes: Vec<u8>,
    /// The index at which the inside of the innermost open scope begins, and 0 if none is open.
    scope_start: usize,
    /// The indices that are too far from the scopes that lead to them, the innermost last.
    far_starts: Vec<usize>,
    /// The groups that are open, the innermost last.
    groups: Vec<Group>,
    /// If the innermost list is that of a group: whether there is a record in it that is no presence mark.
    has_records: bool,
}

impl Buffer {
    /// A buffer in which nothing has been written.
    pub fn new(alloc: Global) -> Buffer
        ensures nothing_written { (marks : MarkBytes) →
            HasWritten marks (outermost []) result }
    {
        Buffer {
            alloc,
            bytes: Vec::new(alloc),
            scope_start: 0,
            far_starts: Vec::new(alloc),
            groups: Vec::new(alloc),
            has_records: false,
        }
    }

    /// The bytes that have been written, where no scope and no group is open.
    pub fn finish(self) -> Vec<u8>
        ensures { (marks : MarkBytes) (rs : List model.Record) →
            HasWritten marks (outermost rs) self →
            HaveBytes (written_with marks) (held rs) result.items }
    {
        self.bytes
    }

    /// Appends a content under a tag to the innermost list.
    ///
    /// # Errors
    /// [`BufferError::Memory`], and [`BufferError::TooLong`] where the content is 2^32 bytes long or more.
    #[inline(always)]
    pub fn append_scalar(&mut self, tag: Tag, content: Content<'_>) -> Result<(), BufferError>
        ensures written { (marks : MarkBytes) (c : ConstraintSet) (n : Name) (x : model.Content)
            (w : Written) → LooksLike (content_of content.entry) x → HasWritten marks w self.old →
            IfOk result (λ _. HasWritten marks (followed_by w (scalar tag c n x ∷ [])) self.new) }
        ensures too_long { (marks : MarkBytes) (c : ConstraintSet) (n : Name) (x : model.Content) →
            LooksLike (content_of content.entry) x →
            IfErr result (λ e. e ≢ Memory → IsTooLong (written_with marks) (scalar tag c n x)) }
    {
        if let Err(error) = push_item(&mut self.bytes, self.alloc, tag, content) {
            return Err(error);
        }
        self.has_records = true;
        Ok(())
    }

    /// Appends the bytes of an open type.
    ///
    /// # Errors
    /// [`BufferError::Memory`].
    pub fn append_open_type(&mut self, bytes: &[u8]) -> Result<(), BufferError>
        ensures written { (marks : MarkBytes) (n : Name) →
            AppendsRecords marks self.old (open_type n bytes.now ∷ []) self.new result }
        ensures memory { IfErr result (λ e. e ≡ Memory) }
    {
        self.bytes.extend_from_slice(bytes)?;
        self.has_records = true;
        Ok(())
    }

    /// Appends a presence mark, by its bytes.
    ///
    /// # Errors
    /// [`BufferError::Memory`].
    #[inline(always)]
    pub fn append_mark(&mut self, bytes: &[u8]) -> Result<(), BufferError>
        ensures written { (marks : MarkBytes) (m : model.PresenceMark) (w : Written) →
            marks m ≡ bytes.now → HasWritten marks w self.old →
            IfOk result (λ _. HasWritten marks (followed_by w (presence_mark m ∷ [])) self.new) }
        ensures memory { IfErr result (λ e. e ≡ Memory) }
    {
        push_mark(&mut self.bytes, bytes)?;
        Ok(())
    }

    /// Opens an item of this kind that holds others.
    ///
    /// # Errors
    /// [`BufferError::Memory`].
    #[inline(always)]
    pub fn open_scope(&mut self, kind: ScopeKind, tag: Tag) -> Result<(), BufferError>
        ensures opened { (marks : MarkBytes) (h : model.Head) (w : Written) →
            kind_of_scope h ≡ kind → head_tag h ≡ tag → HasWritten marks w self.old →
            IfOk result (λ _. HasWritten marks (in_scope h [] w) self.new) }
        ensures memory { IfErr result (λ e. e ≡ Memory) }
    {
        let start = self.bytes.len() + SCOPE_HEADER;
        let link = self.link_to_outer(start)?;
        push_scope_header(&mut self.bytes, kind, tag, start, link)?;
        self.scope_start = start;
        Ok(())
    }

    /// The number that leads out of a scope whose inside begins at this index. If the scope around it is too far for a number, its
    /// index is kept.
    ///
    /// # Errors
    /// [`AllocError`].
    #[inline(always)]
    fn link_to_outer(&mut self, start: usize) -> Result<u32, AllocError>
        ensures leads { self.old.scope_start < start → IfOk result (λ link. LeadsOut link start
            (inward [] self.new.far_starts.items) self.old.scope_start
            (inward [] self.old.far_starts.items)) }
        ensures fits { IfOk result (λ link. link < 2 ^ 32) }
        ensures near { self.old.scope_start < start → start < self.old.scope_start + 2 ^ 32 →
            self.new.far_starts ≡ self.old.far_starts }
        ensures same_bytes { self.new.bytes ≡ self.old.bytes }
        ensures same_groups { self.new.groups ≡ self.old.groups }
        ensures same_records { self.new.has_records ≡ self.old.has_records }
    {
        let distance = start.saturating_sub(self.scope_start);
        if distance <= u32::MAX as usize {
            return Ok(distance as u32);
        }
        if let Err(_) = self.far_starts.push(self.scope_start) {
            return Err(AllocError);
        }
        Ok(0)
    }

    /// Closes the innermost scope: its length is written over the four bytes that were left for it.
    ///
    /// # Errors
    /// [`BufferError::TooLong`] where 2^32 bytes or more are inside, and [`BufferError::NotOpen`] where no scope is innermost.
    #[inline(always)]
    pub fn close_scope(&mut self) -> Result<(), BufferError>
        ensures closed { (marks : MarkBytes) → EndsScope marks self.old self.new result }
        ensures in_no_scope { (marks : MarkBytes) (w : Written) → HasWritten marks w self.old →
            is_in_scope w ≡ false → result ≡ Err NotOpen }
    {
        // The inside of a scope begins after its header: a smaller number says that none is open.
        if self.scope_start < SCOPE_HEADER {
            return Err(BufferError::NotOpen);
        }
        if self.is_group_innermost() {
            return Err(BufferError::NotOpen);
        }
        let link = write_length(&mut self.bytes, self.scope_start)?;
        self.scope_start = self.take_outer_start(link);
        self.has_records = true;
        Ok(())
    }

    /// The index to which this number leads: there the inside of the scope around the innermost one begins. If the index was kept
    /// apart, it is removed there.
    #[inline(always)]
    fn take_outer_start(&mut self, link: u32) -> usize
        ensures leads { (outer : ℕ) (far : List ℕ) → LeadsOut link self.old.scope_start
            (inward [] self.old.far_starts.items) outer far →
            (result ≡ outer) × (inward [] self.new.far_starts.items ≡ far) }
        ensures same_bytes { self.new.bytes ≡ self.old.bytes }
        ensures same_groups { self.new.groups ≡ self.old.groups }
        ensures same_records { self.new.has_records ≡ self.old.has_records }
    {
        if link == 0 {
            return self.far_starts.pop().unwrap_or(0);
        }
        self.scope_start.saturating_sub(link as usize)
    }

    /// Opens a group, which begins with this presence mark.
    ///
    /// # Errors
    /// [`BufferError::Memory`].
    pub fn open_group(&mut self, start_mark: &[u8]) -> Result<(), BufferError>
        ensures opened { (marks : MarkBytes) (table : Table Row) (w : Written) →
            marks (group_start table) ≡ start_mark.now → HasWritten marks w self.old →
            IfOk result (λ _. HasWritten marks (in_group table [] w) self.new) }
        ensures memory { IfErr result (λ e. e ≡ Memory) }
    {
        let group = Group {
            start: self.bytes.len(),
            outer_has_records: self.has_records,
        };
        push_mark(&mut self.bytes, start_mark)?;
        if let Err(_) = self.groups.push(group) {
            return Err(BufferError::Memory);
        }
        self.has_records = false;
        Ok(())
    }

    /// Closes the innermost group by the presence mark of its end; or by the mark of an absent group, where its components are
    /// presence marks alone.
    ///
    /// # Errors
    /// [`BufferError::Memory`], and [`BufferError::NotOpen`] where no group is innermost.
    pub fn close_group(&mut self, end_mark: &[u8], absent_mark: &[u8]) -> Result<(), BufferError>
        ensures closed { (marks : MarkBytes) →
            EndsGroup marks end_mark.now absent_mark.now self.old self.new result }
        ensures in_no_group { (marks : MarkBytes) (w : Written) → HasWritten marks w self.old →
            is_in_group w ≡ false → result ≡ Err NotOpen }
    {
        if !self.is_group_innermost() {
            return Err(BufferError::NotOpen);
        }
        let Some(group) = self.groups.pop() else {
            return Err(BufferError::NotOpen);
        };
        if self.has_records {
            push_mark(&mut self.bytes, end_mark)?;
            return Ok(());
        }
        self.bytes.truncate(group.start);
        self.has_records = group.outer_has_records;
        push_mark(&mut self.bytes, absent_mark)?;
        Ok(())
    }

    /// Whether the innermost list is that of a group: the innermost group begins where the inside of the innermost scope does, or
    /// after it.
    #[inline(always)]
    fn is_group_innermost(&self) -> bool
        ensures { IsTrue result ↔
            GroupIsInnermost (inward [] self.now.groups.items) self.now.scope_start }
    {
        match &self.groups[..] {
            [.., group] => self.scope_start <= group.start,
            [] => false,
        }
    }
}
