//! The encoder of texts.
ghost use Rattle.asn1_buffers.specs.declared.error.WriteError.TheVariants as write_error;
ghost use Rattle.asn1_laws.specs.Writing.{IsRejection};
ghost use Rattle.asn1_laws.specs.declared.encode_error.EncodeError.TheVariants.{Depth, Failed, Memory};
ghost use Rattle.asn1_value_text.specs.Refusals.{IsRefusal};
ghost use Rattle.std.specs.Prelude.{◌≡◌, ◌≢◌, ◌≤◌};

use crate::characters::universal_text;
use crate::digits::integer_digits;
use crate::layout::{Layout, Opening};
use crate::sizes::only_length;
use crate::text_form::{Scalar, TextForm};
use asn1_bounds::{Codec, Constraints};
use asn1_buffers::WriteError;
use asn1_components::{Choice, EnumeratedTable, FieldTable};
use asn1_enc::{EncodeError, Encoder};
use asn1_paths::alternative_name;
use asn1_tags::{Identifier, Tag};
use asn1_types::{Any, AnyStr, CodecString, OctetKind};
use asn1_values::{BitVec, IntegerType};
use std::alloc::{AllocError, Global};

/// An encoder that writes a text in the notation `F`.
///
/// Its relations say how deep the open scopes are nested, and nothing of the text.
#[derive(Drop)]
pub(crate) struct TextEncoder<F> {
    alloc: Global,
    /// How many nested scopes may be open.
    limit: usize,
    /// How many more may be opened.
    depth_left: usize,
    failed: bool,
    layout: Layout<F>,
    ghost within_limit: { depth_left ≤ limit },
}

impl<F: TextForm> TextEncoder<F> {
    ghost use Rattle.asn1_laws.specs.Writing.{ClosesGroup, IsOutOfMemory, OpensGroup, ScopeIsNotOpen, Writes, WritesEnd, WritesHead, outermost};
    ghost use Rattle.asn1_model.specs.RecordTables.{Row, Table};
    ghost use Rattle.asn1_model.specs.Records.{Head, Record, highest};
    ghost use Rattle.asn1_value_text.specs.Texts.{MayNotBeFinished, MayOpen, text_writer};
    ghost use Rattle.std.specs.Prelude.{⊤, List, MatchOption, [], false, true};

    /// An encoder that has written nothing, and may open this many nested scopes.
    pub(crate) fn new(alloc: Global, depth: usize) -> TextEncoder<F>
        ensures nothing_written { (text_writer F.MayRefuse).wrote result (outermost []) }
        ensures depth_left { (text_writer F.MayRefuse).depth_left result ≡ depth }
        ensures no_failure { (text_writer F.MayRefuse).failed result ≡ false }
    {
        TextEncoder {
            alloc,
            limit: depth,
            depth_left: depth,
            failed: false,
            layout: Layout::new(alloc),
        }
    }

    /// The text of all that was written.
    pub(crate) fn finish(self) -> Result<String, EncodeError>
        ensures { MayNotBeFinished F.MayRefuse result }
    {
        match self.layout.into_text() {
            Ok(text) => Ok(text),
            Err(error) => Err(encode_error(error)),
        }
    }

    /// Makes the encoder failed, and answers the error as types see it.
    fn refuse(&mut self, error: WriteError) -> EncodeError
        ensures rejection { IsRejection result → IsRefusal error }
        ensures memory { error ≡ write_error.Memory → result ≡ Memory }
        ensures not_too_deep { result ≢ Depth }
        ensures not_failed { result ≢ Failed }
        ensures has_failed { self.new.failed ≡ true }
    {
        self.failed = true;
        encode_error(error)
    }

    /// Makes the encoder failed because memory ran out.
    fn fail_for_memory(&mut self) -> EncodeError
        ensures { IsOutOfMemory (text_writer F.MayRefuse) self.old self.new result }
    {
        if self.failed {
            return EncodeError::Failed;
        }
        self.refuse(WriteError::Memory)
    }

    /// Appends a value that has no parts.
    fn append(&mut self, scalar: Scalar<'_>) -> Result<(), EncodeError>
        ensures { (rs : List Record) → highest rs ≡ 0 →
            Writes (text_writer F.MayRefuse) self.old rs ⊤ self.new result }
    {
        if self.failed {
            return Err(EncodeError::Failed);
        }
        match self.layout.scalar(scalar) {
            Ok(()) => Ok(()),
            Err(error) => Err(self.refuse(error)),
        }
    }

    /// Appends a value whose digits could be made or not.
    fn append_digits(&mut self, digits: Result<String, AllocError>) -> Result<(), EncodeError>
        ensures { (rs : List Record) → highest rs ≡ 0 →
            Writes (text_writer F.MayRefuse) self.old rs ⊤ self.new result }
    {
        match digits {
            Ok(digits) => self.append(Scalar::Number(digits.as_str())),
            Err(_) => Err(self.fail_for_memory()),
        }
    }

    /// Appends a UniversalString by its characters, if they are known.
    fn append_universal(&mut self, string: AnyStr<'_>) -> Result<(), EncodeError>
        ensures { (rs : List Record) → highest rs ≡ 0 →
            Writes (text_writer F.MayRefuse) self.old rs ⊤ self.new result }
    {
        match universal_text(self.alloc, string) {
            Ok(Some(text)) => {
                let characters = AnyStr::Octets(OctetKind::Utf8, text.as_bytes());
                self.append(Scalar::String(characters, None))
            }
            Ok(None) => self.append(Scalar::String(string, None)),
            Err(_) => Err(self.fail_for_memory()),
        }
    }

    /// Appends the mark of a component that is there, which has no text.
    fn append_presence(&mut self) -> Result<(), EncodeError>
        ensures { (rs : List Record) → highest rs ≡ 0 →
            Writes (text_writer F.MayRefuse) self.old rs ⊤ self.new result }
    {
        if self.failed {
            return Err(EncodeError::Failed);
        }
        Ok(())
    }

    /// Appends the mark of a component that is absent, which has no text.
    fn append_absence(&mut self) -> Result<(), EncodeError>
        ensures { (rs : List Record) → highest rs ≡ 0 →
            Writes (text_writer F.MayRefuse) self.old rs ⊤ self.new result }
    {
        if self.failed {
            return Err(EncodeError::Failed);
        }
        self.layout.pass_component();
        Ok(())
    }

    /// Why no scope can be opened now, if none can.
    fn refuses_scope(&mut self) -> Option<EncodeError>
        ensures { MatchOption result (MayOpen (text_writer F.MayRefuse) self.old self.new)
            (λ e. (h : Head) →
            ScopeIsNotOpen (text_writer F.MayRefuse) self.old h self.new e) }
    {
        if self.failed {
            return Some(EncodeError::Failed);
        }
        if self.depth_left == 0 {
            self.failed = true;
            return Some(EncodeError::Depth);
        }
        None
    }

    /// Opens a scope that is not of components.
    fn open_scope(&mut self, opening: Opening) -> Result<(), EncodeError>
        ensures { (h : Head) → WritesHead (text_writer F.MayRefuse) self.old h self.new result }
    {
        if let Some(error) = self.refuses_scope() {
            return Err(error);
        }
        match self.layout.open_scope(opening) {
            Ok(()) => {
                self.depth_left -= 1;
                Ok(())
            }
            Err(error) => Err(self.refuse(error)),
        }
    }

    /// Opens the scope of the components of a table.
    fn open_components<C: FieldTable>(&mut self) -> Result<(), EncodeError>
        ensures { (h : Head) → WritesHead (text_writer F.MayRefuse) self.old h self.new result }
    {
        if let Some(error) = self.refuses_scope() {
            return Err(error);
        }
        match self.layout.open_components::<C>() {
            Ok(()) => {
                self.depth_left -= 1;
                Ok(())
            }
            Err(error) => Err(self.refuse(error)),
        }
    }

    /// Closes the innermost scope.
    fn close_scope(&mut self) -> Result<(), EncodeError>
        ensures { WritesEnd (text_writer F.MayRefuse) self.old self.new result }
    {
        if self.failed {
            return Err(EncodeError::Failed);
        }
        if self.depth_left == self.limit {
            return Err(self.refuse(WriteError::Rejected("nothing is open")));
        }
        match self.layout.close() {
            Ok(()) => {
                self.depth_left += 1;
                Ok(())
            }
            Err(error) => Err(self.refuse(error)),
        }
    }

    /// Opens the group of the components of a table.
    fn open_group_of<C: FieldTable>(&mut self) -> Result<(), EncodeError>
        ensures { (table : Table Row) →
            OpensGroup (text_writer F.MayRefuse) self.old table self.new result }
    {
        if self.failed {
            return Err(EncodeError::Failed);
        }
        match self.layout.open_group::<C>() {
            Ok(()) => Ok(()),
            Err(_) => Err(self.refuse(WriteError::Memory)),
        }
    }

    /// Closes the innermost group.
    fn close_inner_group(&mut self) -> Result<(), EncodeError>
        ensures { ClosesGroup (text_writer F.MayRefuse) self.old self.new result }
    {
        if self.failed {
            return Err(EncodeError::Failed);
        }
        match self.layout.close() {
            Ok(()) => Ok(()),
            Err(error) => Err(self.refuse(error)),
        }
    }
}

/// An error of a text as types see it.
fn encode_error(error: WriteError) -> EncodeError
    ensures rejection { IsRejection result → IsRefusal error }
    ensures memory { error ≡ write_error.Memory → result ≡ Memory }
    ensures not_too_deep { result ≢ Depth }
    ensures not_failed { result ≢ Failed }
{
    match error {
        WriteError::Memory => EncodeError::Memory,
        WriteError::Rejected(message) => EncodeError::Custom(message),
    }
}

#[tactic(auto, using(crate::proofs::TextEncoders::known))]
impl<F: TextForm> Encoder for TextEncoder<F> {
    ghost use Rattle.asn1_value_text.specs.TextLaws.{text_writer_is_lawful};
    ghost use Rattle.asn1_value_text.specs.Texts.{text_writer};

    ghost writer = { text_writer F.MayRefuse };

    fn codec(&self) -> Codec {
        Codec::Jer
    }

    fn depth(&self) -> usize {
        self.depth_left
    }

    fn global(&self) -> Global {
        self.alloc
    }

    fn refuse_memory(&mut self) -> EncodeError {
        self.fail_for_memory()
    }

    fn encode_bool(
        &mut self,
        _tag: Tag,
        value: bool,
        _name: Identifier,
    ) -> Result<(), EncodeError> {
        self.append(Scalar::Boolean(value))
    }

    fn encode_null(&mut self, _tag: Tag, _name: Identifier) -> Result<(), EncodeError> {
        self.append(Scalar::Null)
    }

    fn encode_enumerated_number<E: EnumeratedTable>(
        &mut self,
        _tag: Tag,
        number: isize,
        _name: Identifier,
    ) -> Result<(), EncodeError> {
        if let Some(name) = E::name_of_number(number) {
            return self.append(Scalar::Item(name));
        }
        self.append_digits(format!(in self.alloc; "{number}"))
    }

    fn encode_object_identifier(
        &mut self,
        _tag: Tag,
        value: &[u32],
        _name: Identifier,
    ) -> Result<(), EncodeError> {
        self.append(Scalar::Arcs(value))
    }

    fn encode_integer<T: IntegerType>(
        &mut self,
        _tag: Tag,
        _constraints: &Constraints<'_>,
        value: &T,
        _name: Identifier,
    ) -> Result<(), EncodeError> {
        self.append_digits(integer_digits(self.alloc, value))
    }

    fn encode_string<U, K: CodecString<U>>(
        &mut self,
        _tag: Tag,
        constraints: &Constraints<'_>,
        value: &[U],
        _name: Identifier,
    ) -> Result<(), EncodeError> {
        let string = K::as_any(value);
        if K::table().tag == Tag::UNIVERSAL_STRING {
            return self.append_universal(string);
        }
        self.append(Scalar::String(string, only_length(constraints)))
    }

    fn encode_packed_bits<K: CodecString<bool>>(
        &mut self,
        _tag: Tag,
        constraints: &Constraints<'_>,
        value: &BitVec,
        _name: Identifier,
    ) -> Result<(), EncodeError> {
        self.append(Scalar::String(AnyStr::PackedBits(value), only_length(constraints)))
    }

    fn encode_any(&mut self, _tag: Tag, value: &Any, _name: Identifier) -> Result<(), EncodeError> {
        self.append(Scalar::Open(value.as_bytes()))
    }

    fn mark_present(&mut self, _tag: Tag) -> Result<(), EncodeError> {
        self.append_presence()
    }

    fn mark_absent(&mut self, _tag: Tag) -> Result<(), EncodeError> {
        self.append_absence()
    }

    fn mark_addition_present(&mut self, _tag: Tag) -> Result<(), EncodeError> {
        self.append_presence()
    }

    fn mark_addition_absent(&mut self, _tag: Tag) -> Result<(), EncodeError> {
        self.append_absence()
    }

    fn mark_group_absent<C: FieldTable>(&mut self) -> Result<(), EncodeError> {
        self.append_absence()
    }

    fn open_sequence<C: FieldTable>(
        &mut self,
        _tag: Tag,
        _name: Identifier,
    ) -> Result<(), EncodeError> {
        self.open_components::<C>()
    }

    fn open_set<C: FieldTable>(&mut self, _tag: Tag, _name: Identifier) -> Result<(), EncodeError> {
        self.open_components::<C>()
    }

    fn open_sequence_of(
        &mut self,
        _tag: Tag,
        _constraints: &Constraints<'_>,
        _name: Identifier,
        _count: usize,
    ) -> Result<(), EncodeError> {
        self.open_scope(Opening::Elements)
    }

    fn open_set_of(
        &mut self,
        _tag: Tag,
        _constraints: &Constraints<'_>,
        _name: Identifier,
        _count: usize,
    ) -> Result<(), EncodeError> {
        self.open_scope(Opening::Elements)
    }

    fn open_explicit_prefix(&mut self, _tag: Tag, _name: Identifier) -> Result<(), EncodeError> {
        self.open_scope(Opening::Tagged)
    }

    fn open_choice<T: Choice>(
        &mut self,
        chosen: Tag,
        _constraints: &Constraints<'_>,
        _name: Identifier,
    ) -> Result<(), EncodeError> {
        self.open_scope(Opening::Alternative(alternative_name::<T>(chosen)))
    }

    fn close(&mut self) -> Result<(), EncodeError> {
        self.close_scope()
    }

    fn open_group<C: FieldTable>(&mut self) -> Result<(), EncodeError> {
        self.open_group_of::<C>()
    }

    fn close_group(&mut self) -> Result<(), EncodeError> {
        self.close_inner_group()
    }

    ghost lawful = { text_writer_is_lawful F.MayRefuse };
}
