//! A codec that has failed from the start, and keeps the number of elements that it gets.
ghost use Rattle.std.specs.Prelude.{⊤, true};

use asn1_bounds::{Codec, Constraints};
use asn1_components::{Choice, EnumeratedTable, FieldTable};
use asn1_enc::{EncodeError, Encoder};
use asn1_tags::{Identifier, Tag};
use asn1_types::{Any, CodecString};
use asn1_values::{BitVec, IntegerType};
use std::alloc::Global;

/// The codec that listens. Each call answers that it has failed, so that nothing of it has to be right but what it keeps.
#[derive(Drop)]
pub(super) struct Listener {
    /// How many elements the list has that was to be opened last.
    pub(super) count: Option<usize>,
    alloc: Global,
}

impl Listener {
    pub(super) fn new(alloc: Global) -> Listener {
        Listener { count: None, alloc }
    }
}

impl Encoder for Listener {
    ghost writer = { record { wrote = λ _ _. ⊤; failed = λ _. true; depth_left = λ _. 0; rejects = λ _. ⊥ } };

    fn codec(&self) -> Codec {
        Codec::Other(2)
    }

    fn depth(&self) -> usize {
        0
    }

    fn global(&self) -> Global {
        self.alloc
    }

    fn refuse_memory(&mut self) -> EncodeError {
        EncodeError::Failed
    }

    fn encode_bool(
        &mut self,
        _tag: Tag,
        _value: bool,
        _name: Identifier,
    ) -> Result<(), EncodeError> {
        Err(EncodeError::Failed)
    }

    fn encode_null(&mut self, _tag: Tag, _name: Identifier) -> Result<(), EncodeError> {
        Err(EncodeError::Failed)
    }

    fn encode_enumerated_number<E: EnumeratedTable>(
        &mut self,
        _tag: Tag,
        _number: isize,
        _name: Identifier,
    ) -> Result<(), EncodeError> {
        Err(EncodeError::Failed)
    }

    fn encode_object_identifier(
        &mut self,
        _tag: Tag,
        _value: &[u32],
        _name: Identifier,
    ) -> Result<(), EncodeError> {
        Err(EncodeError::Failed)
    }

    fn encode_integer<T: IntegerType>(
        &mut self,
        _tag: Tag,
        _constraints: &Constraints<'_>,
        _value: &T,
        _name: Identifier,
    ) -> Result<(), EncodeError> {
        Err(EncodeError::Failed)
    }

    fn encode_string<U, K: CodecString<U>>(
        &mut self,
        _tag: Tag,
        _constraints: &Constraints<'_>,
        _value: &[U],
        _name: Identifier,
    ) -> Result<(), EncodeError> {
        Err(EncodeError::Failed)
    }

    fn encode_packed_bits<K: CodecString<bool>>(
        &mut self,
        _tag: Tag,
        _constraints: &Constraints<'_>,
        _value: &BitVec,
        _name: Identifier,
    ) -> Result<(), EncodeError> {
        Err(EncodeError::Failed)
    }

    fn encode_any(
        &mut self,
        _tag: Tag,
        _value: &Any,
        _name: Identifier,
    ) -> Result<(), EncodeError> {
        Err(EncodeError::Failed)
    }

    fn mark_present(&mut self, _tag: Tag) -> Result<(), EncodeError> {
        Err(EncodeError::Failed)
    }

    fn mark_absent(&mut self, _tag: Tag) -> Result<(), EncodeError> {
        Err(EncodeError::Failed)
    }

    fn mark_addition_present(&mut self, _tag: Tag) -> Result<(), EncodeError> {
        Err(EncodeError::Failed)
    }

    fn mark_addition_absent(&mut self, _tag: Tag) -> Result<(), EncodeError> {
        Err(EncodeError::Failed)
    }

    fn mark_group_absent<C: FieldTable>(&mut self) -> Result<(), EncodeError> {
        Err(EncodeError::Failed)
    }

    fn open_sequence<C: FieldTable>(
        &mut self,
        _tag: Tag,
        _name: Identifier,
    ) -> Result<(), EncodeError> {
        Err(EncodeError::Failed)
    }

    fn open_set<C: FieldTable>(&mut self, _tag: Tag, _name: Identifier) -> Result<(), EncodeError> {
        Err(EncodeError::Failed)
    }

    fn open_sequence_of(
        &mut self,
        _tag: Tag,
        _constraints: &Constraints<'_>,
        _name: Identifier,
        count: usize,
    ) -> Result<(), EncodeError> {
        self.count = Some(count);
        Err(EncodeError::Failed)
    }

    fn open_set_of(
        &mut self,
        _tag: Tag,
        _constraints: &Constraints<'_>,
        _name: Identifier,
        count: usize,
    ) -> Result<(), EncodeError> {
        self.count = Some(count);
        Err(EncodeError::Failed)
    }

    fn open_explicit_prefix(&mut self, _tag: Tag, _name: Identifier) -> Result<(), EncodeError> {
        Err(EncodeError::Failed)
    }

    fn open_choice<T: Choice>(
        &mut self,
        _chosen: Tag,
        _constraints: &Constraints<'_>,
        _name: Identifier,
    ) -> Result<(), EncodeError> {
        Err(EncodeError::Failed)
    }

    fn close(&mut self) -> Result<(), EncodeError> {
        Err(EncodeError::Failed)
    }

    fn open_group<C: FieldTable>(&mut self) -> Result<(), EncodeError> {
        Err(EncodeError::Failed)
    }

    fn close_group(&mut self) -> Result<(), EncodeError> {
        Err(EncodeError::Failed)
    }

    ghost lawful = { record {
      part = λ _ _ _ h. h;
      inner = λ _ _ h. h;
      marks = λ _ _ _ h. h;
      wrote_in_any_order = λ _ _ _ _ h. h;
      rejects_in_any_order = λ _ _ _ h. h;
    } };
}
