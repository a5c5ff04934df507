//! The calls with which a codec writes.
ghost use Rattle.asn1_components.specs.Alternatives.{table_of};
ghost use Rattle.asn1_components.specs.Components.{is_sequence, is_set, rows};
ghost use Rattle.asn1_laws.specs.Defaults.{MayAnswer};
ghost use Rattle.asn1_laws.specs.GivenTypes.{after_tag, as_it_is, given, with_constraints, with_tag};
ghost use Rattle.asn1_laws.specs.Writing.{ClosesGroup, IsLawful, IsOutOfMemory, NeedsDepth, OpensGroup, Writer, Writes, WritesEnd, WritesHead};
ghost use Rattle.asn1_laws.specs.WritingTypes.{WritesChoice, WritesComponents, WritesContent, WritesDefault, WritesElements, WritesGroup, WritesOptional, WritesValue};
ghost use Rattle.asn1_components.specs.Enumerations.{number_of};
ghost use Rattle.asn1_components.specs.Labels.{labels_of};
ghost use Rattle.asn1_model.specs.Composites.{option_records, open_type_records, mark_records};
ghost use Rattle.asn1_model.specs.ConstraintSets.{constraint_set, unconstrained};
ghost use Rattle.asn1_model.specs.Records.{absent, alternative, arcs, bits, bmp, discriminant, general, graphic, group_absent, ia5, in_additions, in_root, null, number, numeric, octet, explicit_tag, present, printable, sequence, sequence_of, set, set_of, teletex, boolean, units, utf8, visible};
ghost use Rattle.asn1_tags.specs.Names.{name_of};
ghost use Rattle.asn1_values.specs.Alphabets.{is_ia5, is_numeric, is_printable, is_visible};
ghost use Rattle.std.specs.Option.{option_copied};
ghost use Rattle.std.specs.Prelude.{◌≡◌, ◌<◌, ◌^◌, [], ◌∷◌, ⊤, All, IsTrue, None, Some};
ghost use Rattle.std.specs.Str.{IsUtf8};

use crate::choices::write_choice;
use crate::constructed::{Kind, write_constructed};
use crate::defaults::{equals_default, write_default};
use crate::encode::{Encode, EncodeChoice, EncodeFields};
use crate::optionals::{write_present, write_present_after_tag};
use asn1_bounds::{Codec, Constraints};
use asn1_components::{
    Choice, ChoiceType, ConstructedType, Enumerated, EnumeratedTable, FieldTable,
};
use asn1_laws::{EncodeError, Side};
use asn1_model::AsnType;
use asn1_tags::{Identifier, Tag};
use asn1_types::{Any, CodecString, SetOf, Utf8};
use asn1_values::kind::{
    Bits, Bmp, General, Graphic, Ia5, Numeric, Octets, Printable, Teletex, Visible,
};
use asn1_values::{
    BitVec, BmpString, GeneralString, GraphicString, Ia5String, IntegerType, NumericString,
    PrintableString, TeletexString, VisibleString,
};
use std::alloc::{AllocError, Global};

/// A codec that writes records. It implements the primitive calls; the calls for whole types build on them.
///
/// The calls before the law are a codec's own. Each that succeeds appends its record or presence mark to the innermost list
/// that is open, and leaves those outside it; and tells that the value meets its type's invariant, such as that a `u8` is
/// below 256. Each that fails makes the encoder failed. An encoder that has failed answers [`EncodeError::Failed`],
/// and no other does. [`EncodeError::Depth`] comes only from opening a scope where no depth is left, and is answered
/// there before anything else but `Failed`. [`EncodeError::Custom`] comes only where the codec rejects the records.
///
/// The calls after the law are the same for every codec.
pub trait Encoder: Sized {
    // The relations of the encoder: the written records, failure, the depth left, and rejection.
    ghost writer: { Writer Self };

    /// The codec's name.
    fn codec(&self) -> Codec;

    /// How many nested scopes may still be opened.
    fn depth(&self) -> usize
        ensures { result ≡ writer.depth_left self.now };

    /// The allocator, with which a type makes its constraints.
    fn global(&self) -> Global;

    /// Makes the encoder failed, and answers [`EncodeError::Memory`], or [`EncodeError::Failed`] if it had failed before. For a
    /// type whose own constraints could not be made because memory ran out.
    fn refuse_memory(&mut self) -> EncodeError
        ensures { IsOutOfMemory writer self.old self.new result };

    /// A BOOLEAN.
    fn encode_bool(&mut self, tag: Tag, value: bool, name: Identifier) -> Result<(), EncodeError>
        ensures { WritesContent writer tag unconstrained (name_of name) (boolean value) ⊤ self.old
            self.new result };

    /// A NULL.
    fn encode_null(&mut self, tag: Tag, name: Identifier) -> Result<(), EncodeError>
        ensures { WritesContent writer tag unconstrained (name_of name) null ⊤ self.old
            self.new result };

    /// The number of a value of an ENUMERATED type, whose items are those of the table of `E`: some codecs write the number,
    /// some the item's name, and some its index.
    fn encode_enumerated_number<E: EnumeratedTable>(
        &mut self,
        tag: Tag,
        number: isize,
        name: Identifier,
    ) -> Result<(), EncodeError>
        ensures { WritesContent writer tag unconstrained (name_of name)
            (discriminant E.labels number) ⊤ self.old self.new result };

    /// An OBJECT IDENTIFIER, by its arcs.
    fn encode_object_identifier(
        &mut self,
        tag: Tag,
        value: &[u32],
        name: Identifier,
    ) -> Result<(), EncodeError>
        ensures { WritesContent writer tag unconstrained (name_of name) (arcs value.now)
            (All (λ arc. arc < 2 ^ 32) value.now) self.old self.new result };

    /// An INTEGER, of any type of whole numbers.
    fn encode_integer<T: IntegerType>(
        &mut self,
        tag: Tag,
        constraints: &Constraints<'_>,
        value: &T,
        name: Identifier,
    ) -> Result<(), EncodeError>
        ensures { WritesContent writer tag (constraint_set constraints.now) (name_of name)
            (number (T.number value.now)) (T.fits (T.number value.now)) self.old self.new result };

    /// A string of the kind `K`, by its units. The kind makes of them the string of whatever kind that a codec looks at
    /// ([`CodecString::as_any`]). The calls with a name for each kind give it units that a string of the kind can have; others a
    /// codec may reject.
    fn encode_string<U, K: CodecString<U>>(
        &mut self,
        tag: Tag,
        constraints: &Constraints<'_>,
        value: &[U],
        name: Identifier,
    ) -> Result<(), EncodeError>
        ensures { WritesContent writer tag (constraint_set constraints.now) (name_of name)
            (K.content value.now) ⊤ self.old self.new result };

    /// A BIT STRING whose bits lie in octets. The kind `K` says whether they have names (`NamedBits`), as a codec has to know that
    /// adds 0 bits for a size.
    fn encode_packed_bits<K: CodecString<bool>>(
        &mut self,
        tag: Tag,
        constraints: &Constraints<'_>,
        value: &BitVec,
        name: Identifier,
    ) -> Result<(), EncodeError>
        ensures { WritesContent writer tag (constraint_set constraints.now) (name_of name)
            (bits value.now) ⊤ self.old self.new result };

    /// A value of an open type, by its bytes, under whatever tag.
    fn encode_any(&mut self, tag: Tag, value: &Any, name: Identifier) -> Result<(), EncodeError>
        ensures { Writes writer self.old (open_type_records (name_of name) value.now)
            ⊤ self.new result };

    /// The mark of a component of the root that is there.
    fn mark_present(&mut self, tag: Tag) -> Result<(), EncodeError>
        ensures { Writes writer self.old (mark_records (present in_root tag)) ⊤ self.new result };

    /// The mark of a component of the root that is absent.
    fn mark_absent(&mut self, tag: Tag) -> Result<(), EncodeError>
        ensures { Writes writer self.old (mark_records (absent in_root tag)) ⊤ self.new result };

    /// The mark of an addition that is there.
    fn mark_addition_present(&mut self, tag: Tag) -> Result<(), EncodeError>
        ensures { Writes writer self.old (mark_records (present in_additions tag)) ⊤ self.new result };

    /// The mark of an addition that is absent.
    fn mark_addition_absent(&mut self, tag: Tag) -> Result<(), EncodeError>
        ensures { Writes writer self.old (mark_records (absent in_additions tag)) ⊤ self.new result };

    /// The mark of a group of additions that is absent, whose components are those of the table of `C`.
    fn mark_group_absent<C: FieldTable>(&mut self) -> Result<(), EncodeError>
        ensures { Writes writer self.old (mark_records (group_absent (rows C.components)))
            ⊤ self.new result };

    /// Opens a SEQUENCE, whose components are those of the table of `C`.
    fn open_sequence<C: FieldTable>(
        &mut self,
        tag: Tag,
        name: Identifier,
    ) -> Result<(), EncodeError>
        ensures { WritesHead writer self.old (sequence tag (rows C.components) (name_of name))
            self.new result };

    /// Opens a SET, whose components are those of the table of `C`.
    fn open_set<C: FieldTable>(&mut self, tag: Tag, name: Identifier) -> Result<(), EncodeError>
        ensures { WritesHead writer self.old (set tag (rows C.components) (name_of name))
            self.new result };

    /// Opens a SEQUENCE OF this many elements.
    fn open_sequence_of(
        &mut self,
        tag: Tag,
        constraints: &Constraints<'_>,
        name: Identifier,
        count: usize,
    ) -> Result<(), EncodeError>
        ensures { WritesHead writer self.old (sequence_of tag (constraint_set constraints.now)
            (name_of name)) self.new result };

    /// Opens a SET OF this many elements.
    fn open_set_of(
        &mut self,
        tag: Tag,
        constraints: &Constraints<'_>,
        name: Identifier,
        count: usize,
    ) -> Result<(), EncodeError>
        ensures { WritesHead writer self.old
            (set_of tag (constraint_set constraints.now) (name_of name)) self.new result };

    /// Opens what follows an explicit tag.
    fn open_explicit_prefix(&mut self, tag: Tag, name: Identifier) -> Result<(), EncodeError>
        ensures { WritesHead writer self.old (explicit_tag tag (name_of name)) self.new result };

    /// Opens a CHOICE, whose alternatives are those of `T`, by the tag of the chosen one.
    fn open_choice<T: Choice>(
        &mut self,
        chosen: Tag,
        constraints: &Constraints<'_>,
        name: Identifier,
    ) -> Result<(), EncodeError>
        ensures { WritesHead writer self.old
            (alternative chosen (constraint_set constraints.now) (table_of T.alternatives)
            (name_of name)) self.new result };

    /// Closes the innermost scope.
    fn close(&mut self) -> Result<(), EncodeError>
        ensures { WritesEnd writer self.old self.new result };

    /// Opens a group of additions, whose components are those of the table of `C`. It is no scope, and takes nothing from the
    /// depth left.
    fn open_group<C: FieldTable>(&mut self) -> Result<(), EncodeError>
        ensures { OpensGroup writer self.old (rows C.components) self.new result };

    /// Closes the innermost group, which is absent where it holds marks alone.
    fn close_group(&mut self) -> Result<(), EncodeError>
        ensures { ClosesGroup writer self.old self.new result };

    // The law of a codec.
    ghost lawful: { IsLawful writer };

    /// A BIT STRING.
    final fn encode_bit_string(
        &mut self,
        tag: Tag,
        constraints: &Constraints<'_>,
        value: &[bool],
        name: Identifier,
    ) -> Result<(), EncodeError>
        ensures { WritesContent writer tag (constraint_set constraints.now) (name_of name)
            (bits value.now) ⊤ self.old self.new result }
    {
        self.encode_string::<bool, Bits>(tag, constraints, value, name)
    }

    /// An OCTET STRING.
    #[inline(always)]
    final fn encode_octet_string(
        &mut self,
        tag: Tag,
        constraints: &Constraints<'_>,
        value: &[u8],
        name: Identifier,
    ) -> Result<(), EncodeError>
        ensures { WritesContent writer tag (constraint_set constraints.now) (name_of name)
            (units octet value.now) (All (λ unit. unit < 2 ^ 8) value.now) self.old self.new
            result }
    {
        self.encode_string::<u8, Octets>(tag, constraints, value, name)
    }

    /// A UTF8String.
    #[inline(always)]
    final fn encode_utf8_string(
        &mut self,
        tag: Tag,
        constraints: &Constraints<'_>,
        value: &str,
        name: Identifier,
    ) -> Result<(), EncodeError>
        ensures { WritesContent writer tag (constraint_set constraints.now) (name_of name)
            (units utf8 value.now) (IsUtf8 value.now) self.old self.new result }
    {
        self.encode_string::<u8, Utf8>(tag, constraints, value.as_bytes(), name)
    }

    /// A GeneralString.
    final fn encode_general_string(
        &mut self,
        tag: Tag,
        constraints: &Constraints<'_>,
        value: &GeneralString,
        name: Identifier,
    ) -> Result<(), EncodeError>
        ensures { WritesContent writer tag (constraint_set constraints.now) (name_of name)
            (units general value.now) (All (λ unit. unit < 2 ^ 8) value.now) self.old self.new
            result }
    {
        self.encode_string::<u8, General>(tag, constraints, value.as_slice(), name)
    }

    /// A GraphicString.
    final fn encode_graphic_string(
        &mut self,
        tag: Tag,
        constraints: &Constraints<'_>,
        value: &GraphicString,
        name: Identifier,
    ) -> Result<(), EncodeError>
        ensures { WritesContent writer tag (constraint_set constraints.now) (name_of name)
            (units graphic value.now) (All (λ unit. unit < 2 ^ 8) value.now) self.old self.new
            result }
    {
        self.encode_string::<u8, Graphic>(tag, constraints, value.as_slice(), name)
    }

    /// A VisibleString.
    #[inline(always)]
    final fn encode_visible_string(
        &mut self,
        tag: Tag,
        constraints: &Constraints<'_>,
        value: &VisibleString,
        name: Identifier,
    ) -> Result<(), EncodeError>
        ensures { WritesContent writer tag (constraint_set constraints.now) (name_of name)
            (units visible value.now) (All (λ unit. IsTrue (is_visible unit)) value.now) self.old
            self.new result }
    {
        self.encode_string::<u8, Visible>(tag, constraints, value.as_slice(), name)
    }

    /// An IA5String.
    final fn encode_ia5_string(
        &mut self,
        tag: Tag,
        constraints: &Constraints<'_>,
        value: &Ia5String,
        name: Identifier,
    ) -> Result<(), EncodeError>
        ensures { WritesContent writer tag (constraint_set constraints.now) (name_of name)
            (units ia5 value.now) (All (λ unit. IsTrue (is_ia5 unit)) value.now) self.old self.new
            result }
    {
        self.encode_string::<u8, Ia5>(tag, constraints, value.as_slice(), name)
    }

    /// A PrintableString.
    final fn encode_printable_string(
        &mut self,
        tag: Tag,
        constraints: &Constraints<'_>,
        value: &PrintableString,
        name: Identifier,
    ) -> Result<(), EncodeError>
        ensures { WritesContent writer tag (constraint_set constraints.now) (name_of name)
            (units printable value.now) (All (λ unit. IsTrue (is_printable unit)) value.now)
            self.old self.new result }
    {
        self.encode_string::<u8, Printable>(tag, constraints, value.as_slice(), name)
    }

    /// A NumericString.
    final fn encode_numeric_string(
        &mut self,
        tag: Tag,
        constraints: &Constraints<'_>,
        value: &NumericString,
        name: Identifier,
    ) -> Result<(), EncodeError>
        ensures { WritesContent writer tag (constraint_set constraints.now) (name_of name)
            (units numeric value.now) (All (λ unit. IsTrue (is_numeric unit)) value.now) self.old
            self.new result }
    {
        self.encode_string::<u8, Numeric>(tag, constraints, value.as_slice(), name)
    }

    /// A TeletexString.
    final fn encode_teletex_string(
        &mut self,
        tag: Tag,
        constraints: &Constraints<'_>,
        value: &TeletexString,
        name: Identifier,
    ) -> Result<(), EncodeError>
        ensures { WritesContent writer tag (constraint_set constraints.now) (name_of name)
            (units teletex value.now) (All (λ unit. unit < 2 ^ 32) value.now) self.old self.new
            result }
    {
        self.encode_string::<u32, Teletex>(tag, constraints, value.as_slice(), name)
    }

    /// A BMPString.
    final fn encode_bmp_string(
        &mut self,
        tag: Tag,
        constraints: &Constraints<'_>,
        value: &BmpString,
        name: Identifier,
    ) -> Result<(), EncodeError>
        ensures { WritesContent writer tag (constraint_set constraints.now) (name_of name)
            (units bmp value.now) (All (λ unit. unit < 2 ^ 16) value.now) self.old self.new result }
    {
        self.encode_string::<u16, Bmp>(tag, constraints, value.as_slice(), name)
    }

    /// A value of an ENUMERATED type, by its number.
    final fn encode_enumerated<T: Enumerated>(
        &mut self,
        tag: Tag,
        value: &T,
        name: Identifier,
    ) -> Result<(), EncodeError>
        ensures { WritesContent writer tag unconstrained (name_of name)
            (discriminant (labels_of T.enumeration) (number_of T.eq T.enumeration value.now)) ⊤
            self.old self.new result }
    {
        self.encode_enumerated_number::<T>(tag, value.discriminant(), name)
    }

    /// A value after an explicit tag.
    #[inline(always)]
    final fn encode_explicit_prefix<T: Encode>(
        &mut self,
        tag: Tag,
        value: &T,
        name: Identifier,
    ) -> Result<(), EncodeError>
        ensures writes { WritesValue writer (after_tag tag T.meaning (name_of name)) value.now
            self.old self.new result }
        ensures depth_first { NeedsDepth writer self.old result }
    {
        self.open_explicit_prefix(tag, name)?;
        value.encode(self)?;
        self.close()
    }

    /// A SEQUENCE, by its components. It writes the records of a SEQUENCE type, which are the same under all constraints.
    #[inline(always)]
    final fn encode_sequence<C: EncodeFields + ConstructedType>(
        &mut self,
        tag: Tag,
        value: &C,
        name: Identifier,
    ) -> Result<(), EncodeError>
        ensures components { WritesComponents writer is_sequence tag (name_of name) C.components
            value.now self.old self.new result }
        ensures as_meant { C.components.kind ≡ is_sequence → WritesValue writer
            (given tag unconstrained C.meaning (name_of name)) value.now self.old self.new result }
        ensures depth_first { NeedsDepth writer self.old result }
    {
        write_constructed(self, Kind::Sequence, tag, value, name)
    }

    /// A SEQUENCE OF, by its elements.
    #[inline(always)]
    final fn encode_sequence_of<T: Encode>(
        &mut self,
        tag: Tag,
        elements: &[T],
        constraints: &Constraints<'_>,
        name: Identifier,
    ) -> Result<(), EncodeError>
        ensures writes { WritesElements writer
            (sequence_of tag (constraint_set constraints.now) (name_of name)) T.meaning elements.now
            self.old self.new result }
        ensures depth_first { NeedsDepth writer self.old result }
    {
        self.open_sequence_of(tag, constraints, name, elements.len())?;
        for element in elements {
            element.encode(self)?;
        }
        self.close()
    }

    /// A component that may be absent, and is there, under a tag, constraints and a name.
    #[inline(always)]
    final fn encode_some_with_tag_and_constraints<T: Encode>(
        &mut self,
        tag: Tag,
        constraints: &Constraints<'_>,
        value: &T,
        name: Identifier,
    ) -> Result<(), EncodeError>
        ensures { WritesOptional writer in_root
            (given tag (constraint_set constraints.now) T.meaning (name_of name)) (Some value.now)
            self.old self.new result }
    {
        write_present(self, Side::Root, tag, Some(constraints), value, name)
    }

    /// A SET, by its components in the order of their definition. It writes the records of a SET type, which are the same under
    /// all constraints.
    #[inline(always)]
    final fn encode_set<C: EncodeFields + ConstructedType>(
        &mut self,
        tag: Tag,
        value: &C,
        name: Identifier,
    ) -> Result<(), EncodeError>
        ensures components { WritesComponents writer is_set tag (name_of name) C.components
            value.now self.old self.new result }
        ensures as_meant { C.components.kind ≡ is_set → WritesValue writer
            (given tag unconstrained C.meaning (name_of name)) value.now self.old self.new result }
        ensures depth_first { NeedsDepth writer self.old result }
    {
        write_constructed(self, Kind::Set, tag, value, name)
    }

    /// A SET OF, by its elements.
    #[inline(always)]
    final fn encode_set_of<T: Encode>(
        &mut self,
        tag: Tag,
        elements: &SetOf<T>,
        constraints: &Constraints<'_>,
        name: Identifier,
    ) -> Result<(), EncodeError>
        ensures writes { WritesElements writer
            (set_of tag (constraint_set constraints.now) (name_of name)) T.meaning elements.now
            self.old self.new result }
        ensures depth_first { NeedsDepth writer self.old result }
    {
        self.open_set_of(tag, constraints, name, elements.len())?;
        for element in elements.iter() {
            element.encode(self)?;
        }
        self.close()
    }

    /// A CHOICE that has no tag of its own, by its chosen alternative.
    #[inline(always)]
    final fn encode_choice<T: EncodeChoice>(
        &mut self,
        constraints: &Constraints<'_>,
        value: &T,
        name: Identifier,
    ) -> Result<(), EncodeError>
        ensures writes { WritesChoice writer (constraint_set constraints.now) (name_of name)
            T.alternatives (T.pick value.now) self.old self.new result }
        ensures depth_first { NeedsDepth writer self.old result }
    {
        self.open_choice::<T>(value.chosen_tag(), constraints, name)?;
        value.encode_alternative(self)?;
        self.close()
    }

    /// A CHOICE under a tag: untagged under the CHOICE marker tag; under any other, after that tag, with its own constraints and name
    /// (X.680, 31.2.7). Without a name it is written under the type's own.
    #[inline(always)]
    final fn encode_choice_with_tag<T: EncodeChoice + ChoiceType>(
        &mut self,
        tag: Tag,
        constraints: &Constraints<'_>,
        value: &T,
        name: Identifier,
    ) -> Result<(), EncodeError>
        ensures writes { WritesValue writer
            (given tag (constraint_set constraints.now) T.meaning (name_of name)) value.now self.old
            self.new result }
        ensures depth_first { NeedsDepth writer self.old result }
    {
        write_choice(self, tag, constraints, value, name)
    }

    /// A component that may be absent, and is there, under a name.
    final fn encode_some<T: Encode>(
        &mut self,
        value: &T,
        name: Identifier,
    ) -> Result<(), EncodeError>
        ensures { WritesOptional writer in_root (as_it_is T.meaning (name_of name))
            (Some value.now) self.old self.new result }
    {
        self.encode_some_with_tag(T::tag(), value, name)
    }

    /// A component that may be absent, and is there, under a tag and a name.
    #[inline(always)]
    final fn encode_some_with_tag<T: Encode>(
        &mut self,
        tag: Tag,
        value: &T,
        name: Identifier,
    ) -> Result<(), EncodeError>
        ensures { WritesOptional writer in_root (with_tag tag T.meaning (name_of name))
            (Some value.now) self.old self.new result }
    {
        write_present(self, Side::Root, tag, None, value, name)
    }

    /// A component that may be absent, and is there, after an explicit tag.
    #[inline(always)]
    final fn encode_some_with_explicit_prefix<T: Encode>(
        &mut self,
        tag: Tag,
        value: &T,
        name: Identifier,
    ) -> Result<(), EncodeError>
        ensures { WritesOptional writer in_root (after_tag tag T.meaning (name_of name))
            (Some value.now) self.old self.new result }
    {
        write_present_after_tag(self, Side::Root, tag, value, name)
    }

    /// A component that may be absent, after an explicit tag.
    #[inline(always)]
    final fn encode_optional_with_explicit_prefix<T: Encode>(
        &mut self,
        tag: Tag,
        value: Option<&T>,
        name: Identifier,
    ) -> Result<(), EncodeError>
        ensures { WritesOptional writer in_root (after_tag tag T.meaning (name_of name))
            (option_copied value.entry) self.old self.new result }
    {
        match value {
            None => self.encode_none_with_tag(tag, name),
            Some(value) => self.encode_some_with_explicit_prefix(tag, value, name),
        }
    }

    /// A component of a type that may be absent, and is.
    final fn encode_none<T: AsnType>(&mut self, name: Identifier) -> Result<(), EncodeError>
        ensures { Writes writer self.old (option_records in_root T.meaning.tag None) ⊤
            self.new result }
    {
        self.encode_none_with_tag(T::tag(), name)
    }

    /// A component that may be absent, and is, under a tag.
    final fn encode_none_with_tag(&mut self, tag: Tag, _name: Identifier) -> Result<(), EncodeError>
        ensures { Writes writer self.old (option_records in_root tag None) ⊤ self.new result }
    {
        self.mark_absent(tag)
    }

    /// A component with a default, which is what the closure answers: absent where it equals that. The codec does not see a
    /// default, so a success tells only of another value that it meets its type's invariant.
    final fn encode_default<
        T: Encode + PartialEq + Drop,
        F: FnOnce(Global) -> Result<T, AllocError>,
    >(&mut self, value: &T, default: F, name: Identifier) -> Result<(), EncodeError>
        requires { F.IsAlwaysCallable default }
        ensures { WritesDefault writer (as_it_is T.meaning (name_of name))
            (MayAnswer F.FnOnce default) T.eq value.now self.old self.new result }
    {
        self.encode_default_with_tag(T::tag(), value, default, name)
    }

    /// The same as `encode_default`, under a tag.
    final fn encode_default_with_tag<
        T: Encode + PartialEq + Drop,
        F: FnOnce(Global) -> Result<T, AllocError>,
    >(&mut self, tag: Tag, value: &T, default: F, name: Identifier) -> Result<(), EncodeError>
        requires { F.IsAlwaysCallable default }
        ensures { WritesDefault writer (with_tag tag T.meaning (name_of name))
            (MayAnswer F.FnOnce default) T.eq value.now self.old self.new result }
    {
        write_default(self, tag, None, value, default, name)
    }

    /// The same as `encode_default`, under constraints.
    final fn encode_default_with_constraints<
        T: Encode + PartialEq + Drop,
        F: FnOnce(Global) -> Result<T, AllocError>,
    >(
        &mut self,
        constraints: &Constraints<'_>,
        value: &T,
        default: F,
        name: Identifier,
    ) -> Result<(), EncodeError>
        requires { F.IsAlwaysCallable default }
        ensures { WritesDefault writer
            (with_constraints (constraint_set constraints.now) T.meaning (name_of name))
            (MayAnswer F.FnOnce default) T.eq value.now self.old self.new result }
    {
        self.encode_default_with_tag_and_constraints(T::tag(), constraints, value, default, name)
    }

    /// The same as `encode_default`, under a tag and constraints.
    final fn encode_default_with_tag_and_constraints<
        T: Encode + PartialEq + Drop,
        F: FnOnce(Global) -> Result<T, AllocError>,
    >(
        &mut self,
        tag: Tag,
        constraints: &Constraints<'_>,
        value: &T,
        default: F,
        name: Identifier,
    ) -> Result<(), EncodeError>
        requires { F.IsAlwaysCallable default }
        ensures { WritesDefault writer
            (given tag (constraint_set constraints.now) T.meaning (name_of name))
            (MayAnswer F.FnOnce default) T.eq value.now self.old self.new result }
    {
        write_default(self, tag, Some(constraints), value, default, name)
    }

    /// The same as `encode_default`, after an explicit tag.
    final fn encode_default_with_explicit_prefix<
        T: Encode + PartialEq + Drop,
        F: FnOnce(Global) -> Result<T, AllocError>,
    >(&mut self, tag: Tag, value: &T, default: F, name: Identifier) -> Result<(), EncodeError>
        requires { F.IsAlwaysCallable default }
        ensures { WritesDefault writer (after_tag tag T.meaning (name_of name))
            (MayAnswer F.FnOnce default) T.eq value.now self.old self.new result }
    {
        if equals_default(self, value, default)? {
            self.encode_none_with_tag(tag, name)
        } else {
            self.encode_some_with_explicit_prefix(tag, value, name)
        }
    }

    /// The same as `encode_default`, with the default of the type.
    final fn encode_or_default<T: Encode + Default + PartialEq + Drop>(
        &mut self,
        value: &T,
        name: Identifier,
    ) -> Result<(), EncodeError>
        ensures { WritesDefault writer (as_it_is T.meaning (name_of name)) T.is_default T.eq
            value.now self.old self.new result }
    {
        self.encode_with_tag_or_default(T::tag(), value, name)
    }

    /// The same as `encode_or_default`, under a tag.
    #[inline(always)]
    final fn encode_with_tag_or_default<T: Encode + Default + PartialEq + Drop>(
        &mut self,
        tag: Tag,
        value: &T,
        name: Identifier,
    ) -> Result<(), EncodeError>
        ensures { WritesDefault writer (with_tag tag T.meaning (name_of name)) T.is_default T.eq
            value.now self.old self.new result }
    {
        if *value == T::default() {
            self.encode_none_with_tag(tag, name)
        } else {
            self.encode_some_with_tag(tag, value, name)
        }
    }

    /// An addition, which may be absent, under a tag, constraints and a name.
    #[inline(always)]
    final fn encode_extension_addition<T: Encode>(
        &mut self,
        tag: Tag,
        constraints: &Constraints<'_>,
        value: Option<&T>,
        name: Identifier,
    ) -> Result<(), EncodeError>
        ensures { WritesOptional writer in_additions
            (given tag (constraint_set constraints.now) T.meaning (name_of name))
            (option_copied value.entry) self.old self.new result }
    {
        match value {
            None => self.mark_addition_absent(tag),
            Some(value) => {
                write_present(self, Side::Additions, tag, Some(constraints), value, name)
            }
        }
    }

    /// The same as `encode_extension_addition`, under the constraints of the type.
    #[inline(always)]
    final fn encode_extension_addition_with_tag<T: Encode>(
        &mut self,
        tag: Tag,
        value: Option<&T>,
        name: Identifier,
    ) -> Result<(), EncodeError>
        ensures { WritesOptional writer in_additions (with_tag tag T.meaning (name_of name))
            (option_copied value.entry) self.old self.new result }
    {
        match value {
            None => self.mark_addition_absent(tag),
            Some(value) => write_present(self, Side::Additions, tag, None, value, name),
        }
    }

    /// An addition, which may be absent, after an explicit tag.
    #[inline(always)]
    final fn encode_extension_addition_with_explicit_prefix<T: Encode>(
        &mut self,
        tag: Tag,
        value: Option<&T>,
        name: Identifier,
    ) -> Result<(), EncodeError>
        ensures { WritesOptional writer in_additions
            (after_tag tag T.meaning (name_of name)) (option_copied value.entry) self.old
            self.new result }
    {
        match value {
            None => self.mark_addition_absent(tag),
            Some(value) => write_present_after_tag(self, Side::Additions, tag, value, name),
        }
    }

    /// A group of additions: absent where there is none, and where its components are marks alone.
    #[inline(always)]
    final fn encode_extension_addition_group<C: EncodeFields>(
        &mut self,
        value: Option<&C>,
        _name: Identifier,
    ) -> Result<(), EncodeError>
        ensures { WritesGroup writer C.components (option_copied value.entry) self.old self.new
            result }
    {
        match value {
            None => self.mark_group_absent::<C>(),
            Some(group) => {
                self.open_group::<C>()?;
                group.encode_fields(self)?;
                self.close_group()
            }
        }
    }
}
