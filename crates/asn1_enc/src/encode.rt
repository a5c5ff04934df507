//! Types that are written.
ghost use Rattle.asn1_components.specs.Alternatives.{all_of};
ghost use Rattle.asn1_components.specs.ChosenTags.{chosen_tag as tag_of_chosen};
ghost use Rattle.asn1_components.specs.Components.{all_components};
ghost use Rattle.asn1_laws.specs.IndexedComponents.{IsOfTypeAt, records_at};
ghost use Rattle.asn1_laws.specs.Writing.{Writes};
ghost use Rattle.asn1_laws.specs.GivenTypes.{as_it_is, given, with_constraints, with_tag};
ghost use Rattle.asn1_laws.specs.WritingTypes.{WritesAlternative, WritesFields, WritesValue};
ghost use Rattle.asn1_model.specs.ConstraintSets.{constraint_set};
ghost use Rattle.asn1_model.specs.TaggedTypes.{tagged, untagged};
ghost use Rattle.asn1_tags.specs.Names.{name_of};
ghost use Rattle.std.specs.Prelude.{◌≡◌};

use crate::encoder::Encoder;
use crate::own_constraints::make_constraints;
use asn1_bounds::Constraints;
use asn1_components::{Choice, FieldTable};
use asn1_laws::EncodeError;
use asn1_model::AsnType;
use asn1_tags::{Identifier, Tag};

/// A type whose values are written.
///
/// Each entry point appends exactly the value's records under what it is given: a tag, constraints, a name. What it is not
/// given is the type's own. A success also tells that the value meets its type's invariant. An error is one of the
/// encoder's calls, and comes only where the encoder has failed.
pub trait Encode: AsnType {
    /// Writes the value under a tag, constraints and a name.
    fn encode_with_tag_and_constraints<E: Encoder>(
        &self,
        encoder: &mut E,
        tag: Tag,
        constraints: &Constraints<'_>,
        name: Identifier,
    ) -> Result<(), EncodeError>
        ensures { WritesValue E.writer
            (given tag (constraint_set constraints.now) Self.meaning (name_of name)) self.now
            encoder.old encoder.new result };

    /// Writes the value under the type's own tag, constraints and name.
    #[inline(always)]
    final fn encode<E: Encoder>(&self, encoder: &mut E) -> Result<(), EncodeError>
        ensures { WritesValue E.writer (untagged Self.meaning) self.now encoder.old encoder.new
            result }
    {
        let table = Self::table();
        let constraints = make_constraints(encoder, &table)?;
        self.encode_with_tag_and_constraints(encoder, table.tag, &constraints, table.identifier)
    }

    /// Writes the value under a tag.
    #[inline(always)]
    final fn encode_with_tag<E: Encoder>(
        &self,
        encoder: &mut E,
        tag: Tag,
    ) -> Result<(), EncodeError>
        ensures { WritesValue E.writer (tagged tag Self.meaning) self.now
            encoder.old encoder.new result }
    {
        let table = Self::table();
        let constraints = make_constraints(encoder, &table)?;
        self.encode_with_tag_and_constraints(encoder, tag, &constraints, table.identifier)
    }

    /// Writes the value under a name.
    #[inline(always)]
    final fn encode_with_identifier<E: Encoder>(
        &self,
        encoder: &mut E,
        name: Identifier,
    ) -> Result<(), EncodeError>
        ensures { WritesValue E.writer (as_it_is Self.meaning (name_of name)) self.now
            encoder.old encoder.new result }
    {
        let table = Self::table();
        let constraints = make_constraints(encoder, &table)?;
        self.encode_with_tag_and_constraints(encoder, table.tag, &constraints, name)
    }

    /// Writes the value under a tag and a name.
    #[inline(always)]
    final fn encode_with_tag_and_identifier<E: Encoder>(
        &self,
        encoder: &mut E,
        tag: Tag,
        name: Identifier,
    ) -> Result<(), EncodeError>
        ensures { WritesValue E.writer (with_tag tag Self.meaning (name_of name)) self.now
            encoder.old encoder.new result }
    {
        let constraints = make_constraints(encoder, &Self::table())?;
        self.encode_with_tag_and_constraints(encoder, tag, &constraints, name)
    }

    /// Writes the value under constraints.
    #[inline(always)]
    final fn encode_with_constraints<E: Encoder>(
        &self,
        encoder: &mut E,
        constraints: &Constraints<'_>,
    ) -> Result<(), EncodeError>
        ensures { WritesValue E.writer
            (with_constraints (constraint_set constraints.now) Self.meaning Self.meaning.name)
            self.now encoder.old encoder.new result }
    {
        let table = Self::table();
        self.encode_with_tag_and_constraints(encoder, table.tag, constraints, table.identifier)
    }

    /// Writes the value under constraints and a name.
    #[inline(always)]
    final fn encode_with_constraints_and_identifier<E: Encoder>(
        &self,
        encoder: &mut E,
        constraints: &Constraints<'_>,
        name: Identifier,
    ) -> Result<(), EncodeError>
        ensures { WritesValue E.writer
            (with_constraints (constraint_set constraints.now) Self.meaning (name_of name))
            self.now encoder.old encoder.new result }
    {
        self.encode_with_tag_and_constraints(encoder, Self::tag(), constraints, name)
    }
}

/// A type whose components are written one by one, each by its index: a SEQUENCE, a SET or a group of additions.
pub trait EncodeFields: FieldTable {
    /// Writes the component at an index of the definition, and nothing at an index after the last.
    fn encode_field<E: Encoder>(&self, index: usize, encoder: &mut E) -> Result<(), EncodeError>
        ensures { Writes E.writer encoder.old
            (records_at (all_components Self.components) index self.now)
            (IsOfTypeAt (all_components Self.components) index self.now) encoder.new result };

    /// Writes all components, in the order of their definition: if a type has no other body, by a loop over the indices.
    #[inline(always)]
    fn encode_fields<E: Encoder>(&self, encoder: &mut E) -> Result<(), EncodeError>
        ensures { WritesFields E.writer Self.components self.now encoder.old encoder.new result }
    {
        for index in 0..Self::field_count() {
            self.encode_field(index, encoder)?;
        }
        Ok(())
    }
}

/// A CHOICE whose chosen alternative is written.
pub trait EncodeChoice: AsnType + Choice {
    /// The tag of the chosen alternative: the first of its record.
    fn chosen_tag(&self) -> Tag
        ensures { result ≡ tag_of_chosen (all_of Self.alternatives) (Self.pick self.now) };

    /// Writes the chosen alternative.
    fn encode_alternative<E: Encoder>(&self, encoder: &mut E) -> Result<(), EncodeError>
        ensures { WritesAlternative E.writer Self.alternatives (Self.pick self.now) encoder.old
            encoder.new result };
}
