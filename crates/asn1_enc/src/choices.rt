//! A CHOICE under whatever tag.
ghost use Rattle.asn1_laws.specs.TaggedChoices.{WritesAfterTag};
ghost use Rattle.asn1_laws.specs.GivenTypes.{given};
ghost use Rattle.asn1_laws.specs.Writing.{NeedsDepth};
ghost use Rattle.asn1_laws.specs.WritingTypes.{WritesValue};
ghost use Rattle.asn1_model.specs.ConstraintSets.{constraint_set, table_constraints};
ghost use Rattle.asn1_tags.specs.Names.{name_of};

use crate::encode::EncodeChoice;
use crate::encoder::Encoder;
use crate::own_constraints::make_constraints;
use asn1_bounds::Constraints;
use asn1_components::ChoiceType;
use asn1_laws::EncodeError;
use asn1_model::TypeTable;
use asn1_tags::{Identifier, Tag};

/// A CHOICE after an explicit tag, under the constraints and the name of its table.
#[inline(always)]
fn write_after_tag<T: EncodeChoice, E: Encoder>(
    encoder: &mut E,
    tag: Tag,
    table: &TypeTable,
    value: &T,
    name: Identifier,
) -> Result<(), EncodeError>
    ensures writes { WritesAfterTag E.writer tag (name_of name)
        (table_constraints table.now.constraints) (name_of table.now.identifier) T.alternatives
        (T.pick value.now) encoder.old encoder.new result }
    ensures depth_first { NeedsDepth E.writer encoder.old result }
{
    encoder.open_explicit_prefix(tag, name)?;
    let constraints = make_constraints(encoder, table)?;
    encoder.encode_choice(&constraints, value, table.identifier)?;
    encoder.close()
}

/// A CHOICE under a tag: untagged under the CHOICE marker tag; under any other, after that tag, with its own constraints and name
/// (X.680, 31.2.7). Without a name it is written under the type's own.
#[inline(always)]
pub(crate) fn write_choice<T: EncodeChoice + ChoiceType, E: Encoder>(
    encoder: &mut E,
    tag: Tag,
    constraints: &Constraints<'_>,
    value: &T,
    name: Identifier,
) -> Result<(), EncodeError>
    ensures writes { WritesValue E.writer
        (given tag (constraint_set constraints.now) T.meaning (name_of name)) value.now
        encoder.old encoder.new result }
    ensures depth_first { NeedsDepth E.writer encoder.old result }
{
    let table = T::table();
    let name = name.or(table.identifier);
    if tag.is_choice() {
        return encoder.encode_choice(constraints, value, name);
    }
    write_after_tag(encoder, tag, &table, value, name)
}
