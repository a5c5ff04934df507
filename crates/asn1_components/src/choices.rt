//! CHOICE types.
ghost use Rattle.std.specs.Prelude.{◌≡◌, All, length, map, false, IfOk, IsOk};
ghost use Rattle.std.specs.Option.{option_copied, option_map};
ghost use Rattle.asn1_model.specs.ConstraintSets.{constraint_set};
ghost use Rattle.asn1_tags.specs.Trees.{shapes};
ghost use Rattle.asn1_tags.specs.declared.tags.Tag.{Tag};
ghost use Rattle.asn1_components.specs.Alternatives.{Alternatives, OneOf, root_of, all_of, all_rows, names_of, table_of, trees_in, trees_of, added_trees_of, variance_of};
ghost use Rattle.asn1_components.specs.ChosenTags.{TagIdentifiesAlternative};
ghost use Rattle.asn1_components.specs.ChoiceTypes.{AgreesWithChoice};

use asn1_bounds::{Bounded, ConstraintTable, Constraints, Extensible, Value};
use asn1_model::AsnType;
use asn1_tags::TagTree;
use std::alloc::{AllocError, Global};

/// A CHOICE type (X.680, 29): its alternatives, and which of them a value is.
pub trait Choice {
    // The alternatives of the root, and those after the extension marker.
    ghost alternatives: { Alternatives };

    // The alternative that a value is.
    ghost pick: { Self → OneOf (all_of alternatives) };

    /// The trees of the alternatives of the root.
    fn variants() -> &'static [TagTree<'static>]
        ensures { shapes result.now ≡ trees_of (root_of alternatives) };

    /// The trees of the alternatives after the extension marker; `None` if there is no marker.
    fn extended_variants() -> Option<&'static [TagTree<'static>]>
        ensures { option_map shapes (option_copied result) ≡ added_trees_of alternatives };

    /// The names of the alternatives, those of the root first.
    fn identifiers() -> &'static [&'static str]
        ensures { map (λ text. text.now) result.now ≡ names_of (all_of alternatives) };

    /// How many alternatives the root has.
    #[tactic(auto, using(crate::proofs::Variants::as_many))]
    final fn variance() -> usize
        ensures { result ≡ length (root_of alternatives) }
    {
        Self::variants().len()
    }

    /// How many alternatives there are.
    final fn complete_variance() -> usize
        ensures { result ≡ length (all_of alternatives) }
    {
        Self::identifiers().len()
    }

    /// The constraint of the index of an alternative: from 0 to one less than the root has alternatives, and extensible where
    /// there is an extension marker. It has no permitted alphabet, so it takes no memory and is not refused.
    final fn variance_constraint(alloc: Global) -> Result<Constraints<'static>, AllocError>
        ensures set { IfOk result (λ set. constraint_set set ≡ variance_of alternatives) }
        ensures succeeds { IsOk result }
    {
        let indices = Value::new(Bounded::const_new(0, Self::variance() as i128 - 1));
        let is_extensible = Self::extended_variants().is_some();
        ConstraintTable::NONE
            .with_value(Extensible::new(indices).set_extensible(is_extensible))
            .to_constraints(alloc)
    }
}

/// A type that is a CHOICE: its meaning is that of its alternatives.
pub trait ChoiceType: AsnType + Choice {
    // The law.
    ghost agrees: { AgreesWithChoice Self.alternatives Self.pick Self.meaning };
}

/// The chosen alternative of a value of a well tagged CHOICE is one record, which begins with one of the alternative's own
/// tags, and no other alternative has that tag (X.680, 29.3). So a decoder knows the alternative by the next tag.
pub fn the_chosen_tag_identifies_the_alternative<T: ChoiceType>()
    ensures { (t : Tag) (v : T) → T.meaning.HasDistinctTags t →
        TagIdentifiesAlternative (all_of T.alternatives) (T.pick v) }
{}

/// The table that records have of a CHOICE is what the calls of the type answer: the trees of the root are those of `variants`
/// (`root`), if there is an extension marker those after it are those of `extended_variants` (`additions`), the names are
/// those of `identifiers` (`names`), and no alternative may be absent (`always_there`).
pub fn alternatives_are_as_in_records<T: Choice>()
    ensures root { trees_in (table_of T.alternatives).root ≡ trees_of (root_of T.alternatives) }
    ensures additions { option_map trees_in (table_of T.alternatives).additions ≡
        added_trees_of T.alternatives }
    ensures names { map (λ l. l.name) (all_rows (table_of T.alternatives)) ≡
        names_of (all_of T.alternatives) }
    ensures always_there { All (λ l. l.may_be_absent ≡
        false) (all_rows (table_of T.alternatives)) }
{}
