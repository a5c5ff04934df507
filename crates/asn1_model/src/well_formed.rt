//! The records of valid values are well formed.
ghost use Rattle.std.specs.Prelude.{ℕ, Bool, List};
ghost use Rattle.asn1_tags.specs.declared.tags.Tag.{Tag};
ghost use Rattle.asn1_model.specs.ConstraintSets.{ConstraintSet};
ghost use Rattle.asn1_model.specs.Records.{Name};
ghost use Rattle.asn1_model.specs.WellFormed.{AreWellFormed};

use crate::asn_type::AsnType;

/// The law of valid values: under whatever tag, constraints and name a valid value is written, its records are well formed.
/// Each open type among them holds bytes that the codec accepts as one value, and each alternative of a CHOICE has the first
/// tag of what is inside.
pub fn records_of_a_valid_value_are_well_formed<T: AsnType>(value: &T)
    ensures { (accepts : List ℕ → Bool) (t : Tag) (c : ConstraintSet) (n : Name) →
        T.meaning.IsValid accepts value.now →
        AreWellFormed accepts (T.meaning.records value.now t c n) }
{}
