//! The records of values of the personnel record, the same for every codec.
ghost use Rattle.std.specs.Prelude.{[], ◌≡◌};
ghost use Rattle.asn1_samples.specs.PersonnelRecords.{date_records, records_without_children};
ghost use Rattle.asn1_types.specs.Words.{own_records};

use crate::personnel::{Date, PersonnelRecord};
use asn1_types::AsnType;

/// The records of a day.
pub fn date_has_its_records(date: &Date)
    ensures { own_records ⟦<Date as AsnType>⟧.meaning date.now ≡ date_records date.now }
{}

/// The records of a record without children, its components in the order of the definition: the last is not written.
pub fn no_children_are_absent(person: &PersonnelRecord)
    ensures { person.now.children.items ≡ [] →
        own_records ⟦<PersonnelRecord as AsnType>⟧.meaning person.now ≡
        records_without_children person.now }
{}
