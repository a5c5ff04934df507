//! The personnel record of X.690, annex A.
mod child_information;
mod date;
mod laws;
mod name;
mod record;

pub use child_information::{
    ChildInformation, child_information_is_valid, child_information_is_well_tagged,
};
pub use date::{Date, date_is_valid, date_is_well_tagged};
pub use laws::{date_has_its_records, no_children_are_absent};
pub use name::{Name, name_is_valid, name_is_well_tagged};
pub use record::{
    Children, PersonnelRecord, personnel_record_is_valid, personnel_record_is_well_tagged,
};
