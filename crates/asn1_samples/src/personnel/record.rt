//! A record of someone who works somewhere (X.690, annex A).
//!
//! ```text
//! PersonnelRecord ::= [APPLICATION 0] IMPLICIT SET {
//!     name         Name,
//!     title        [0] VisibleString,
//!     number       EmployeeNumber,
//!     dateOfHire   [1] Date,
//!     nameOfSpouse [2] Name,
//!     children     [3] IMPLICIT SEQUENCE OF ChildInformation DEFAULT {}
//! }
//! EmployeeNumber ::= [APPLICATION 2] IMPLICIT INTEGER
//! ```
ghost use Rattle.std.specs.Prelude.{[], codes, ◌∷◌, ◌≡◌, List, Bool, ℕ};
ghost use Rattle.asn1_slots.specs.Slots.{empty_list_slot, required_slot, set_of_slots};
ghost use Rattle.asn1_types.specs.Words.{IsWellTagged, application, constructed_agrees, constructed_type_under, context, explicitly_tagged, number, tagged, untagged};

use crate::personnel::{ChildInformation, Date, Name};
use asn1_dec::{Decode, DecodeError, Decoder};
use asn1_enc::{Encode, EncodeError, EncodeFields, Encoder};
use asn1_slots::{
    DecodeSetByIndex, Decoded, Tagging, decode_set_by_index, decode_unique, missing, or_empty,
};
use asn1_types::{
    AsnType, Class, Constraints, ConstructedType, Field, FieldTable, Identifier, Tag, TypeTable,
};
use asn1_values::{Integer, VisibleString};
use std::alloc::{AllocError, Global};

/// `SEQUENCE OF ChildInformation`
pub type Children = Vec<ChildInformation>;

/// A record: a SET under a tag of its own, in which one component has a default.
#[derive(PartialEq, Eq, Debug, Drop)]
pub struct PersonnelRecord {
    /// `name Name`
    pub name: Name,
    /// `title [0] VisibleString`
    pub title: VisibleString,
    /// `number EmployeeNumber`
    pub number: Integer,
    /// `dateOfHire [1] Date`
    pub date_of_hire: Date,
    /// `nameOfSpouse [2] Name`
    pub name_of_spouse: Name,
    /// `children [3] IMPLICIT SEQUENCE OF ChildInformation DEFAULT {}`
    pub children: Children,
}

const PERSONNEL_RECORD: Tag = Tag {
    class: Class::Application,
    value: 0,
};

const EMPLOYEE_NUMBER: Tag = Tag {
    class: Class::Application,
    value: 2,
};

const TITLE: Tag = Tag {
    class: Class::Context,
    value: 0,
};

const DATE_OF_HIRE: Tag = Tag {
    class: Class::Context,
    value: 1,
};

const NAME_OF_SPOUSE: Tag = Tag {
    class: Class::Context,
    value: 2,
};

const CHILDREN: Tag = Tag {
    class: Class::Context,
    value: 3,
};

impl DecodeSetByIndex for PersonnelRecord {
    type Slots = (
        Option<Name>,
        Option<VisibleString>,
        Option<Integer>,
        Option<Date>,
        Option<Name>,
        Option<Children>,
    );

    ghost layout = { required_slot (codes "name") (λ v. v.name) (λ s. s.0)
        (untagged ⟦<Name as AsnType>⟧.meaning) ⟦<Name as PartialEq>⟧.eq ∷
        required_slot (codes "title") (λ v. v.title) (λ s. s.1)
        (explicitly_tagged (context 0) ⟦<VisibleString as AsnType>⟧.meaning) ⟦<VisibleString as PartialEq>⟧.eq ∷
        required_slot (codes "number") (λ v. v.number) (λ s. s.2)
        (tagged (application 2) ⟦<Integer as AsnType>⟧.meaning) ⟦<Integer as PartialEq>⟧.eq ∷
        required_slot (codes "dateOfHire") (λ v. v.date_of_hire) (λ s. s.3)
        (explicitly_tagged (context 1) ⟦<Date as AsnType>⟧.meaning) ⟦<Date as PartialEq>⟧.eq ∷
        required_slot (codes "nameOfSpouse") (λ v. v.name_of_spouse) (λ s. s.4)
        (explicitly_tagged (context 2) ⟦<Name as AsnType>⟧.meaning) ⟦<Name as PartialEq>⟧.eq ∷
        empty_list_slot (codes "children") (λ v. v.children) (λ s. s.5)
        (tagged (context 3) ⟦<Children as AsnType>⟧.meaning) ⟦<ChildInformation as PartialEq>⟧.eq
        ⟦<Children as PartialEq>⟧.eq ∷ [] };

    fn full(alloc: Global, slots: Self::Slots) -> Result<PersonnelRecord, AllocError> {
        Ok(PersonnelRecord {
            name: slots.0.unwrap(),
            title: slots.1.unwrap(),
            number: slots.2.unwrap(),
            date_of_hire: slots.3.unwrap(),
            name_of_spouse: slots.4.unwrap(),
            children: or_empty(alloc, slots.5),
        })
    }

    fn missing_at(index: usize, slots: &Self::Slots) -> Option<&'static str> {
        match index {
            0 => missing(&slots.0, "name"),
            1 => missing(&slots.1, "title"),
            2 => missing(&slots.2, "number"),
            3 => missing(&slots.3, "dateOfHire"),
            4 => missing(&slots.4, "nameOfSpouse"),
            _ => None,
        }
    }

    fn decode_field<D: Decoder>(
        index: usize,
        _tag: Tag,
        slots: &mut Self::Slots,
        decoder: &mut D,
    ) -> Decoded {
        match index {
            0 => decode_unique(&mut slots.0, decoder, Tagging::Untagged, "name"),
            1 => decode_unique(&mut slots.1, decoder, Tagging::Explicit(TITLE), "title"),
            2 => decode_unique(
                &mut slots.2,
                decoder,
                Tagging::Tagged(EMPLOYEE_NUMBER),
                "number",
            ),
            3 => decode_unique(
                &mut slots.3,
                decoder,
                Tagging::Explicit(DATE_OF_HIRE),
                "dateOfHire",
            ),
            4 => decode_unique(
                &mut slots.4,
                decoder,
                Tagging::Explicit(NAME_OF_SPOUSE),
                "nameOfSpouse",
            ),
            5 => decode_unique(&mut slots.5, decoder, Tagging::Tagged(CHILDREN), "children"),
            _ => Ok(()),
        }
    }
}

impl FieldTable for PersonnelRecord {
    ghost components = { set_of_slots ⟦<PersonnelRecord as DecodeSetByIndex>⟧.layout };

    fn field_count() -> usize {
        6
    }

    fn field_at(index: usize) -> Option<Field<'static>> {
        match index {
            0 => Some(Field::new_required_type::<Name>(0, "name")),
            1 => Some(Field::new_required_type_with_tag::<Integer>(2, EMPLOYEE_NUMBER, "number")),
            2 => Some(Field::new_required_explicit(1, TITLE, "title")),
            3 => Some(Field::new_required_explicit(3, DATE_OF_HIRE, "dateOfHire")),
            4 => Some(Field::new_required_explicit(4, NAME_OF_SPOUSE, "nameOfSpouse")),
            5 => Some(Field::new_default_type_with_tag::<Children>(5, CHILDREN, "children")),
            _ => None,
        }
    }

    fn extension_index() -> Option<usize> {
        None
    }
}

impl AsnType for PersonnelRecord {
    ghost meaning = { constructed_type_under ⟦<PersonnelRecord as FieldTable>⟧.components (application 0) (codes "PersonnelRecord") };

    fn table() -> TypeTable {
        TypeTable::new(PERSONNEL_RECORD, Identifier(Some("PersonnelRecord")))
    }

    fn is_present(&self) -> bool {
        true
    }
}

impl ConstructedType for PersonnelRecord {
    ghost agrees = { constructed_agrees };
}

/// A `PersonnelRecord` is well tagged: no two of its components share a tag.
pub fn personnel_record_is_well_tagged()
    ensures { IsWellTagged ⟦<PersonnelRecord as AsnType>⟧.meaning }
{}

/// Each `PersonnelRecord` is valid.
pub fn personnel_record_is_valid(person: &PersonnelRecord)
    ensures { (accepts : List ℕ → Bool) →
        ⟦<PersonnelRecord as AsnType>⟧.meaning.IsValid accepts person.now }
{}

impl Encode for PersonnelRecord {
    fn encode_with_tag_and_constraints<E: Encoder>(
        &self,
        encoder: &mut E,
        tag: Tag,
        _constraints: &Constraints<'_>,
        name: Identifier,
    ) -> Result<(), EncodeError> {
        encoder.encode_set(tag, self, name)
    }
}

impl EncodeFields for PersonnelRecord {
    fn encode_field<E: Encoder>(&self, index: usize, encoder: &mut E) -> Result<(), EncodeError> {
        match index {
            0 => self.name.encode(encoder),
            1 => encoder.encode_explicit_prefix(TITLE, &self.title, VisibleString::identifier()),
            2 => self.number.encode_with_tag(encoder, EMPLOYEE_NUMBER),
            3 => encoder.encode_explicit_prefix(
                DATE_OF_HIRE,
                &self.date_of_hire,
                Date::identifier(),
            ),
            4 => encoder.encode_explicit_prefix(
                NAME_OF_SPOUSE,
                &self.name_of_spouse,
                Name::identifier(),
            ),
            5 => encoder.encode_default_with_tag(
                CHILDREN,
                &self.children,
                |alloc| Ok(Vec::new(alloc)),
                Children::identifier(),
            ),
            _ => Ok(()),
        }
    }
}

impl Decode for PersonnelRecord {
    fn decode_with_tag_and_constraints<D: Decoder>(
        decoder: &mut D,
        tag: Tag,
        constraints: &Constraints<'_>,
    ) -> Result<PersonnelRecord, DecodeError> {
        decode_set_by_index(decoder, tag, constraints)
    }
}
