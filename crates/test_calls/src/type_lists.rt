//! Types of some lines, by their names.
use crate::menu::Menu;
use crate::named_types::{TypeCase, TypeNames};
use asn1_open::Open;
use asn1_samples::personnel::PersonnelRecord;
use asn1_samples::{
    Badge, Color, Corner, Envelope, Labelled, Node, Person, Plate, Profile, Settings, Shape, Ticket,
};
use asn1_types::{Any, InstanceOf, SetOf};
use asn1_values::{
    BitString, BitVec, BmpString, Integer, NamedBitString, ObjectIdentifier, OctetString,
    TeletexString,
};

/// The types of lines that read DER and write it.
#[derive(Clone, Copy, Drop)]
pub struct DerTypes;

impl TypeNames for DerTypes {
    fn try_named<C: TypeCase>(&self, case: &C, name: &str) -> Option<C::Answer> {
        match name {
            "Integer" => Some(case.try_type::<Integer>()),
            "Any" => Some(case.try_type::<Any>()),
            "Envelope" => Some(case.try_type::<Envelope>()),
            "Menu" => Some(case.try_type::<Menu>()),
            "PersonnelRecord" => Some(case.try_type::<PersonnelRecord>()),
            _ => None,
        }
    }
}

/// The types that are read from the front of packed bytes.
#[derive(Clone, Copy, Drop)]
pub struct FrontTypes;

impl TypeNames for FrontTypes {
    fn try_named<C: TypeCase>(&self, case: &C, name: &str) -> Option<C::Answer> {
        match name {
            "bool" => Some(case.try_type::<bool>()),
            "Option<bool>" => Some(case.try_type::<Option<bool>>()),
            "Person" => Some(case.try_type::<Person>()),
            "Profile" => Some(case.try_type::<Profile>()),
            "Badge" => Some(case.try_type::<Badge>()),
            "Settings" => Some(case.try_type::<Settings>()),
            "Labelled" => Some(case.try_type::<Labelled>()),
            "Node" => Some(case.try_type::<Node>()),
            "Shape" => Some(case.try_type::<Shape>()),
            "Corner" => Some(case.try_type::<Corner>()),
            "Color" => Some(case.try_type::<Color>()),
            "Plate" => Some(case.try_type::<Plate>()),
            "Open" => Some(case.try_type::<Open>()),
            _ => None,
        }
    }
}

/// The types that each codec is asked for by each action.
#[derive(Clone, Copy, Drop)]
pub struct TypesOfEachAction;

impl TypeNames for TypesOfEachAction {
    fn try_named<C: TypeCase>(&self, case: &C, name: &str) -> Option<C::Answer> {
        match name {
            "bool" => Some(case.try_type::<bool>()),
            "u8" => Some(case.try_type::<u8>()),
            "Integer" => Some(case.try_type::<Integer>()),
            "BitString" => Some(case.try_type::<BitString>()),
            "BitVec" => Some(case.try_type::<BitVec>()),
            "NamedBitString" => Some(case.try_type::<NamedBitString>()),
            "TeletexString" => Some(case.try_type::<TeletexString>()),
            "Any" => Some(case.try_type::<Any>()),
            "Vec<bool>" => Some(case.try_type::<Vec<bool>>()),
            "SetOf<u8>" => Some(case.try_type::<SetOf<u8>>()),
            "Person" => Some(case.try_type::<Person>()),
            "Profile" => Some(case.try_type::<Profile>()),
            "Settings" => Some(case.try_type::<Settings>()),
            "Ticket" => Some(case.try_type::<Ticket>()),
            "Envelope" => Some(case.try_type::<Envelope>()),
            _ => None,
        }
    }
}

/// The types of trials beside sample types.
#[derive(Clone, Copy, Drop)]
pub struct TriedTypes;

impl TypeNames for TriedTypes {
    fn try_named<C: TypeCase>(&self, case: &C, name: &str) -> Option<C::Answer> {
        match name {
            "Integer" => Some(case.try_type::<Integer>()),
            "ObjectIdentifier" => Some(case.try_type::<ObjectIdentifier>()),
            "BitString" => Some(case.try_type::<BitString>()),
            "OctetString" => Some(case.try_type::<OctetString>()),
            "BmpString" => Some(case.try_type::<BmpString>()),
            "SetOf<u8>" => Some(case.try_type::<SetOf<u8>>()),
            "[u8;2]" => Some(case.try_type::<[u8; 2]>()),
            "Vec<Vec<bool>>" => Some(case.try_type::<Vec<Vec<bool>>>()),
            "Box<u8>" => Some(case.try_type::<Box<u8>>()),
            "InstanceOf<u8>" => Some(case.try_type::<InstanceOf<u8>>()),
            _ => None,
        }
    }
}
