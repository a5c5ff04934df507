//! Types of each kind, by their names.
use crate::hollow::Hollow;
use crate::marker_tags::{ApplicationTag, ContextTag, PrivateTag};
use crate::menu::Menu;
use crate::named_types::{TypeCase, TypeNames};
use asn1_open::Open;
use asn1_recursive::Nested;
use asn1_samples::{
    Badge, Color, Corner, Envelope, Gauge, Labelled, Node, Notice, Pair, Person, Plate, Profile,
    Settings, Shape, Ticket, Visit,
};
use asn1_types::{Any, Array, Explicit, Implicit, InstanceOf, SetOf, tag};
use asn1_values::{
    BitString, BitVec, BmpString, ConstrainedInteger, GeneralString, GraphicString, Ia5String,
    Integer, NamedBitString, NumericString, ObjectIdentifier, OctetString, PrintableString,
    TeletexString, VisibleString,
};
use std::borrow::Cow;
use std::marker::PhantomData;

type OneToTen = ConstrainedInteger<1, 10>;

/// `[0] IMPLICIT T`
type Tagged<T> = Implicit<ContextTag<0>, T>;

/// `[APPLICATION 3] IMPLICIT VisibleString`
type Type2 = Implicit<ApplicationTag<3>, VisibleString>;

/// The numbers of a width.
#[derive(Clone, Copy, Drop)]
pub struct Numbers;

impl TypeNames for Numbers {
    fn try_named<C: TypeCase>(&self, case: &C, name: &str) -> Option<C::Answer> {
        match name {
            "u16" => Some(case.try_type::<u16>()),
            "u32" => Some(case.try_type::<u32>()),
            "u64" => Some(case.try_type::<u64>()),
            "usize" => Some(case.try_type::<usize>()),
            "i8" => Some(case.try_type::<i8>()),
            "i16" => Some(case.try_type::<i16>()),
            "i32" => Some(case.try_type::<i32>()),
            "i64" => Some(case.try_type::<i64>()),
            "i128" => Some(case.try_type::<i128>()),
            "isize" => Some(case.try_type::<isize>()),
            _ => None,
        }
    }
}

/// A type of each kind of item, of what may be absent, and of lists.
#[derive(Clone, Copy, Drop)]
pub struct Items;

impl TypeNames for Items {
    fn try_named<C: TypeCase>(&self, case: &C, name: &str) -> Option<C::Answer> {
        match name {
            "bool" => Some(case.try_type::<bool>()),
            "()" => Some(case.try_type::<()>()),
            "u8" => Some(case.try_type::<u8>()),
            "Integer" => Some(case.try_type::<Integer>()),
            "1..10" => Some(case.try_type::<OneToTen>()),
            "ObjectIdentifier" => Some(case.try_type::<ObjectIdentifier>()),
            "BitString" => Some(case.try_type::<BitString>()),
            "BitVec" => Some(case.try_type::<BitVec>()),
            "NamedBitString" => Some(case.try_type::<NamedBitString>()),
            "OctetString" => Some(case.try_type::<OctetString>()),
            "String" => Some(case.try_type::<String>()),
            "VisibleString" => Some(case.try_type::<VisibleString>()),
            "TeletexString" => Some(case.try_type::<TeletexString>()),
            "BmpString" => Some(case.try_type::<BmpString>()),
            "Any" => Some(case.try_type::<Any>()),
            "Option<bool>" => Some(case.try_type::<Option<bool>>()),
            "Vec<bool>" => Some(case.try_type::<Vec<bool>>()),
            "SetOf<u8>" => Some(case.try_type::<SetOf<u8>>()),
            _ => None,
        }
    }
}

/// The other strings.
#[derive(Clone, Copy, Drop)]
pub struct Strings;

impl TypeNames for Strings {
    fn try_named<C: TypeCase>(&self, case: &C, name: &str) -> Option<C::Answer> {
        match name {
            "GeneralString" => Some(case.try_type::<GeneralString>()),
            "GraphicString" => Some(case.try_type::<GraphicString>()),
            "Ia5String" => Some(case.try_type::<Ia5String>()),
            "PrintableString" => Some(case.try_type::<PrintableString>()),
            "NumericString" => Some(case.try_type::<NumericString>()),
            _ => None,
        }
    }
}

/// The other lists and sets of values.
#[derive(Clone, Copy, Drop)]
pub struct Lists;

impl TypeNames for Lists {
    fn try_named<C: TypeCase>(&self, case: &C, name: &str) -> Option<C::Answer> {
        match name {
            "Vec<u8>" => Some(case.try_type::<Vec<u8>>()),
            "[u8;2]" => Some(case.try_type::<[u8; 2]>()),
            "Array<bool,2>" => Some(case.try_type::<Array<bool, 2>>()),
            "Vec<1..10>" => Some(case.try_type::<Vec<OneToTen>>()),
            "Vec<()>" => Some(case.try_type::<Vec<()>>()),
            "Vec<OctetString>" => Some(case.try_type::<Vec<OctetString>>()),
            "Vec<PhantomData>" => Some(case.try_type::<Vec<PhantomData<u8>>>()),
            "Vec<Vec<bool>>" => Some(case.try_type::<Vec<Vec<bool>>>()),
            "Vec<Person>" => Some(case.try_type::<Vec<Person>>()),
            "SetOf<u16>" => Some(case.try_type::<SetOf<u16>>()),
            "SetOf<i32>" => Some(case.try_type::<SetOf<i32>>()),
            _ => None,
        }
    }
}

/// Types that hold a value, or put it under a tag.
#[derive(Clone, Copy, Drop)]
pub struct Wrappers;

impl TypeNames for Wrappers {
    fn try_named<C: TypeCase>(&self, case: &C, name: &str) -> Option<C::Answer> {
        match name {
            "PhantomData" => Some(case.try_type::<PhantomData<u8>>()),
            "Box<u8>" => Some(case.try_type::<Box<u8>>()),
            "Cow<u8>" => Some(case.try_type::<Cow<'static, u8>>()),
            "InstanceOf<u8>" => Some(case.try_type::<InstanceOf<u8>>()),
            "[1]bool" => Some(case.try_type::<Explicit<ContextTag<1>, bool>>()),
            "[30]bool" => Some(case.try_type::<Implicit<ContextTag<30>, bool>>()),
            "[31]bool" => Some(case.try_type::<Implicit<ContextTag<31>, bool>>()),
            "[201]String" => Some(case.try_type::<Explicit<ApplicationTag<201>, String>>()),
            "[31]()" => Some(case.try_type::<Implicit<PrivateTag<31>, ()>>()),
            "[28]String" => Some(case.try_type::<Implicit<tag::UNIVERSAL_STRING, String>>()),
            _ => None,
        }
    }
}

/// A type of each kind under the tag of a component.
#[derive(Clone, Copy, Drop)]
pub struct TaggedItems;

impl TypeNames for TaggedItems {
    fn try_named<C: TypeCase>(&self, case: &C, name: &str) -> Option<C::Answer> {
        match name {
            "[0]Integer" => Some(case.try_type::<Tagged<Integer>>()),
            "[0]ObjectIdentifier" => Some(case.try_type::<Tagged<ObjectIdentifier>>()),
            "[0]BitString" => Some(case.try_type::<Tagged<BitString>>()),
            "[0]TeletexString" => Some(case.try_type::<Tagged<TeletexString>>()),
            "[0]BmpString" => Some(case.try_type::<Tagged<BmpString>>()),
            "[0]Vec<u8>" => Some(case.try_type::<Tagged<Vec<u8>>>()),
            "[0]SetOf<u8>" => Some(case.try_type::<Tagged<SetOf<u8>>>()),
            "[0]InstanceOf<u8>" => Some(case.try_type::<Tagged<InstanceOf<u8>>>()),
            _ => None,
        }
    }
}

/// The types of X.690, 8.14.3.
#[derive(Clone, Copy, Drop)]
pub struct TypesOfX690;

impl TypeNames for TypesOfX690 {
    fn try_named<C: TypeCase>(&self, case: &C, name: &str) -> Option<C::Answer> {
        match name {
            "Type2" => Some(case.try_type::<Type2>()),
            "Type3" => Some(case.try_type::<Explicit<ContextTag<2>, Type2>>()),
            "Type4" => Some(case.try_type::<Explicit<ApplicationTag<7>, Type2>>()),
            "Type5" => Some(case.try_type::<Implicit<ContextTag<2>, VisibleString>>()),
            _ => None,
        }
    }
}

/// The sample types that are a SEQUENCE.
#[derive(Clone, Copy, Drop)]
pub struct Sequences;

impl TypeNames for Sequences {
    fn try_named<C: TypeCase>(&self, case: &C, name: &str) -> Option<C::Answer> {
        match name {
            "Person" => Some(case.try_type::<Person>()),
            "Profile" => Some(case.try_type::<Profile>()),
            "Visit" => Some(case.try_type::<Visit>()),
            "Gauge" => Some(case.try_type::<Gauge>()),
            "Pair" => Some(case.try_type::<Pair<bool, bool>>()),
            "Pair<u8,u8>" => Some(case.try_type::<Pair<u8, u8>>()),
            "Pair<1..10,u8>" => Some(case.try_type::<Pair<OneToTen, u8>>()),
            "Pair<u8,1..10>" => Some(case.try_type::<Pair<u8, OneToTen>>()),
            "Notice" => Some(case.try_type::<Notice>()),
            "Settings" => Some(case.try_type::<Settings>()),
            "Labelled" => Some(case.try_type::<Labelled>()),
            "Node" => Some(case.try_type::<Node>()),
            "Envelope" => Some(case.try_type::<Envelope>()),
            _ => None,
        }
    }
}

/// The other sample types.
#[derive(Clone, Copy, Drop)]
pub struct Samples;

impl TypeNames for Samples {
    fn try_named<C: TypeCase>(&self, case: &C, name: &str) -> Option<C::Answer> {
        match name {
            "Plate" => Some(case.try_type::<Plate>()),
            "Badge" => Some(case.try_type::<Badge>()),
            "Ticket" => Some(case.try_type::<Ticket>()),
            "Hollow" => Some(case.try_type::<Hollow>()),
            "Menu" => Some(case.try_type::<Menu>()),
            "Shape" => Some(case.try_type::<Shape>()),
            "Corner" => Some(case.try_type::<Corner>()),
            "Color" => Some(case.try_type::<Color>()),
            "Open" => Some(case.try_type::<Open>()),
            "Nested" => Some(case.try_type::<Nested>()),
            _ => None,
        }
    }
}
