//! Tables of object sets (X.682, 10).
use asn1_names::Place;
use asn1_resolved::{Type, Value};

/// A column of an object set: for each key the type that an open type has.
#[derive(Drop)]
pub struct Table<'a> {
    /// The name of the module that defines the set.
    pub module: &'a [u8],
    /// The name of the set.
    pub name: &'a [u8],
    /// The place of the name.
    pub place: Place,
    /// The name of the class.
    pub class: &'a [u8],
    /// The name of the field that holds the types.
    pub column: &'a [u8],
    /// Whether another field of the class holds types too.
    pub is_one_of_many: bool,
    /// The name of the field that tells the row.
    pub key: &'a [u8],
    /// Whether the class has another field that is UNIQUE, which this one is not.
    pub is_by_other_key: bool,
    /// The alternative whose values the keys are, if that field is a CHOICE. The set has a table for each such alternative.
    pub alternative: Option<&'a [u8]>,
    /// The type of that field, or of the alternative.
    pub key_type: Type<'a>,
    /// The rows, in the order of the text. No two have the same key.
    pub rows: Vec<Row<'a>>,
}

/// A row of a table.
#[derive(Drop)]
pub struct Row<'a> {
    /// The name of the object, or of the value that is its key, if one has a name.
    pub name: Option<&'a [u8]>,
    /// The object, from brace to brace.
    pub place: Place,
    /// The key, which is the value of the alternative, if the table is for one.
    pub key: Value<'a>,
    /// The type.
    pub cell: Type<'a>,
}
