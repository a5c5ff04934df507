//! Values.

/// A value. A reference to a value stands for that value.
#[cycle(values)]
#[derive(Drop)]
pub enum Value<'a> {
    /// Of BOOLEAN.
    Boolean(bool),
    /// Of NULL.
    Null,
    /// Of INTEGER.
    Integer(i128),
    /// Of BIT STRING, bit by bit.
    Bits(Vec<bool>),
    /// Of OCTET STRING.
    Octets(Vec<u8>),
    /// Of OBJECT IDENTIFIER.
    ObjectIdentifier(Vec<u32>),
    /// Of a string of characters or a time, without the quotes.
    Text(Vec<u8>),
    /// The name of an item of an ENUMERATED.
    Item(&'a [u8]),
    /// Of SEQUENCE OF or SET OF.
    Elements(Vec<Value<'a>>),
    /// Of SEQUENCE or SET: the components that are written, in the order of the type.
    Components(Vec<ComponentValue<'a>>),
    /// Of CHOICE: the name of the alternative, and its value.
    Alternative(&'a [u8], Box<Value<'a>>),
}

/// The value of a component.
#[cycle(values)]
#[derive(Drop)]
pub struct ComponentValue<'a> {
    /// The name of the component.
    pub name: &'a [u8],
    /// The value.
    pub value: Value<'a>,
}
