//! Parts of values.
use crate::component_list::{ComponentList, Construct, Listed};
use crate::fault::Fault;
use crate::governed::{Governed, Scope, Written};
use crate::items::find_number;
use crate::object_fields::span_of_field;
use crate::resolver::Resolver;
use asn1_names::Place;
use asn1_notation::{ListItem, NamedNumber, NumberName, Span, TypeKind, Usage, ValueKind};
use asn1_notation_text::type_word;
use asn1_resolved::{ComponentValue, Value};

// The greatest number of a bit that a value may name.
const MAX_BIT: usize = 65535;

impl<'r, 'a> Resolver<'r, 'a> {
    /// The one value of an item of a list.
    pub(crate) fn single_value(
        &mut self,
        scope: Scope<'a>,
        item: &'r ListItem,
    ) -> Result<Written<'r, 'a>, Fault> {
        match item.values.as_slice() {
            [value] => Ok(Written { scope, value }),
            [_, second, ..] => Err(self.refuse(
                scope.place_at(second.start),
                &[b"a comma is expected before this value"],
            )),
            [] => Err(Fault::Refused),
        }
    }

    /// The component that an item of a list names, and its value.
    pub(crate) fn named_component(
        &mut self,
        list: &ComponentList<'r, 'a>,
        scope: Scope<'a>,
        item: &'r ListItem,
    ) -> Result<(Listed<'r, 'a>, &'r asn1_notation::Value), Fault> {
        match item.values.as_slice() {
            [name, value] => match &name.kind {
                ValueKind::Reference(reference) => {
                    let listed = self.require_component(list, scope, reference.name)?;
                    Ok((listed, value))
                }
                _ => Err(self.refuse_component(scope, name.start)),
            },
            [value, ..] => Err(self.refuse_component(scope, value.start)),
            [] => Err(Fault::Refused),
        }
    }

    /// Refuses the second value of a component.
    pub(crate) fn require_first(
        &mut self,
        components: &[ComponentValue<'a>],
        place: Place,
        name: &[u8],
    ) -> Result<(), Fault> {
        for known in components {
            if known.name == name {
                return Err(self.refuse(place, &[b"component '", name, b"' has two values"]));
            }
        }
        Ok(())
    }

    // Refuses what is no component of a value.
    fn refuse_component(&mut self, scope: Scope<'a>, start: usize) -> Fault {
        self.refuse(
            scope.place_at(start),
            &[b"the name of a component and its value are expected here"],
        )
    }

    // The component of this name.
    fn require_component(
        &mut self,
        list: &ComponentList<'r, 'a>,
        scope: Scope<'a>,
        name: Span,
    ) -> Result<Listed<'r, 'a>, Fault> {
        match list.find(scope.octets(name)) {
            Some(listed) => Ok(listed),
            None => Err(self.refuse(
                scope.place(name),
                &[b"the type has no component '", scope.octets(name), b"'"],
            )),
        }
    }

    /// Refuses a value without a component that must be there.
    pub(crate) fn require_all(
        &mut self,
        list: &ComponentList<'r, 'a>,
        written: Written<'r, 'a>,
        values: &'r [ListItem],
    ) -> Result<(), Fault> {
        for listed in &list.listed {
            if is_required(*listed) && !is_named(written.scope, values, listed.name()) {
                return Err(self.refuse(
                    written.place(),
                    &[b"the value has no component '", listed.name(), b"'"],
                ));
            }
        }
        Ok(())
    }

    /// The alternative of this name.
    pub(crate) fn find_alternative(
        &mut self,
        base: Governed<'r, 'a>,
        scope: Scope<'a>,
        name: Span,
    ) -> Result<Listed<'r, 'a>, Fault> {
        let TypeKind::Choice(items) = &base.definition.kind else {
            return Err(self.refuse_kind_at(base, scope.place(name)));
        };
        let list = self.list_components(base.scope, items.as_slice(), Construct::Choice)?;
        match list.find(scope.octets(name)) {
            Some(listed) => Ok(listed),
            None => Err(self.refuse(
                scope.place(name),
                &[b"the CHOICE has no alternative '", scope.octets(name), b"'"],
            )),
        }
    }

    // The number of the bit that a value names.
    fn find_bit(
        &mut self,
        scope: Scope<'a>,
        bits: &'r [NamedNumber],
        written: Written<'r, 'a>,
    ) -> Result<NumberName, Fault> {
        match &written.value.kind {
            ValueKind::Reference(reference) => {
                let name = written.scope.octets(reference.name);
                match find_number(scope, bits, name) {
                    Some(number) => Ok(number),
                    None => Err(self.refuse(
                        written.place(),
                        &[b"the BIT STRING has no bit '", name, b"'"],
                    )),
                }
            }
            _ => Err(self.refuse(written.place(), &[b"the name of a bit is expected here"])),
        }
    }

    /// The bits with these names.
    pub(crate) fn bits_value(
        &mut self,
        bits_scope: Scope<'a>,
        bits: &'r [NamedNumber],
        written: Written<'r, 'a>,
        values: &'r [ListItem],
    ) -> Result<Value<'a>, Fault> {
        let mut numbers = Vec::new(self.alloc);
        for item in values {
            let bit = self.single_value(written.scope, item)?;
            let number = self.find_bit(bits_scope, bits, bit)?;
            let number = self.number_name(bits_scope, number)?;
            numbers.push(number)?;
        }
        self.bits_of_numbers(written, numbers.as_slice())
    }

    // The bits with these numbers, up to the last of them.
    fn bits_of_numbers(
        &mut self,
        written: Written<'r, 'a>,
        numbers: &[i128],
    ) -> Result<Value<'a>, Fault> {
        let mut bits = Vec::new(self.alloc);
        for number in numbers {
            match usize::try_from(*number) {
                Ok(index) if index <= MAX_BIT => set_bit(&mut bits, index)?,
                _ => {
                    return Err(self.refuse(
                        written.place(),
                        &[b"a bit of a value has a number from 0 to 65535"],
                    ));
                }
            }
        }
        Ok(Value::Bits(bits))
    }

    /// Adds the arcs of an object identifier, if there are none before them, or an arc.
    pub(crate) fn add_referenced(
        &mut self,
        arcs: &mut Vec<u32>,
        written: Written<'r, 'a>,
        name: Span,
        value: Value<'a>,
    ) -> Result<(), Fault> {
        match value {
            Value::ObjectIdentifier(first) => {
                if arcs.is_empty() {
                    arcs.extend_from_slice(first.as_slice())?;
                    Ok(())
                } else {
                    Err(self.refuse_no_number(written.scope, name))
                }
            }
            Value::Integer(number) => self.push_arc(arcs, written, number),
            _ => Err(self.refuse_no_number(written.scope, name)),
        }
    }

    /// Adds the number of an arc.
    pub(crate) fn push_arc(
        &mut self,
        arcs: &mut Vec<u32>,
        written: Written<'r, 'a>,
        number: i128,
    ) -> Result<(), Fault> {
        match u32::try_from(number) {
            Ok(number) => {
                arcs.push(number)?;
                Ok(())
            }
            Err(_) => Err(self.refuse(
                written.place(),
                &[b"the number of an arc is from 0 to 4294967295"],
            )),
        }
    }

    /// Refuses a name whose value is no whole number.
    pub(crate) fn refuse_no_number(&mut self, scope: Scope<'a>, name: Span) -> Fault {
        self.refuse(
            scope.place(name),
            &[b"'", scope.octets(name), b"' is no value of INTEGER"],
        )
    }

    /// Refuses a value that is not of the type.
    pub(crate) fn refuse_kind(
        &mut self,
        base: Governed<'r, 'a>,
        written: Written<'r, 'a>,
    ) -> Fault {
        self.refuse_kind_at(base, written.place())
    }

    // Refuses a value at this place that is not of the type.
    fn refuse_kind_at(&mut self, base: Governed<'r, 'a>, place: Place) -> Fault {
        self.refuse(
            place,
            &[
                b"a value of ",
                type_word(&base.definition.kind),
                b" is expected here",
            ],
        )
    }

    /// Refuses the name of a value that is not of the type.
    pub(crate) fn require_kind(
        &mut self,
        base: Governed<'r, 'a>,
        written: Written<'r, 'a>,
        value: &Value<'a>,
    ) -> Result<(), Fault> {
        let name = match &written.value.kind {
            ValueKind::Reference(reference) => reference.name,
            ValueKind::Field(object, names) => span_of_field(object, names.as_slice()),
            _ => return Ok(()),
        };
        if suits(&base.definition.kind, value) || self.suits_field(base, value)? {
            return Ok(());
        }
        let scope = written.scope;
        let word = type_word(&base.definition.kind);
        Err(self.refuse_name(scope.place(name), scope.octets(name), word))
    }

    // Whether a value is one of a field of a class that has no tree of its own.
    fn suits_field(&mut self, base: Governed<'r, 'a>, value: &Value<'a>) -> Result<bool, Fault> {
        match value {
            Value::ObjectIdentifier(_) => self.is_identifier(base),
            Value::Alternative(_, _) => self.is_open(base),
            _ => Ok(false),
        }
    }

    /// Refuses a value that leads to no end.
    pub(crate) fn refuse_depth(&mut self, written: Written<'r, 'a>) -> Fault {
        self.refuse(
            written.place(),
            &[b"the value is defined by itself, or nested too deep"],
        )
    }

    // Refuses the name of a value that is not of a type with this word.
    fn refuse_name<'t>(&mut self, place: Place, name: &'t [u8], word: &'t [u8]) -> Fault {
        self.refuse(place, &[b"'", name, b"' is no value of ", word])
    }
}

// Sets a bit, with bits 0 before it.
fn set_bit(bits: &mut Vec<bool>, index: usize) -> Result<(), Fault> {
    for _ in bits.len()..=index {
        bits.push(false)?;
    }
    if let Some(bit) = bits.get_mut(index) {
        *bit = true;
    }
    Ok(())
}

// Whether a component is in every value.
fn is_required(listed: Listed<'_, '_>) -> bool {
    matches!(listed.component.usage, Usage::Required)
}

// Whether an item of a list has this name.
fn is_named(scope: Scope<'_>, values: &[ListItem], name: &[u8]) -> bool {
    for item in values {
        if let [first, ..] = item.values.as_slice() {
            if let ValueKind::Reference(reference) = &first.kind {
                if scope.octets(reference.name) == name {
                    return true;
                }
            }
        }
    }
    false
}

// Whether a value is of this kind of type.
fn suits(kind: &TypeKind, value: &Value<'_>) -> bool {
    match value {
        Value::Boolean(_) => matches!(kind, TypeKind::Boolean),
        Value::Null => matches!(kind, TypeKind::Null),
        Value::Integer(_) => matches!(kind, TypeKind::Integer(_)),
        Value::Bits(_) => matches!(kind, TypeKind::BitString(_)),
        Value::Octets(_) => matches!(kind, TypeKind::OctetString),
        Value::ObjectIdentifier(_) => matches!(kind, TypeKind::ObjectIdentifier),
        Value::Text(_) => matches!(kind, TypeKind::String(_)),
        Value::Item(_) => matches!(kind, TypeKind::Enumerated(_)),
        Value::Elements(_) => matches!(kind, TypeKind::SequenceOf(_, _) | TypeKind::SetOf(_, _)),
        Value::Components(_) => matches!(kind, TypeKind::Sequence(_) | TypeKind::Set(_)),
        Value::Alternative(_, _) => matches!(kind, TypeKind::Choice(_)),
    }
}
