//! Values.
use crate::component_list::Construct;
use crate::fault::Fault;
use crate::followed::Followed;
use crate::governed::{Governed, Scope, Written};
use crate::open_values::{is_contents, is_contents_word};
use crate::resolver::Resolver;
use asn1_modules::{standard_arc, type_of_open_value};
use asn1_notation::{ComponentItem, ListItem, Span, Type, TypeKind, ValueKind};
use asn1_notation_text::type_word;
use asn1_resolved::{ComponentValue, Value};

/// How many types or values may be inside one another, or values behind names.
pub(crate) const MAX_DEPTH: usize = 200;

// How many values a value may be made of: itself and those inside it. One behind a name counts each time that it is named.
const MAX_VALUES: usize = 100_000;

impl<'r, 'a> Resolver<'r, 'a> {
    /// The value of a type.
    pub(crate) fn value(
        &mut self,
        governed: Governed<'r, 'a>,
        written: Written<'r, 'a>,
    ) -> Result<Value<'a>, Fault> {
        self.values_read = 0;
        match self.inner_value(governed, written, MAX_DEPTH) {
            Err(Fault::Refused) if self.values_read > MAX_VALUES => Err(self.refuse(
                written.place(),
                &[b"the value is made of more than 100000 values"],
            )),
            result => result,
        }
    }

    // Counts a value. One too many has no error of its own: its place may be in another definition.
    fn count_value(&mut self) -> Result<(), Fault> {
        self.values_read = self.values_read.saturating_add(1);
        if self.values_read > MAX_VALUES {
            Err(Fault::Refused)
        } else {
            Ok(())
        }
    }

    // A value, with others inside it to this depth at most.
    #[cycle(values)]
    fn inner_value(
        &mut self,
        governed: Governed<'r, 'a>,
        written: Written<'r, 'a>,
        depth: usize,
    ) -> Result<Value<'a>, Fault> {
        self.count_value()?;
        let Some(depth) = depth.checked_sub(1) else {
            return Err(self.refuse_depth(written));
        };
        let base = self.base(governed)?;
        let value = match self.follow(base, written)? {
            Followed::Literal(base, literal) => self.literal(base, literal, depth)?,
            Followed::Number(scope, number) => Value::Integer(self.number(scope, &number)?),
            Followed::Item(name) => Value::Item(name),
        };
        self.require_kind(base, written, &value)?;
        Ok(value)
    }

    // A value that is no name.
    #[cycle(values)]
    fn literal(
        &mut self,
        base: Governed<'r, 'a>,
        written: Written<'r, 'a>,
        depth: usize,
    ) -> Result<Value<'a>, Fault> {
        if is_contents(base) {
            return Err(self.refuse_contents(type_word(&base.definition.kind), written));
        }
        match &written.value.kind {
            ValueKind::List(values) => { self.list_value(base, written, values.as_slice(), depth) }
            ValueKind::Alternative(name, value) => {
                let scope = written.scope;
                if self.is_open(base)? {
                    self.open_value(base, *name, Written { scope, value }, depth)
                } else {
                    self.alternative_value(base, scope, *name, value, depth)
                }
            }
            _ => self.plain_literal(base, written),
        }
    }

    // A value in braces.
    #[cycle(values)]
    fn list_value(
        &mut self,
        base: Governed<'r, 'a>,
        written: Written<'r, 'a>,
        values: &'r [ListItem],
        depth: usize,
    ) -> Result<Value<'a>, Fault> {
        let scope = written.scope;
        match &base.definition.kind {
            TypeKind::Sequence(items) => {
                let items = Items::new(base.scope, items.as_slice(), Construct::Sequence);
                self.components_value(items, written, values, depth)
            }
            TypeKind::Set(items) => {
                let items = Items::new(base.scope, items.as_slice(), Construct::Set);
                self.components_value(items, written, values, depth)
            }
            TypeKind::SequenceOf(_, element) => {
                self.elements_value(base.scope, element, scope, values, depth)
            }
            TypeKind::SetOf(_, element) => {
                self.elements_value(base.scope, element, scope, values, depth)
            }
            TypeKind::ObjectIdentifier => { self.identifier_value(base, written, values, depth) }
            TypeKind::BitString(bits) => {
                self.bits_value(base.scope, bits.as_slice(), written, values)
            }
            TypeKind::String(_) => self.characters_value(base, written, values, depth),
            _ => {
                if self.is_identifier(base)? {
                    self.identifier_value(base, written, values, depth)
                } else {
                    Err(self.refuse_kind(base, written))
                }
            }
        }
    }

    // A string in braces: a character by its numbers, or strings and characters one after another (X.680, 41.8).
    #[cycle(values)]
    fn characters_value(
        &mut self,
        base: Governed<'r, 'a>,
        written: Written<'r, 'a>,
        values: &'r [ListItem],
        depth: usize,
    ) -> Result<Value<'a>, Fault> {
        if let Some(code) = self.code_of(written.scope, values)? {
            return self.character_value(written, code);
        }
        let mut text = Vec::new(self.alloc);
        for item in values {
            let part = self.single_value(written.scope, item)?;
            match self.inner_value(base, part, depth)? {
                Value::Text(characters) => text.extend_from_slice(characters.as_slice())?,
                _ => return Err(self.refuse_kind(base, part)),
            }
        }
        Ok(Value::Text(text))
    }

    // The components of a value.
    #[cycle(values)]
    fn components_value(
        &mut self,
        items: Items<'r, 'a>,
        written: Written<'r, 'a>,
        values: &'r [ListItem],
        depth: usize,
    ) -> Result<Value<'a>, Fault> {
        let list = self.list_components(items.scope, items.items, items.construct)?;
        let scope = written.scope;
        let mut components = Vec::new(self.alloc);
        for item in values {
            let (listed, value) = self.named_component(&list, scope, item)?;
            self.require_first(
                components.as_slice(),
                scope.place_at(value.start),
                listed.name(),
            )?;
            let value = self.inner_value(listed.governed(), Written { scope, value }, depth)?;
            components.push(ComponentValue {
                name: listed.name(),
                value,
            })?;
        }
        self.require_all(&list, written, values)?;
        Ok(Value::Components(components))
    }

    // The elements of a value.
    #[cycle(values)]
    fn elements_value(
        &mut self,
        element_scope: Scope<'a>,
        element: &'r Type,
        scope: Scope<'a>,
        values: &'r [ListItem],
        depth: usize,
    ) -> Result<Value<'a>, Fault> {
        let governed = Governed {
            scope: element_scope,
            definition: element,
        };
        let mut elements = Vec::new(self.alloc);
        for item in values {
            let written = self.single_value(scope, item)?;
            let value = self.inner_value(governed, written, depth)?;
            elements.push(value)?;
        }
        Ok(Value::Elements(elements))
    }

    // The alternative of a value.
    #[cycle(values)]
    fn alternative_value(
        &mut self,
        base: Governed<'r, 'a>,
        scope: Scope<'a>,
        name: Span,
        value: &'r asn1_notation::Value,
        depth: usize,
    ) -> Result<Value<'a>, Fault> {
        let listed = self.find_alternative(base, scope, name)?;
        let value = self.inner_value(listed.governed(), Written { scope, value }, depth)?;
        let value = Box::new(self.alloc, value)?;
        Ok(Value::Alternative(listed.name(), value))
    }

    // The value of an open type, of the type whose name is in place of that of an alternative.
    #[cycle(values)]
    fn open_value(
        &mut self,
        base: Governed<'r, 'a>,
        name: Span,
        written: Written<'r, 'a>,
        depth: usize,
    ) -> Result<Value<'a>, Fault> {
        let scope = written.scope;
        let value = match type_of_open_value(scope.text, name) {
            Some(reference) => {
                let governed = self.referenced(scope, &reference)?;
                self.inner_value(governed, written, depth)?
            }
            None => self.word_value(base, scope.octets(name), written, depth)?,
        };
        let value = Box::new(self.alloc, value)?;
        Ok(Value::Alternative(scope.octets(name), value))
    }

    // The value of the type of the language with this word.
    #[cycle(values)]
    fn word_value(
        &mut self,
        base: Governed<'r, 'a>,
        word: &[u8],
        written: Written<'r, 'a>,
        depth: usize,
    ) -> Result<Value<'a>, Fault> {
        if is_contents_word(word) {
            return Err(self.refuse_contents(word, written));
        }
        let value = match &written.value.kind {
            ValueKind::Reference(reference) => {
                let (governed, referenced) = self.find_value(written.scope, reference)?;
                self.inner_value(governed, referenced, depth)?
            }
            ValueKind::List(values) => {
                self.identifier_value(base, written, values.as_slice(), depth)?
            }
            _ => self.literal_of_word(word, written)?,
        };
        self.require_word(word, written, &value)?;
        Ok(value)
    }

    // The arcs of an object identifier.
    #[cycle(values)]
    fn identifier_value(
        &mut self,
        base: Governed<'r, 'a>,
        written: Written<'r, 'a>,
        values: &'r [ListItem],
        depth: usize,
    ) -> Result<Value<'a>, Fault> {
        let mut arcs = Vec::new(self.alloc);
        for item in values {
            for value in &item.values {
                let arc = Written {
                    scope: written.scope,
                    value,
                };
                self.add_arc(&mut arcs, base, arc, depth)?;
            }
        }
        Ok(Value::ObjectIdentifier(arcs))
    }

    // Adds an arc, or those of another object identifier.
    #[cycle(values)]
    fn add_arc(
        &mut self,
        arcs: &mut Vec<u32>,
        base: Governed<'r, 'a>,
        written: Written<'r, 'a>,
        depth: usize,
    ) -> Result<(), Fault> {
        match &written.value.kind {
            ValueKind::Reference(reference) => {
                let name = written.scope.octets(reference.name);
                if let Some(number) = standard_arc(arcs.as_slice(), name) {
                    arcs.push(number)?;
                    return Ok(());
                }
                let (governed, referenced) = self.find_value(written.scope, reference)?;
                let value = self.inner_value(governed, referenced, depth)?;
                self.add_referenced(arcs, written, reference.name, value)
            }
            ValueKind::Number(number) => {
                let number = self.number(written.scope, number)?;
                self.push_arc(arcs, written, number)
            }
            ValueKind::Arc(_, number) => {
                let number = self.number_name(written.scope, *number)?;
                self.push_arc(arcs, written, number)
            }
            _ => Err(self.refuse_kind(base, written)),
        }
    }
}

// The items of a SEQUENCE or a SET, with their module.
#[derive(Clone, Copy)]
struct Items<'r, 'a> {
    scope: Scope<'a>,
    items: &'r [ComponentItem],
    construct: Construct,
}

impl<'r, 'a> Items<'r, 'a> {
    fn new(scope: Scope<'a>, items: &'r [ComponentItem], construct: Construct) -> Items<'r, 'a> {
        Items {
            scope,
            items,
            construct,
        }
    }
}
