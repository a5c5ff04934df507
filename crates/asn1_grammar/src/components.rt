//! Components and alternatives.
ghost use Rattle.asn1_grammar.specs.Nests.{Nests};

use crate::cursor::Cursor;
use crate::error::{Expected, Fault, Owner};
use crate::grammar::Grammar;
use crate::parsed::MAX_DEPTH;
use crate::plain_constraints::begins_type;
use crate::values::parse_value;
use asn1_notation::{Component, ComponentItem, Constraint, Type, Usage};
use asn1_tokens::TokenKind;

impl<
    T: Fn(&mut Cursor<'_>, usize) -> Result<Type, Fault>,
    C: Fn(&mut Cursor<'_>, usize) -> Result<Constraint, Fault>,
> Grammar<T, C> {
    /// Reads the items of a SEQUENCE, a SET or a CHOICE, of which the brace that opens it was read.
    pub(crate) fn component_items(
        &self,
        cursor: &mut Cursor<'_>,
        is_choice: bool,
    ) -> Result<Vec<ComponentItem>, Fault>
        requires { Nests self.now.depth (T.pre self.now.types) (C.pre self.now.constraints) }
    {
        let mut items = Vec::new(cursor.alloc());
        if !is_choice && cursor.accept_symbol(b"}") {
            return Ok(items);
        }
        for _ in 0..cursor.len() {
            let item = self.component_item(cursor, is_choice)?;
            let fault = after_component(cursor, &item, Expected::CloseBraceOrComma);
            items.push(item)?;
            if cursor.accept_symbol(b"}") {
                return Ok(items);
            }
            if !cursor.accept_symbol(b",") {
                return Err(fault);
            }
        }
        Err(cursor.expected(Expected::CloseBrace))
    }

    // Reads an item of a SEQUENCE, a SET or a CHOICE.
    fn component_item(
        &self,
        cursor: &mut Cursor<'_>,
        is_choice: bool,
    ) -> Result<ComponentItem, Fault>
        requires { Nests self.now.depth (T.pre self.now.types) (C.pre self.now.constraints) }
    {
        let start = cursor.start();
        if cursor.accept_symbol(b"...") {
            skip_exception(cursor)?;
            return Ok(ComponentItem::Marker(start));
        }
        if cursor.accept_symbol(b"[[") {
            return self.group(cursor, is_choice, start);
        }
        self.listed_component(cursor, is_choice)
    }

    // Reads additions, of which the version brackets that open them were read.
    fn group(
        &self,
        cursor: &mut Cursor<'_>,
        is_choice: bool,
        start: usize,
    ) -> Result<ComponentItem, Fault>
        requires { Nests self.now.depth (T.pre self.now.types) (C.pre self.now.constraints) }
    {
        let version = if cursor.sees_kind_after(0, TokenKind::Number) {
            let number = cursor.number(Expected::Number)?;
            cursor.expect_symbol(b":", Expected::Colon)?;
            Some(number)
        } else {
            None
        };
        let mut items = Vec::new(cursor.alloc());
        for _ in 0..cursor.len() {
            let item = self.listed_component(cursor, is_choice)?;
            let fault = after_component(cursor, &item, Expected::CloseVersionOrComma);
            items.push(item)?;
            if cursor.accept_symbol(b"]]") {
                return Ok(ComponentItem::Group(start, version, items));
            }
            if !cursor.accept_symbol(b",") {
                return Err(fault);
            }
        }
        Err(cursor.expected(Expected::CloseVersion))
    }

    // Reads a component, an alternative, or COMPONENTS OF.
    fn listed_component(
        &self,
        cursor: &mut Cursor<'_>,
        is_choice: bool,
    ) -> Result<ComponentItem, Fault>
        requires { Nests self.now.depth (T.pre self.now.types) (C.pre self.now.constraints) }
    {
        let start = cursor.start();
        if !is_choice && cursor.accept_word(b"COMPONENTS") {
            cursor.expect_word(b"OF", Expected::Of)?;
            let inner = self.boxed_type(cursor)?;
            return Ok(ComponentItem::ComponentsOf(start, inner));
        }
        let name = cursor.identifier(if is_choice {
            Expected::AlternativeName
        } else {
            Expected::ComponentName
        })?;
        let definition = (self.types)(cursor, self.depth)?;
        let usage = if is_choice {
            Usage::Required
        } else {
            usage(cursor, self.depth)?
        };
        Ok(ComponentItem::Component(Component {
            name,
            definition,
            usage,
        }))
    }
}

// The fault that an item is not followed as it should be.
fn after_component(cursor: &Cursor<'_>, item: &ComponentItem, expected: Expected) -> Fault {
    match item {
        ComponentItem::Component(component) => {
            cursor.expected_after(expected, Owner::Component, component.name)
        }
        _ => cursor.expected(expected),
    }
}

// Reads OPTIONAL or DEFAULT with its value, if one of them is next.
fn usage(cursor: &mut Cursor<'_>, depth: usize) -> Result<Usage, Fault> {
    if cursor.accept_word(b"OPTIONAL") {
        Ok(Usage::Optional)
    } else if cursor.accept_word(b"DEFAULT") {
        let value = parse_value(cursor, depth)?;
        Ok(Usage::Default(value))
    } else {
        Ok(Usage::Required)
    }
}

/// Skips the exception that may follow an extension marker or a constraint: it says what a receiver does with what it does not
/// know (X.680, 53.4).
pub(crate) fn skip_exception(cursor: &mut Cursor<'_>) -> Result<(), Fault> {
    if !cursor.accept_symbol(b"!") {
        return Ok(());
    }
    if begins_type(cursor) {
        skip_to_colon(cursor);
        cursor.expect_symbol(b":", Expected::Colon)?;
        let _ = parse_value(cursor, MAX_DEPTH)?;
    } else {
        let _ = cursor.number_name(Expected::Number)?;
    }
    Ok(())
}

// Skips the type of an exception.
fn skip_to_colon(cursor: &mut Cursor<'_>) {
    for _ in 0..cursor.len() {
        if cursor.sees_symbol(b":") {
            return;
        }
        cursor.skip();
    }
}
