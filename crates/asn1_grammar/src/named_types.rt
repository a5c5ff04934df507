//! Types that begin with a name.
ghost use Rattle.asn1_grammar.specs.Nests.{Nests};

use crate::braced::braced;
use crate::classes::{class_type, field_names, sees_bare_class, sees_known_class, type_reference};
use crate::cursor::Cursor;
use crate::error::{Construct, Expected, Fault};
use crate::grammar::Grammar;
use crate::plain_constraints::begins_type;
use crate::plain_types::any;
use crate::values::parse_value;
use asn1_notation::{Argument, Constraint, Reference, Type, TypeKind};
use asn1_tokens::TokenKind;

/// Whether a type is next that begins with the name of a type or a class.
pub(crate) fn sees_named_type(cursor: &Cursor<'_>) -> bool {
    cursor.sees_kind_after(0, TokenKind::TypeReference) || sees_known_class(cursor)
}

/// Whether the type of an alternative is next.
pub(crate) fn sees_selection(cursor: &Cursor<'_>) -> bool {
    cursor.sees_kind_after(0, TokenKind::Identifier)
        && cursor.sees_after(1, TokenKind::Symbol, b"<")
}

/// Whether the type in a field of an object is next, `object.&Type`.
pub(crate) fn sees_type_of_object(cursor: &Cursor<'_>) -> bool {
    cursor.sees_kind_after(0, TokenKind::Identifier)
        && cursor.sees_after(1, TokenKind::Symbol, b".")
        && cursor.sees_after(2, TokenKind::Symbol, b"&")
}

/// Reads the type in a field of an object (X.681, 15).
pub(crate) fn type_of_object(cursor: &mut Cursor<'_>) -> Result<TypeKind, Fault> {
    let name = cursor.identifier(Expected::ObjectName)?;
    cursor.skip();
    let names = field_names(cursor)?;
    Ok(TypeKind::Field(Reference { module: None, name }, names))
}

impl<
    T: Fn(&mut Cursor<'_>, usize) -> Result<Type, Fault>,
    C: Fn(&mut Cursor<'_>, usize) -> Result<Constraint, Fault>,
> Grammar<T, C> {
    /// Reads a type that begins with a name: a reference, one with arguments, the field of a class, or ANY of 1988.
    pub(crate) fn named_type(&self, cursor: &mut Cursor<'_>) -> Result<TypeKind, Fault>
        requires { Nests self.now.depth (T.pre self.now.types) (C.pre self.now.constraints) }
    {
        if cursor.sees_after(0, TokenKind::TypeReference, b"ANY") {
            return any(cursor);
        }
        let is_known_class = sees_known_class(cursor);
        let reference = type_reference(cursor)?;
        if cursor.sees_symbol(b".") {
            cursor.skip();
            let names = field_names(cursor)?;
            return Ok(TypeKind::Field(reference, names));
        }
        if is_known_class {
            return Err(cursor.not_taken(Construct::Class));
        }
        if !cursor.accept_symbol(b"{") {
            return Ok(TypeKind::Reference(reference));
        }
        let arguments = self.arguments(cursor)?;
        Ok(TypeKind::Instance(reference, arguments))
    }

    /// Reads the type of an alternative.
    pub(crate) fn selection(&self, cursor: &mut Cursor<'_>) -> Result<TypeKind, Fault>
        requires { Nests self.now.depth (T.pre self.now.types) (C.pre self.now.constraints) }
    {
        let name = cursor.identifier(Expected::AlternativeName)?;
        cursor.skip();
        let inner = self.boxed_type(cursor)?;
        Ok(TypeKind::Selection(name, inner))
    }

    // Reads arguments, of which the brace that opens them was read.
    fn arguments(&self, cursor: &mut Cursor<'_>) -> Result<Vec<Argument>, Fault>
        requires { Nests self.now.depth (T.pre self.now.types) (C.pre self.now.constraints) }
    {
        let mut arguments = Vec::new(cursor.alloc());
        for _ in 0..cursor.len() {
            let argument = self.argument(cursor)?;
            arguments.push(argument)?;
            if cursor.accept_symbol(b"}") {
                return Ok(arguments);
            }
            cursor.expect_symbol(b",", Expected::CloseBraceOrComma)?;
        }
        Err(cursor.expected(Expected::CloseBrace))
    }

    // Reads an argument.
    fn argument(&self, cursor: &mut Cursor<'_>) -> Result<Argument, Fault>
        requires { Nests self.now.depth (T.pre self.now.types) (C.pre self.now.constraints) }
    {
        if cursor.sees_symbol(b"{") {
            let span = braced(cursor)?;
            return Ok(Argument::Braced(span));
        }
        if sees_bare_class(cursor) {
            let class = class_type(cursor)?;
            return Ok(Argument::Type(class));
        }
        if begins_type(cursor) || cursor.sees_word(b"NULL") || sees_selection(cursor) {
            let definition = (self.types)(cursor, self.depth)?;
            return Ok(Argument::Type(definition));
        }
        let value = parse_value(cursor, self.depth)?;
        Ok(Argument::Value(value))
    }
}
