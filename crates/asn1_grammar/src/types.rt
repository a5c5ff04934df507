//! Types that hold others.
ghost use Rattle.asn1_grammar.specs.Nests.{Nests};

use crate::cursor::Cursor;
use crate::error::{Expected, Fault};
use crate::grammar::Grammar;
use crate::named_types::{sees_named_type, sees_selection, sees_type_of_object, type_of_object};
use crate::plain_types::{optional_identifier, plain_type, tag};
use asn1_notation::{Constraint, Type, TypeKind};
use asn1_tokens::TokenKind;

impl<
    T: Fn(&mut Cursor<'_>, usize) -> Result<Type, Fault>,
    C: Fn(&mut Cursor<'_>, usize) -> Result<Constraint, Fault>,
> Grammar<T, C> {
    /// Reads a type.
    pub(crate) fn read_type(&self, cursor: &mut Cursor<'_>) -> Result<Type, Fault>
        requires { Nests self.now.depth (T.pre self.now.types) (C.pre self.now.constraints) }
    {
        let start = cursor.start();
        if cursor.accept_symbol(b"[") {
            return self.tagged(cursor, start);
        }
        if cursor.accept_word(b"SEQUENCE") {
            return self.collection(cursor, start, false);
        }
        if cursor.accept_word(b"SET") {
            return self.collection(cursor, start, true);
        }
        let kind = if cursor.accept_word(b"CHOICE") {
            cursor.expect_symbol(b"{", Expected::OpenBrace)?;
            TypeKind::Choice(self.component_items(cursor, true)?)
        } else if sees_named_type(cursor) {
            self.named_type(cursor)?
        } else if sees_selection(cursor) {
            self.selection(cursor)?
        } else if sees_type_of_object(cursor) {
            type_of_object(cursor)?
        } else {
            plain_type(cursor)?
        };
        let constraints = self.constraints(cursor)?;
        Ok(Type {
            start,
            kind,
            constraints,
        })
    }

    // Reads the rest of a type under a tag.
    fn tagged(&self, cursor: &mut Cursor<'_>, start: usize) -> Result<Type, Fault>
        requires { Nests self.now.depth (T.pre self.now.types) (C.pre self.now.constraints) }
    {
        let tag = tag(cursor)?;
        let inner = self.boxed_type(cursor)?;
        Ok(Type {
            start,
            kind: TypeKind::Tagged(tag, inner),
            constraints: Vec::new(cursor.alloc()),
        })
    }

    /// Reads a type into a box.
    pub(crate) fn boxed_type(&self, cursor: &mut Cursor<'_>) -> Result<Box<Type>, Fault>
        requires { Nests self.now.depth (T.pre self.now.types) (C.pre self.now.constraints) }
    {
        let inner = (self.types)(cursor, self.depth)?;
        let boxed = Box::new(cursor.alloc(), inner)?;
        Ok(boxed)
    }

    // Reads what follows SEQUENCE or SET.
    fn collection(&self, cursor: &mut Cursor<'_>, start: usize, is_set: bool) -> Result<Type, Fault>
        requires { Nests self.now.depth (T.pre self.now.types) (C.pre self.now.constraints) }
    {
        if !cursor.accept_symbol(b"{") {
            return self.collection_of(cursor, start, is_set);
        }
        let items = self.component_items(cursor, false)?;
        let kind = if is_set {
            TypeKind::Set(items)
        } else {
            TypeKind::Sequence(items)
        };
        let constraints = self.constraints(cursor)?;
        Ok(Type {
            start,
            kind,
            constraints,
        })
    }

    // Reads what follows SEQUENCE or SET of a SEQUENCE OF or SET OF.
    fn collection_of(
        &self,
        cursor: &mut Cursor<'_>,
        start: usize,
        is_set: bool,
    ) -> Result<Type, Fault>
        requires { Nests self.now.depth (T.pre self.now.types) (C.pre self.now.constraints) }
    {
        if cursor.sees_symbol(b"(") && cursor.sees_kind_after(1, TokenKind::Identifier) {
            return Err(cursor.expected(Expected::OpenBraceOrOf));
        }
        let constraints = self.collection_constraint(cursor)?;
        cursor.expect_word(b"OF", Expected::OpenBraceOrOf)?;
        let name = optional_identifier(cursor)?;
        let element = self.boxed_type(cursor)?;
        let kind = if is_set {
            TypeKind::SetOf(name, element)
        } else {
            TypeKind::SequenceOf(name, element)
        };
        Ok(Type {
            start,
            kind,
            constraints,
        })
    }

    // Reads the constraint of a SEQUENCE OF or SET OF: in parentheses, or SIZE without them.
    fn collection_constraint(&self, cursor: &mut Cursor<'_>) -> Result<Vec<Constraint>, Fault>
        requires { Nests self.now.depth (T.pre self.now.types) (C.pre self.now.constraints) }
    {
        if !cursor.sees_word(b"SIZE") {
            return self.constraints(cursor);
        }
        let size = self.element(cursor)?;
        let mut constraints = Vec::new(cursor.alloc());
        constraints.push(size)?;
        Ok(constraints)
    }
}
