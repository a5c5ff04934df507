//! Constraints.
ghost use Rattle.asn1_grammar.specs.Nests.{Nests};

use crate::components::skip_exception;
use crate::cursor::Cursor;
use crate::error::{Expected, Fault, Owner};
use crate::grammar::Grammar;
use crate::plain_constraints::{
    accept_intersection, accept_union, begins_type, encoded_by, presence, value_or_range,
};
use crate::tables::{constrained_by, sees_table, table};
use crate::values::parse_value;
use asn1_notation::{Constraint, ConstraintKind, Member, Type};

impl<
    T: Fn(&mut Cursor<'_>, usize) -> Result<Type, Fault>,
    C: Fn(&mut Cursor<'_>, usize) -> Result<Constraint, Fault>,
> Grammar<T, C> {
    /// Reads the constraints behind a type.
    pub(crate) fn constraints(&self, cursor: &mut Cursor<'_>) -> Result<Vec<Constraint>, Fault>
        requires { Nests self.now.depth (T.pre self.now.types) (C.pre self.now.constraints) }
    {
        let mut constraints = Vec::new(cursor.alloc());
        for _ in 0..cursor.len() {
            if !cursor.sees_symbol(b"(") {
                return Ok(constraints);
            }
            let constraint = (self.constraints)(cursor, self.depth)?;
            constraints.push(constraint)?;
        }
        Ok(constraints)
    }

    /// Reads a constraint in parentheses.
    pub(crate) fn read_constraint(&self, cursor: &mut Cursor<'_>) -> Result<Constraint, Fault>
        requires { Nests self.now.depth (T.pre self.now.types) (C.pre self.now.constraints) }
    {
        cursor.expect_symbol(b"(", Expected::OpenParenthesis)?;
        let constraint = self.extensible(cursor)?;
        skip_exception(cursor)?;
        cursor.expect_symbol(b")", Expected::CloseParenthesis)?;
        Ok(constraint)
    }

    /// Reads a set of values in braces (X.680, 16.7).
    pub(crate) fn read_set(&self, cursor: &mut Cursor<'_>) -> Result<Constraint, Fault>
        requires { Nests self.now.depth (T.pre self.now.types) (C.pre self.now.constraints) }
    {
        cursor.expect_symbol(b"{", Expected::OpenBrace)?;
        let constraint = self.extensible(cursor)?;
        cursor.expect_symbol(b"}", Expected::CloseBrace)?;
        Ok(constraint)
    }

    // Reads a constraint, with an extension marker or without.
    fn extensible(&self, cursor: &mut Cursor<'_>) -> Result<Constraint, Fault>
        requires { Nests self.now.depth (T.pre self.now.types) (C.pre self.now.constraints) }
    {
        let root = self.union(cursor)?;
        if !cursor.accept_symbol(b",") {
            return Ok(root);
        }
        cursor.expect_symbol(b"...", Expected::Ellipsis)?;
        let additions = if cursor.accept_symbol(b",") {
            Some(self.boxed_union(cursor)?)
        } else {
            None
        };
        let start = root.start;
        let root = Box::new(cursor.alloc(), root)?;
        Ok(Constraint {
            start,
            kind: ConstraintKind::Extensible(root, additions),
        })
    }

    // Reads a union into a box.
    fn boxed_union(&self, cursor: &mut Cursor<'_>) -> Result<Box<Constraint>, Fault>
        requires { Nests self.now.depth (T.pre self.now.types) (C.pre self.now.constraints) }
    {
        let constraint = self.union(cursor)?;
        let boxed = Box::new(cursor.alloc(), constraint)?;
        Ok(boxed)
    }

    // Reads a union, or its one part.
    fn union(&self, cursor: &mut Cursor<'_>) -> Result<Constraint, Fault>
        requires { Nests self.now.depth (T.pre self.now.types) (C.pre self.now.constraints) }
    {
        let first = self.intersection(cursor)?;
        if !accept_union(cursor) {
            return Ok(first);
        }
        let start = first.start;
        let mut parts = Vec::new(cursor.alloc());
        parts.push(first)?;
        for _ in 0..cursor.len() {
            let part = self.intersection(cursor)?;
            parts.push(part)?;
            if !accept_union(cursor) {
                break;
            }
        }
        Ok(Constraint {
            start,
            kind: ConstraintKind::Union(parts),
        })
    }

    // Reads an intersection, or its one part.
    fn intersection(&self, cursor: &mut Cursor<'_>) -> Result<Constraint, Fault>
        requires { Nests self.now.depth (T.pre self.now.types) (C.pre self.now.constraints) }
    {
        let first = self.difference(cursor)?;
        if !accept_intersection(cursor) {
            return Ok(first);
        }
        let start = first.start;
        let mut parts = Vec::new(cursor.alloc());
        parts.push(first)?;
        for _ in 0..cursor.len() {
            let part = self.difference(cursor)?;
            parts.push(part)?;
            if !accept_intersection(cursor) {
                break;
            }
        }
        Ok(Constraint {
            start,
            kind: ConstraintKind::Intersection(parts),
        })
    }

    // Reads a part of an intersection: with EXCEPT and what it leaves out, or without.
    fn difference(&self, cursor: &mut Cursor<'_>) -> Result<Constraint, Fault>
        requires { Nests self.now.depth (T.pre self.now.types) (C.pre self.now.constraints) }
    {
        let start = cursor.start();
        if cursor.accept_word(b"ALL") {
            cursor.expect_word(b"EXCEPT", Expected::Except)?;
            let left_out = self.boxed_element(cursor)?;
            return Ok(Constraint {
                start,
                kind: ConstraintKind::AllExcept(left_out),
            });
        }
        let first = self.element(cursor)?;
        if !cursor.accept_word(b"EXCEPT") {
            return Ok(first);
        }
        let first = Box::new(cursor.alloc(), first)?;
        let left_out = self.boxed_element(cursor)?;
        Ok(Constraint {
            start,
            kind: ConstraintKind::Except(first, left_out),
        })
    }

    // Reads an element into a box.
    fn boxed_element(&self, cursor: &mut Cursor<'_>) -> Result<Box<Constraint>, Fault>
        requires { Nests self.now.depth (T.pre self.now.types) (C.pre self.now.constraints) }
    {
        let constraint = self.element(cursor)?;
        let boxed = Box::new(cursor.alloc(), constraint)?;
        Ok(boxed)
    }

    // Reads a constraint in parentheses into a box.
    fn boxed_constraint(&self, cursor: &mut Cursor<'_>) -> Result<Box<Constraint>, Fault>
        requires { Nests self.now.depth (T.pre self.now.types) (C.pre self.now.constraints) }
    {
        let constraint = (self.constraints)(cursor, self.depth)?;
        let boxed = Box::new(cursor.alloc(), constraint)?;
        Ok(boxed)
    }

    /// Reads a constraint that no operator joins to others.
    pub(crate) fn element(&self, cursor: &mut Cursor<'_>) -> Result<Constraint, Fault>
        requires { Nests self.now.depth (T.pre self.now.types) (C.pre self.now.constraints) }
    {
        let start = cursor.start();
        if cursor.sees_symbol(b"(") {
            return (self.constraints)(cursor, self.depth);
        }
        let kind = if cursor.accept_word(b"SIZE") {
            ConstraintKind::Size(self.boxed_constraint(cursor)?)
        } else if cursor.accept_word(b"FROM") {
            ConstraintKind::From(self.boxed_constraint(cursor)?)
        } else if cursor.accept_word(b"WITH") {
            self.with_components(cursor)?
        } else if cursor.accept_word(b"CONTAINING") {
            self.containing(cursor)?
        } else {
            self.plain_element(cursor)?
        };
        Ok(Constraint { start, kind })
    }

    // Reads a constraint by a value, a range, a type or a pattern.
    fn plain_element(&self, cursor: &mut Cursor<'_>) -> Result<ConstraintKind, Fault>
        requires { Nests self.now.depth (T.pre self.now.types) (C.pre self.now.constraints) }
    {
        if cursor.accept_word(b"CONSTRAINED") {
            return constrained_by(cursor);
        }
        if sees_table(cursor) {
            return table(cursor);
        }
        if cursor.accept_word(b"PATTERN") {
            let pattern = parse_value(cursor, self.depth)?;
            return Ok(ConstraintKind::Pattern(pattern));
        }
        if cursor.accept_word(b"ENCODED") {
            let rules = encoded_by(cursor, self.depth)?;
            return Ok(ConstraintKind::EncodedBy(rules));
        }
        if begins_type(cursor) {
            let _ = cursor.accept_word(b"INCLUDES");
            return Ok(ConstraintKind::Included(self.boxed_type(cursor)?));
        }
        value_or_range(cursor, self.depth)
    }

    // Reads what follows CONTAINING.
    fn containing(&self, cursor: &mut Cursor<'_>) -> Result<ConstraintKind, Fault>
        requires { Nests self.now.depth (T.pre self.now.types) (C.pre self.now.constraints) }
    {
        let inner = self.boxed_type(cursor)?;
        let rules = if cursor.accept_word(b"ENCODED") {
            Some(encoded_by(cursor, self.depth)?)
        } else {
            None
        };
        Ok(ConstraintKind::Containing(inner, rules))
    }

    // Reads what follows WITH.
    fn with_components(&self, cursor: &mut Cursor<'_>) -> Result<ConstraintKind, Fault>
        requires { Nests self.now.depth (T.pre self.now.types) (C.pre self.now.constraints) }
    {
        if cursor.accept_word(b"COMPONENT") {
            return Ok(ConstraintKind::WithComponent(self.boxed_constraint(cursor)?));
        }
        cursor.expect_word(b"COMPONENTS", Expected::Components)?;
        cursor.expect_symbol(b"{", Expected::OpenBrace)?;
        let is_partial = cursor.accept_symbol(b"...");
        if is_partial {
            cursor.expect_symbol(b",", Expected::Comma)?;
        }
        let members = self.members(cursor)?;
        Ok(ConstraintKind::WithComponents(is_partial, members))
    }

    // Reads the components of WITH COMPONENTS.
    fn members(&self, cursor: &mut Cursor<'_>) -> Result<Vec<Member>, Fault>
        requires { Nests self.now.depth (T.pre self.now.types) (C.pre self.now.constraints) }
    {
        let mut members = Vec::new(cursor.alloc());
        for _ in 0..cursor.len() {
            let member = self.member(cursor)?;
            let name = member.name;
            members.push(member)?;
            if cursor.accept_symbol(b"}") {
                return Ok(members);
            }
            if !cursor.accept_symbol(b",") {
                return Err(cursor.expected_after(
                    Expected::CloseBraceOrComma,
                    Owner::Component,
                    name,
                ));
            }
        }
        Err(cursor.expected(Expected::CloseBrace))
    }

    // Reads a component of WITH COMPONENTS.
    fn member(&self, cursor: &mut Cursor<'_>) -> Result<Member, Fault>
        requires { Nests self.now.depth (T.pre self.now.types) (C.pre self.now.constraints) }
    {
        let name = cursor.identifier(Expected::ComponentName)?;
        let constraint = if cursor.sees_symbol(b"(") {
            Some(self.boxed_constraint(cursor)?)
        } else {
            None
        };
        let presence = presence(cursor);
        Ok(Member {
            name,
            constraint,
            presence,
        })
    }
}
