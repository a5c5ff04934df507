//! Values behind names.
use crate::fault::Fault;
use crate::governed::{Governed, Scope, Written};
use crate::items::{Item, item_of};
use crate::resolver::Resolver;
use crate::values::MAX_DEPTH;
use asn1_notation::{Number, NumberName, Span, TypeKind, ValueKind};

/// A value that is no name of another.
#[derive(Clone, Copy)]
pub(crate) enum Followed<'r, 'a> {
    /// A value of a type that is no reference and has no tag.
    Literal(Governed<'r, 'a>, Written<'r, 'a>),
    /// The number of a named number, with its module.
    Number(Scope<'a>, Number),
    /// The name of an item.
    Item(&'a [u8]),
}

impl<'r, 'a> Resolver<'r, 'a> {
    /// The value behind names. The type is no reference and has no tag.
    pub(crate) fn follow(
        &mut self,
        base: Governed<'r, 'a>,
        written: Written<'r, 'a>,
    ) -> Result<Followed<'r, 'a>, Fault> {
        let mut governing = base;
        let mut current = written;
        for _ in 0..MAX_DEPTH {
            let reference = match &current.value.kind {
                ValueKind::Reference(reference) => reference,
                ValueKind::Field(object, names) => {
                    let (governed, next) = self.field_value(current.scope, object, names)?;
                    governing = self.base(governed)?;
                    current = next;
                    continue;
                }
                _ => return Ok(Followed::Literal(governing, current)),
            };
            let (governed, next) = match item_of(governing, current.scope, *reference) {
                Some(Item::Name(name)) => return Ok(Followed::Item(name)),
                Some(Item::Number(NumberName::Number(number))) => {
                    return Ok(Followed::Number(governing.scope, number));
                }
                Some(Item::Number(NumberName::Reference(number))) => {
                    self.find_value(governing.scope, &number)?
                }
                None => self.find_value_of(governing, current.scope, reference)?,
            };
            governing = self.base(governed)?;
            current = next;
        }
        Err(self.refuse_depth(written))
    }

    /// The whole number that is written, or the value of a name.
    pub(crate) fn number_name(
        &mut self,
        scope: Scope<'a>,
        number: NumberName,
    ) -> Result<i128, Fault> {
        let reference = match number {
            NumberName::Number(number) => return self.number(scope, &number),
            NumberName::Reference(reference) => reference,
        };
        let (governed, written) = self.find_value(scope, &reference)?;
        self.followed_number(governed, written, scope, reference.name)
    }

    /// The whole number that a value is, behind this name.
    pub(crate) fn followed_number(
        &mut self,
        governed: Governed<'r, 'a>,
        written: Written<'r, 'a>,
        scope: Scope<'a>,
        name: Span,
    ) -> Result<i128, Fault> {
        let base = self.base(governed)?;
        match self.follow(base, written)? {
            Followed::Literal(base, literal) => self.literal_number(base, literal, scope, name),
            Followed::Number(scope, number) => self.number(scope, &number),
            Followed::Item(_) => Err(self.refuse_no_number(scope, name)),
        }
    }

    // The whole number that a literal is, behind this name.
    fn literal_number(
        &mut self,
        base: Governed<'r, 'a>,
        literal: Written<'r, 'a>,
        scope: Scope<'a>,
        name: Span,
    ) -> Result<i128, Fault> {
        match (&base.definition.kind, &literal.value.kind) {
            (TypeKind::Integer(_), ValueKind::Number(number)) => {
                self.number(literal.scope, number)
            }
            (TypeKind::Integer(_), _) => Err(self.refuse_kind(base, literal)),
            _ => Err(self.refuse_no_number(scope, name)),
        }
    }
}
