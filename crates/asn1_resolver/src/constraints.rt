//! Constraints.
use crate::fault::Fault;
use crate::governed::Governed;
use crate::resolver::Resolver;
use asn1_notation::TypeKind;
use asn1_resolved::{Constraint, ConstraintKind, Range};

impl<'r, 'a> Resolver<'r, 'a> {
    /// The constraints of a type.
    pub(crate) fn constraints(
        &mut self,
        governed: Governed<'r, 'a>,
    ) -> Result<Vec<Constraint>, Fault> {
        let mut constraints = Vec::new(self.alloc);
        if governed.definition.constraints.is_empty() {
            return Ok(constraints);
        }
        let base = self.base(governed)?;
        for constraint in &governed.definition.constraints {
            let bounded = Bounded {
                base,
                of: governed,
                is_extensible: false,
            };
            self.add_constraint(&mut constraints, bounded, constraint)?;
        }
        Ok(constraints)
    }

    // Adds a constraint: each part of an intersection by itself. One with an extension marker makes the others extensible, too.
    fn add_constraint(
        &mut self,
        constraints: &mut Vec<Constraint>,
        bounded: Bounded<'r, 'a>,
        constraint: &'r asn1_notation::Constraint,
    ) -> Result<(), Fault> {
        match &constraint.kind {
            asn1_notation::ConstraintKind::Intersection(parts) => {
                let bounded = if has_marker(constraint) {
                    bounded.with_marker()
                } else {
                    bounded
                };
                for part in parts {
                    self.add_constraint(constraints, bounded, part)?;
                }
                Ok(())
            }
            asn1_notation::ConstraintKind::Extensible(root, _) => {
                self.add_constraint(constraints, bounded.with_marker(), root)
            }
            asn1_notation::ConstraintKind::Table(set, paths) => {
                let scope = bounded.of.scope;
                let key = self.key_of_relation(scope, paths.as_slice())?;
                self.keep_set(scope, *set, key)
            }
            _ => {
                let resolved = self.constraint(bounded, constraint)?;
                constraints.push(resolved)?;
                Ok(())
            }
        }
    }

    // A constraint that is no intersection. One that is in error is one that no type can carry.
    fn constraint(
        &mut self,
        bounded: Bounded<'r, 'a>,
        constraint: &'r asn1_notation::Constraint,
    ) -> Result<Constraint, Fault> {
        let inner = inner_root(constraint);
        let kind = match self.constraint_kind(bounded, constraint, inner.root) {
            Ok(kind) => kind,
            Err(Fault::Refused) => ConstraintKind::Other,
            Err(Fault::Memory) => return Err(Fault::Memory),
        };
        Ok(Constraint {
            place: bounded.of.scope.place_at(constraint.start),
            kind,
            is_extensible: bounded.is_extensible || inner.is_extensible,
        })
    }

    // A constraint without its extension marker.
    fn constraint_kind(
        &mut self,
        bounded: Bounded<'r, 'a>,
        constraint: &'r asn1_notation::Constraint,
        inner: &'r asn1_notation::Constraint,
    ) -> Result<ConstraintKind, Fault> {
        let scope = bounded.of.scope;
        let kind = &bounded.base.definition.kind;
        match &constraint.kind {
            asn1_notation::ConstraintKind::Size(_) if !has_size(kind) => Err(self.refuse(
                scope.place_at(constraint.start),
                &[b"SIZE is of a string, a SEQUENCE OF or a SET OF, and not of this type"],
            )),
            asn1_notation::ConstraintKind::From(_) if !has_alphabet(kind) => Err(self.refuse(
                scope.place_at(constraint.start),
                &[b"FROM is of a string of characters, and not of this type"],
            )),
            asn1_notation::ConstraintKind::Size(_) => {
                let range = self.range(None, scope, inner)?;
                Ok(size_of_range(range))
            }
            asn1_notation::ConstraintKind::From(_) => self.alphabet(bounded.base, scope, inner),
            _ => match kind {
                TypeKind::Integer(_) => {
                    let range = self.range(Some(bounded.base), scope, inner)?;
                    Ok(value_of_range(range))
                }
                _ => Ok(ConstraintKind::Other),
            },
        }
    }
}

// Whether SIZE may limit a type (X.680, 51.5.2).
fn has_size(kind: &TypeKind) -> bool {
    match kind {
        TypeKind::BitString(_) | TypeKind::OctetString => true,
        TypeKind::SequenceOf(_, _) | TypeKind::SetOf(_, _) => true,
        _ => has_alphabet(kind),
    }
}

// Whether FROM may limit a type (X.680, 51.7.1).
fn has_alphabet(kind: &TypeKind) -> bool {
    matches!(kind, TypeKind::String(_))
}

// A type whose constraints are resolved.
#[derive(Clone, Copy)]
struct Bounded<'r, 'a> {
    // The type behind references and tags.
    base: Governed<'r, 'a>,
    // The type with the constraints.
    of: Governed<'r, 'a>,
    // Whether an extension marker was passed.
    is_extensible: bool,
}

impl<'r, 'a> Bounded<'r, 'a> {
    // The same, behind an extension marker.
    fn with_marker(self) -> Bounded<'r, 'a> {
        Bounded {
            base: self.base,
            of: self.of,
            is_extensible: true,
        }
    }
}

// The root of the constraint inside SIZE or FROM, or of another constraint itself.
#[derive(Clone, Copy)]
struct InnerRoot<'a> {
    root: &'a asn1_notation::Constraint,
    is_extensible: bool,
}

// The constraint that has the values, without its extension marker.
fn inner_root(constraint: &asn1_notation::Constraint) -> InnerRoot<'_> {
    match &constraint.kind {
        asn1_notation::ConstraintKind::Size(inner) => without_marker(inner),
        asn1_notation::ConstraintKind::From(inner) => without_marker(inner),
        _ => without_marker(constraint),
    }
}

// A constraint without its extension marker.
fn without_marker(constraint: &asn1_notation::Constraint) -> InnerRoot<'_> {
    match &constraint.kind {
        asn1_notation::ConstraintKind::Extensible(root, _) => InnerRoot {
            root,
            is_extensible: true,
        },
        _ => InnerRoot {
            root: constraint,
            is_extensible: false,
        },
    }
}

// Whether an extension marker is in a constraint, or in a part of an intersection.
fn has_marker(constraint: &asn1_notation::Constraint) -> bool {
    match &constraint.kind {
        asn1_notation::ConstraintKind::Extensible(_, _) => true,
        asn1_notation::ConstraintKind::Size(inner) => has_marker(inner),
        asn1_notation::ConstraintKind::From(inner) => has_marker(inner),
        asn1_notation::ConstraintKind::Intersection(parts) => {
            for part in parts {
                if has_marker(part) {
                    return true;
                }
            }
            false
        }
        _ => false,
    }
}

// The constraint of a size. A size is at least 0.
fn size_of_range(range: Option<Range>) -> ConstraintKind {
    match range {
        Some(range) => ConstraintKind::Size(Range {
            lower: Some(range.lower.unwrap_or(0)),
            upper: range.upper,
        }),
        None => ConstraintKind::Other,
    }
}

// The constraint of values.
fn value_of_range(range: Option<Range>) -> ConstraintKind {
    match range {
        Some(range) => ConstraintKind::Value(range),
        None => ConstraintKind::Other,
    }
}
