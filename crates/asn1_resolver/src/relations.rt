//! The components that tell the rows of tables (X.682, 10.7).
use crate::component_list::Construct;
use crate::fault::Fault;
use crate::governed::{Governed, Scope};
use crate::resolver::Resolver;
use asn1_notation::{AtPath, ComponentItem, Span, TypeKind};
use asn1_resolved::Severity;

/// The items of a SEQUENCE or a SET that is resolved.
#[derive(Clone, Copy)]
pub(crate) struct Enclosing<'r, 'a> {
    /// The module.
    pub(crate) scope: Scope<'a>,
    /// The items.
    pub(crate) items: &'r [ComponentItem],
    /// The construct that they are of.
    pub(crate) construct: Construct,
}

impl<'r, 'a> Resolver<'r, 'a> {
    /// The field of the component that a relation names, if it names one. A warning tells a relation that leads to none.
    pub(crate) fn key_of_relation(
        &mut self,
        scope: Scope<'a>,
        paths: &[AtPath],
    ) -> Result<Option<&'a [u8]>, Fault> {
        match paths {
            [] => Ok(None),
            [path] => self.key_of_path(scope, path),
            [first, ..] => {
                if let Some(name) = first.names.first() {
                    self.warn_of_relation(
                        scope,
                        *name,
                        &[b"a relation by several components is not looked at"],
                    )?;
                }
                Ok(None)
            }
        }
    }

    // The field of the component to which a path leads.
    fn key_of_path(&mut self, scope: Scope<'a>, path: &AtPath) -> Result<Option<&'a [u8]>, Fault> {
        let outermost = if path.dots == 0 {
            Some(0)
        } else {
            self.enclosing.len().checked_sub(path.dots)
        };
        let mut enclosing = match outermost {
            Some(index) => self.enclosing.get(index).copied(),
            None => None,
        };
        let mut component: Option<Governed<'r, 'a>> = None;
        for name in &path.names {
            if let Some(outer) = component {
                enclosing = self.items_inside(outer)?;
            }
            match self.component_in(enclosing, scope.octets(*name))? {
                Some(found) => component = Some(found),
                None => {
                    let text = scope.octets(*name);
                    let parts: &[&[u8]] = &[b"no component '", text, b"' tells the row"];
                    self.warn_of_relation(scope, *name, parts)?;
                    return Ok(None);
                }
            }
        }
        match (component, path.names.last()) {
            (Some(found), Some(name)) => self.key_field(scope, *name, found),
            _ => Ok(None),
        }
    }

    // The component of this name, if there is one.
    fn component_in(
        &mut self,
        enclosing: Option<Enclosing<'r, 'a>>,
        name: &[u8],
    ) -> Result<Option<Governed<'r, 'a>>, Fault> {
        let Some(outer) = enclosing else {
            return Ok(None);
        };
        let list = self.list_components(outer.scope, outer.items, outer.construct)?;
        Ok(match list.find(name) {
            Some(listed) => Some(listed.governed()),
            None => None,
        })
    }

    // The items of the type of a component.
    fn items_inside(
        &mut self,
        component: Governed<'r, 'a>,
    ) -> Result<Option<Enclosing<'r, 'a>>, Fault> {
        let base = self.base(component)?;
        let scope = base.scope;
        Ok(match &base.definition.kind {
            TypeKind::Sequence(items) => Some(Enclosing {
                scope,
                items: items.as_slice(),
                construct: Construct::Sequence,
            }),
            TypeKind::Set(items) => Some(Enclosing {
                scope,
                items: items.as_slice(),
                construct: Construct::Set,
            }),
            _ => None,
        })
    }

    // The field of a class that a component is.
    fn key_field(
        &mut self,
        scope: Scope<'a>,
        name: Span,
        component: Governed<'r, 'a>,
    ) -> Result<Option<&'a [u8]>, Fault> {
        match &component.definition.kind {
            TypeKind::Field(_, names) => match names.as_slice() {
                [field] => Ok(Some(component.scope.octets(*field))),
                _ => Ok(None),
            },
            _ => {
                let text = scope.octets(name);
                let parts: &[&[u8]] = &[
                    b"component '",
                    text,
                    b"' is no field of a class, so it tells no row",
                ];
                self.warn_of_relation(scope, name, parts)?;
                Ok(None)
            }
        }
    }

    // Warns of a relation.
    fn warn_of_relation(
        &mut self,
        scope: Scope<'a>,
        name: Span,
        parts: &[&[u8]],
    ) -> Result<(), Fault> {
        self.report(scope.place(name), Severity::Warning, parts)?;
        Ok(())
    }
}
