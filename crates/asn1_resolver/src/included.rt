//! COMPONENTS OF.
use crate::component_list::{ComponentList, Construct};
use crate::fault::Fault;
use crate::governed::{Governed, Scope};
use crate::resolver::Resolver;
use asn1_notation::{ComponentItem, Type, TypeKind};

// How many COMPONENTS OF may lead to one another.
const MAX_INCLUSION_DEPTH: usize = 16;

// How many types may be included in one, each as often as COMPONENTS OF leads to it.
const MAX_INCLUSIONS: usize = 1000;

// Where COMPONENTS OF is written.
#[derive(Clone, Copy)]
struct Inclusion<'a> {
    // The module.
    scope: Scope<'a>,
    // The offset.
    start: usize,
    // What the components are of.
    construct: Construct,
}

impl<'r, 'a> Resolver<'r, 'a> {
    /// Adds the components of a type: those of its root (X.680, 25.5 and 27.2), with the tags that were put on them (25.8).
    pub(crate) fn include(
        &mut self,
        list: &mut ComponentList<'r, 'a>,
        scope: Scope<'a>,
        start: usize,
        definition: &'r Type,
        construct: Construct,
    ) -> Result<(), Fault> {
        let included = Governed { scope, definition };
        let inclusion = Inclusion {
            scope,
            start,
            construct,
        };
        self.include_from(list, included, inclusion, None, MAX_INCLUSION_DEPTH)
    }

    // Adds the components of a type that is so many inclusions above the last. It may be part of one on which tags are put, whose
    // components begin at an index of the list.
    fn include_from(
        &mut self,
        list: &mut ComponentList<'r, 'a>,
        included: Governed<'r, 'a>,
        inclusion: Inclusion<'a>,
        outer: Option<usize>,
        depth: usize,
    ) -> Result<(), Fault> {
        let Some(depth) = depth.checked_sub(1) else {
            return Err(self.refuse(
                inclusion.scope.place_at(inclusion.start),
                &[b"the type of COMPONENTS OF includes itself, or is nested too deep"],
            ));
        };
        self.count_inclusion(list, inclusion)?;
        let base = self.base(included)?;
        let Some(items) = items_of(base, inclusion.construct) else {
            return Err(self.refuse_included(inclusion));
        };
        let first = self.first_tagged(list, base.scope, items, outer)?;
        for item in items {
            match item {
                ComponentItem::Component(component) => {
                    list.add_included(base.scope, component, first)?;
                }
                ComponentItem::ComponentsOf(_, inner) => {
                    let inner = Governed {
                        scope: base.scope,
                        definition: inner,
                    };
                    self.include_from(list, inner, inclusion, first, depth)?;
                }
                ComponentItem::Marker(_) => return Ok(()),
                ComponentItem::Group(_, _, _) => {}
            }
        }
        Ok(())
    }

    // Counts a type that is included.
    fn count_inclusion(
        &mut self,
        list: &mut ComponentList<'r, 'a>,
        inclusion: Inclusion<'a>,
    ) -> Result<(), Fault> {
        list.inclusions = list.inclusions.saturating_add(1);
        if list.inclusions > MAX_INCLUSIONS {
            return Err(self.refuse(
                inclusion.scope.place_at(inclusion.start),
                &[b"more than 1000 types are included by COMPONENTS OF"],
            ));
        }
        Ok(())
    }

    // The index at which the components begin on which tags are put: those of an outer type, or else of this one.
    fn first_tagged(
        &mut self,
        list: &ComponentList<'r, 'a>,
        scope: Scope<'a>,
        items: &'r [ComponentItem],
        outer: Option<usize>,
    ) -> Result<Option<usize>, Fault> {
        match outer {
            Some(first) => Ok(Some(first)),
            None => {
                let is_automatic = self.is_automatic(scope, items)?;
                Ok(if is_automatic {
                    Some(list.listed.len())
                } else {
                    None
                })
            }
        }
    }

    // Refuses a type that has no components of this kind.
    fn refuse_included(&mut self, inclusion: Inclusion<'a>) -> Fault {
        let text: &[u8] = match inclusion.construct {
            Construct::Set => b"COMPONENTS OF in a SET needs the type of a SET",
            _ => b"COMPONENTS OF in a SEQUENCE needs the type of a SEQUENCE",
        };
        self.refuse(inclusion.scope.place_at(inclusion.start), &[text])
    }
}

// The items of a type, if it is of this kind.
fn items_of<'r, 'a>(base: Governed<'r, 'a>, construct: Construct) -> Option<&'r [ComponentItem]> {
    match (&base.definition.kind, construct) {
        (TypeKind::Sequence(items), Construct::Sequence) => Some(items.as_slice()),
        (TypeKind::Set(items), Construct::Set) => Some(items.as_slice()),
        _ => None,
    }
}
