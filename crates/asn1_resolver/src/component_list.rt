//! The components of a SEQUENCE or a SET, and the alternatives of a CHOICE, as one list.
use crate::base::is_tagged;
use crate::fault::Fault;
use crate::governed::{Governed, Scope, Written};
use crate::resolver::Resolver;
use asn1_names::Place;
use asn1_notation::{Component, ComponentItem, TagDefault, Type, Value};
use asn1_resolved::NamedNumber;
use std::alloc::Global;

/// What the components are of.
#[derive(Clone, Copy, Debug, PartialEq, Eq)]
pub(crate) enum Construct {
    /// SEQUENCE.
    Sequence,
    /// SET.
    Set,
    /// CHOICE.
    Choice,
}

/// A component of a SEQUENCE or a SET, or an alternative of a CHOICE.
#[derive(Clone, Copy)]
pub(crate) struct Listed<'r, 'a> {
    /// The module that it is written in.
    pub(crate) scope: Scope<'a>,
    /// The component.
    pub(crate) component: &'r Component,
    /// The number of its automatic tag, if it has one.
    pub(crate) tag: Option<u32>,
}

impl<'r, 'a> Listed<'r, 'a> {
    /// The name.
    pub(crate) fn name(self) -> &'a [u8] {
        self.scope.octets(self.component.name)
    }

    /// The place of the name.
    pub(crate) fn place(self) -> Place {
        self.scope.place(self.component.name)
    }

    /// The type.
    pub(crate) fn governed(self) -> Governed<'r, 'a> {
        Governed {
            scope: self.scope,
            definition: &self.component.definition,
        }
    }

    /// A value that is written at the component.
    pub(crate) fn written(self, value: &'r Value) -> Written<'r, 'a> {
        Written {
            scope: self.scope,
            value,
        }
    }
}

/// A part of a list: the root, the additions, an addition, or those in version brackets.
#[derive(Clone, Copy)]
pub(crate) struct Extent {
    /// The index of its first component in the list.
    pub(crate) first: usize,
    /// The index behind its last.
    pub(crate) end: usize,
    /// Whether it is in version brackets.
    pub(crate) is_group: bool,
}

impl Extent {
    /// Whether the component of this index is one of these.
    pub(crate) fn has(self, index: usize) -> bool {
        self.first <= index && index < self.end
    }
}

/// The components, with those of COMPONENTS OF.
#[derive(Drop)]
pub(crate) struct ComponentList<'r, 'a> {
    /// All components: the root, then the additions.
    pub(crate) listed: Vec<Listed<'r, 'a>>,
    /// How many are of the root.
    pub(crate) root_count: usize,
    /// The additions.
    pub(crate) additions: Vec<Extent>,
    /// Whether there is an extension marker.
    pub(crate) is_extensible: bool,
    /// How many types were included by COMPONENTS OF.
    pub(crate) inclusions: usize,
    // Whether tags are put on.
    is_automatic: bool,
    // How many extension markers were passed.
    markers: usize,
}

impl<'r, 'a> ComponentList<'r, 'a> {
    // A list of no components.
    fn new(alloc: Global, is_extensible: bool, is_automatic: bool) -> ComponentList<'r, 'a> {
        ComponentList {
            listed: Vec::new(alloc),
            root_count: 0,
            additions: Vec::new(alloc),
            is_extensible,
            inclusions: 0,
            is_automatic,
            markers: 0,
        }
    }

    /// Adds a component.
    pub(crate) fn add(&mut self, scope: Scope<'a>, component: &'r Component) -> Result<(), Fault> {
        self.add_included(scope, component, None)
    }

    /// Adds a component of a type behind COMPONENTS OF. If tags are put on that type, its components begin at an index, and keep
    /// their tags, unless tags are put on this list.
    pub(crate) fn add_included(
        &mut self,
        scope: Scope<'a>,
        component: &'r Component,
        first: Option<usize>,
    ) -> Result<(), Fault> {
        let first = if self.is_automatic { Some(0) } else { first };
        let tag = match first {
            Some(first) => u32::try_from(self.listed.len().saturating_sub(first)).ok(),
            None => None,
        };
        self.listed.push(Listed {
            scope,
            component,
            tag,
        })?;
        Ok(())
    }

    /// The root.
    pub(crate) fn root(&self) -> Extent {
        Extent {
            first: 0,
            end: self.root_count,
            is_group: false,
        }
    }

    /// The additions.
    pub(crate) fn added(&self) -> Extent {
        Extent {
            first: self.root_count,
            end: self.listed.len(),
            is_group: false,
        }
    }

    /// The component of this name.
    pub(crate) fn find(&self, name: &[u8]) -> Option<Listed<'r, 'a>> {
        for listed in &self.listed {
            if listed.name() == name {
                return Some(*listed);
            }
        }
        None
    }
}

impl<'r, 'a> Resolver<'r, 'a> {
    /// The components of a type, with those of COMPONENTS OF, and with the numbers of automatic tags.
    pub(crate) fn list_components(
        &mut self,
        scope: Scope<'a>,
        items: &'r [ComponentItem],
        construct: Construct,
    ) -> Result<ComponentList<'r, 'a>, Fault> {
        let is_automatic = self.is_automatic(scope, items)?;
        let mut list = ComponentList::new(self.alloc, scope.module.is_extensible, is_automatic);
        self.list_items(&mut list, scope, items, construct)?;
        Ok(list)
    }

    // Adds items to an empty list.
    fn list_items(
        &mut self,
        list: &mut ComponentList<'r, 'a>,
        scope: Scope<'a>,
        items: &'r [ComponentItem],
        construct: Construct,
    ) -> Result<(), Fault> {
        for item in items {
            self.list_item(list, scope, item, construct)?;
        }
        if list.markers == 0 {
            list.root_count = list.listed.len();
        }
        self.require_distinct_names(list)
    }

    // Adds an item to the list.
    fn list_item(
        &mut self,
        list: &mut ComponentList<'r, 'a>,
        scope: Scope<'a>,
        item: &'r ComponentItem,
        construct: Construct,
    ) -> Result<(), Fault> {
        match item {
            ComponentItem::Marker(start) => self.list_marker(list, scope, *start),
            ComponentItem::Group(start, _, items) => {
                self.list_group(list, scope, *start, items.as_slice(), construct)
            }
            ComponentItem::Component(component) => {
                self.require_open(list, scope, component.name.start)?;
                let first = list.listed.len();
                list.add(scope, component)?;
                end_addition(list, first)
            }
            ComponentItem::ComponentsOf(start, inner) => {
                self.require_open(list, scope, *start)?;
                let first = list.listed.len();
                self.include(list, scope, *start, inner, construct)?;
                end_addition(list, first)
            }
        }
    }

    // Passes an extension marker.
    fn list_marker(
        &mut self,
        list: &mut ComponentList<'r, 'a>,
        scope: Scope<'a>,
        start: usize,
    ) -> Result<(), Fault> {
        match list.markers {
            0 => {
                list.markers = 1;
                list.root_count = list.listed.len();
                list.is_extensible = true;
                Ok(())
            }
            1 => {
                list.markers = 2;
                Ok(())
            }
            _ => Err(self.refuse(
                scope.place_at(start),
                &[b"there may be two extension markers, and this is the third"],
            )),
        }
    }

    // Refuses components behind a second extension marker.
    fn require_open(
        &mut self,
        list: &ComponentList<'r, 'a>,
        scope: Scope<'a>,
        start: usize,
    ) -> Result<(), Fault> {
        if list.markers > 1 {
            Err(self.refuse(
                scope.place_at(start),
                &[b"components behind a second extension marker are not supported"],
            ))
        } else {
            Ok(())
        }
    }

    // Adds the components in version brackets.
    fn list_group(
        &mut self,
        list: &mut ComponentList<'r, 'a>,
        scope: Scope<'a>,
        start: usize,
        items: &'r [ComponentItem],
        construct: Construct,
    ) -> Result<(), Fault> {
        if list.markers != 1 {
            return Err(self.refuse(
                scope.place_at(start),
                &[b"version brackets may stand between extension markers, or behind the only one"],
            ));
        }
        let first = list.listed.len();
        for item in items {
            self.list_grouped(list, scope, item, construct)?;
        }
        list.additions.push(Extent {
            first,
            end: list.listed.len(),
            is_group: true,
        })?;
        Ok(())
    }

    // Adds an item in version brackets.
    fn list_grouped(
        &mut self,
        list: &mut ComponentList<'r, 'a>,
        scope: Scope<'a>,
        item: &'r ComponentItem,
        construct: Construct,
    ) -> Result<(), Fault> {
        match item {
            ComponentItem::Component(component) => list.add(scope, component),
            ComponentItem::ComponentsOf(start, inner) => {
                self.include(list, scope, *start, inner, construct)
            }
            ComponentItem::Marker(start) | ComponentItem::Group(start, _, _) => Err(self.refuse(
                scope.place_at(*start),
                &[b"version brackets hold components alone"],
            )),
        }
    }

    // Refuses two components of one name.
    fn require_distinct_names(&mut self, list: &ComponentList<'r, 'a>) -> Result<(), Fault> {
        let mut named = Vec::new(self.alloc);
        for listed in &list.listed {
            named.push(NamedNumber {
                name: listed.name(),
                place: listed.place(),
                number: 0,
            })?;
        }
        self.require_names(named.as_slice())
    }

    /// Whether tags are put on: no component that is written in the root has one (X.680, 25.7 and 29.3).
    pub(crate) fn is_automatic(
        &mut self,
        scope: Scope<'a>,
        items: &'r [ComponentItem],
    ) -> Result<bool, Fault> {
        if scope.module.tagging != TagDefault::Automatic || has_tag_in_root(items) {
            return Ok(false);
        }
        for item in items {
            if let Some(tagged) = tagged_addition(item) {
                return Err(self.refuse(
                    scope.place_at(tagged.start),
                    &[
                        b"an addition may not have a tag, since the components of the root have none",
                    ],
                ));
            }
        }
        Ok(true)
    }
}

// Ends an addition that is in no version brackets. Each of its components is one.
fn end_addition(list: &mut ComponentList<'_, '_>, first: usize) -> Result<(), Fault> {
    if list.markers == 1 {
        for index in first..list.listed.len() {
            list.additions.push(Extent {
                first: index,
                end: index + 1,
                is_group: false,
            })?;
        }
    }
    Ok(())
}

// Whether a component of the root has a tag.
fn has_tag_in_root(items: &[ComponentItem]) -> bool {
    for item in items {
        match item {
            ComponentItem::Component(component) => {
                if is_tagged(&component.definition) {
                    return true;
                }
            }
            ComponentItem::Marker(_) => return false,
            _ => {}
        }
    }
    false
}

// The type of a component that has a tag, if there is one in this item.
fn tagged_addition(item: &ComponentItem) -> Option<&Type> {
    match item {
        ComponentItem::Component(component) => tagged_type(component),
        ComponentItem::Group(_, _, items) => tagged_in_group(items.as_slice()),
        _ => None,
    }
}

// The type of a component of a group that has a tag.
fn tagged_in_group(items: &[ComponentItem]) -> Option<&Type> {
    for item in items {
        if let ComponentItem::Component(component) = item {
            if is_tagged(&component.definition) {
                return Some(&component.definition);
            }
        }
    }
    None
}

// The type of a component, if it has a tag.
fn tagged_type(component: &Component) -> Option<&Type> {
    if is_tagged(&component.definition) {
        Some(&component.definition)
    } else {
        None
    }
}
