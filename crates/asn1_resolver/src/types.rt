//! Types.
use crate::component_list::{ComponentList, Construct, Extent, Listed};
use crate::fault::Fault;
use crate::fields::FieldType;
use crate::governed::{Governed, Scope, Written};
use crate::relations::Enclosing;
use crate::resolver::Resolver;
use crate::values::MAX_DEPTH;
use asn1_notation::{ComponentItem, Span};
use asn1_resolved::{
    Addition, Alternative, Alternatives, Component, Components, Type, TypeKind, Usage,
};
use std::alloc::{AllocError, Global};

impl<'r, 'a> Resolver<'r, 'a> {
    /// The type, with others inside it to this depth at most.
    #[cycle(types)]
    pub(crate) fn resolve_type(
        &mut self,
        governed: Governed<'r, 'a>,
        depth: usize,
    ) -> Result<Type<'a>, Fault> {
        let Some(depth) = depth.checked_sub(1) else {
            return Err(self.refuse(governed.place(), &[b"types are nested too deep"]));
        };
        let mut constraints = self.constraints(governed)?;
        if let Some(inner) = self.stand_in(governed)? {
            let mut resolved = self.resolve_type(inner, depth)?;
            resolved.constraints.append(&mut constraints)?;
            return Ok(resolved);
        }
        let kind = match &governed.definition.kind {
            asn1_notation::TypeKind::Selection(name, inner) => {
                self.resolve_selection(governed.scope, *name, inner, depth)?
            }
            _ => self.resolve_kind(governed, depth)?,
        };
        Ok(Type {
            place: governed.place(),
            kind,
            constraints,
        })
    }

    // The type without its constraints.
    #[cycle(types)]
    fn resolve_kind(
        &mut self,
        governed: Governed<'r, 'a>,
        depth: usize,
    ) -> Result<TypeKind<'a>, Fault> {
        let scope = governed.scope;
        match &governed.definition.kind {
            asn1_notation::TypeKind::Sequence(items) => {
                let components = self.resolve_components(
                    scope,
                    items.as_slice(),
                    Construct::Sequence,
                    depth,
                )?;
                Ok(TypeKind::Sequence(components))
            }
            asn1_notation::TypeKind::Set(items) => {
                let components = self.resolve_components(
                    scope,
                    items.as_slice(),
                    Construct::Set,
                    depth,
                )?;
                Ok(TypeKind::Set(components))
            }
            asn1_notation::TypeKind::Choice(items) => {
                let alternatives = self.resolve_alternatives(scope, items.as_slice(), depth)?;
                Ok(TypeKind::Choice(alternatives))
            }
            asn1_notation::TypeKind::SequenceOf(_, element) => {
                let element = self.resolve_boxed(scope, element, depth)?;
                Ok(TypeKind::SequenceOf(element))
            }
            asn1_notation::TypeKind::SetOf(_, element) => {
                let element = self.resolve_boxed(scope, element, depth)?;
                Ok(TypeKind::SetOf(element))
            }
            asn1_notation::TypeKind::Tagged(tag, inner) => {
                let tag = self.tag(
                    tag,
                    Governed {
                        scope,
                        definition: inner,
                    },
                )?;
                let inner = self.resolve_boxed(scope, inner, depth)?;
                Ok(TypeKind::Tagged(tag, inner))
            }
            kind => self.plain_kind(scope, kind),
        }
    }

    // The type of an alternative, with its automatic tag.
    #[cycle(types)]
    fn resolve_selection(
        &mut self,
        scope: Scope<'a>,
        name: Span,
        definition: &'r asn1_notation::Type,
        depth: usize,
    ) -> Result<TypeKind<'a>, Fault> {
        let choice = self.base(Governed { scope, definition })?;
        let listed = self.find_alternative(choice, scope, name)?;
        let resolved = self.resolve_component_type(listed, depth)?;
        Ok(resolved.kind)
    }

    // A type inside another.
    #[cycle(types)]
    fn resolve_boxed(
        &mut self,
        scope: Scope<'a>,
        definition: &'r asn1_notation::Type,
        depth: usize,
    ) -> Result<Box<Type<'a>>, Fault> {
        let inner = self.resolve_type(Governed { scope, definition }, depth)?;
        let boxed = Box::new(self.alloc, inner)?;
        Ok(boxed)
    }

    // The components of a SEQUENCE or a SET.
    #[cycle(types)]
    fn resolve_components(
        &mut self,
        scope: Scope<'a>,
        items: &'r [ComponentItem],
        construct: Construct,
        depth: usize,
    ) -> Result<Components<'a>, Fault> {
        let list = self.list_components(scope, items, construct)?;
        self.enclosing.push(Enclosing {
            scope,
            items,
            construct,
        })?;
        let root = self.resolve_listed(&list, list.root(), depth)?;
        let mut additions = Vec::new(self.alloc);
        for extent in &list.additions {
            let components = self.resolve_listed(&list, *extent, depth)?;
            add_addition(&mut additions, components, extent.is_group)?;
        }
        let _ = self.enclosing.pop();
        Ok(Components {
            root,
            is_extensible: list.is_extensible,
            additions,
        })
    }

    // The components of a part of a list. One that is in error is left out.
    #[cycle(types)]
    fn resolve_listed(
        &mut self,
        list: &ComponentList<'r, 'a>,
        extent: Extent,
        depth: usize,
    ) -> Result<Vec<Component<'a>>, Fault> {
        let mut components = Vec::new(self.alloc);
        for (index, listed) in list.listed.iter().enumerate() {
            if !extent.has(index) {
                continue;
            }
            match self.resolve_component_type(*listed, depth) {
                Ok(definition) => {
                    let usage = self.usage(*listed)?;
                    components.push(Component {
                        name: listed.name(),
                        place: listed.place(),
                        definition,
                        usage,
                    })?;
                }
                Err(Fault::Refused) => {}
                Err(Fault::Memory) => return Err(Fault::Memory),
            }
        }
        Ok(components)
    }

    // The type of a component, with its automatic tag.
    #[cycle(types)]
    fn resolve_component_type(
        &mut self,
        listed: Listed<'r, 'a>,
        depth: usize,
    ) -> Result<Type<'a>, Fault> {
        let inner = self.resolve_type(listed.governed(), depth)?;
        match listed.tag {
            Some(number) => {
                let tag = self.automatic_tag(number, listed.governed())?;
                let place = inner.place;
                let inner = Box::new(self.alloc, inner)?;
                Ok(Type {
                    place,
                    kind: TypeKind::Tagged(tag, inner),
                    constraints: Vec::new(self.alloc),
                })
            }
            None => Ok(inner),
        }
    }

    // The alternatives of a CHOICE.
    #[cycle(types)]
    fn resolve_alternatives(
        &mut self,
        scope: Scope<'a>,
        items: &'r [ComponentItem],
        depth: usize,
    ) -> Result<Alternatives<'a>, Fault> {
        let list = self.list_components(scope, items, Construct::Choice)?;
        let root = self.resolve_listed(&list, list.root(), depth)?;
        let additions = self.resolve_listed(&list, list.added(), depth)?;
        Ok(Alternatives {
            root: alternatives_of(self.alloc, root)?,
            is_extensible: list.is_extensible,
            additions: alternatives_of(self.alloc, additions)?,
        })
    }

    // A type that holds no other.
    fn plain_kind(
        &mut self,
        scope: Scope<'a>,
        kind: &'r asn1_notation::TypeKind,
    ) -> Result<TypeKind<'a>, Fault> {
        match kind {
            asn1_notation::TypeKind::Boolean => Ok(TypeKind::Boolean),
            asn1_notation::TypeKind::Integer(numbers) => {
                let named = self.named_numbers(scope, numbers.as_slice())?;
                Ok(TypeKind::Integer(named))
            }
            asn1_notation::TypeKind::BitString(numbers) => {
                let named = self.named_bits(scope, numbers.as_slice())?;
                Ok(TypeKind::BitString(named))
            }
            asn1_notation::TypeKind::OctetString => Ok(TypeKind::OctetString),
            asn1_notation::TypeKind::ObjectIdentifier => Ok(TypeKind::ObjectIdentifier),
            asn1_notation::TypeKind::String(kind) => Ok(TypeKind::String(*kind)),
            asn1_notation::TypeKind::Contents(kind) => Ok(TypeKind::Contents(*kind)),
            asn1_notation::TypeKind::Enumerated(items) => {
                let enumeration = self.enumeration(scope, items.as_slice())?;
                Ok(TypeKind::Enumerated(enumeration))
            }
            asn1_notation::TypeKind::Any(_) => Ok(TypeKind::Any),
            asn1_notation::TypeKind::Field(class, names) => {
                match self.field_type(scope, class, names.as_slice())? {
                    FieldType::ObjectIdentifier => Ok(TypeKind::ObjectIdentifier),
                    _ => Ok(TypeKind::Any),
                }
            }
            asn1_notation::TypeKind::Instance(reference, arguments) => {
                let arguments = arguments.as_slice();
                let index = self.completed_type(scope, reference, arguments, MAX_DEPTH)?;
                Ok(TypeKind::Reference(index))
            }
            asn1_notation::TypeKind::Reference(reference) => {
                let index = self.find_type(scope, reference)?;
                Ok(TypeKind::Reference(index))
            }
            _ => Ok(TypeKind::Null),
        }
    }

    // Whether a component may be absent. One whose DEFAULT is in error is OPTIONAL.
    fn usage(&mut self, listed: Listed<'r, 'a>) -> Result<Usage<'a>, Fault> {
        match &listed.component.usage {
            asn1_notation::Usage::Required => Ok(Usage::Required),
            asn1_notation::Usage::Optional => Ok(Usage::Optional),
            asn1_notation::Usage::Default(value) => {
                match self.default_usage(listed, listed.written(value)) {
                    Ok(usage) => Ok(usage),
                    Err(Fault::Refused) => Ok(Usage::Optional),
                    Err(Fault::Memory) => Err(Fault::Memory),
                }
            }
        }
    }

    // Whether a component with a DEFAULT may be absent. One whose DEFAULT only an argument tells is OPTIONAL, and so is one of a type whose
    // values are kept as their contents octets.
    fn default_usage(
        &mut self,
        listed: Listed<'r, 'a>,
        written: Written<'r, 'a>,
    ) -> Result<Usage<'a>, Fault> {
        if self.is_open_field(written.scope, written.value) {
            self.warn_of_open_field(written)?;
            return Ok(Usage::Optional);
        }
        if self.is_of_contents(listed.governed(), written)? {
            self.warn_of_contents(written)?;
            return Ok(Usage::Optional);
        }
        let value = self.value(listed.governed(), written)?;
        Ok(Usage::Default(value))
    }
}

// The alternatives with the names and types of components.
fn alternatives_of<'a>(
    alloc: Global,
    components: Vec<Component<'a>>,
) -> Result<Vec<Alternative<'a>>, AllocError> {
    let mut alternatives = Vec::new(alloc);
    for component in components {
        let Component {
            name,
            place,
            definition,
            usage: _,
        } = component;
        alternatives.push(Alternative {
            name,
            place,
            definition,
        })?;
    }
    Ok(alternatives)
}

// Adds components as a group, or one by one.
fn add_addition<'a>(
    additions: &mut Vec<Addition<'a>>,
    components: Vec<Component<'a>>,
    is_group: bool,
) -> Result<(), Fault> {
    if is_group {
        additions.push(Addition::Group(components))?;
        return Ok(());
    }
    for component in components {
        additions.push(Addition::Component(component))?;
    }
    Ok(())
}
