//! The types behind references and tags.
use crate::arguments::Meant;
use crate::fault::Fault;
use crate::fields::FieldType;
use crate::governed::{Governed, Scope};
use crate::resolver::Resolver;
use crate::values::MAX_DEPTH;
use asn1_notation::{Component, ComponentItem, Span, Type, TypeKind};

// How many tags a type may be under.
const MAX_TAGS: usize = 100;

/// The type behind the references and tags of a definition.
#[derive(Clone, Copy)]
pub(crate) enum Base<'r, 'a> {
    /// They were not followed.
    Unknown,
    /// This type.
    Found(Governed<'r, 'a>),
    /// The definition leads to itself.
    Missing,
}

// A step from a type to the one behind it.
#[derive(Clone, Copy)]
enum Step<'r, 'a> {
    // To this type.
    Next(Governed<'r, 'a>),
    // From the alternative of a name to its CHOICE.
    Choice(Span, Governed<'r, 'a>),
    // There is none.
    Last,
    // To a definition that leads to itself.
    Circle,
}

// An alternative whose CHOICE is searched.
#[derive(Clone, Copy)]
struct Selected<'a> {
    // The module.
    scope: Scope<'a>,
    // The name.
    name: Span,
    // How many definitions were passed before.
    depth: usize,
}

impl<'r, 'a> Resolver<'r, 'a> {
    // The type that another is by a parameter, by the field of a class or by its arguments.
    fn inner_type(
        &mut self,
        governed: Governed<'r, 'a>,
    ) -> Result<Option<Governed<'r, 'a>>, Fault> {
        match &governed.definition.kind {
            TypeKind::Instance(reference, arguments) => {
                let scope = governed.scope;
                let arguments = arguments.as_slice();
                match self.meant(scope, reference, arguments, None, MAX_DEPTH)? {
                    Meant::Definition(index) => {
                        let definition = self.type_at(scope, reference, index)?;
                        Ok(Some(definition))
                    }
                    Meant::Instance(index) => Ok(self.instances.body(index)),
                }
            }
            _ => self.stand_in(governed),
        }
    }

    /// The argument of a parameter, or the type of the field of a class.
    pub(crate) fn stand_in(
        &mut self,
        governed: Governed<'r, 'a>,
    ) -> Result<Option<Governed<'r, 'a>>, Fault> {
        match &governed.definition.kind {
            TypeKind::Reference(_) => Ok(self.argument_type(governed)),
            TypeKind::Field(class, names) => {
                Ok(
                    match self.field_type(governed.scope, class, names.as_slice())? {
                        FieldType::Fixed(definition) => Some(definition),
                        _ => None,
                    },
                )
            }
            _ => Ok(None),
        }
    }

    // The type of an alternative, which may be in version brackets.
    fn selected_type(
        &mut self,
        base: Governed<'r, 'a>,
        scope: Scope<'a>,
        name: Span,
    ) -> Result<Governed<'r, 'a>, Fault> {
        let text = scope.octets(name);
        let TypeKind::Choice(items) = &base.definition.kind else {
            return Err(self.refuse(
                scope.place(name),
                &[b"'", text, b"' is selected of a type that is no CHOICE"],
            ));
        };
        match alternative_in(base.scope, items.as_slice(), text) {
            Some(definition) => Ok(Governed {
                scope: base.scope,
                definition,
            }),
            None => Err(self.refuse(
                scope.place(name),
                &[b"the CHOICE has no alternative '", text, b"'"],
            )),
        }
    }

    // How many references and tags may lead from a type to one that is neither.
    fn most_steps(&self) -> usize {
        let definitions = self.definitions.types.len();
        definitions.saturating_add(1).saturating_mul(MAX_TAGS)
    }

    /// The type behind references and tags. Each definition on the way keeps it.
    pub(crate) fn base(&mut self, governed: Governed<'r, 'a>) -> Result<Governed<'r, 'a>, Fault> {
        let mut current = governed;
        let mut passed = Vec::new(self.alloc);
        let mut selected: Vec<Selected<'a>> = Vec::new(self.alloc);
        for _ in 0..self.most_steps() {
            current = match self.step(current, &mut passed)? {
                Step::Next(next) => next,
                Step::Choice(name, choice) => {
                    selected.push(Selected {
                        scope: current.scope,
                        name,
                        depth: passed.len(),
                    })?;
                    choice
                }
                Step::Circle => break,
                Step::Last => match selected.pop() {
                    Some(selection) => {
                        passed.truncate(selection.depth);
                        self.selected_type(current, selection.scope, selection.name)?
                    }
                    None => {
                        self.keep_base(&passed, Base::Found(current));
                        return Ok(current);
                    }
                },
            };
        }
        self.keep_base(&passed, Base::Missing);
        Err(self.refuse(governed.place(), &[b"the type is defined by itself"]))
    }

    // The step from a type to the one behind it. The index of a definition that is passed is added.
    fn step(
        &mut self,
        governed: Governed<'r, 'a>,
        passed: &mut Vec<usize>,
    ) -> Result<Step<'r, 'a>, Fault> {
        let scope = governed.scope;
        match &governed.definition.kind {
            TypeKind::Tagged(_, definition) => Ok(Step::Next(Governed { scope, definition })),
            TypeKind::Selection(name, definition) => {
                Ok(Step::Choice(*name, Governed { scope, definition }))
            }
            TypeKind::Reference(reference) if !self.is_parameter(governed) => {
                let index = self.find_type(scope, reference)?;
                passed.push(index)?;
                match self.bases.get(index) {
                    Some(Base::Found(base)) => Ok(Step::Next(*base)),
                    Some(Base::Missing) => Ok(Step::Circle),
                    _ => {
                        let next = self.type_at(scope, reference, index)?;
                        Ok(Step::Next(next))
                    }
                }
            }
            _ => match self.inner_type(governed)? {
                Some(inner) => Ok(Step::Next(inner)),
                None => Ok(Step::Last),
            },
        }
    }

    // Keeps the type behind the references and tags of definitions.
    fn keep_base(&mut self, passed: &[usize], base: Base<'r, 'a>) {
        for index in passed {
            if let Some(known) = self.bases.get_mut(*index) {
                *known = base;
            }
        }
    }

    // Whether tags are put on the alternatives of a CHOICE.
    fn has_automatic_tags(&mut self, choice: Governed<'r, 'a>) -> Result<bool, Fault> {
        match &choice.definition.kind {
            TypeKind::Choice(items) => self.is_automatic(choice.scope, items.as_slice()),
            _ => Ok(false),
        }
    }

    /// Whether a type with none behind it is an open type.
    pub(crate) fn is_open(&mut self, governed: Governed<'r, 'a>) -> Result<bool, Fault> {
        match &governed.definition.kind {
            TypeKind::Any(_) => Ok(true),
            TypeKind::Field(class, names) => {
                let field = self.field_type(governed.scope, class, names.as_slice())?;
                Ok(matches!(field, FieldType::Open))
            }
            _ => Ok(false),
        }
    }

    /// Whether a type with none behind it is the identifier of a class of the language.
    pub(crate) fn is_identifier(&mut self, governed: Governed<'r, 'a>) -> Result<bool, Fault> {
        match &governed.definition.kind {
            TypeKind::Field(class, names) => {
                let field = self.field_type(governed.scope, class, names.as_slice())?;
                Ok(matches!(field, FieldType::ObjectIdentifier))
            }
            _ => Ok(false),
        }
    }

    /// Whether a type is a CHOICE or an open type, and under no tag.
    pub(crate) fn has_no_tag(&mut self, governed: Governed<'r, 'a>) -> Result<bool, Fault> {
        self.base(governed)?;
        let mut current = governed;
        for _ in 0..self.most_steps() {
            let scope = current.scope;
            current = match &current.definition.kind {
                TypeKind::Choice(_) => return Ok(true),
                TypeKind::Selection(name, inner) => {
                    let choice = self.base(Governed {
                        scope,
                        definition: inner,
                    })?;
                    if self.has_automatic_tags(choice)? {
                        return Ok(false);
                    }
                    self.selected_type(choice, scope, *name)?
                }
                TypeKind::Reference(reference) if !self.is_parameter(current) => {
                    self.referenced(scope, reference)?
                }
                _ => match self.inner_type(current)? {
                    Some(inner) => inner,
                    None => return self.is_open(current),
                },
            };
        }
        Err(self.refuse(governed.place(), &[b"the type is defined by itself"]))
    }
}

// The type of the alternative of this name.
fn alternative_in<'r, 'a>(
    scope: Scope<'a>,
    items: &'r [ComponentItem],
    name: &[u8],
) -> Option<&'r Type> {
    for item in items {
        let found = match item {
            ComponentItem::Component(component) => named_type(scope, component, name),
            ComponentItem::Group(_, _, grouped) => grouped_type(scope, grouped.as_slice(), name),
            _ => None,
        };
        if found.is_some() {
            return found;
        }
    }
    None
}

// The type of the alternative of this name in version brackets.
fn grouped_type<'r, 'a>(
    scope: Scope<'a>,
    items: &'r [ComponentItem],
    name: &[u8],
) -> Option<&'r Type> {
    for item in items {
        if let ComponentItem::Component(component) = item {
            let found = named_type(scope, component, name);
            if found.is_some() {
                return found;
            }
        }
    }
    None
}

// The type of a component, if it has this name.
fn named_type<'r, 'a>(scope: Scope<'a>, component: &'r Component, name: &[u8]) -> Option<&'r Type> {
    if scope.octets(component.name) == name {
        Some(&component.definition)
    } else {
        None
    }
}

/// Whether a tag is written before a type.
pub(crate) fn is_tagged(definition: &Type) -> bool {
    matches!(definition.kind, TypeKind::Tagged(_, _))
}
