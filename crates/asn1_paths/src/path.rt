//! The place of a reader in a value.

use crate::names::push_component_names;
use crate::place::{ElementTags, Limits, Place};
use asn1_components::FieldTable;
use asn1_dec::DecodeError;
use std::alloc::{AllocError, Global};
use std::fmt::Write;

/// The kind of a scope or a group.
#[derive(Clone, Copy, PartialEq, Eq)]
pub(crate) enum ScopeKind {
    /// Components, in the order of the definition.
    Sequence,
    /// Components, in any order.
    Set,
    /// Elements of a list.
    Elements,
    /// The chosen alternative of a CHOICE, which is no element of its own.
    Alternative,
    /// The value after an explicit tag.
    Tagged,
    /// Components of a group of additions, which is no element of its own.
    Group,
}

impl ScopeKind {
    /// Whether what is read inside lies in an element of its own.
    fn is_element(self) -> bool {
        !matches!(self, ScopeKind::Alternative | ScopeKind::Group)
    }
}

/// A scope or a group that is open.
#[derive(Clone, Copy)]
struct Scope {
    kind: ScopeKind,
    /// The index of its first name among those of all scopes.
    names: usize,
    /// The index of the first component of a SET that came in it, among those of all scopes.
    came: usize,
    /// The index of the component or element that is next.
    next: usize,
    /// The index of the one that is read, or was read last.
    current: Option<usize>,
    /// How many elements have begun in it.
    elements: usize,
}

/// The place of a reader in a value: the scopes and groups that are open, and where the reader is in each.
///
/// A place that takes memory and gets none may be another.
#[derive(Drop)]
pub(crate) struct Path {
    alloc: Global,
    scopes: Vec<Scope>,
    names: Vec<String>,
    /// The indices of the components of SETs that came.
    came: Vec<usize>,
    /// The place of the first component of a SET that came before.
    repeated: Option<Place>,
    /// The tags of the element that was begun last, if its type is known.
    tags: Option<ElementTags>,
    /// Its limits.
    limits: Limits,
    /// The element that is looked for: how many elements are before it in each element that it is inside of, from the outermost on.
    wanted: Option<Vec<usize>>,
    /// The place of that element, or else of the innermost one around it that has begun.
    found: Option<Place>,
}

impl Path {
    /// The place before a value.
    pub(crate) fn new(alloc: Global) -> Path {
        Path {
            alloc,
            scopes: Vec::new(alloc),
            names: Vec::new(alloc),
            came: Vec::new(alloc),
            repeated: None,
            tags: None,
            limits: Limits::NONE,
            wanted: None,
            found: None,
        }
    }

    /// The place before a value in which an element is looked for.
    pub(crate) fn looking_for(alloc: Global, element_numbers: Vec<usize>) -> Path {
        let mut path = Path::new(alloc);
        path.wanted = Some(element_numbers);
        path
    }

    /// Goes to the next component or element, which is an element of the codec with these tags, under these limits.
    pub(crate) fn begin_element(&mut self, tags: ElementTags, limits: Limits) {
        self.begin(Some(tags), limits);
    }

    /// Goes to the next component or element, which is an element of the codec. Its type is not known, or lies in an element inside.
    pub(crate) fn begin_untyped_element(&mut self) {
        self.begin(None, Limits::NONE);
    }

    fn begin(&mut self, tags: Option<ElementTags>, limits: Limits) {
        self.begin_part();
        self.count_element();
        self.tags = tags;
        self.limits = limits;
        self.note_if_wanted();
    }

    /// Notes the place of the element that was begun last if it is the wanted one or around that.
    fn note_if_wanted(&mut self) {
        if let Some(wanted) = &self.wanted
            && self.leads_to(wanted.as_slice())
        {
            self.found = self.place().ok();
        }
    }

    /// Whether the element that was begun last is the one that these numbers lead to, or around it.
    fn leads_to(&self, wanted: &[usize]) -> bool {
        let mut left = wanted;
        for scope in self.scopes.as_slice() {
            if scope.kind.is_element() && scope.elements > 0 {
                match left {
                    [number, rest @ ..] if *number == scope.elements - 1 => left = rest,
                    _ => return false,
                }
            }
        }
        true
    }

    /// The place that was looked for, if it was found.
    pub(crate) fn into_found(self) -> Option<Place> {
        self.found
    }

    /// Goes to the next component or element.
    pub(crate) fn begin_part(&mut self) {
        if let Some(scope) = self.scopes.last_mut() {
            match scope.kind {
                ScopeKind::Sequence | ScopeKind::Group | ScopeKind::Elements => {
                    scope.current = Some(scope.next);
                    scope.next = scope.next.saturating_add(1);
                }
                ScopeKind::Set | ScopeKind::Alternative | ScopeKind::Tagged => {}
            }
        }
    }

    /// Counts an element that was begun.
    pub(crate) fn count_element(&mut self) {
        for scope in self.scopes.iter_mut().rev() {
            if scope.kind.is_element() {
                scope.elements = scope.elements.saturating_add(1);
                return;
            }
        }
    }

    /// Passes over a component that is known to be absent, and goes to one of which it is not known for an error.
    pub(crate) fn pass_unless_present(&mut self, presence: &Result<bool, DecodeError>) {
        match presence {
            Ok(true) => {}
            Ok(false) => self.pass_part(),
            Err(_) => self.begin_untyped_element(),
        }
    }

    /// Passes over the next component.
    pub(crate) fn pass_part(&mut self) {
        if let Some(scope) = self.scopes.last_mut() {
            scope.next = scope.next.saturating_add(1);
        }
    }

    /// Goes to a component of a SET by its index; without one, to an element that is none.
    pub(crate) fn begin_component(&mut self, index: Option<usize>) {
        let Some(own) = index else {
            self.reach_end();
            return;
        };
        self.set_current(index);
        if self.has_come(own) {
            self.note_repeated();
        } else {
            let _ = self.came.push(own);
        }
    }

    /// Whether the component of that index came before in the innermost scope.
    fn has_come(&self, index: usize) -> bool {
        let first = match self.scopes.last() {
            Some(scope) => scope.came,
            None => 0,
        };
        self.came
            .get(first..)
            .is_some_and(|own| own.contains(&index))
    }

    /// Notes the place of the next element of the innermost scope, unless one was noted before.
    fn note_repeated(&mut self) {
        if self.repeated.is_none() {
            self.repeated = self.next_place().ok();
        }
    }

    /// The place of the component of a SET that came before, if there was one, or else that of the reader.
    pub(crate) fn into_repeated(self) -> Result<Place, AllocError> {
        let here = self.place()?;
        Ok(self.repeated.unwrap_or(here))
    }

    fn set_current(&mut self, index: Option<usize>) {
        if let Some(scope) = self.scopes.last_mut() {
            scope.current = index;
        }
    }

    /// Goes to a CHOICE, which is no element of its own.
    pub(crate) fn begin_choice(&mut self) {
        self.begin_part();
        self.forget_element();
    }

    /// Forgets what is known of the element that was begun last.
    fn forget_element(&mut self) {
        self.tags = None;
        self.limits = Limits::NONE;
    }

    /// Goes into a scope that has no names.
    pub(crate) fn open_scope(&mut self, kind: ScopeKind) {
        let names = self.names.len();
        let came = self.came.len();
        let _ = self.scopes.push(Scope {
            kind,
            names,
            came,
            next: 0,
            current: None,
            elements: 0,
        });
    }

    /// Goes into the chosen alternative of that name; without one, to the element that is none.
    pub(crate) fn open_alternative(&mut self, name: Option<&'static str>) {
        self.open_scope(ScopeKind::Alternative);
        match name {
            Some(name) => {
                let _ = self.push_name(name);
            }
            None => self.count_element(),
        }
    }

    fn push_name(&mut self, name: &'static str) -> Result<(), AllocError> {
        let own = String::from_str(self.alloc, name)?;
        self.names.push(own)?;
        Ok(())
    }

    /// Goes into the components of a table.
    pub(crate) fn open_components<C: FieldTable>(&mut self, kind: ScopeKind) {
        self.open_scope(kind);
        let _ = push_component_names::<C>(self.alloc, &mut self.names);
    }

    /// Goes behind all components and elements that were read in the innermost scope, to an element that has no name.
    pub(crate) fn reach_end(&mut self) {
        self.set_current(None);
        self.forget_element();
        if self
            .scopes
            .last()
            .is_some_and(|scope| scope.kind.is_element())
        {
            self.count_element();
        }
    }

    /// Goes out of the innermost scope or group.
    pub(crate) fn close_scope(&mut self) {
        if let Some(scope) = self.scopes.pop() {
            self.names.truncate(scope.names);
            self.came.truncate(scope.came);
        }
    }

    /// The place as it can be told.
    pub(crate) fn place(&self) -> Result<Place, AllocError> {
        Ok(Place {
            path: self.text()?,
            element_numbers: self.element_numbers()?,
            tags: self.tags,
            limits: self.limits,
        })
    }

    /// The place of the next element of the innermost scope, whose type is not looked at.
    fn next_place(&self) -> Result<Place, AllocError> {
        Ok(Place {
            path: self.text()?,
            element_numbers: self.next_element_numbers()?,
            tags: None,
            limits: Limits::NONE,
        })
    }

    /// The path as a text: names of components and alternatives with points between them, and the number of an element of a list in
    /// brackets, from 0.
    fn text(&self) -> Result<String, AllocError> {
        let mut text = String::new(self.alloc);
        for index in 0..self.scopes.len() {
            self.push_step(&mut text, index)?;
        }
        Ok(text)
    }

    /// Appends the step into the scope of that index. A group has none of its own, since its components are those of the scope
    /// around it.
    fn push_step(&self, text: &mut String, index: usize) -> Result<(), AllocError> {
        let Some(scope) = self.scopes.get(index) else {
            return Ok(());
        };
        match scope.kind {
            ScopeKind::Elements => push_index(text, scope.current),
            ScopeKind::Alternative => self.push_name_at(text, scope, Some(0)),
            ScopeKind::Sequence | ScopeKind::Set | ScopeKind::Group => {
                if self.holds_group(index) {
                    return Ok(());
                }
                self.push_name_at(text, scope, scope.current)
            }
            ScopeKind::Tagged => Ok(()),
        }
    }

    fn holds_group(&self, index: usize) -> bool {
        match self.scopes.get(index.saturating_add(1)) {
            Some(inner) => inner.kind == ScopeKind::Group,
            None => false,
        }
    }

    fn push_name_at(
        &self,
        text: &mut String,
        scope: &Scope,
        index: Option<usize>,
    ) -> Result<(), AllocError> {
        let Some(index) = index else {
            return Ok(());
        };
        let Some(name) = self.names.get(scope.names.saturating_add(index)) else {
            return Ok(());
        };
        if !text.is_empty() {
            text.push('.')?;
        }
        text.push_str(name.as_str())
    }

    /// How many elements are before the one that was begun last, in each element that it is inside of, from the outermost on.
    fn element_numbers(&self) -> Result<Vec<usize>, AllocError> {
        let mut numbers = Vec::new(self.alloc);
        for scope in self.scopes.as_slice() {
            if scope.kind.is_element() && scope.elements > 0 {
                numbers.push(scope.elements - 1)?;
            }
        }
        Ok(numbers)
    }

    /// The same of the next element of the innermost scope, which is an element of its own.
    fn next_element_numbers(&self) -> Result<Vec<usize>, AllocError> {
        let mut numbers = self.element_numbers()?;
        if let Some(scope) = self.scopes.last() {
            if scope.elements > 0 {
                numbers.pop();
            }
            numbers.push(scope.elements)?;
        }
        Ok(numbers)
    }
}

/// Appends the number of an element of a list.
fn push_index(text: &mut String, index: Option<usize>) -> Result<(), AllocError> {
    match index {
        Some(index) => write!(text, "[{index}]"),
        None => Ok(()),
    }
}
