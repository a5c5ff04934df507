//! Values with their brackets and names.
ghost use Rattle.asn1_value_text.specs.Refusals.{MayFail};
ghost use Rattle.std.specs.Prelude.{◌≡◌, ◌⊎◌, ◌+◌, OnOk, length};

use crate::scope::{Scope, ScopeKind};
use crate::text_form::{Brackets, Scalar, TextForm};
use asn1_buffers::WriteError;
use asn1_components::FieldTable;
use asn1_paths::push_component_names;
use std::alloc::{AllocError, Global};

/// A scope that is to be opened.
#[derive(Clone, Copy)]
pub(crate) enum Opening {
    /// The components of a SEQUENCE or a SET.
    Components,
    /// The elements of a SEQUENCE OF or a SET OF.
    Elements,
    /// The chosen alternative of a CHOICE, by its name.
    Alternative(Option<&'static str>),
    /// The value after an explicit tag.
    Tagged,
}

impl Opening {
    fn kind(self) -> ScopeKind {
        match self {
            Opening::Components => ScopeKind::Components,
            Opening::Elements => ScopeKind::Elements,
            Opening::Alternative(_) => ScopeKind::Alternative,
            Opening::Tagged => ScopeKind::Tagged,
        }
    }
}

/// A text, and the scopes and groups that are open in it.
///
/// Names of components are those of the tables, by their place in the definition.
#[derive(Drop)]
pub(crate) struct Layout<F> {
    alloc: Global,
    form: F,
    /// The scopes and groups that are open, innermost last.
    scopes: Vec<Scope>,
    /// The names of the components of all of these, in the order of the definitions.
    names: Vec<String>,
}

impl<F: TextForm> Layout<F> {
    /// An empty text.
    pub(crate) fn new(alloc: Global) -> Layout<F>
        ensures { length result.scopes.items ≡ 0 }
    {
        Layout {
            alloc,
            form: F::new(alloc),
            scopes: Vec::new(alloc),
            names: Vec::new(alloc),
        }
    }

    /// The text of all that was written.
    pub(crate) fn into_text(self) -> Result<String, WriteError>
        ensures { MayFail F.MayRefuse result }
    {
        self.form.into_text()
    }

    /// Appends a value that has no parts.
    pub(crate) fn scalar(&mut self, scalar: Scalar<'_>) -> Result<(), WriteError>
        ensures as_many_open { length self.new.scopes.items ≡ length self.old.scopes.items }
        ensures refused { MayFail F.MayRefuse result }
    {
        self.begin_value()?;
        self.form.scalar(scalar)
    }

    /// Begins a component by its name, or an element. A value that is alone at its place has nothing before it.
    fn begin_value(&mut self) -> Result<(), WriteError>
        ensures as_many_open { length self.new.scopes.items ≡ length self.old.scopes.items }
        ensures refused { MayFail F.MayRefuse result }
    {
        match self.innermost() {
            Some(ScopeKind::Components | ScopeKind::Group) => {
                let index = self.take_index();
                self.form.component(name_at(&self.names, index))
            }
            Some(ScopeKind::Elements) => self.form.element(),
            Some(ScopeKind::Alternative | ScopeKind::Tagged) | None => Ok(()),
        }
    }

    fn innermost(&self) -> Option<ScopeKind> {
        Some(self.scopes.last()?.kind)
    }

    /// The index of the name of the next component of the innermost scope, which is passed over.
    fn take_index(&mut self) -> usize
        ensures { length self.new.scopes.items ≡ length self.old.scopes.items }
    {
        let Some(scope) = self.scopes.last_mut() else {
            return 0;
        };
        let index = scope.next;
        scope.next = index.saturating_add(1);
        index
    }

    /// Passes over a component that is absent.
    pub(crate) fn pass_component(&mut self)
        ensures { length self.new.scopes.items ≡ length self.old.scopes.items }
    {
        self.take_index();
    }

    /// Opens a scope.
    pub(crate) fn open_scope(&mut self, opening: Opening) -> Result<(), WriteError>
        ensures one_more { OnOk result (length self.new.scopes.items ≡
            length self.old.scopes.items + 1) }
        ensures refused { MayFail F.MayRefuse result }
    {
        self.begin_value()?;
        match opening {
            Opening::Components => self.form.begin(Brackets::Components)?,
            Opening::Elements => self.form.begin(Brackets::Elements)?,
            Opening::Alternative(name) => self.form.alternative(name)?,
            Opening::Tagged => {}
        }
        self.push_scope(opening.kind())?;
        Ok(())
    }

    /// Opens the scope of the components of a table.
    pub(crate) fn open_components<C: FieldTable>(&mut self) -> Result<(), WriteError>
        ensures one_more { OnOk result (length self.new.scopes.items ≡
            length self.old.scopes.items + 1) }
        ensures refused { MayFail F.MayRefuse result }
    {
        self.open_scope(Opening::Components)?;
        push_component_names::<C>(self.alloc, &mut self.names)?;
        Ok(())
    }

    /// Opens a group of the components of a table, which are written as those of the scope around it.
    pub(crate) fn open_group<C: FieldTable>(&mut self) -> Result<(), AllocError>
        ensures { OnOk result (length self.new.scopes.items ≡
            length self.old.scopes.items + 1) }
    {
        self.pass_component();
        self.push_scope(ScopeKind::Group)?;
        push_component_names::<C>(self.alloc, &mut self.names)
    }

    fn push_scope(&mut self, kind: ScopeKind) -> Result<(), AllocError>
        ensures { OnOk result (length self.new.scopes.items ≡
            length self.old.scopes.items + 1) }
    {
        let names = self.names.len();
        self.scopes.push(Scope {
            kind,
            names,
            next: names,
        })?;
        Ok(())
    }

    /// Closes the innermost scope or group. Nothing changes if none is open.
    pub(crate) fn close(&mut self) -> Result<(), WriteError>
        ensures one_less { OnOk result (length self.new.scopes.items + 1 ≡
            length self.old.scopes.items) }
        ensures refused { MayFail (F.MayRefuse ⊎ (length self.old.scopes.items ≡ 0)) result }
    {
        let Some(scope) = self.scopes.pop() else {
            return Err(WriteError::Rejected("nothing is open"));
        };
        self.names.truncate(scope.names);
        match scope.kind {
            ScopeKind::Components => self.form.end(Brackets::Components),
            ScopeKind::Elements => self.form.end(Brackets::Elements),
            ScopeKind::Alternative => self.form.end_alternative(),
            ScopeKind::Tagged | ScopeKind::Group => Ok(()),
        }
    }
}

/// The name of that index, if there is one.
fn name_at(names: &[String], index: usize) -> Option<&str> {
    let name = names.get(index)?;
    Some(name.as_str())
}
