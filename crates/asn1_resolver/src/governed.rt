//! Parts of trees with the module that they are in.
ghost use Rattle.std.specs.Prelude.{◌≡◌};
ghost use Rattle.asn1_modules.specs.Places.{place_in};

use asn1_modules::used_name;
use asn1_names::{Place, UsedName};
use asn1_notation::{Module, Parameter, Reference, Span, Type, Value};

/// A module of a text.
#[derive(Clone, Copy)]
pub(crate) struct Scope<'a> {
    /// The text.
    pub(crate) text: &'a [u8],
    /// The index of the text.
    pub(crate) source: usize,
    /// The name of the module.
    pub(crate) name: &'a [u8],
    /// The module.
    pub(crate) module: &'a Module,
    /// The index of the instance that gives the parameters of a template their arguments.
    pub(crate) instance: Option<usize>,
    /// The parameters of the definition.
    pub(crate) parameters: &'a [Parameter],
}

impl<'a> Scope<'a> {
    /// A module of the text with this index, outside all templates.
    pub(crate) fn of(text: &'a [u8], source: usize, module: &'a Module) -> Scope<'a>
        ensures source { result.source ≡ source }
        ensures module { result.«module».now ≡ «module».now }
    {
        Scope {
            text,
            source,
            name: module.name.octets(text),
            module,
            instance: None,
            parameters: &[],
        }
    }

    /// A reference in the module, as a name.
    pub(crate) fn used_name(self, reference: &Reference) -> UsedName<'a> {
        used_name(self.text, self.source, self.name, reference)
    }

    /// The same module, with the arguments of the instance of this index.
    pub(crate) fn within(self, instance: usize) -> Scope<'a> {
        Scope {
            instance: Some(instance),
            ..self
        }
    }

    /// The parameter of this name.
    pub(crate) fn parameter(self, reference: &Reference) -> Option<&'a Parameter> {
        if reference.module.is_some() {
            return None;
        }
        let name = self.octets(reference.name);
        for parameter in self.parameters {
            if self.octets(parameter.name) == name {
                return Some(parameter);
            }
        }
        None
    }

    /// The octets of a name.
    pub(crate) fn octets(self, span: Span) -> &'a [u8] {
        span.octets(self.text)
    }

    /// The place of octets of the text.
    pub(crate) fn place(self, span: Span) -> Place
        ensures { result ≡ place_in self.entry.source span }
    {
        Place {
            text: self.source,
            span,
        }
    }

    /// The place that begins at an offset.
    pub(crate) fn place_at(self, start: usize) -> Place {
        self.place(Span { start, end: start })
    }
}

/// A type with the module that it is in.
#[derive(Clone, Copy)]
pub(crate) struct Governed<'r, 'a> {
    /// The module.
    pub(crate) scope: Scope<'a>,
    /// The type.
    pub(crate) definition: &'r Type,
}

impl<'r, 'a> Governed<'r, 'a> {
    /// The place at which the type begins.
    pub(crate) fn place(self) -> Place {
        self.scope.place_at(self.definition.start)
    }
}

/// A value with the module that it is in.
#[derive(Clone, Copy)]
pub(crate) struct Written<'r, 'a> {
    /// The module.
    pub(crate) scope: Scope<'a>,
    /// The value.
    pub(crate) value: &'r Value,
}

impl Written<'_, '_> {
    /// The place at which the value begins.
    pub(crate) fn place(self) -> Place {
        self.scope.place_at(self.value.start)
    }
}
