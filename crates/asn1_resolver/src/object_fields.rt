//! Values of the fields of information objects (X.681, 15).
use crate::fault::Fault;
use crate::fields::FieldType;
use crate::governed::{Governed, Scope, Written};
use crate::resolver::Resolver;
use crate::tables::scope_of;
use asn1_grammar::Held;
use asn1_notation::{Reference, Span, Value, ValueKind};
use asn1_objects::{FieldContents, ObjectClass, ObjectDefinition, ReadDefinition, ReadObject};
use asn1_resolved::Severity;
use std::alloc::AllocError;

// How often a parameter may be the argument for another.
const MAX_PARAMETERS: usize = 200;

// A name with its module.
#[derive(Clone, Copy)]
struct Named<'a> {
    scope: Scope<'a>,
    reference: Reference,
}

// An object with its class and the module that it is in.
#[derive(Clone, Copy)]
struct Found<'r, 'a> {
    scope: Scope<'a>,
    class: &'r ObjectClass<'a>,
    object: &'r ReadObject,
}

impl<'r, 'a> Resolver<'r, 'a> {
    /// Whether a value is a field of a parameter, whose object only an argument tells.
    pub(crate) fn is_open_field(&self, scope: Scope<'a>, value: &Value) -> bool {
        match &value.kind {
            ValueKind::Field(object, _) => {
                let named = self.behind_objects(scope, object);
                named.scope.parameter(&named.reference).is_some()
            }
            _ => false,
        }
    }

    /// Warns of a DEFAULT that only an argument tells.
    pub(crate) fn warn_of_open_field(
        &mut self,
        written: Written<'r, 'a>,
    ) -> Result<(), AllocError> {
        self.report(
            written.place(),
            Severity::Warning,
            &[b"an argument tells this DEFAULT, so the component is an option in Rust"],
        )
    }

    /// The text and the offset of the object that an argument is: of its definition, of the parameter that it is, or its own.
    pub(crate) fn place_of_object(
        &self,
        scope: Scope<'a>,
        reference: &Reference,
        written: Written<'r, 'a>,
    ) -> (usize, usize) {
        if let Some(parameter) = scope.parameter(reference) {
            return (scope.source, parameter.name.start);
        }
        match self.object_definition(scope, reference) {
            Some(definition) => (definition.home.source, definition.name.start),
            None => (scope.source, written.value.start),
        }
    }

    /// The value to which the names of fields lead from an object, with its type.
    pub(crate) fn field_value(
        &mut self,
        scope: Scope<'a>,
        object: &Reference,
        names: &[Span],
    ) -> Result<(Governed<'r, 'a>, Written<'r, 'a>), Fault> {
        let Some((last, inner)) = names.split_last() else {
            return Err(Fault::Refused);
        };
        let found = self.inner_object(scope, object, inner)?;
        self.value_of_field(scope, found, *last)
    }

    /// The type to which the names of fields lead from an object.
    pub(crate) fn type_of_object(
        &mut self,
        scope: Scope<'a>,
        object: &Reference,
        names: &[Span],
    ) -> Result<FieldType<'r, 'a>, Fault> {
        let Some((last, inner)) = names.split_last() else {
            return Err(Fault::Refused);
        };
        let found = self.inner_object(scope, object, inner)?;
        match self.held_by(scope, found, *last)? {
            (scope, Held::Type(definition)) => {
                Ok(FieldType::Fixed(Governed { scope, definition }))
            }
            _ => {
                let name = scope.octets(*last);
                Err(self.refuse(
                    scope.place(*last),
                    &[b"field '&", name, b"' of an object is no type"],
                ))
            }
        }
    }

    // The object to which the names of fields lead from another.
    fn inner_object(
        &mut self,
        scope: Scope<'a>,
        object: &Reference,
        names: &[Span],
    ) -> Result<Found<'r, 'a>, Fault> {
        let mut named = self.behind_objects(scope, object);
        for name in names {
            let found = self.find_object(named)?;
            named = self.object_of_field(scope, found, *name)?;
        }
        self.find_object(named)
    }

    // The name of an object behind parameters.
    fn behind_objects(&self, scope: Scope<'a>, reference: &Reference) -> Named<'a> {
        let mut named = Named {
            scope,
            reference: *reference,
        };
        for _ in 0..MAX_PARAMETERS {
            let Some(argument) = self.argument_value(named.scope, &named.reference) else {
                return named;
            };
            let ValueKind::Reference(reference) = &argument.value.kind else {
                return named;
            };
            named = Named {
                scope: argument.scope,
                reference: *reference,
            };
        }
        named
    }

    // The definition of an object of this name.
    fn object_definition(
        &self,
        scope: Scope<'a>,
        reference: &Reference,
    ) -> Option<&'r ObjectDefinition<'a>> {
        let objects = self.objects;
        let module = match reference.module {
            Some(module) => scope.octets(module),
            None => scope.name,
        };
        objects.find(module, scope.octets(reference.name))
    }

    // The object of a name.
    fn find_object(&mut self, named: Named<'a>) -> Result<Found<'r, 'a>, Fault> {
        let Named { scope, reference } = named;
        let objects = self.objects;
        let Some(definition) = self.object_definition(scope, &reference) else {
            return Err(self.refuse_object(named));
        };
        let ReadDefinition::Object(object) = &definition.contents else {
            return Err(self.refuse_object(named));
        };
        match objects.classes.get(object.class) {
            Some(class) => Ok(Found {
                scope: scope_of(definition.home),
                class,
                object,
            }),
            None => Err(self.refuse_object(named)),
        }
    }

    // Refuses a name that is that of no object, or of one that is not read.
    fn refuse_object(&mut self, named: Named<'a>) -> Fault {
        let Named { scope, reference } = named;
        let name = scope.octets(reference.name);
        let place = scope.place(reference.name);
        if scope.parameter(&reference).is_some() {
            return self.refuse(
                place,
                &[
                    b"an argument tells the fields of '",
                    name,
                    b"', so none is a value here",
                ],
            );
        }
        if self.object_definition(scope, &reference).is_some() {
            return self.refuse(place, &[b"object '", name, b"' is not read"]);
        }
        if self.index_of_value(scope, &reference).is_some() {
            return self.refuse(place, &[b"'", name, b"' is no object, and has no fields"]);
        }
        self.refuse_undefined(scope, &reference)
    }

    // The index of the field of this name in the class of an object.
    fn index_of_field(
        &mut self,
        scope: Scope<'a>,
        found: Found<'r, 'a>,
        name: Span,
    ) -> Result<usize, Fault> {
        let text = scope.octets(name);
        let class = found.class;
        match class.fields.iter().position(|field| field.name == text) {
            Some(index) => Ok(index),
            None => Err(self.refuse(
                scope.place(name),
                &[b"class '", class.name, b"' has no field '&", text, b"'"],
            )),
        }
    }

    // The name of the object that a field of an object is.
    fn object_of_field(
        &mut self,
        scope: Scope<'a>,
        found: Found<'r, 'a>,
        name: Span,
    ) -> Result<Named<'a>, Fault> {
        let index = self.index_of_field(scope, found, name)?;
        match found.object.setting(index) {
            Some(setting) => match &setting.held {
                Held::Other(span) if is_object_name(found.scope.octets(*span)) => Ok(Named {
                    scope: found.scope,
                    reference: Reference {
                        module: None,
                        name: *span,
                    },
                }),
                _ => Err(self.refuse_field_value(scope, name)),
            },
            None => Err(self.refuse_lack(scope, name)),
        }
    }

    // The value of a field of an object, or the DEFAULT of its class.
    fn value_of_field(
        &mut self,
        scope: Scope<'a>,
        found: Found<'r, 'a>,
        name: Span,
    ) -> Result<(Governed<'r, 'a>, Written<'r, 'a>), Fault> {
        let index = self.index_of_field(scope, found, name)?;
        let Some(governed) = self.type_of_values(found.class, index) else {
            return Err(self.refuse_field_value(scope, name));
        };
        let (held_scope, held) = self.held_by(scope, found, name)?;
        match held {
            Held::Value(value) => Ok((
                governed,
                Written {
                    scope: held_scope,
                    value,
                },
            )),
            _ => Err(self.refuse_field_value(scope, name)),
        }
    }

    // The setting of a field of an object, or the DEFAULT of its class, with its module.
    fn held_by(
        &mut self,
        scope: Scope<'a>,
        found: Found<'r, 'a>,
        name: Span,
    ) -> Result<(Scope<'a>, &'r Held), Fault> {
        let index = self.index_of_field(scope, found, name)?;
        match found.object.setting(index) {
            Some(setting) => Ok((found.scope, &setting.held)),
            None => match default_held(found.class, index) {
                Some(default) => Ok(default),
                None => Err(self.refuse_lack(scope, name)),
            },
        }
    }

    // Refuses a field that is no value.
    fn refuse_field_value(&mut self, scope: Scope<'a>, name: Span) -> Fault {
        let text = scope.octets(name);
        self.refuse(
            scope.place(name),
            &[
                b"field '&",
                text,
                b"' of an object is no value of a type of its own",
            ],
        )
    }

    // Refuses a field that an object does not have.
    fn refuse_lack(&mut self, scope: Scope<'a>, name: Span) -> Fault {
        let text = scope.octets(name);
        self.refuse(scope.place(name), &[b"the object lacks &", text])
    }
}

/// The name of an object and the names of fields behind it, from first to last.
pub(crate) fn span_of_field(object: &Reference, names: &[Span]) -> Span {
    let start = match object.module {
        Some(module) => module.start,
        None => object.name.start,
    };
    let end = match names.last() {
        Some(name) => name.end,
        None => object.name.end,
    };
    Span { start, end }
}

// The DEFAULT of a field of a class, with its module.
fn default_held<'r, 'a>(class: &'r ObjectClass<'a>, field: usize) -> Option<(Scope<'a>, &'r Held)> {
    let home = class.home?;
    let held = class.fields.get(field)?.default.as_ref()?;
    Some((scope_of(home), held))
}

// Whether octets are the name of an object alone.
fn is_object_name(octets: &[u8]) -> bool {
    match octets {
        [b'a'..=b'z', rest @ ..] => rest
            .iter()
            .all(|octet| octet.is_ascii_alphanumeric() || *octet == b'-'),
        _ => false,
    }
}
