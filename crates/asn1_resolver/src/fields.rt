//! Fields of information object classes (X.681, 14).
use crate::fault::Fault;
use crate::governed::{Governed, Scope};
use crate::resolver::Resolver;
use asn1_modules::{FoundClass, is_known_class};
use asn1_notation::{Argument, Class, ClassField, FieldKind, Reference, Span, Type, TypeKind};

// How many names a class may have.
const MAX_ALIASES: usize = 100;

/// The type of a field.
#[derive(Clone, Copy)]
pub(crate) enum FieldType<'r, 'a> {
    /// An open type.
    Open,
    /// OBJECT IDENTIFIER, of a class of the language.
    ObjectIdentifier,
    /// This type.
    Fixed(Governed<'r, 'a>),
}

// The contents of a field.
#[derive(Clone, Copy)]
enum Held<'r, 'a> {
    // A type.
    Type(FieldType<'r, 'a>),
    // A value of this type, or an object of this class.
    Fixed(Scope<'a>, &'r Type),
}

// A class.
#[derive(Clone, Copy)]
enum Fields<'r, 'a> {
    // One of the language (X.681, annexes A and B), by its name.
    Known(&'a [u8]),
    // One of a module, with its fields.
    Listed(Scope<'a>, &'r [ClassField]),
}

impl<'r, 'a> Resolver<'r, 'a> {
    /// The type of the field to which names lead from a class, or the type in a field of an object.
    pub(crate) fn field_type(
        &mut self,
        scope: Scope<'a>,
        class: &Reference,
        names: &[Span],
    ) -> Result<FieldType<'r, 'a>, Fault> {
        if matches!(scope.octets(class.name), [b'a'..=b'z', ..]) {
            return self.type_of_object(scope, class, names);
        }
        let mut class_scope = scope;
        let mut class = *class;
        for name in names {
            let (found, definition) = match self.field(scope, class_scope, &class, *name)? {
                Held::Type(held) => return Ok(held),
                Held::Fixed(found, definition) => (found, definition),
            };
            match self.class_named(found, definition) {
                Some(reference) => {
                    class_scope = found;
                    class = reference;
                }
                None => {
                    return Ok(FieldType::Fixed(Governed {
                        scope: found,
                        definition,
                    }));
                }
            }
        }
        Err(self.refuse(
            class_scope.place(class.name),
            &[
                b"the field holds objects of class '",
                class_scope.octets(class.name),
                b"', and no type",
            ],
        ))
    }

    // The contents of the field of this name.
    fn field(
        &mut self,
        scope: Scope<'a>,
        class_scope: Scope<'a>,
        class: &Reference,
        name: Span,
    ) -> Result<Held<'r, 'a>, Fault> {
        let (found, fields) = match self.find_class(class_scope, *class) {
            Some(Fields::Known(_)) => return self.known_field(scope, class_scope, class, name),
            Some(Fields::Listed(found, fields)) => (found, fields),
            None => return Err(self.refuse_class(class_scope, class)),
        };
        match find_field(found, fields, scope.octets(name)) {
            Some(FieldKind::Type) => Ok(Held::Type(FieldType::Open)),
            Some(FieldKind::Fixed(definition)) => Ok(Held::Fixed(found, definition)),
            Some(FieldKind::Variable(_)) => Err(self.refuse(
                scope.place(name),
                &[b"a field whose type another field tells is not supported"],
            )),
            None => Err(self.refuse_field(scope, class_scope, class, name)),
        }
    }

    // The type of a field of a class of the language.
    fn known_field(
        &mut self,
        scope: Scope<'a>,
        class_scope: Scope<'a>,
        class: &Reference,
        name: Span,
    ) -> Result<Held<'r, 'a>, Fault> {
        match scope.octets(name) {
            b"id" => Ok(Held::Type(FieldType::ObjectIdentifier)),
            b"Type" => Ok(Held::Type(FieldType::Open)),
            _ => Err(self.refuse_field(scope, class_scope, class, name)),
        }
    }

    // The class of a name, behind other names and parameters.
    fn find_class(&self, scope: Scope<'a>, reference: Reference) -> Option<Fields<'r, 'a>> {
        let mut scope = scope;
        let mut reference = reference;
        for _ in 0..MAX_ALIASES {
            if let Some(bound) = self.instances.argument(scope, &reference) {
                let Argument::Type(definition) = bound.argument else {
                    return None;
                };
                let TypeKind::Reference(class) = &definition.kind else {
                    return None;
                };
                scope = bound.scope;
                reference = *class;
                continue;
            }
            let name = scope.octets(reference.name);
            if reference.module.is_none() && is_known_class(name) {
                return Some(Fields::Known(name));
            }
            let found = self.class_of_name(scope, &reference)?;
            match found.class {
                Class::Fields(fields, _) => {
                    return Some(Fields::Listed(scope_of(found), fields.as_slice()));
                }
                Class::Alias(class) => {
                    scope = scope_of(found);
                    reference = *class;
                }
            }
        }
        None
    }

    /// The class that is defined under a name.
    pub(crate) fn class_of_name(
        &self,
        scope: Scope<'a>,
        reference: &Reference,
    ) -> Option<FoundClass<'a>> {
        let qualifier = match reference.module {
            Some(module) => Some(scope.octets(module)),
            None => None,
        };
        self.definitions
            .classes
            .find(scope.name, qualifier, scope.octets(reference.name))
    }

    /// Whether a name is that of a class.
    pub(crate) fn is_class(&self, scope: Scope<'a>, reference: Reference) -> bool {
        self.find_class(scope, reference).is_some()
    }

    /// Refuses what is not TYPE-IDENTIFIER, by its own name or another.
    pub(crate) fn require_type_identifier(
        &mut self,
        scope: Scope<'a>,
        definition: &'r Type,
    ) -> Result<(), Fault> {
        let TypeKind::Reference(class) = &definition.kind else {
            return Ok(());
        };
        match self.find_class(scope, *class) {
            Some(Fields::Known(b"TYPE-IDENTIFIER")) => Ok(()),
            Some(_) => Err(self.refuse(
                scope.place(class.name),
                &[
                    b"INSTANCE OF is of TYPE-IDENTIFIER, and '",
                    scope.octets(class.name),
                    b"' is another class",
                ],
            )),
            None => Err(self.refuse_class(scope, class)),
        }
    }

    /// Whether a name is one of a class of the language.
    pub(crate) fn is_of_language(&self, scope: Scope<'a>, reference: Reference) -> bool {
        matches!(self.find_class(scope, reference), Some(Fields::Known(_)))
    }

    /// The text and the offset of the definition of a class.
    pub(crate) fn start_of_class(
        &self,
        scope: Scope<'a>,
        reference: Reference,
    ) -> Option<(usize, usize)> {
        let found = self.class_of_name(scope, &reference)?;
        Some((found.source, found.place.start))
    }

    // The class that a field has in place of a type.
    fn class_named(&self, scope: Scope<'a>, definition: &Type) -> Option<Reference> {
        match &definition.kind {
            TypeKind::Reference(reference) if self.is_class(scope, *reference) => Some(*reference),
            _ => None,
        }
    }

    // Refuses what is no class.
    fn refuse_class(&mut self, scope: Scope<'a>, reference: &Reference) -> Fault {
        if self.index_of_type(scope, reference).is_none() {
            return self.refuse_undefined(scope, reference);
        }
        let name = scope.octets(reference.name);
        self.refuse(
            scope.place(reference.name),
            &[b"'", name, b"' is no information object class"],
        )
    }

    // Refuses a field that a class does not have.
    fn refuse_field(
        &mut self,
        scope: Scope<'a>,
        class_scope: Scope<'a>,
        class: &Reference,
        name: Span,
    ) -> Fault {
        self.refuse(
            scope.place(name),
            &[
                b"class '",
                class_scope.octets(class.name),
                b"' has no field '&",
                scope.octets(name),
                b"'",
            ],
        )
    }
}

// The module of a class.
fn scope_of(found: FoundClass<'_>) -> Scope<'_> {
    Scope::of(found.text, found.source, found.module)
}

// The contents of the field of this name.
fn find_field<'r, 'a>(
    scope: Scope<'a>,
    fields: &'r [ClassField],
    name: &[u8],
) -> Option<&'r FieldKind> {
    for field in fields {
        if scope.octets(field.name) == name {
            return Some(&field.kind);
        }
    }
    None
}
