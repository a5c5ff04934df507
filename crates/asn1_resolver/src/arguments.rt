//! Names with arguments.
use crate::definitions::Defined;
use crate::fault::Fault;
use crate::governed::{Governed, Scope, Written};
use crate::resolver::Resolver;
use asn1_notation::{Argument, Parameter, Reference, TypeKind, ValueKind};
use asn1_notation_text::type_word;
use std::alloc::AllocError;

/// The meaning of a name with arguments.
#[derive(Clone, Copy)]
pub(crate) enum Meant {
    /// The definition of this index: its parameters are objects and object sets, so no argument changes it.
    Definition(usize),
    /// The instance of this index.
    Instance(usize),
}

// A name with its arguments.
#[derive(Clone, Copy)]
struct Use<'r, 'a> {
    // The module.
    scope: Scope<'a>,
    // The name.
    reference: Reference,
    // The arguments.
    arguments: &'r [Argument],
}

impl<'r, 'a> Resolver<'r, 'a> {
    /// The index in the schema of a type with arguments.
    #[cycle(instances)]
    pub(crate) fn completed_type(
        &mut self,
        scope: Scope<'a>,
        reference: &Reference,
        arguments: &'r [Argument],
        depth: usize,
    ) -> Result<usize, Fault> {
        match self.meant(scope, reference, arguments, None, depth)? {
            Meant::Definition(index) => Ok(index),
            Meant::Instance(index) => match self.instances.get(index) {
                Some(instance) => Ok(instance.reference),
                None => Err(Fault::Refused),
            },
        }
    }

    /// The meaning of a name with arguments. A definition of an index can be its home, unless an earlier one is the same type.
    #[cycle(instances)]
    pub(crate) fn meant(
        &mut self,
        scope: Scope<'a>,
        reference: &Reference,
        arguments: &'r [Argument],
        home: Option<usize>,
        depth: usize,
    ) -> Result<Meant, Fault> {
        let Some(depth) = depth.checked_sub(1) else {
            return Err(self.refuse(scope.place(reference.name), &[b"types are nested too deep"]));
        };
        let named = Use {
            scope,
            reference: *reference,
            arguments,
        };
        match self.find_template(named) {
            Some((index, template)) => self.meant_instance(named, index, template, home, depth),
            None => self.meant_definition(named),
        }
    }

    // The definition of a name whose arguments are objects and object sets.
    fn meant_definition(&mut self, named: Use<'r, 'a>) -> Result<Meant, Fault> {
        let index = self.find_type(named.scope, &named.reference)?;
        self.require_objects(named, index)?;
        Ok(Meant::Definition(index))
    }

    // The instance of the template of an index.
    #[cycle(instances)]
    fn meant_instance(
        &mut self,
        named: Use<'r, 'a>,
        index: usize,
        template: Defined<'a>,
        home: Option<usize>,
        depth: usize,
    ) -> Result<Meant, Fault> {
        self.require_arguments(named, template)?;
        self.require_class(named)?;
        let key = self.key_of(named, index, depth)?;
        match self.instances.find(key.as_slice()) {
            Some(known) => Ok(Meant::Instance(known)),
            None => self.new_instance(named, key, template, home),
        }
    }

    // Adds an instance.
    fn new_instance(
        &mut self,
        named: Use<'r, 'a>,
        key: Vec<u8>,
        template: Defined<'a>,
        home: Option<usize>,
    ) -> Result<Meant, Fault> {
        if self.instances.is_full(named.scope) {
            return Err(self.refuse(
                named.scope.place(named.reference.name),
                &[
                    b"'",
                    template.name,
                    b"' is made of itself with ever new arguments",
                ],
            ));
        }
        let index = self
            .instances
            .add(key, template, named.scope, named.arguments, home)?;
        Ok(Meant::Instance(index))
    }

    // The template of this name, with its index.
    fn find_template(&self, named: Use<'r, 'a>) -> Option<(usize, Defined<'a>)> {
        let index = self.index_of_template(named.scope, &named.reference)?;
        let template = self.definitions.templates.get(index)?;
        Some((index, *template))
    }

    // Refuses arguments of a definition whose parameters are others than objects and object sets.
    fn require_objects(&mut self, named: Use<'r, 'a>, index: usize) -> Result<(), Fault> {
        let parameters = match self.definitions.types.get(index) {
            Some(defined) => defined.parameters,
            None => &[],
        };
        self.require_count(
            named.scope,
            &named.reference,
            parameters.len(),
            named.arguments.len(),
        )?;
        for argument in named.arguments {
            if let Argument::Braced(span) = argument {
                self.keep_set(named.scope, *span, None)?;
            }
        }
        Ok(())
    }

    /// Refuses a number of arguments that is not that of the parameters.
    pub(crate) fn require_count(
        &mut self,
        scope: Scope<'a>,
        reference: &Reference,
        parameters: usize,
        arguments: usize,
    ) -> Result<(), Fault> {
        if parameters == arguments {
            return Ok(());
        }
        let place = scope.place(reference.name);
        let name = scope.octets(reference.name);
        if parameters == 0 {
            return Err(self.refuse(place, &[b"'", name, b"' has no parameters"]));
        }
        let of = if parameters == 1 {
            "parameter"
        } else {
            "parameters"
        };
        let given = match arguments {
            0 => format!(in self.alloc; "no argument is given")?,
            1 => format!(in self.alloc; "1 argument is given")?,
            _ => format!(in self.alloc; "{arguments} arguments are given")?,
        };
        let text = format!(in self.alloc; "' has {parameters} {of}, and ")?;
        Err(self.refuse(place, &[b"'", name, text.as_bytes(), given.as_bytes()]))
    }

    // Refuses arguments that are not what the parameters of a template are.
    fn require_arguments(
        &mut self,
        named: Use<'r, 'a>,
        template: Defined<'a>,
    ) -> Result<(), Fault> {
        self.require_count(
            named.scope,
            &named.reference,
            template.parameters.len(),
            named.arguments.len(),
        )?;
        for (index, (parameter, argument)) in template
            .parameters
            .iter()
            .zip(named.arguments)
            .enumerate()
        {
            self.require_argument(named, template, index, parameter, argument)?;
        }
        Ok(())
    }

    // Refuses an argument that is not what its parameter is.
    fn require_argument(
        &mut self,
        named: Use<'r, 'a>,
        template: Defined<'a>,
        index: usize,
        parameter: &Parameter,
        argument: &'r Argument,
    ) -> Result<(), Fault> {
        let Some(wanted) = wanted_of(template.scope, parameter, argument) else {
            if let Argument::Braced(span) = argument {
                self.keep_set(named.scope, *span, None)?;
            }
            return Ok(());
        };
        let number = index.saturating_add(1);
        let front = format!(in self.alloc; "argument {number} of '")?;
        let behind = format!(in self.alloc; "' is {wanted}")?;
        let name = named.scope.octets(named.reference.name);
        Err(self.refuse(
            named.scope.place(named.reference.name),
            &[front.as_bytes(), name, behind.as_bytes()],
        ))
    }

    // Refuses INSTANCE OF a class that is not TYPE-IDENTIFIER (X.681, annex C).
    fn require_class(&mut self, named: Use<'r, 'a>) -> Result<(), Fault> {
        let is_instance_of = matches!(named.scope.octets(named.reference.name), b"INSTANCE");
        match named.arguments {
            [Argument::Type(definition)] if is_instance_of => {
                self.require_type_identifier(named.scope, definition)
            }
            _ => Ok(()),
        }
    }

    // Appends a number to a key.
    fn push_number(&mut self, key: &mut Vec<u8>, number: usize) -> Result<(), AllocError> {
        let text = format!(in self.alloc; "{number} ")?;
        key.extend_from_slice(text.as_bytes())?;
        Ok(())
    }

    // The key of an instance: the index of its template, and its arguments.
    #[cycle(instances)]
    fn key_of(
        &mut self,
        named: Use<'r, 'a>,
        template: usize,
        depth: usize,
    ) -> Result<Vec<u8>, Fault> {
        let mut key = Vec::new(self.alloc);
        self.push_number(&mut key, template)?;
        for argument in named.arguments {
            self.push_key(&mut key, named.scope, argument, depth)?;
        }
        Ok(key)
    }

    // Appends the key of an argument. It is empty for objects and sets, which change nothing of a type.
    #[cycle(instances)]
    fn push_key(
        &mut self,
        key: &mut Vec<u8>,
        scope: Scope<'a>,
        argument: &'r Argument,
        depth: usize,
    ) -> Result<(), Fault> {
        match argument {
            Argument::Type(definition) => {
                self.push_type_key(key, Governed { scope, definition }, depth)
            }
            Argument::Value(value) => {
                self.push_value_key(key, Written { scope, value })?;
                Ok(())
            }
            Argument::Braced(_) => Ok(()),
        }
    }

    // Appends the key of a type: its definition, its word, or its place.
    #[cycle(instances)]
    fn push_type_key(
        &mut self,
        key: &mut Vec<u8>,
        governed: Governed<'r, 'a>,
        depth: usize,
    ) -> Result<(), Fault> {
        let governed = self.behind_parameters(governed);
        let scope = governed.scope;
        if !governed.definition.constraints.is_empty() {
            self.push_place(key, scope, governed.definition.start)?;
            return Ok(());
        }
        match &governed.definition.kind {
            TypeKind::Reference(reference) => self.push_reference(key, scope, reference),
            TypeKind::Instance(reference, arguments) => {
                let index = self.completed_type(scope, reference, arguments.as_slice(), depth)?;
                key.push(b'T')?;
                self.push_number(key, index)?;
                Ok(())
            }
            kind if is_plain(kind) => {
                key.extend_from_slice(type_word(kind))?;
                key.push(b' ')?;
                Ok(())
            }
            _ => {
                self.push_place(key, scope, governed.definition.start)?;
                Ok(())
            }
        }
    }

    // Appends the key of a definition of a type or a class.
    fn push_reference(
        &mut self,
        key: &mut Vec<u8>,
        scope: Scope<'a>,
        reference: &Reference,
    ) -> Result<(), Fault> {
        if self.is_of_language(scope, *reference) {
            key.extend_from_slice(b"C ")?;
            return Ok(());
        }
        if let Some(start) = self.start_of_class(scope, *reference) {
            key.push(b'C')?;
            self.push_number(key, start.0)?;
            self.push_number(key, start.1)?;
            return Ok(());
        }
        let index = self.find_type(scope, reference)?;
        key.push(b'T')?;
        self.push_number(key, index)?;
        Ok(())
    }

    // Appends a place, which tells a type or a value from all others.
    fn push_place(
        &mut self,
        key: &mut Vec<u8>,
        scope: Scope<'a>,
        start: usize,
    ) -> Result<(), AllocError> {
        key.push(b'P')?;
        self.push_number(key, scope.source)?;
        self.push_number(key, start)?;
        match scope.instance {
            Some(instance) => self.push_number(key, instance),
            None => Ok(()),
        }
    }

    // Appends the key of a value.
    fn push_value_key(
        &mut self,
        key: &mut Vec<u8>,
        written: Written<'r, 'a>,
    ) -> Result<(), AllocError> {
        let written = self.behind_value_parameters(written);
        let scope = written.scope;
        match &written.value.kind {
            ValueKind::Number(number) => {
                key.extend_from_slice(if number.is_negative { b"N-" } else { b"N" })?;
                key.extend_from_slice(scope.octets(number.digits))?;
                key.push(b' ')?;
                Ok(())
            }
            ValueKind::Reference(reference) => match self.index_of_value(scope, reference) {
                Some(index) => {
                    key.push(b'V')?;
                    self.push_number(key, index)
                }
                None => {
                    let (source, start) = self.place_of_object(scope, reference, written);
                    self.push_object(key, source, start)
                }
            },
            _ => self.push_place(key, scope, written.value.start),
        }
    }

    // Appends the place of the definition of an object.
    fn push_object(
        &mut self,
        key: &mut Vec<u8>,
        source: usize,
        start: usize,
    ) -> Result<(), AllocError> {
        key.push(b'O')?;
        self.push_number(key, source)?;
        self.push_number(key, start)
    }

    /// The type behind parameters that are arguments of others.
    pub(crate) fn behind_parameters(&self, governed: Governed<'r, 'a>) -> Governed<'r, 'a> {
        let mut current = governed;
        for _ in 0..MAX_PARAMETERS {
            match self.argument_type(current) {
                Some(argument) if current.definition.constraints.is_empty() => current = argument,
                _ => return current,
            }
        }
        current
    }

    /// The value behind parameters that are arguments of others.
    pub(crate) fn behind_value_parameters(&self, written: Written<'r, 'a>) -> Written<'r, 'a> {
        let mut current = written;
        for _ in 0..MAX_PARAMETERS {
            let next = match &current.value.kind {
                ValueKind::Reference(reference) => self.argument_value(current.scope, reference),
                _ => None,
            };
            match next {
                Some(argument) => current = argument,
                None => return current,
            }
        }
        current
    }

    /// The argument of a type that is the name of a parameter.
    pub(crate) fn argument_type(&self, governed: Governed<'r, 'a>) -> Option<Governed<'r, 'a>> {
        let TypeKind::Reference(reference) = &governed.definition.kind else {
            return None;
        };
        let bound = self.instances.argument(governed.scope, reference)?;
        match bound.argument {
            Argument::Type(definition) => Some(Governed {
                scope: bound.scope,
                definition,
            }),
            _ => None,
        }
    }

    /// The argument of a name that is that of a parameter, if it is a value.
    pub(crate) fn argument_value(
        &self,
        scope: Scope<'a>,
        reference: &Reference,
    ) -> Option<Written<'r, 'a>> {
        let bound = self.instances.argument(scope, reference)?;
        match bound.argument {
            Argument::Value(value) => Some(Written {
                scope: bound.scope,
                value,
            }),
            _ => None,
        }
    }

    /// Whether a type is the name of a parameter.
    pub(crate) fn is_parameter(&self, governed: Governed<'r, 'a>) -> bool {
        self.argument_type(governed).is_some()
    }
}

/// How often a parameter may be the argument for another.
const MAX_PARAMETERS: usize = 200;

// The kind that an argument should have, if it has another.
fn wanted_of(scope: Scope<'_>, parameter: &Parameter, argument: &Argument) -> Option<&'static str> {
    let is_value = match scope.octets(parameter.name) {
        [b'a'..=b'z', ..] => true,
        _ => false,
    };
    match (&parameter.governor, argument) {
        (None, Argument::Type(_)) | (Some(_), Argument::Braced(_)) => None,
        (Some(_), Argument::Value(_)) if is_value => None,
        (None, _) => Some("a type"),
        (Some(_), _) if is_value => Some("a value"),
        (Some(_), _) => Some("a set, in braces of its own"),
    }
}

// Whether the word for a type is all of it.
fn is_plain(kind: &TypeKind) -> bool {
    match kind {
        TypeKind::Boolean | TypeKind::Null | TypeKind::OctetString => true,
        TypeKind::ObjectIdentifier | TypeKind::String(_) | TypeKind::Contents(_) => true,
        TypeKind::Integer(names) | TypeKind::BitString(names) => names.is_empty(),
        _ => false,
    }
}
