//! References to definitions.
ghost use Rattle.std.specs.Prelude.{◌≡◌, ◌<◌, IfNone, IfSome, IsTrue, length};
ghost use Rattle.std.specs.List.{All, Any, HoldsAt, list_any, position};
ghost use Rattle.asn1_resolver.specs.References.{IsImportOf, IsMeant, Reaches};
ghost use Rattle.asn1_resolver.specs.References as spec;

use crate::definitions::Defined;
use crate::fault::Fault;
use crate::finder::{Candidate, Finder};
use crate::governed::{Governed, Scope, Written};
use crate::resolver::Resolver;
use asn1_names::{ImportedName, NameProblem, UsedName};
use asn1_notation::{Reference, TypeKind};
use asn1_resolved::Severity;
use std::alloc::AllocError;

impl<'r, 'a> Resolver<'r, 'a> {
    /// The index of the type of this name.
    pub(crate) fn find_type(
        &mut self,
        scope: Scope<'a>,
        reference: &Reference,
    ) -> Result<usize, Fault> {
        match self.index_of_type(scope, reference) {
            Some(index) => Ok(index),
            None => Err(self.refuse_undefined(scope, reference)),
        }
    }

    /// The index of the type of this name, if there is one.
    pub(crate) fn index_of_type(&self, scope: Scope<'a>, reference: &Reference) -> Option<usize> {
        find(
            &self.type_finder,
            self.definitions.types.as_slice(),
            self.names.imported.as_slice(),
            &scope.used_name(reference),
        )
    }

    /// The index of the type of this name that arguments complete.
    pub(crate) fn index_of_template(
        &self,
        scope: Scope<'a>,
        reference: &Reference,
    ) -> Option<usize> {
        find(
            &self.template_finder,
            self.definitions.templates.as_slice(),
            self.names.imported.as_slice(),
            &scope.used_name(reference),
        )
    }

    /// The type of this name.
    pub(crate) fn referenced(
        &mut self,
        scope: Scope<'a>,
        reference: &Reference,
    ) -> Result<Governed<'r, 'a>, Fault> {
        let index = self.find_type(scope, reference)?;
        self.type_at(scope, reference, index)
    }

    /// The type of this index, to which a reference is.
    pub(crate) fn type_at(
        &mut self,
        scope: Scope<'a>,
        reference: &Reference,
        index: usize,
    ) -> Result<Governed<'r, 'a>, Fault> {
        match self.definitions.types.get(index) {
            Some(defined) => Ok(defined.governed()),
            None => Err(self.refuse_undefined(scope, reference)),
        }
    }

    /// The value of this name.
    pub(crate) fn find_value(
        &mut self,
        scope: Scope<'a>,
        reference: &Reference,
    ) -> Result<(Governed<'r, 'a>, Written<'r, 'a>), Fault> {
        if let Some(governor) = self.governor_of(scope, reference) {
            return match self.argument_value(scope, reference) {
                Some(written) => Ok((governor, written)),
                None => Err(self.refuse_braces(scope, reference)),
            };
        }
        match self.index_of_value(scope, reference) {
            Some(index) => self.value_at(scope, reference, index),
            None => Err(self.refuse_undefined(scope, reference)),
        }
    }

    // Refuses the argument of a parameter that is a value: it is in braces.
    fn refuse_braces(&mut self, scope: Scope<'a>, reference: &Reference) -> Fault {
        let place = scope.place(reference.name);
        if self.is_reported(place, Severity::Error) {
            return Fault::Refused;
        }
        let name = scope.octets(reference.name);
        self.refuse(
            place,
            &[
                b"an argument in braces for the value '",
                name,
                b"' is not supported",
            ],
        )
    }

    // The type of a parameter that is a value.
    fn governor_of(&self, scope: Scope<'a>, reference: &Reference) -> Option<Governed<'r, 'a>> {
        let bound = self.instances.argument(scope, reference)?;
        match &bound.parameter.governor {
            Some(definition) => Some(Governed { scope, definition }),
            None => None,
        }
    }

    /// The index of the value of this name.
    pub(crate) fn index_of_value(&self, scope: Scope<'a>, reference: &Reference) -> Option<usize> {
        find(
            &self.value_finder,
            self.definitions.values.as_slice(),
            self.names.imported.as_slice(),
            &scope.used_name(reference),
        )
    }

    // The value of this index.
    fn value_at(
        &mut self,
        scope: Scope<'a>,
        reference: &Reference,
        index: usize,
    ) -> Result<(Governed<'r, 'a>, Written<'r, 'a>), Fault> {
        let defined = self.definitions.values.get(index);
        let value = self.definitions.contents.get(index);
        match (defined, value) {
            (Some(defined), Some(value)) => {
                let governed = defined.governed();
                let scope = governed.scope;
                Ok((governed, Written { scope, value }))
            }
            _ => Err(self.refuse_undefined(scope, reference)),
        }
    }

    /// The value of this name, which may be an item of a type.
    pub(crate) fn find_value_of(
        &mut self,
        base: Governed<'r, 'a>,
        scope: Scope<'a>,
        reference: &Reference,
    ) -> Result<(Governed<'r, 'a>, Written<'r, 'a>), Fault> {
        if self.governor_of(scope, reference).is_some() {
            return self.find_value(scope, reference);
        }
        match (&base.definition.kind, self.index_of_value(scope, reference)) {
            (TypeKind::Enumerated(_), None) => Err(self.refuse(
                scope.place(reference.name),
                &[
                    b"the ENUMERATED has no item '",
                    scope.octets(reference.name),
                    b"'",
                ],
            )),
            _ => self.find_value(scope, reference),
        }
    }

    /// Refuses a name that is not defined, or is that of a definition of another kind.
    pub(crate) fn refuse_undefined(&mut self, scope: Scope<'a>, reference: &Reference) -> Fault {
        let place = scope.place(reference.name);
        if self.is_reported(place, Severity::Error) {
            return Fault::Refused;
        }
        if let Some(other) = self.other_kind(scope, reference) {
            return self.refuse_other(scope, reference, other);
        }
        if let Some(index) = self.index_of_template(scope, reference) {
            return self.refuse_bare(scope, reference, index);
        }
        let used = NameProblem::Undefined(scope.used_name(reference));
        match self.name_text(&used) {
            Ok(text) => self.refuse(place, &[text.as_slice()]),
            Err(_) => Fault::Memory,
        }
    }

    // The kind of a name that is neither that of a type nor of a value.
    fn other_kind(&self, scope: Scope<'a>, reference: &Reference) -> Option<&'static str> {
        let used = scope.used_name(reference);
        if self.class_of_name(scope, reference).is_some() {
            Some("is an information object class")
        } else if self
            .definitions
            .classes
            .is_skipped(used.module, used.qualifier, used.name)
        {
            Some("is an object, an object set or a macro, or is defined by one, and not read")
        } else {
            None
        }
    }

    // Refuses a name that is that of another kind of definition.
    fn refuse_other(
        &mut self,
        scope: Scope<'a>,
        reference: &Reference,
        other: &'static str,
    ) -> Fault {
        match format!(in self.alloc; "' {other}") {
            Ok(text) => self.refuse(
                scope.place(reference.name),
                &[b"'", scope.octets(reference.name), text.as_bytes()],
            ),
            Err(_) => Fault::Memory,
        }
    }

    // Refuses the name of a template without arguments.
    fn refuse_bare(&mut self, scope: Scope<'a>, reference: &Reference, index: usize) -> Fault {
        let parameters = match self.definitions.templates.get(index) {
            Some(template) => template.parameters.len(),
            None => 0,
        };
        match self.require_count(scope, reference, parameters, 0) {
            Ok(()) => Fault::Refused,
            Err(fault) => fault,
        }
    }

    /// The text of what is wrong with a name.
    pub(crate) fn name_text(&mut self, problem: &NameProblem<'a>) -> Result<Vec<u8>, AllocError> {
        let mut text = Vec::new(self.alloc);
        self.messages.append(&mut text, problem)?;
        Ok(text)
    }
}

// The index of the definition that a reference is to (X.680, 13.16 and 14.1): one of the module that it names; or else of its
// own module, or of one from which its own module imports the name.
fn find(
    finder: &Finder<'_>,
    list: &[Defined<'_>],
    imported: &[ImportedName<'_>],
    used: &UsedName<'_>,
) -> Option<usize>
    // The reference can be to the definition at the index.
    ensures within { IfSome result (λ index. index < length list.now) }
    ensures meant { IfSome result (HoldsAt (IsMeant imported.now used.now) list.now) }
    // Without an index there is no such definition.
    ensures undefined { IfNone result (
        All (λ defined. ¬ IsMeant imported.now used.now defined) list.now) }
{
    match finder.candidate(used) {
        Some(candidate) if is_meant(candidate, list, imported, used) => Some(candidate.definition),
        _ => search(list, imported, used),
    }
}

// Whether a reference can be to the definition of a candidate.
fn is_meant(
    candidate: Candidate,
    list: &[Defined<'_>],
    imported: &[ImportedName<'_>],
    used: &UsedName<'_>,
) -> bool
    ensures within { IsTrue result → candidate.definition < length list.now }
    ensures meant { IsTrue result →
        HoldsAt (IsMeant imported.now used.now) list.now candidate.definition }
{
    match list.get(candidate.definition) {
        Some(defined) => {
            defined.name == used.name && is_reached(candidate.import, defined, imported, used)
        }
        None => false,
    }
}

// Whether a reference reaches the module of a definition, by an import if one is named.
fn is_reached(
    import: Option<usize>,
    defined: &Defined<'_>,
    imported: &[ImportedName<'_>],
    used: &UsedName<'_>,
) -> bool
    ensures { IsTrue result →
        Reaches imported.now used.now defined.now.scope.name.now used.now.qualifier }
{
    match used.qualifier {
        Some(module) => defined.scope.name == module,
        None => match import {
            None => defined.scope.name == used.module,
            Some(index) => is_brought_in(index, defined.scope.name, imported, used),
        },
    }
}

// Whether the import of an index is of the name of a reference, by its module, from this module.
fn is_brought_in(
    index: usize,
    module: &[u8],
    imported: &[ImportedName<'_>],
    used: &UsedName<'_>,
) -> bool
    ensures { IsTrue result → Any (IsImportOf used.now «module».now) imported.now }
{
    match imported.get(index) {
        Some(import) => is_import_of(import, used, module),
        None => false,
    }
}

// The same index as that of `find`, by a look at each definition.
fn search(list: &[Defined<'_>], imported: &[ImportedName<'_>], used: &UsedName<'_>) -> Option<usize>
    ensures within { IfSome result (λ index. index < length list.now) }
    ensures meant { IfSome result (HoldsAt (IsMeant imported.now used.now) list.now) }
    ensures undefined { IfNone result (
        All (λ defined. ¬ IsMeant imported.now used.now defined) list.now) }
{
    match used.qualifier {
        Some(module) => index_in(list, module, used.name),
        None => match index_in(list, used.module, used.name) {
            Some(index) => Some(index),
            None => index_of_import(list, imported, used),
        },
    }
}

// The index of the first definition of a name in a module.
fn index_in(list: &[Defined<'_>], module: &[u8], name: &[u8]) -> Option<usize>
    ensures { result ≡ position (spec.has_name «module».now name.now) list.now }
{
    list.iter()
        .position(|defined| has_name(defined, module, name))
}

// The index of the first definition of the name of a reference in a module from which its own module imports the name.
fn index_of_import(
    list: &[Defined<'_>],
    imported: &[ImportedName<'_>],
    used: &UsedName<'_>,
) -> Option<usize>
    ensures { result ≡ position (spec.is_provided imported.now used.now) list.now }
{
    list.iter()
        .position(|defined| is_provided(imported, used, defined))
}

// Whether the definition has this name, and is in this module.
fn has_name(defined: &Defined<'_>, module: &[u8], name: &[u8]) -> bool
    ensures { result ≡ spec.has_name «module».now name.now defined.now }
{
    defined.scope.name == module && defined.name == name
}

// Whether the definition has the name of a reference, and is in a module from which that of the reference imports it.
fn is_provided(imported: &[ImportedName<'_>], used: &UsedName<'_>, defined: &Defined<'_>) -> bool
    ensures { result ≡ spec.is_provided imported.now used.now defined.now }
{
    defined.name == used.name && is_imported(imported, used, defined.scope.name)
}

// Whether the module of a reference imports its name from this module.
fn is_imported(imported: &[ImportedName<'_>], used: &UsedName<'_>, module: &[u8]) -> bool
    ensures { result ≡ list_any (spec.is_import_of used.now «module».now) imported.now }
{
    imported
        .iter()
        .any(|import| is_import_of(import, used, module))
}

// Whether this is an import of the name of a reference, by its module, from this module.
fn is_import_of(import: &ImportedName<'_>, used: &UsedName<'_>, module: &[u8]) -> bool
    ensures { result ≡ spec.is_import_of used.now «module».now import.now }
{
    import.module == used.module && import.name == used.name && import.from == module
}
