//! Object sets that types name, and definitions that are not read.
use crate::fault::Fault;
use crate::governed::Scope;
use crate::resolver::Resolver;
use crate::tables::UsedSet;
use asn1_modules::{Source, is_known_class};
use asn1_notation::{Assignment, Definition, Reference, Span};
use asn1_resolved::Severity;
use std::alloc::AllocError;
use std::collections::HashSet;

impl<'r, 'a> Resolver<'r, 'a> {
    /// Keeps that a type names an object set, from brace to brace, and the field of its class that tells the row, if a component is
    /// named. The name of a parameter is no such set.
    pub(crate) fn keep_set(
        &mut self,
        scope: Scope<'a>,
        set: Span,
        key: Option<&'a [u8]>,
    ) -> Result<(), Fault> {
        let (qualifier, name) = name_in(scope.octets(set));
        let is_set = self
            .definitions
            .classes
            .is_skipped(scope.name, qualifier, name);
        let module = qualifier.unwrap_or(scope.name);
        let field = key.unwrap_or(b"");
        if is_set && self.known_sets.insert((module, name, field))? {
            self.used_sets.push(UsedSet {
                module,
                name,
                place: scope.place(set),
                key,
            })?;
        }
        Ok(())
    }

    /// Warns of macros and of what they define, and of objects whose class is not there.
    pub(crate) fn report_skipped(&mut self, sources: &[Source<'a>]) -> Result<(), AllocError> {
        let mut classes = HashSet::new(self.alloc);
        for (index, source) in sources.iter().enumerate() {
            for module in source.modules {
                let scope = Scope::of(source.text, index, module);
                for assignment in &module.assignments {
                    self.report_definition(scope, assignment, &mut classes)?;
                }
            }
        }
        Ok(())
    }

    // Warns of a definition, if it is not read; of a class that is not there, once in a module.
    fn report_definition(
        &mut self,
        scope: Scope<'a>,
        assignment: &Assignment,
        classes: &mut HashSet<(&'a [u8], &'a [u8])>,
    ) -> Result<(), AllocError> {
        let place = scope.place(assignment.name);
        let name = scope.octets(assignment.name);
        match &assignment.definition {
            Definition::Macro(_) => self.report(
                place,
                Severity::Warning,
                &[
                    b"'",
                    name,
                    b"' is a macro, or is defined by one, and not read",
                ],
            ),
            Definition::Object(class, _) => {
                let class_name = scope.octets(class.name);
                if is_known_class(class_name) || self.class_of_name(scope, class).is_some() {
                    return Ok(());
                }
                if self.index_of_type(scope, class).is_some() {
                    return self.refuse_values(scope, class, name);
                }
                if !classes.insert((scope.name, class_name))? {
                    return Ok(());
                }
                self.report(
                    place,
                    Severity::Warning,
                    &[
                        b"class '",
                        class_name,
                        b"' is not among the files, so '",
                        name,
                        b"' and other objects of it are not read",
                    ],
                )
            }
            _ => Ok(()),
        }
    }

    // Refuses braces that hold no value of a type.
    fn refuse_values(
        &mut self,
        scope: Scope<'a>,
        governor: &Reference,
        name: &[u8],
    ) -> Result<(), AllocError> {
        self.report(
            scope.place(governor.name),
            Severity::Error,
            &[
                b"'",
                scope.octets(governor.name),
                b"' is a type: what is in the braces of '",
                name,
                b"' is no value of it; write a set of values as a constraint",
            ],
        )
    }
}

// The name of a set in braces, with its module, if there is no more than a name in them.
fn name_in(braced: &[u8]) -> (Option<&[u8]>, &[u8]) {
    let name = match braced {
        [b'{', inner @ .., b'}'] => inner.trim_ascii(),
        _ => braced,
    };
    match name.iter().position(|octet| *octet == b'.') {
        Some(dot) => match name.split_at_checked(dot) {
            Some((module, [_, rest @ ..])) => (Some(module), rest),
            _ => (None, name),
        },
        None => (None, name),
    }
}
