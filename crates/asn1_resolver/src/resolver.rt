//! The state of a run.
use crate::base::Base;
use crate::definitions::Definitions;
use crate::fault::Fault;
use crate::finder::Finder;
use crate::instances::Instances;
use crate::relations::Enclosing;
use crate::tables::UsedSet;
use asn1_modules::NameMessages;
use asn1_names::{Names, Place};
use asn1_objects::Objects;
use asn1_resolved::{Problem, Severity};
use std::alloc::{AllocError, Global};
use std::collections::HashSet;

/// The definitions of a run, and the problems that were found.
#[derive(Drop)]
pub(crate) struct Resolver<'r, 'a> {
    /// The allocator.
    pub(crate) alloc: Global,
    /// The definitions.
    pub(crate) definitions: &'r Definitions<'a>,
    /// The names that are defined, imported and used.
    pub(crate) names: &'r Names<'a>,
    /// The finder of types.
    pub(crate) type_finder: Finder<'a>,
    /// The finder of values.
    pub(crate) value_finder: Finder<'a>,
    /// The finder of types that arguments complete.
    pub(crate) template_finder: Finder<'a>,
    /// The types that arguments complete, as far as they were met.
    pub(crate) instances: Instances<'r, 'a>,
    /// The objects and object sets.
    pub(crate) objects: &'r Objects<'a>,
    /// The object sets that types name, as they were met.
    pub(crate) used_sets: Vec<UsedSet<'a>>,
    /// Those of which it is known that they are used, with their modules and the fields that tell their rows.
    pub(crate) known_sets: HashSet<(&'a [u8], &'a [u8], &'a [u8])>,
    /// The SEQUENCEs and SETs that are resolved, the innermost last.
    pub(crate) enclosing: Vec<Enclosing<'r, 'a>>,
    /// Whether errors are warnings: no type needs the object that is read.
    pub(crate) is_lenient: bool,
    /// The type behind the references and tags of each definition of a type, as far as they were followed.
    pub(crate) bases: Vec<Base<'r, 'a>>,
    /// The messages about names.
    pub(crate) messages: NameMessages<'r, 'a>,
    /// How many values were read inside the present one.
    pub(crate) values_read: usize,
    // The problems.
    problems: Vec<Problem>,
    // The texts and the offsets at which there are errors and warnings.
    errors: HashSet<(usize, usize)>,
    warnings: HashSet<(usize, usize)>,
}

impl<'r, 'a> Resolver<'r, 'a> {
    /// The beginning of a run. The error is that of memory.
    pub(crate) fn new(
        alloc: Global,
        definitions: &'r Definitions<'a>,
        names: &'r Names<'a>,
        objects: &'r Objects<'a>,
    ) -> Result<Resolver<'r, 'a>, AllocError> {
        let mut bases: Vec<Base<'r, 'a>> = Vec::new(alloc);
        for _ in &definitions.types {
            bases.push(Base::Unknown)?;
        }
        Ok(Resolver {
            alloc,
            definitions,
            names,
            type_finder: Finder::of(alloc, &definitions.types, &names.imported)?,
            value_finder: Finder::of(alloc, &definitions.values, &names.imported)?,
            template_finder: Finder::of(alloc, &definitions.templates, &names.imported)?,
            instances: Instances::new(alloc, definitions.types.len()),
            objects,
            used_sets: Vec::new(alloc),
            known_sets: HashSet::new(alloc),
            enclosing: Vec::new(alloc),
            is_lenient: false,
            bases,
            messages: NameMessages::new(alloc, names)?,
            values_read: 0,
            problems: Vec::new(alloc),
            errors: HashSet::new(alloc),
            warnings: HashSet::new(alloc),
        })
    }

    /// Whether there is a problem of this severity at the place.
    pub(crate) fn is_reported(&self, place: Place, severity: Severity) -> bool {
        let begin = (place.text, place.span.start);
        match severity {
            Severity::Error => self.errors.contains(&begin),
            Severity::Warning => self.warnings.contains(&begin),
        }
    }

    /// Whether there is an error.
    pub(crate) fn has_errors(&self) -> bool {
        !self.errors.is_empty()
    }

    // Keeps that there is a problem of this severity at the place, and answers whether it is the first.
    fn is_first(&mut self, place: Place, severity: Severity) -> Result<bool, AllocError> {
        let begin = (place.text, place.span.start);
        let is_new = match severity {
            Severity::Error => self.errors.insert(begin)?,
            Severity::Warning => self.warnings.insert(begin)?,
        };
        Ok(is_new)
    }

    /// Adds a problem, unless there is one of this severity at the place.
    pub(crate) fn report(
        &mut self,
        place: Place,
        severity: Severity,
        parts: &[&[u8]],
    ) -> Result<(), AllocError> {
        let severity = if self.is_lenient {
            Severity::Warning
        } else {
            severity
        };
        if self.is_first(place, severity)? {
            let text = join(self.alloc, parts)?;
            self.problems.push(Problem {
                place,
                severity,
                text,
            })?;
        }
        Ok(())
    }

    /// The problems, in the order of their places.
    pub(crate) fn into_problems(self) -> Result<Vec<Problem>, AllocError> {
        let Resolver { mut problems, .. } = self;
        problems.sort_by_key(|problem| (problem.place.text, problem.place.span.start))?;
        Ok(problems)
    }

    /// Adds an error, and answers the fault that it causes.
    pub(crate) fn refuse(&mut self, place: Place, parts: &[&[u8]]) -> Fault {
        match self.report(place, Severity::Error, parts) {
            Ok(()) => Fault::Refused,
            Err(_) => Fault::Memory,
        }
    }
}

/// How many octets of a part a message has.
const MAX_PART: usize = 1000;

// The text of some parts. A very long one, as of a name, is cut.
fn join(alloc: Global, parts: &[&[u8]]) -> Result<Vec<u8>, AllocError> {
    let mut text = Vec::new(alloc);
    for part in parts {
        text.extend_from_slice(part.get(..MAX_PART).unwrap_or(part))?;
    }
    Ok(text)
}
