//! What is left out of a run, since its notation is in error.
use crate::job::Input;
use asn1_grammar::Parsed;
use asn1_names::{Names, check_names};
use asn1_resolved::{Problem, Severity};
use std::alloc::{AllocError, Global};
use std::collections::HashSet;

/// What was not read of some texts.
#[derive(Drop)]
pub(crate) struct LeftOut<'a> {
    // The names of the definitions that are in error.
    names: HashSet<&'a [u8]>,
    // The texts and the offsets of the names that no definition has, if a text was not read to its end.
    places: HashSet<(usize, usize)>,
}

impl<'a> LeftOut<'a> {
    /// What was not read of texts, of which these names were.
    pub(crate) fn of(
        alloc: Global,
        inputs: &'a [Input],
        parsed: &[Parsed],
        names: &Names<'_>,
    ) -> Result<LeftOut<'a>, AllocError> {
        Ok(LeftOut {
            names: names_left_out(alloc, inputs, parsed)?,
            places: if are_read_to_the_end(parsed) {
                HashSet::new(alloc)
            } else {
                undefined_places(alloc, names)?
            },
        })
    }

    /// Whether a problem is due to what was not read.
    pub(crate) fn causes(&self, inputs: &[Input], problem: &Problem) -> bool {
        let place = problem.place;
        self.places.contains(&(place.text, place.span.start))
            || problem.severity == Severity::Error && self.has_name(inputs, problem)
    }

    // Whether a problem is at a name whose definition is in error.
    fn has_name(&self, inputs: &[Input], problem: &Problem) -> bool {
        match inputs.get(problem.place.text) {
            Some(input) => self
                .names
                .contains(problem.place.span.octets(input.text.as_slice())),
            None => false,
        }
    }
}

// Whether each error of each text is in a definition, so that what follows was read.
fn are_read_to_the_end(parsed: &[Parsed]) -> bool {
    for part in parsed {
        for error in &part.errors {
            if error.definition.is_none() {
                return false;
            }
        }
    }
    true
}

// The names of the definitions that are in error.
fn names_left_out<'a>(
    alloc: Global,
    inputs: &'a [Input],
    parsed: &[Parsed],
) -> Result<HashSet<&'a [u8]>, AllocError> {
    let mut names = HashSet::new(alloc);
    for (input, part) in inputs.iter().zip(parsed) {
        for error in &part.errors {
            if let Some(name) = error.definition {
                names.insert(name.octets(input.text.as_slice()))?;
            }
        }
    }
    Ok(names)
}

// The places of the names that are wrong.
fn undefined_places(
    alloc: Global,
    names: &Names<'_>,
) -> Result<HashSet<(usize, usize)>, AllocError> {
    let mut places = HashSet::new(alloc);
    for problem in &check_names(alloc, names)? {
        let place = problem.place();
        places.insert((place.text, place.span.start))?;
    }
    Ok(places)
}
