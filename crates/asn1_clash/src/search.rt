//! The least pair of components that do not have distinct tags.
ghost use Rattle.std.specs.Prelude.{◌≡◌, List, length, map, not, position, IfOk};
ghost use Rattle.std.specs.List.Sorted.{IsSorted};
ghost use Rattle.asn1_tags.specs.Trees.{is_open};
ghost use Rattle.asn1_fields.specs.DistinctTags.{IsLeast, IsSequenceClash, IsSetClash, sequence_clash, set_clash, up_to_required};
ghost use Rattle.asn1_fields.specs.FieldViews.{Component, may_be_absent};
ghost use Rattle.asn1_clash.specs.Flat.{flat_component};
ghost use Rattle.asn1_clash.specs.Views.{component_view, components_view};
ghost use Rattle.asn1_clash.specs.Occurrences.{HasOpen, OccursTwice, lesser_pair, occurrence_cmp, occurrences, pair_less, pair_of};

use crate::flat_component::FlatComponent;
use asn1_tags::Tag;
use std::alloc::{AllocError, Global};
use std::cmp::Ordering;

/// The least pair of indices whose components have a tag in common, which no two components of a SET may have; `None` if
/// there is no such pair (X.680, 27.3).
///
/// The leaves of all components are sorted, so the cost is in line with their number times its logarithm.
pub fn find_set_clash(
    alloc: Global,
    components: &[FlatComponent],
) -> Result<Option<(usize, usize)>, AllocError>
    ensures report { IfOk result (λ clash. clash ≡ set_clash (components_view components.now)) }
    ensures least { IfOk result (IsLeast (IsSetClash (components_view components.now))) }

    // The same of each table of which these are the flat components.
    ensures report_of_table { (table : List Component) →
        components_view components.now ≡ map flat_component table →
        IfOk result (λ clash. clash ≡ set_clash table) }
    ensures least_of_table { (table : List Component) →
        components_view components.now ≡ map flat_component table →
        IfOk result (IsLeast (IsSetClash table)) }
{
    let mut occurrences = occurrences_in(alloc, components)?;
    occurrences.sort_unstable_by(Occurrence::compare);
    Ok(lesser_pair(
        pair_with_open(components),
        pair_with_equal_tags(&occurrences),
    ))
}

/// The least pair of indices whose components share a tag although a SEQUENCE forbids it; `None` where there is no
/// such pair (X.680, 25.6 and 25.6.1).
///
/// Each run of components that may be absent, together with the component right after the run, is checked as a SET.
pub fn find_sequence_clash(
    alloc: Global,
    components: &[FlatComponent],
) -> Result<Option<(usize, usize)>, AllocError>
    ensures report { IfOk result (λ clash. clash ≡
        sequence_clash (components_view components.now)) }
    ensures least { IfOk result (IsLeast (IsSequenceClash (components_view components.now))) }

    // The same of each table of which these are the flat components.
    ensures report_of_table { (table : List Component) →
        components_view components.now ≡ map flat_component table →
        IfOk result (λ clash. clash ≡ sequence_clash table) }
    ensures least_of_table { (table : List Component) →
        components_view components.now ≡ map flat_component table →
        IfOk result (IsLeast (IsSequenceClash table)) }
{
    let mut start = 0;
    let mut rest = components;
    while !rest.is_empty() {
        let (run, after) = rest.split_at(run_length(rest));
        if let Some((i, j)) = find_set_clash(alloc, run)? {
            return Ok(Some((start + i, start + j)));
        }
        start += run.len();
        rest = after;
    }
    Ok(None)
}

// How many components there are up to and including the first that is always there.
fn run_length(components: &[FlatComponent]) -> usize
    ensures { result ≡ length (up_to_required (components_view components.now)) }
{
    match index_of_required(components) {
        Some(required) => required + 1,
        None => components.len(),
    }
}

// How many components come before the first that is always there.
fn index_of_required(components: &[FlatComponent]) -> Option<usize>
    ensures { result ≡
        position (λ component. not (may_be_absent component.presence)) components.now }
{
    components
        .iter()
        .position(|component| !component.may_be_absent())
}

// A leaf of a component, and the component's index.
#[derive(Clone, Copy)]
struct Occurrence {
    tag: Tag,
    index: usize,
}

impl Occurrence {
    // The order of the tags, and where these are equal, of the indices.
    fn compare(&self, other: &Occurrence) -> Ordering
        ensures { result ≡ occurrence_cmp self.now other.now }
    {
        self.tag
            .const_cmp(&other.tag)
            .then(self.index.cmp(&other.index))
    }
}

// The leaves of all components.
fn occurrences_in(
    alloc: Global,
    components: &[FlatComponent],
) -> Result<Vec<Occurrence>, AllocError>
    ensures { IfOk result (λ all. all.items ≡ occurrences 0 (components_view components.now)) }
{
    let mut occurrences = Vec::new(alloc);
    for (index, component) in components.iter().enumerate() {
        for tag in component.tags() {
            occurrences.push(Occurrence { tag: *tag, index })?;
        }
    }
    Ok(occurrences)
}

// The least pair of indices that have a tag in common, from the leaves in order: an equal tag is at neighbours.
fn pair_with_equal_tags(all: &[Occurrence]) -> Option<(usize, usize)>
    requires { IsSorted occurrence_cmp all.now }
    ensures { IsLeast (OccursTwice all.now) result }
{
    let mut least = None;
    for i in 1..all.len() {
        least = lesser_pair(least, pair_of(&all[i - 1], &all[i]));
    }
    least
}

// The indices of two occurrences, where they have one tag and the indices differ.
fn pair_of(first: &Occurrence, second: &Occurrence) -> Option<(usize, usize)>
    ensures { result ≡ pair_of first.now second.now }
{
    if first.tag.const_eq(&second.tag) && first.index != second.index {
        Some((first.index, second.index))
    } else {
        None
    }
}

// How many components come before the first that can begin with any tag.
fn index_of_open(components: &[FlatComponent]) -> Option<usize>
    ensures { result ≡
        position (λ component. is_open (component_view component).tree) components.now }
{
    components.iter().position(|component| component.is_open())
}

// The least pair of indices of which one has a component that can begin with any tag.
fn pair_with_open(components: &[FlatComponent]) -> Option<(usize, usize)>
    ensures { IsLeast (HasOpen (components_view components.now)) result }
{
    let open = index_of_open(components)?;
    let other = open.max(1);
    if other < components.len() {
        Some((0, other))
    } else {
        None
    }
}

// The lesser of two pairs, or the one that is there.
fn lesser_pair(
    first: Option<(usize, usize)>,
    second: Option<(usize, usize)>,
) -> Option<(usize, usize)>
    ensures { result ≡ lesser_pair first second }
{
    match (first, second) {
        (Some(a), Some(b)) => Some(if is_less(b, a) { b } else { a }),
        (Some(a), None) => Some(a),
        (None, second) => second,
    }
}

// Whether the first pair comes before the second.
fn is_less(first: (usize, usize), second: (usize, usize)) -> bool
    ensures { result ≡ pair_less first second }
{
    first.0 < second.0 || (first.0 == second.0 && first.1 < second.1)
}
