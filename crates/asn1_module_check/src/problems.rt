//! Components that share a tag, as problems.
ghost use Rattle.std.specs.Prelude.{◌≡◌, ◌↔◌, [], IfOk, OnOk};
ghost use Rattle.std.specs.List.{All};
ghost use Rattle.asn1_resolved.specs.TypesInside.{types_of};
ghost use Rattle.asn1_module_check.specs.DistinctTags.{HasDistinctTags, IsFreeOfClashes};
ghost use Rattle.asn1_module_check.specs.Errors.{IsError};

use crate::clashes::find_clash;
use crate::constructed::{ComponentName, Constructed};
use crate::list::list_constructed;
use crate::messages::{append_advice, append_names, append_tag};
use asn1_clash::FlatComponent;
use asn1_resolved::{Problem, Schema, Severity};
use asn1_tags::Tag;
use std::alloc::{AllocError, Global};

/// The components of a schema that share a tag although X.680 forbids it, as errors at the second of each two.
pub fn check_tags(alloc: Global, schema: &Schema<'_>) -> Result<Vec<Problem>, AllocError>
    // There is none if and only if no type inside the schema has a clash.
    ensures accepted { IfOk result (λ problems. (problems.items ≡ []) ↔
        All (IsFreeOfClashes schema.now) (types_of schema.now)) }
    // Each is an error.
    ensures errors { IfOk result (λ problems. All IsError problems.items) }
{
    let list = list_constructed(alloc, schema)?;
    check_constructed(alloc, list.as_slice())
}

/// The first two components of each of these types that share a tag although X.680 forbids it, as an error at the second.
pub fn check_constructed(
    alloc: Global,
    list: &[Constructed<'_>],
) -> Result<Vec<Problem>, AllocError>
    // There is none if and only if in every type all components have distinct tags that must have them.
    ensures accepted { IfOk result (λ problems. (problems.items ≡ []) ↔
        All HasDistinctTags list.now) }
    // Each is an error.
    ensures errors { IfOk result (λ problems. All IsError problems.items) }
{
    let mut problems = Vec::new(alloc);
    for constructed in list {
        check_type(alloc, &mut problems, constructed)?;
    }
    Ok(problems)
}

// Adds an error if components of a type share a tag although they must not.
fn check_type(
    alloc: Global,
    problems: &mut Vec<Problem>,
    constructed: &Constructed<'_>,
) -> Result<(), AllocError>
    ensures distinct { OnOk result (HasDistinctTags constructed.now →
        problems.new.items ≡ problems.old.items) }
    ensures accepted { OnOk result (problems.new.items ≡ [] →
        (problems.old.items ≡ []) × HasDistinctTags constructed.now) }
    ensures errors { OnOk result (All IsError problems.old.items → All IsError problems.new.items) }
{
    match find_clash(alloc, constructed)? {
        Some(clash) => {
            let problem = problem_of(alloc, constructed, clash)?;
            problems.push(problem)?;
            Ok(())
        }
        None => Ok(()),
    }
}

// The error of two components, by their indices.
fn problem_of(
    alloc: Global,
    constructed: &Constructed<'_>,
    clash: (usize, usize),
) -> Result<Problem, AllocError>
    ensures { IfOk result IsError }
{
    let (first, second) = clash;
    let names = (name_at(constructed, first), name_at(constructed, second));
    let tag = tag_at(constructed.components.as_slice(), first, second);
    let mut text = Vec::new(alloc);
    append_names(&mut text, constructed.kind, names)?;
    append_tag(alloc, &mut text, tag)?;
    append_advice(&mut text, tag)?;
    Ok(Problem {
        place: names.1.place,
        severity: Severity::Error,
        text,
    })
}

// The name of the component of this index.
fn name_at<'a>(constructed: &Constructed<'a>, index: usize) -> ComponentName<'a> {
    match constructed.names.get(index) {
        Some(name) => *name,
        None => ComponentName {
            name: &[],
            place: constructed.place,
        },
    }
}

// A tag that two components share. None if both begin with any.
fn tag_at(components: &[FlatComponent], first: usize, second: usize) -> Option<Tag> {
    match (components.get(first), components.get(second)) {
        (Some(first), Some(second)) => common_tag(first, second),
        _ => None,
    }
}

// A tag that two components share. None if both begin with any.
fn common_tag(first: &FlatComponent, second: &FlatComponent) -> Option<Tag> {
    for tag in first.tree.tags.as_slice() {
        if second.is_open() || second.tree.tags.as_slice().contains(tag) {
            return Some(*tag);
        }
    }
    second.tree.tags.as_slice().first().copied()
}
