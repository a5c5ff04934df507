//! The components that must have distinct tags.
ghost use Rattle.std.specs.Prelude.{◌≡◌, not, position};
ghost use Rattle.asn1_tags.specs.Trees.{shape};
ghost use Rattle.asn1_fields.specs.DistinctTags.{IsLeast, IsSequenceClash, IsSetClash, rivals, sequence_clash, set_clash, share_tag};
ghost use Rattle.asn1_fields.specs.FieldViews.{component_of, components, view_of, may_be_absent};

use crate::field::Field;

/// The least pair of indices whose fields share a tag although a SEQUENCE forbids it; `None` if there is
/// no such pair (X.680, 25.6 and 25.6.1).
///
/// The first of the two may be absent. The second is after it, up to and including the next field that is always
/// there. Additions are the last fields, and may be absent.
pub fn first_sequence_clash(fields: &[Field<'_>]) -> Option<(usize, usize)>
    ensures least { IsLeast (IsSequenceClash (components fields.now)) result }
    ensures report { result ≡ sequence_clash (components fields.now) }
{
    for i in 0..fields.len() {
        let rivals = sequence_rivals(&fields[i], &fields[i + 1..]);
        if let Some(between) = index_of_clash(&fields[i], rivals) {
            return Some((i, i + 1 + between));
        }
    }
    None
}

/// The least pair of indices whose fields have a tag in common, which no two components of a SET may have; `None`
/// if there is no such pair (X.680, 27.3).
pub fn first_set_clash(fields: &[Field<'_>]) -> Option<(usize, usize)>
    ensures least { IsLeast (IsSetClash (components fields.now)) result }
    ensures report { result ≡ set_clash (components fields.now) }
{
    for i in 0..fields.len() {
        if let Some(between) = index_of_clash(&fields[i], &fields[i + 1..]) {
            return Some((i, i + 1 + between));
        }
    }
    None
}

// The fields after this one that must have other tags in a SEQUENCE.
fn sequence_rivals<'a>(field: &Field<'_>, following: &'a [Field<'a>]) -> &'a [Field<'a>]
    ensures { components result.now ≡
        rivals (component_of (view_of field.now)) (components following.now) }
{
    if field.is_not_optional_or_default() {
        return &[];
    }
    match index_of_required(following) {
        Some(required) => &following[..required + 1],
        None => following,
    }
}

// How many of the fields come before the first that is always there.
fn index_of_required(fields: &[Field<'_>]) -> Option<usize>
    ensures { result ≡ position (λ field. not (may_be_absent field.presence)) fields.now }
{
    fields
        .iter()
        .position(|field| field.is_not_optional_or_default())
}

// How many of the others come before the first that has a tag in common with the field.
fn index_of_clash(field: &Field<'_>, others: &[Field<'_>]) -> Option<usize>
    ensures { result ≡
        position (λ other. share_tag (shape field.now.tag_tree) (shape other.tag_tree)) others.now }
{
    others.iter().position(|other| share_tag(field, other))
}

// Whether some tag is a tag of both fields.
fn share_tag(field: &Field<'_>, other: &Field<'_>) -> bool
    ensures { result ≡ share_tag (shape field.now.tag_tree) (shape other.now.tag_tree) }
{
    let tree = &field.tag_tree;
    let others = &other.tag_tree;
    tree.has_empty_choice() || others.has_empty_choice() || tree.shares_leaf(others)
}
