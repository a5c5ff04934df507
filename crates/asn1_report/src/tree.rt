//! Trees of tags, as they are written.
ghost use Rattle.std.specs.Prelude.{◌≡◌, ℕ, ◌^◌, ◌<◌, ◌≤◌, List, None, Some, All, IfOk, MatchBool, MatchOption, IsSomeAnd};
ghost use Rattle.asn1_tags.specs.Trees.{Tree, Trees, leaf, leaves};
ghost use Rattle.asn1_tags.specs.declared.tags.Tag.{Tag};
ghost use Rattle.asn1_report.specs.Grammar.{class_of, deepest, tree_of};
ghost use Rattle.asn1_clash.specs.Views.{Adds};
ghost use Rattle.asn1_report.specs.Spelling.{spelling, brackets, BeginsWithTree, BeginsWithTrees, ReadsTree, ReadsChoice};

use crate::number::read_number;
use asn1_clash::FlatTree;
use asn1_tags::{Class, Tag};
use std::alloc::AllocError;

// How many brackets of a tree may be open at once.
const DEEPEST: u8 = 16;

/// Whether the text is a tree, up to its end.
///
/// Adds the tree to `flat`. If the text is no tree, leaves of its beginning may be added.
pub(crate) fn read_whole_tree(text: &[u8], flat: &mut FlatTree) -> Result<bool, AllocError>
    ensures read { IfOk result (λ is_tree. MatchBool is_tree
        (IsSomeAnd (tree_of deepest text.now) (Adds flat.old flat.new))
        (tree_of deepest text.now ≡ None)) }
{
    match read_tree(text, DEEPEST, flat)? {
        Some(left) => Ok(left.is_empty()),
        None => Ok(false),
    }
}

// Reads the tree with which the text begins, with at most `depth` brackets open at once, and gives the rest of the
// text after it.
//
// Adds the tree to `flat`. If the text begins with no tree, leaves of its beginning may be added. The function is inlined,
// so that a tag among the trees of a choice is read without a call.
#[cycle(tree)]
#[inline(always)]
fn read_tree<'a>(
    text: &'a [u8],
    depth: u8,
    flat: &mut FlatTree,
) -> Result<Option<&'a [u8]>, AllocError>
    ensures read { IfOk result (λ left. MatchOption left
        ((tree : Tree) (rest : List ℕ) → ¬ BeginsWithTree depth text.now tree rest)
        (λ left. ReadsTree depth text.now left.now flat.old flat.new)) }
{
    match text {
        [b'(', inside @ ..] => match depth.checked_sub(1) {
            Some(depth) => read_choice(inside, depth, flat),
            None => Ok(None),
        },
        _ => match read_tag(text) {
            Some((tag, left)) => {
                flat.push(tag)?;
                Ok(Some(left))
            }
            None => Ok(None),
        },
    }
}

// Reads the trees of a choice, of which the bracket that opens it was read, and the bracket that closes it.
#[cycle(tree)]
#[inline(never)]
fn read_choice<'a>(
    inside: &'a [u8],
    depth: u8,
    flat: &mut FlatTree,
) -> Result<Option<&'a [u8]>, AllocError>
    ensures read { IfOk result (λ left. MatchOption left
        ((trees : Trees) (rest : List ℕ) → ¬ BeginsWithTrees depth inside.now trees rest)
        (λ left. ReadsChoice depth inside.now left.now flat.old flat.new)) }
{
    if let [b')', left @ ..] = inside {
        flat.add_empty_choice();
        return Ok(Some(left));
    }
    let mut text = inside;
    while let Some(left) = read_tree(text, depth, flat)? {
        match left {
            [b' ', next @ ..] => text = next,
            [b')', left @ ..] => return Ok(Some(left)),
            _ => return Ok(None),
        }
    }
    Ok(None)
}

// Reads the tag with which the text begins, the letter of its class and its number, and gives the rest of the text.
#[inline(always)]
fn read_tag(text: &[u8]) -> Option<(Tag, &[u8])>
    ensures read { MatchOption result
        ((tag : Tag) (left : List ℕ) → ¬ BeginsWithTree 0 text.now (leaf tag) left)
        (λ (tag, left). BeginsWithTree 0 text.now (leaf tag) left.now) }
{
    match text {
        [] => None,
        [letter, digits @ ..] => {
            let class = read_class(*letter)?;
            let (value, left) = read_number(digits)?;
            Some((Tag::new(class, value), left))
        }
    }
}

// The class that the letter names.
#[inline(always)]
fn read_class(letter: u8) -> Option<Class>
    ensures class { result ≡ class_of letter }
{
    match letter {
        b'U' => Some(Class::Universal),
        b'A' => Some(Class::Application),
        b'C' => Some(Class::Context),
        b'P' => Some(Class::Private),
        _ => None,
    }
}

/// A law of the definition that [`read_whole_tree`] meets: a text is read as a tree if and only if it is that tree's text,
/// at most `depth` brackets of it are open at once, and each tag's number is below 2 ^ 32. So no byte of a text is
/// skipped, and no two texts are read as one tree.
pub fn trees_are_read_of_their_texts()
    ensures text { (depth : ℕ) (text : List ℕ) (tree : Tree) →
        tree_of depth text ≡ Some tree → text ≡ spelling tree }
    ensures within_limits { (depth : ℕ) (text : List ℕ) (tree : Tree) →
        tree_of depth text ≡ Some tree →
        (brackets tree ≤ depth) × All (λ tag. tag.value < 2 ^ 32) (leaves tree) }
    ensures read { (depth : ℕ) (tree : Tree) →
        brackets tree ≤ depth → All (λ tag. tag.value < 2 ^ 32) (leaves tree) →
        tree_of depth (spelling tree) ≡ Some tree }
{}
