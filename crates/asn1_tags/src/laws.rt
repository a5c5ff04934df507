//! The promises of the derived members of this crate's types.
ghost use Rattle.std.specs.Prelude.{◌≡◌, ◌↔◌, ◌++◌, ℕ, IsTrue, Some, codes, pos};
ghost use Rattle.std.specs.Fmt.{decimal};
ghost use Rattle.std.specs.Hash as fed;
ghost use Rattle.std.specs.Ordering.{nat_cmp};
ghost use Rattle.asn1_tags.specs.Derives.{ClonesAll, ComparesAll};
ghost use Rattle.asn1_tags.specs.Names.{name_cmp, name_of};
ghost use Rattle.asn1_tags.specs.Tags.{class_number, tag_cmp};
ghost use Rattle.asn1_tags.specs.declared.classes.Class.{Class};
ghost use Rattle.asn1_tags.specs.declared.names.Identifier.{Identifier};
ghost use Rattle.asn1_tags.specs.declared.tags.Tag.{Tag};

use crate::classes::Class;
use crate::error::VariantsError;
use crate::names::Identifier;
use crate::tags::Tag;
use crate::trees::TagTree;
use std::fmt;
use std::hash::Hash;

/// Comparisons, hashes and clones take every part of a class, a tag, a name and an error.
///
/// This does nothing: its contract is what the derives of this crate have to mean. Classes go by
/// their numbers, tags by class and then number, and names by their bytes, with no name before
/// all names. A tag feeds a hasher its class and then its number. A clone is its source.
pub fn derives_take_every_part()
    ensures class_eq { ComparesAll ⟦<Class as PartialEq>⟧.eq }
    ensures class_cmp { (a b : Class) → ⟦<Class as Ord>⟧.cmp a b ≡
        nat_cmp (class_number a) (class_number b) }
    ensures class_hash { (a : Class) → ⟦<Class as Hash>⟧.hash_input a ≡
        fed.isize (pos (class_number a)) }
    ensures class_clone { ClonesAll ⟦<Class as Clone>⟧.is_clone ⟦<Class as Clone>⟧.is_infallible }
    ensures tag_eq { ComparesAll ⟦<Tag as PartialEq>⟧.eq }
    ensures tag_cmp { (a b : Tag) → ⟦<Tag as Ord>⟧.cmp a b ≡ tag_cmp a b }
    ensures tag_hash { (a : Tag) → ⟦<Tag as Hash>⟧.hash_input a ≡
        ⟦<Class as Hash>⟧.hash_input a.class ++ fed.u32 a.value }
    ensures tag_clone { ClonesAll ⟦<Tag as Clone>⟧.is_clone ⟦<Tag as Clone>⟧.is_infallible }
    ensures tree_clone { ClonesAll ⟦<TagTree<'static> as Clone>⟧.is_clone
        ⟦<TagTree<'static> as Clone>⟧.is_infallible }
    ensures name_eq { (a b : Identifier) →
        (IsTrue (⟦<Identifier as PartialEq>⟧.eq a b) ↔ (name_of a ≡ name_of b)) }
    ensures name_cmp { (a b : Identifier) → ⟦<Identifier as Ord>⟧.cmp a b ≡
        name_cmp (name_of a) (name_of b) }
    ensures name_hash { (a : Identifier) → ⟦<Identifier as Hash>⟧.hash_input a ≡
        fed.option fed.str (name_of a) }
    ensures name_clone { ClonesAll ⟦<Identifier as Clone>⟧.is_clone
        ⟦<Identifier as Clone>⟧.is_infallible }
    ensures error_eq { ComparesAll ⟦<VariantsError as PartialEq>⟧.eq }
    ensures error_clone { ClonesAll ⟦<VariantsError as Clone>⟧.is_clone
        ⟦<VariantsError as Clone>⟧.is_infallible }
{}

/// The texts of classes and tags. A class is written in small letters; a tag is its class with a capital letter, a space, and its
/// number in decimal digits, as `Context 0`.
pub fn classes_and_tags_are_printed_by_name()
    ensures universal { ⟦<Class as fmt::Display>⟧.output Class.Universal ≡
        Some (codes "universal") }
    ensures application { ⟦<Class as fmt::Display>⟧.output Class.Application ≡
        Some (codes "application") }
    ensures context { ⟦<Class as fmt::Display>⟧.output Class.Context ≡ Some (codes "context") }
    ensures private { ⟦<Class as fmt::Display>⟧.output Class.Private ≡ Some (codes "private") }
    ensures universal_tag { (number : ℕ) → ⟦<Tag as fmt::Display>⟧.output
        (record { class = Class.Universal; value = number }) ≡
        Some (codes "Universal " ++ decimal number) }
    ensures application_tag { (number : ℕ) → ⟦<Tag as fmt::Display>⟧.output
        (record { class = Class.Application; value = number }) ≡
        Some (codes "Application " ++ decimal number) }
    ensures context_tag { (number : ℕ) → ⟦<Tag as fmt::Display>⟧.output
        (record { class = Class.Context; value = number }) ≡
        Some (codes "Context " ++ decimal number) }
    ensures private_tag { (number : ℕ) → ⟦<Tag as fmt::Display>⟧.output
        (record { class = Class.Private; value = number }) ≡
        Some (codes "Private " ++ decimal number) }
{}

/// The tags of the four forms of `tag!`, in the order of the classes.
pub fn tags_by_class_and_number(number: u32) -> (Tag, Tag, Tag, Tag)
    ensures universal { result.0 ≡ record { class = Class.Universal; value = number } }
    ensures application { result.1 ≡ record { class = Class.Application; value = number } }
    ensures context { result.2 ≡ record { class = Class.Context; value = number } }
    ensures private { result.3 ≡ record { class = Class.Private; value = number } }
{
    (
        crate::tag!(universal number),
        crate::tag!(application number),
        crate::tag!(context number),
        crate::tag!(private number),
    )
}
