//! Laws of what no other contract names: the records of each value, the names in the tables, which types have an extension
//! marker, which values are valid, which values of a type are equal, and what a clone is.
ghost use Rattle.asn1_components.specs.Alternatives.{all_of, names_of, trees_of};
ghost use Rattle.asn1_components.specs.Components.{has_marker};
ghost use Rattle.asn1_components.specs.Enumerations.{items, names};
ghost use Rattle.asn1_samples.specs.ComponentNames.{component_names};
ghost use Rattle.std.specs.Cmp.Lexicographic.{pointwise};
ghost use Rattle.std.specs.Hash as fed;
ghost use Rattle.std.specs.Option.{option_eq};
ghost use Rattle.std.specs.Prelude.{◌≡◌, ◌↔◌, ◌&&◌, [], ◌∷◌, IsTrue, codes, false, nat_eq, true};
ghost use Rattle.std.specs.String.{string_bytes, string_eq};
ghost use Rattle.asn1_samples.specs.declared.labelled.Labelled.{Labelled};
ghost use Rattle.asn1_samples.specs.declared.node.Node.{out-Node};
ghost use Rattle.asn1_tags.specs.Derives.{ClonesAll, ComparesAll};
ghost use Rattle.asn1_tags.specs.TagTables.{TableFits};
ghost use Rattle.asn1_tags.specs.Trees.{leaves_of};

mod records;
mod validity;

use crate::badge::Badge;
use crate::color::Color;
use crate::contact::Contact;
use crate::corner::Corner;
use crate::envelope::Envelope;
use crate::gauge::Gauge;
use crate::labelled::Labelled;
use crate::node::Node;
use crate::notice::Notice;
use crate::pair::Pair;
use crate::person::Person;
use crate::plate::Plate;
use crate::profile::Profile;
use crate::settings::Settings;
use crate::shape::{LEAVES, Shape};
use crate::ticket::Ticket;
use crate::visit::Visit;
use asn1_types::{AsnType, Choice, EnumeratedItems, FieldTable};
pub use records::{
    alternatives_and_items_have_their_records, pairs_have_their_records,
    sequences_have_their_records, sets_have_their_records,
};
use std::hash::Hash;
pub use validity::{
    each_alternative_is_valid, each_value_is_valid, groups_that_write_a_component_are_valid,
};

/// A law of the tables: the names of the components, in the order of the table.
pub fn components_have_their_names()
    ensures person { component_names ⟦<Person as FieldTable>⟧.components ≡ codes "age" ∷
        codes "name" ∷ [] }
    ensures notice { component_names ⟦<Notice as FieldTable>⟧.components ≡
        codes "id" ∷ codes "urgent" ∷ codes "text" ∷ [] }
    ensures profile { component_names ⟦<Profile as FieldTable>⟧.components ≡ codes "nick" ∷
        codes "level" ∷ codes "color" ∷ codes "contact" ∷ [] }
    ensures contact { component_names ⟦<Contact as FieldTable>⟧.components ≡ codes "phone" ∷
        codes "mail" ∷ [] }
    ensures visit { component_names ⟦<Visit as FieldTable>⟧.components ≡ codes "day" ∷
        codes "contact" ∷ codes "note" ∷ [] }
    ensures badge { component_names ⟦<Badge as FieldTable>⟧.components ≡ codes "shape" ∷
        codes "id" ∷ codes "label" ∷ [] }
    ensures envelope { component_names ⟦<Envelope as FieldTable>⟧.components ≡ codes "kind" ∷
        codes "body" ∷ [] }
    ensures labelled { component_names ⟦<Labelled as FieldTable>⟧.components ≡ codes "key" ∷
        codes "note" ∷ [] }
    ensures settings { component_names ⟦<Settings as FieldTable>⟧.components ≡ codes "entry" ∷ [] }
    ensures node { component_names ⟦<Node as FieldTable>⟧.components ≡ codes "label" ∷
        codes "children" ∷ [] }
    ensures ticket { component_names ⟦<Ticket as FieldTable>⟧.components ≡ codes "seat" ∷
        codes "name" ∷ codes "paid" ∷ [] }
    ensures gauge { component_names ⟦<Gauge as FieldTable>⟧.components ≡ codes "level" ∷
        codes "limit" ∷ codes "unit" ∷ [] }
{}

/// A law of the table of a `Pair`, whatever its types: the names of its components, and no extension marker.
pub fn pairs_have_a_first_and_a_second<T: AsnType, U: AsnType>()
    ensures names { component_names ⟦<Pair<T, U> as FieldTable>⟧.components ≡
        codes "first" ∷ codes "second" ∷ [] }
    ensures marker { has_marker ⟦<Pair<T, U> as FieldTable>⟧.components.extension ≡ false }
{}

/// A law of the tables: the names of the alternatives of a CHOICE, and those of the items of an ENUMERATED type.
pub fn alternatives_and_items_have_their_names()
    ensures shape { names_of (all_of ⟦<Shape as Choice>⟧.alternatives) ≡ codes "dot" ∷
        codes "ring" ∷ codes "inner" ∷ [] }
    ensures corner { names_of (all_of ⟦<Corner as Choice>⟧.alternatives) ≡ codes "left" ∷
        codes "right" ∷ [] }
    ensures color { names (items ⟦<Color as EnumeratedItems>⟧.enumeration) ≡ codes "red" ∷
        codes "green" ∷ codes "blue" ∷ [] }
{}

/// A law of the table in which a `Shape` looks for its alternative: it has each leaf of the alternatives once, with its index among
/// all, in ascending order. So a tag is looked for in this table, and not in the list of leaves.
pub fn the_table_of_a_shape_fits()
    ensures { TableFits (leaves_of (trees_of (all_of ⟦<Shape as Choice>⟧.alternatives))) LEAVES.now }
{}

/// A law of the extension markers: of the SEQUENCE and SET types that do not hold themselves a `Profile` and a `Visit` have one,
/// and no other.
pub fn some_types_have_an_extension_marker()
    ensures person { has_marker ⟦<Person as FieldTable>⟧.components.extension ≡ false }
    ensures notice { has_marker ⟦<Notice as FieldTable>⟧.components.extension ≡ false }
    ensures profile { has_marker ⟦<Profile as FieldTable>⟧.components.extension ≡ true }
    ensures contact { has_marker ⟦<Contact as FieldTable>⟧.components.extension ≡ false }
    ensures visit { has_marker ⟦<Visit as FieldTable>⟧.components.extension ≡ true }
    ensures badge { has_marker ⟦<Badge as FieldTable>⟧.components.extension ≡ false }
    ensures envelope { has_marker ⟦<Envelope as FieldTable>⟧.components.extension ≡ false }
    ensures labelled { has_marker ⟦<Labelled as FieldTable>⟧.components.extension ≡ false }
    ensures settings { has_marker ⟦<Settings as FieldTable>⟧.components.extension ≡ false }
    ensures ticket { has_marker ⟦<Ticket as FieldTable>⟧.components.extension ≡ false }
    ensures gauge { has_marker ⟦<Gauge as FieldTable>⟧.components.extension ≡ false }
{}

/// A law of the derived equalities: two values of these types are equal if and only if they are the same.
pub fn values_are_compared_by_all_that_they_are()
    ensures contact { ComparesAll ⟦<Contact as PartialEq>⟧.eq }
    ensures badge { ComparesAll ⟦<Badge as PartialEq>⟧.eq }
    ensures shape { ComparesAll ⟦<Shape as PartialEq>⟧.eq }
    ensures corner { ComparesAll ⟦<Corner as PartialEq>⟧.eq }
    ensures color { ComparesAll ⟦<Color as PartialEq>⟧.eq }
    ensures envelope { ComparesAll ⟦<Envelope as PartialEq>⟧.eq }
    ensures plate { ComparesAll ⟦<Plate as PartialEq>⟧.eq }
{}

/// Whether two persons have the same age and the same name.
pub fn persons_are_compared_by_age_and_name(a: &Person, b: &Person) -> bool
    ensures { IsTrue result ↔ ((a.now.age ≡ b.now.age) ×
        (string_bytes a.now.name ≡ string_bytes b.now.name)) }
{
    a == b
}

/// Whether two notices have the same number, the same urgency and the same text.
pub fn notices_are_compared_by_their_components(a: &Notice, b: &Notice) -> bool
    ensures { result ≡ (nat_eq a.now.id b.now.id &&
        (option_eq ⟦<bool as PartialEq>⟧.eq a.now.urgent b.now.urgent &&
        string_eq a.now.text b.now.text)) }
{
    a == b
}

/// Whether two pairs have equal firsts, and equal seconds or none.
pub fn pairs_are_compared_by_their_components<T: PartialEq, U: PartialEq>(
    a: &Pair<T, U>,
    b: &Pair<T, U>,
) -> bool
    ensures { result ≡ (T.eq a.now.first b.now.first && option_eq U.eq a.now.second b.now.second) }
{
    a == b
}

/// Whether two profiles have the same nick, level, color and contact.
pub fn profiles_are_compared_by_their_components(a: &Profile, b: &Profile) -> bool
    ensures { result ≡ (option_eq string_eq a.now.nick b.now.nick &&
        (nat_eq a.now.level b.now.level && (⟦<Color as PartialEq>⟧.eq a.now.color b.now.color &&
        option_eq ⟦<Contact as PartialEq>⟧.eq a.now.contact b.now.contact))) }
{
    a == b
}

/// Whether two visits have the same day, contact and note.
pub fn visits_are_compared_by_their_components(a: &Visit, b: &Visit) -> bool
    ensures { result ≡ (nat_eq a.now.day b.now.day &&
        (option_eq ⟦<Contact as PartialEq>⟧.eq a.now.contact b.now.contact && option_eq string_eq
        a.now.note b.now.note)) }
{
    a == b
}

/// Whether two tickets have the same seat, the same name or none, and are both paid or both not.
pub fn tickets_are_compared_by_their_components(a: &Ticket, b: &Ticket) -> bool
    ensures { result ≡ (nat_eq a.now.seat b.now.seat &&
        (option_eq string_eq a.now.name b.now.name &&
        ⟦<bool as PartialEq>⟧.eq a.now.paid b.now.paid)) }
{
    a == b
}

/// Whether two gauges have the same level, the same limit or none, and the same unit.
pub fn gauges_are_compared_by_their_components(a: &Gauge, b: &Gauge) -> bool
    ensures { result ≡ (nat_eq a.now.level b.now.level &&
        (option_eq nat_eq a.now.limit b.now.limit && string_eq a.now.unit b.now.unit)) }
{
    a == b
}

/// Whether two of them have the same key. Their notes are not looked at, and a hasher is fed the key alone.
pub fn labelled_are_compared_by_key(a: &Labelled, b: &Labelled) -> bool
    ensures same { IsTrue result ↔ (a.now.key ≡ b.now.key) }
    ensures hash { (l : Labelled) → ⟦<Labelled as Hash>⟧.hash_input l ≡ fed.u8 l.key }
{
    a == b
}

/// Whether two settings have entries with the same key.
pub fn settings_are_compared_by_key(a: &Settings, b: &Settings) -> bool
    ensures { IsTrue result ↔ (a.now.entry.key ≡ b.now.entry.key) }
{
    a == b
}

/// Whether two nodes have the same label, and equal children in the same order.
pub fn nodes_are_compared_by_label_and_children(a: &Node, b: &Node) -> bool
    ensures { result ≡ (option_eq string_eq (out-Node a.now).label (out-Node b.now).label &&
        pointwise ⟦<Node as PartialEq>⟧.eq (out-Node a.now).children.items
        (out-Node b.now).children.items) }
{
    a == b
}

/// A law of the derived clones: a clone is its source.
pub fn clones_are_their_sources()
    ensures color { ClonesAll ⟦<Color as Clone>⟧.is_clone ⟦<Color as Clone>⟧.is_infallible }
    ensures labelled { ClonesAll ⟦<Labelled as Clone>⟧.is_clone
        ⟦<Labelled as Clone>⟧.is_infallible }
{}
