//! The table of an ENUMERATED type for codecs.
ghost use Rattle.std.specs.Prelude.{◌≡◌, ◌++◌, AllPairs, length, position, slice_get};
ghost use Rattle.std.specs.Option.{option_map};
ghost use Rattle.std.specs.List.{find};
ghost use Rattle.std.specs.Ordering.{int_eq};
ghost use Rattle.std.specs.Str.{bytes_eq};
ghost use Rattle.asn1_components.specs.Labels.{Labels, LabelsDiffer, added_labels, all_labels, labels_of, numbers_in};

use crate::enumerated::{Enumerated, additions};
use crate::items::{EnumerationItem, item_with_name, item_with_number};

/// The table of an ENUMERATED type without its values: the numbers and the names of its items, by index. It tells a codec
/// which numbers there are. Each [`Enumerated`] type has it.
pub trait EnumeratedTable {
    // the number and the name of each item of the root, and of each after the extension marker
    ghost labels: { Labels };

    /// How many items the root has.
    fn root_count() -> usize
        ensures { result ≡ length labels.root };

    /// How many items there are after the extension marker; `None` if there is no marker.
    fn added_count() -> Option<usize>
        ensures { result ≡ option_map length labels.additions };

    /// The number of the item at that index of the root; `None` if there is none.
    fn root_number(index: usize) -> Option<isize>
        ensures { result ≡ slice_get (numbers_in labels.root) index };

    /// The number of the item at that index after the extension marker; `None` if there is none.
    fn added_number(index: usize) -> Option<isize>
        ensures { result ≡ slice_get (numbers_in (added_labels labels)) index };

    /// The index in the root of the item of that number; `None` if there is none.
    fn root_index(number: isize) -> Option<usize>
        ensures { result ≡ position (λ n. int_eq n number) (numbers_in labels.root) };

    /// The index after the extension marker of the item of that number; `None` if there is none.
    fn added_index(number: isize) -> Option<usize>
        ensures { result ≡ position (λ n. int_eq n number) (numbers_in (added_labels labels)) };

    /// The name of the item of that number; `None` if there is none.
    fn name_of_number(number: isize) -> Option<&'static str>
        ensures { option_map (λ name. name.now) result ≡
            option_map (λ l. l.name) (find (λ l. int_eq l.number number) (all_labels labels)) };

    /// The number of the item of that name; `None` if there is none.
    fn number_of_name(name: &str) -> Option<isize>
        ensures { result ≡
            option_map (λ l. l.number) (find (λ l. bytes_eq l.name name.now) (all_labels labels)) };

    // no number and no name is in two items
    ghost distinct: { AllPairs LabelsDiffer (all_labels labels) };
}

impl<E: Enumerated> EnumeratedTable for E {
    ghost use Rattle.asn1_components.specs.LabelLaws.{labels_differ};

    ghost labels = { labels_of E.enumeration };

    ghost distinct = { labels_differ E.eq E.enumeration E.lawful };

    fn root_count() -> usize {
        E::variance()
    }

    fn added_count() -> Option<usize> {
        Some(E::added_items()?.len())
    }

    fn root_number(index: usize) -> Option<isize> {
        number_at(E::items(), index)
    }

    fn added_number(index: usize) -> Option<isize> {
        number_at(additions::<E>(), index)
    }

    fn root_index(number: isize) -> Option<usize> {
        index_of(number, E::items())
    }

    fn added_index(number: isize) -> Option<usize> {
        index_of(number, additions::<E>())
    }

    fn name_of_number(number: isize) -> Option<&'static str> {
        name_of(number, E::items(), additions::<E>())
    }

    fn number_of_name(name: &str) -> Option<isize> {
        number_of(name, E::items(), additions::<E>())
    }
}

// The number at an index of a table; `None` if there is none.
fn number_at<T>(table: &[EnumerationItem<T>], index: usize) -> Option<isize>
    ensures { result ≡ option_map (λ l. l.1) (slice_get table.now index) }
{
    table.get(index).map(|item| item.1)
}

// The first index of the number in a table.
fn index_of<T>(number: isize, table: &[EnumerationItem<T>]) -> Option<usize>
    ensures { result ≡ position (λ l. int_eq l.1 number) table.now }
{
    table.iter().position(|item| item.1 == number)
}

// The name of the first item of that number in two tables.
fn name_of<T>(
    number: isize,
    root: &[EnumerationItem<T>],
    additions: &[EnumerationItem<T>],
) -> Option<&'static str>
    ensures { option_map (λ name. name.now) result ≡
        option_map (λ l. l.2.now)
        (find (λ l. int_eq l.1 number) (root.now ++ additions.now)) }
{
    Some(item_with_number(number, root, additions)?.2)
}

// The number of the first item of that name in two tables.
fn number_of<T>(
    name: &str,
    root: &[EnumerationItem<T>],
    additions: &[EnumerationItem<T>],
) -> Option<isize>
    ensures { result ≡
        option_map (λ l. l.1) (find (λ l. bytes_eq l.2.now name.now)
        (root.now ++ additions.now)) }
{
    Some(item_with_name(name, root, additions)?.1)
}
