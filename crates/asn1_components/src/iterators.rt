//! Iterators over the tables of an ENUMERATED type.
ghost use Rattle.std.specs.Prelude.{◌≡◌, ◌++◌};
ghost use Rattle.std.specs.Iterator.{YieldsFirst, YieldsFirstBy, item_count};
ghost use Rattle.asn1_components.specs.Enumerations.{values, numbers, names};
ghost use Rattle.asn1_components.specs.ItemTables.{table_items, variants_left, discriminants_left, identifiers_left};

use crate::items::EnumerationItem;
use std::slice;

/// The values of a table, in order.
#[derive(Drop)]
pub struct VariantIter<'a, T> {
    left: slice::Iter<'a, EnumerationItem<T>>,
}

impl<'a, T> VariantIter<'a, T> {
    pub(crate) fn new(items: &'a [EnumerationItem<T>]) -> Self
        ensures { variants_left result ≡ values (table_items items.now) }
    {
        VariantIter { left: items.iter() }
    }
}

impl<'a, T: Copy> Iterator for VariantIter<'a, T> {
    type Item = T;

    ghost next_gives = { YieldsFirst variants_left };

    ghost remaining = { item_count variants_left };

    fn next(&mut self) -> Option<T> {
        let item = self.left.next()?;
        Some(item.0)
    }
}

/// The values of a table with their numbers, in order.
#[derive(Drop)]
pub struct DiscriminantIter<'a, T> {
    left: slice::Iter<'a, EnumerationItem<T>>,
}

impl<'a, T> DiscriminantIter<'a, T> {
    pub(crate) fn new(items: &'a [EnumerationItem<T>]) -> Self
        ensures { discriminants_left result ≡ numbers (table_items items.now) }
    {
        DiscriminantIter { left: items.iter() }
    }
}

impl<'a, T: Copy> Iterator for DiscriminantIter<'a, T> {
    type Item = (T, isize);

    ghost next_gives = { YieldsFirst discriminants_left };

    ghost remaining = { item_count discriminants_left };

    fn next(&mut self) -> Option<(T, isize)> {
        let item = self.left.next()?;
        Some((item.0, item.1))
    }
}

/// The names of the items of the root, and then of those after the extension marker.
#[derive(Drop)]
pub struct ItemIdentifierIter<'a, T> {
    root: slice::Iter<'a, EnumerationItem<T>>,
    additions: slice::Iter<'a, EnumerationItem<T>>,
}

impl<'a, T> ItemIdentifierIter<'a, T> {
    pub(crate) fn new(root: &'a [EnumerationItem<T>], additions: &'a [EnumerationItem<T>]) -> Self
        ensures { identifiers_left result ≡
            names (table_items root.now ++ table_items additions.now) }
    {
        ItemIdentifierIter {
            root: root.iter(),
            additions: additions.iter(),
        }
    }
}

impl<'a, T> Iterator for ItemIdentifierIter<'a, T> {
    type Item = &'a str;

    ghost next_gives = { YieldsFirstBy (λ name. name.now) identifiers_left };

    ghost remaining = { item_count identifiers_left };

    fn next(&mut self) -> Option<&'a str> {
        let item = match self.root.next() {
            Some(item) => item,
            None => self.additions.next()?,
        };
        Some(item.2)
    }
}
