//! ENUMERATED types.
ghost use Rattle.std.specs.Prelude.{◌≡◌, ◌↔◌, ◌++◌, [], ◌∷◌, Some, Contains, IfSome, IsTrue, length, slice_get, position};
ghost use Rattle.std.specs.Option.{option_copied, option_map};
ghost use Rattle.std.specs.List.{find};
ghost use Rattle.std.specs.Ordering.{int_eq};
ghost use Rattle.std.specs.Str.{bytes_eq};
ghost use Rattle.asn1_components.specs.Enumerations.{IsEnumeration, added, items as items_of, values, numbers, names, item_of, number_of, name_of};
ghost use Rattle.asn1_components.specs.Labels.{labels_of};
ghost use Rattle.asn1_components.specs.EnumerationTypes.{AgreesWithEnumeration};
ghost use Rattle.asn1_model.specs.ConstraintSets.{ConstraintSet, unconstrained};
ghost use Rattle.asn1_model.specs.Records.{Name, discriminant, scalar};
ghost use Rattle.asn1_tags.specs.declared.tags.Tag.{Tag};
ghost use Rattle.asn1_components.specs.ItemTables.{item_view, table_items, variants_left, discriminants_left, identifiers_left};

use crate::enumerated_items::EnumeratedItems;
use crate::items::{EnumerationItem, item_with_name, item_with_number};
use crate::iterators::{DiscriminantIter, ItemIdentifierIter, VariantIter};
use asn1_model::AsnType;

/// An ENUMERATED type (X.680, clause 20): a type of ASN.1 whose meaning is that of its items.
pub trait Enumerated: AsnType + EnumeratedItems {
    /// The values of the root, in order: rasn's `VARIANTS`.
    final fn variants<'a>() -> VariantIter<'a, Self>
        ensures { variants_left result ≡ values Self.enumeration.root }
    {
        VariantIter::new(Self::items())
    }

    /// The values after the extension marker, in order, `None` if there is no marker: rasn's `EXTENDED_VARIANTS`.
    final fn extended_variants<'a>() -> Option<VariantIter<'a, Self>>
        ensures { option_map variants_left result ≡ option_map values Self.enumeration.additions }
    {
        Some(VariantIter::new(Self::added_items()?))
    }

    /// The values of the root with their numbers, in order: rasn's `DISCRIMINANTS`.
    final fn discriminants<'a>() -> DiscriminantIter<'a, Self>
        ensures { discriminants_left result ≡ numbers Self.enumeration.root }
    {
        DiscriminantIter::new(Self::items())
    }

    /// The values after the extension marker with their numbers, in order, `None` if there is no marker: rasn's
    /// `EXTENDED_DISCRIMINANTS`.
    final fn extended_discriminants<'a>() -> Option<DiscriminantIter<'a, Self>>
        ensures { option_map discriminants_left result ≡ option_map numbers Self.enumeration.additions }
    {
        Some(DiscriminantIter::new(Self::added_items()?))
    }

    /// The names of all values, those of the root first: rasn's `IDENTIFIERS`.
    final fn identifiers<'a>() -> ItemIdentifierIter<'a, Self>
        ensures { identifiers_left result ≡ names (items_of Self.enumeration) }
    {
        ItemIdentifierIter::new(Self::items(), additions::<Self>())
    }

    /// How many values the root has.
    final fn variance() -> usize
        ensures { result ≡ length Self.enumeration.root }
    {
        Self::items().len()
    }

    /// How many values there are after the extension marker.
    final fn extended_variance() -> usize
        ensures { result ≡ length (added Self.enumeration) }
    {
        additions::<Self>().len()
    }

    /// How many values there are.
    final fn complete_variance() -> usize
        ensures { result ≡ length (items_of Self.enumeration) }
    {
        Self::variance() + Self::extended_variance()
    }

    /// Whether this value is one after the extension marker.
    final fn is_extended_variant(&self) -> bool
        ensures { IsTrue result ↔ Contains (values (added Self.enumeration)) self.now }
    {
        index_in(self, additions::<Self>()).is_some()
    }

    /// The number of this value.
    final fn discriminant(&self) -> isize
        ensures { result ≡ number_of Self.eq Self.enumeration self.now }
    {
        own_item(self).1
    }

    /// The name of this value.
    final fn identifier(&self) -> &'static str
        ensures { result.now ≡ name_of Self.eq Self.enumeration self.now }
    {
        own_item(self).2
    }

    /// The index of this value in its own table.
    final fn enumeration_index(&self) -> usize
        ensures root { Contains (values Self.enumeration.root) self.now →
            slice_get (values Self.enumeration.root) result ≡ Some self.now }
        ensures extended { Contains (values (added Self.enumeration)) self.now →
            slice_get (values (added Self.enumeration)) result ≡ Some self.now }
    {
        match index_in(self, Self::items()) {
            Some(index) => index,
            None => match index_in(self, additions::<Self>()) {
                Some(index) => index,
                None => unreachable!(),
            },
        }
    }

    /// The value of that number; `None` if no value has it.
    final fn from_discriminant(discriminant: isize) -> Option<Self>
        ensures back { (v : Self) → number_of Self.eq Self.enumeration v ≡ discriminant →
            result ≡ Some v }
        ensures only { IfSome result (λ v. number_of Self.eq Self.enumeration v ≡ discriminant) }
    {
        with_number(discriminant, Self::items(), additions::<Self>())
    }

    /// The value at that index of the root; `None` if there is none.
    final fn from_enumeration_index(index: usize) -> Option<Self>
        ensures { result ≡ slice_get (values Self.enumeration.root) index }
    {
        value_at(Self::items(), index)
    }

    /// The value at that index after the extension marker; `None` if there is none.
    final fn from_extended_enumeration_index(index: usize) -> Option<Self>
        ensures { result ≡ slice_get (values (added Self.enumeration)) index }
    {
        value_at(additions::<Self>(), index)
    }

    /// The value of that name; `None` if no value has it.
    final fn from_identifier(identifier: &str) -> Option<Self>
        ensures back { (v : Self) → name_of Self.eq Self.enumeration v ≡ identifier.now →
            result ≡ Some v }
        ensures only { IfSome result (λ v. name_of Self.eq Self.enumeration v ≡ identifier.now) }
    {
        with_name(identifier, Self::items(), additions::<Self>())
    }

    // each value has its item
    ghost complete: { (v : Self) → option_map (λ i. i.value) (item_of Self.eq Self.enumeration v) ≡ Some v };

    // no value, no number and no name is in two items, and the number of items fits
    ghost lawful: { IsEnumeration Self.eq Self.enumeration };

    // the type means what its enumeration means
    ghost agrees: { AgreesWithEnumeration Self.eq Self.enumeration Self.meaning };
}

/// The number in the records of the value, the same under every tag, constraints and name.
pub fn written_number<T: Enumerated>(value: &T) -> isize
    ensures { (t : Tag) (c : ConstraintSet) (n : Name) →
        T.meaning.records value.now t c n ≡
        scalar t unconstrained n (discriminant (labels_of T.enumeration) result) ∷ [] }
{
    value.discriminant()
}

// The items after the extension marker, none if there is no marker.
pub(crate) fn additions<T: EnumeratedItems>() -> &'static [EnumerationItem<T>]
    ensures { table_items result.now ≡ added T.enumeration }
{
    let Some(items) = T::added_items() else {
        return &[];
    };
    items
}

// The item of the value.
fn own_item<'a, T: Enumerated>(value: &T) -> &'a EnumerationItem<T>
    ensures { item_of T.eq T.enumeration value.now ≡ Some (item_view result.now) }
{
    match with_value(value, T::items(), additions::<T>()) {
        Some(item) => item,
        None => unreachable!(),
    }
}

// The first item of the value in two tables.
fn with_value<'a, T: Eq>(
    value: &T,
    root: &'a [EnumerationItem<T>],
    additions: &'a [EnumerationItem<T>],
) -> Option<&'a EnumerationItem<T>>
    ensures { option_copied result ≡
        find (λ l. T.eq l.0 value.now) (root.now ++ additions.now) }
{
    root.iter()
        .chain(additions.iter())
        .find(|item| item.0 == *value)
}

// The value of the first item of that number in two tables.
fn with_number<T: Copy>(
    number: isize,
    root: &[EnumerationItem<T>],
    additions: &[EnumerationItem<T>],
) -> Option<T>
    ensures { result ≡
        option_map (λ l. l.0) (find (λ l. int_eq l.1 number) (root.now ++ additions.now)) }
{
    Some(item_with_number(number, root, additions)?.0)
}

// The value of the first item of that name in two tables.
fn with_name<T: Copy>(
    name: &str,
    root: &[EnumerationItem<T>],
    additions: &[EnumerationItem<T>],
) -> Option<T>
    ensures { result ≡
        option_map (λ l. l.0) (find (λ l. bytes_eq l.2.now name.now)
        (root.now ++ additions.now)) }
{
    Some(item_with_name(name, root, additions)?.0)
}

// The first index of the value in a table.
fn index_in<T: Eq>(value: &T, table: &[EnumerationItem<T>]) -> Option<usize>
    ensures { result ≡ position (λ l. T.eq l.0 value.now) table.now }
{
    table.iter().position(|item| item.0 == *value)
}

// The value at an index of a table; `None` if there is none.
fn value_at<T: Copy>(table: &[EnumerationItem<T>], index: usize) -> Option<T>
    ensures { result ≡ option_map (λ l. l.0) (slice_get table.now index) }
{
    table.get(index).map(|item| item.0)
}
