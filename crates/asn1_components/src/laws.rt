//! Laws of what no other contract names: what the iterators of a table give.
ghost use Rattle.asn1_components.specs.ItemTables.{discriminants_left, identifiers_left, variants_left};
ghost use Rattle.asn1_components.specs.declared.iterators.DiscriminantIter.{DiscriminantIter};
ghost use Rattle.asn1_components.specs.declared.iterators.ItemIdentifierIter.{ItemIdentifierIter};
ghost use Rattle.asn1_components.specs.declared.iterators.VariantIter.{VariantIter};
ghost use Rattle.std.specs.Iterator.{YieldsFirst, YieldsFirstBy};

use crate::iterators::{DiscriminantIter, ItemIdentifierIter, VariantIter};

/// A law of the iterators of a table: each gives the first of what is left, and the next time what follows.
pub fn iterators_give_what_is_left<T: Copy + 'static>()
    ensures values { (s t : VariantIter T) (item : _) →
        ⟦<VariantIter<'static, T> as Iterator>⟧.next_gives s item t →
        YieldsFirst variants_left s item t }
    ensures numbers { (s t : DiscriminantIter T) (item : _) →
        ⟦<DiscriminantIter<'static, T> as Iterator>⟧.next_gives s item t →
        YieldsFirst discriminants_left s item t }
    ensures names { (s t : ItemIdentifierIter T) (item : _) →
        ⟦<ItemIdentifierIter<'static, T> as Iterator>⟧.next_gives s item t →
        YieldsFirstBy (λ name. name.now) identifiers_left s item t }
{}
