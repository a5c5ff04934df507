//! An iterator over an input, by a function.
ghost use Rattle.asn1_rules.specs.Iters.{state};
ghost use Rattle.asn1_rules.specs.States.{begun};
ghost use Rattle.std.specs.Prelude.{◌≡◌};

use crate::front_reader::FrontReader;
use crate::iter::Iter;
use std::alloc::Global;

/// An iterator over the values of an input: [`Iter::new`].
pub fn iter_of<D, R: FrontReader<D>>(alloc: Global, input: &[u8], reader: R) -> Iter<'_, D, R>
    ensures begun { state result ≡ begun reader input.now }
{
    Iter::new(alloc, input, reader)
}
