//! Laws of what no other contract names: what types refuse.
ghost use Rattle.asn1_laws.specs.Refusals.{HasOtherLength, IsOutside, RefuseTheSame};

use crate::decode::Decode;
use asn1_model::AsnType;
use asn1_types::{Array, Implicit};
use asn1_values::{LimitedInteger, Limits};
use std::borrow::Cow;

/// A law of what types refuse: an INTEGER with limits a number outside of them (`limits`), an array a list of another length
/// (`length`, `octets`), and what holds a value and means the same what that refuses (`boxed`, `cow`, `implicit`).
pub fn types_refuse_what_they_say<'a, T: Decode + 'a, G: AsnType, L: Limits, const N: usize>()
    ensures limits { RefuseTheSame ⟦<LimitedInteger<L> as Decode>⟧.refusals
        (λ accepts. IsOutside L.start L.end) }
    ensures length { RefuseTheSame ⟦<Array<T, N> as Decode>⟧.refusals (HasOtherLength T.meaning N) }
    ensures octets { RefuseTheSame ⟦<[u8; N] as Decode>⟧.refusals
        (HasOtherLength ⟦<u8 as AsnType>⟧.meaning N) }
    ensures boxed { RefuseTheSame ⟦<Box<T> as Decode>⟧.refusals T.refusals }
    ensures cow { RefuseTheSame ⟦<Cow<'a, T> as Decode>⟧.refusals T.refusals }
    ensures implicit { RefuseTheSame ⟦<Implicit<G, T> as Decode>⟧.refusals T.refusals }
{}
