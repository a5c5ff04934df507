//! A value of `PART.&Content`, by the objects of `RequestParts` of the module `Signals`.
ghost use Rattle.std.specs.Prelude.{Err, IfErr, IfOk, Ok, ◌≡◌, ◌≢◌, ◌⊎◌};
ghost use Rattle.asn1_tables.specs.OpenValues.{MayAnswerOf, MemoryRanOut, WritesKept, WritesOpen};
ghost use Rattle.signals.specs.declared.request_parts.RequestParts.TheVariants as variants;

use crate::aliases::Route;
use crate::cause::Cause;
use crate::request_parts_object3::RequestPartsObject3;
use asn1_schema::{Any, AsnType, Decode, DecodeError, EncodeError, Rules};
use asn1_tables::read_open;
use std::alloc::Global;

/// A value of `PART.&Content`, by the objects of `RequestParts` of the module `Signals`.
#[derive(PartialEq, Eq, Debug, Drop)]
pub enum RequestParts {
    /// `{ PART cause IF UNKNOWN pass HOLDS Cause }`
    Cause(Cause),
    /// `{ PART route IF UNKNOWN refuse HOLDS Route }`
    Route(Route),
    /// `{ PART 12 IF UNKNOWN pass HOLDS SEQUENCE { from UTF8String, until [0] INTEGER OPTIONAL } }`
    Object3(RequestPartsObject3),
    /// The octets of a value under another `&number`.
    Other(u16, Any),
}

impl RequestParts {
    /// Reads the octets of a value under this `&number`, with at most `depth` nested scopes.
    ///
    /// # Errors
    /// Under the key of a row those of reading its type; under any other key [`DecodeError::Memory`] alone.
    pub fn read<R: Rules<Output = Vec<u8>>>(
        rules: &R,
        alloc: Global,
        number: u16,
        octets: &[u8],
        depth: usize,
    ) -> Result<Self, DecodeError>
        // Under the key of a row the value is one of the row's type, under any other key it is the octets.
        ensures row { IfOk result (λ value. elim value as (λ _. Type 0) [
          | variants.Cause x ↦ (number ≡ 4) × MayAnswerOf R.format ⟦<Cause as AsnType>⟧.meaning
              ⟦<Cause as PartialEq>⟧.eq ⟦<Cause as Decode>⟧.refusals depth octets.now (Ok x)
          | variants.Route x ↦ (number ≡ 9) × MayAnswerOf R.format ⟦<Route as AsnType>⟧.meaning
              ⟦<Route as PartialEq>⟧.eq ⟦<Route as Decode>⟧.refusals depth octets.now (Ok x)
          | variants.Object3 x ↦ (number ≡ 12) × MayAnswerOf R.format ⟦<RequestPartsObject3 as AsnType>⟧.meaning
              ⟦<RequestPartsObject3 as PartialEq>⟧.eq ⟦<RequestPartsObject3 as Decode>⟧.refusals depth octets.now (Ok x)
          | variants.Other other kept ↦ (other ≡ number) × (kept ≡ octets.now)
              × (number ≢ 4)
              × (number ≢ 9)
              × (number ≢ 12)
        ]) }
        // An error is one of reading the type of the row under this key, or memory ran out.
        ensures refused { IfErr result (λ error.
            ((number ≡ 4) × MayAnswerOf R.format ⟦<Cause as AsnType>⟧.meaning
            ⟦<Cause as PartialEq>⟧.eq ⟦<Cause as Decode>⟧.refusals depth octets.now (Err error)) ⊎
            ((number ≡ 9) × MayAnswerOf R.format ⟦<Route as AsnType>⟧.meaning
            ⟦<Route as PartialEq>⟧.eq ⟦<Route as Decode>⟧.refusals depth octets.now (Err error)) ⊎
            ((number ≡ 12) × MayAnswerOf R.format ⟦<RequestPartsObject3 as AsnType>⟧.meaning
            ⟦<RequestPartsObject3 as PartialEq>⟧.eq ⟦<RequestPartsObject3 as Decode>⟧.refusals depth octets.now (Err error)) ⊎
            MemoryRanOut error) }
    {
        match number {
            4 => match read_open(rules, alloc, octets, depth) {
                Ok(value) => Ok(Self::Cause(value)),
                Err(error) => Err(error),
            },
            9 => match read_open(rules, alloc, octets, depth) {
                Ok(value) => Ok(Self::Route(value)),
                Err(error) => Err(error),
            },
            12 => match read_open(rules, alloc, octets, depth) {
                Ok(value) => Ok(Self::Object3(value)),
                Err(error) => Err(error),
            },
            _ => {
                let octets = Any::new(Vec::from_slice(alloc, octets)?);
                Ok(Self::Other(number, octets))
            }
        }
    }

    /// Writes the octets of the value, with at most `depth` nested scopes.
    ///
    /// # Errors
    /// Those of [`Rules::write_value`].
    pub fn write<R: Rules<Output = Vec<u8>>>(
        &self,
        rules: &R,
        alloc: Global,
        depth: usize,
    ) -> Result<Vec<u8>, EncodeError>
        // The value of a row is written under its own type, and the octets under another key as they are.
        ensures written { elim self.now as (λ _. Type 0) [
          | variants.Cause x ↦ WritesOpen R.format ⟦<Cause as AsnType>⟧.meaning x depth result
          | variants.Route x ↦ WritesOpen R.format ⟦<Route as AsnType>⟧.meaning x depth result
          | variants.Object3 x ↦ WritesOpen R.format ⟦<RequestPartsObject3 as AsnType>⟧.meaning x depth result
          | variants.Other other kept ↦ WritesKept kept result
        ] }
    {
        match self {
            Self::Cause(value) => rules.write_value(value, depth),
            Self::Route(value) => rules.write_value(value, depth),
            Self::Object3(value) => rules.write_value(value, depth),
            Self::Other(_, octets) => Ok(Vec::from_slice(alloc, octets.as_bytes())?),
        }
    }

    /// The `&number` of the value.
    pub fn number(&self) -> u16
        // The key is that of the row, or the one that was kept.
        ensures key { elim self.now as (λ _. Type 0) [
          | variants.Cause x ↦ result ≡ 4
          | variants.Route x ↦ result ≡ 9
          | variants.Object3 x ↦ result ≡ 12
          | variants.Other other kept ↦ result ≡ other
        ] }
    {
        match self {
            Self::Cause(_) => 4,
            Self::Route(_) => 9,
            Self::Object3(_) => 12,
            Self::Other(number, _) => *number,
        }
    }
}
