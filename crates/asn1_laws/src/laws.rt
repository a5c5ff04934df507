//! Laws of the derives and the conversions of the errors, and of sameness between written records.
ghost use Rattle.asn1_laws.specs.DecodeErrors as decoding;
ghost use Rattle.asn1_laws.specs.EncodeErrors as encoding;
ghost use Rattle.asn1_laws.specs.Writing.{SameWritten, Written, followed_by};
ghost use Rattle.asn1_laws.specs.declared.decode_error.DecodeError.{DecodeError};
ghost use Rattle.asn1_laws.specs.declared.encode_error.EncodeError.{EncodeError};
ghost use Rattle.asn1_model.specs.Orders.{SameRecords};
ghost use Rattle.asn1_model.specs.Records.{Record};
ghost use Rattle.asn1_tags.specs.Derives.{ClonesAll, ComparesAll};
ghost use Rattle.std.specs.Prelude.{◌≡◌, ◌↔◌, IsTrue, List};

use crate::decode_error::DecodeError;
use crate::encode_error::EncodeError;
use crate::needed::Needed;
use crate::side::Side;
use std::alloc::AllocError;

/// Whether two errors of writing say the same: they are of one case, and have the same message. A clone is its source.
pub fn errors_of_writing_are_compared_by_what_they_say(a: &EncodeError, b: &EncodeError) -> bool
    ensures same { IsTrue result ↔ (encoding.reason a.now ≡ encoding.reason b.now) }
    ensures clones { ClonesAll ⟦<EncodeError as Clone>⟧.is_clone
        ⟦<EncodeError as Clone>⟧.is_infallible }
{
    a == b
}

/// Whether two errors of reading say the same: they are of one case, and have the same texts, numbers and tag. A clone is its
/// source.
pub fn errors_of_reading_are_compared_by_what_they_say(a: &DecodeError, b: &DecodeError) -> bool
    ensures same { IsTrue result ↔ (decoding.reason a.now ≡ decoding.reason b.now) }
    ensures clones { ClonesAll ⟦<DecodeError as Clone>⟧.is_clone
        ⟦<DecodeError as Clone>⟧.is_infallible }
{
    a == b
}

/// Whether two say the same of how much input is missing. A clone is its source.
pub fn needs_are_compared_by_their_sizes(a: &Needed, b: &Needed) -> bool
    ensures same { IsTrue result ↔ (a.now ≡ b.now) }
    ensures clones { ClonesAll ⟦<Needed as Clone>⟧.is_clone ⟦<Needed as Clone>⟧.is_infallible }
{
    a == b
}

/// The errors of memory that was refused, as `?` makes them.
pub fn refused_memory_is_an_error_of_memory(
    writing: AllocError,
    reading: AllocError,
) -> (EncodeError, DecodeError)
    ensures writing { result.0 ≡ EncodeError.Memory }
    ensures reading { result.1 ≡ DecodeError.Memory }
{
    (EncodeError::from(writing), DecodeError::from(reading))
}

/// A law of the derives: two sides are equal if and only if they are the same, and a clone is its source.
pub fn sides_are_compared_by_what_they_are()
    ensures same { ComparesAll ⟦<Side as PartialEq>⟧.eq }
    ensures clones { ClonesAll ⟦<Side as Clone>⟧.is_clone ⟦<Side as Clone>⟧.is_infallible }
{}

/// A law of writing: what has been written is compared up to the order inside sets by an equivalence, and more records that
/// are the same keep it the same.
#[tactic(auto, using(crate::proofs::WritingUpToOrder::same_writing))]
pub fn sameness_of_what_is_written_is_an_equivalence()
    ensures reflexive { (w : Written) → SameWritten w w }
    ensures symmetric { (w x : Written) → SameWritten w x → SameWritten x w }
    ensures transitive { (w x y : Written) → SameWritten w x → SameWritten x y → SameWritten w y }
    ensures followed { (w x : Written) (rs ss : List Record) → SameWritten w x → SameRecords rs ss →
        SameWritten (followed_by w rs) (followed_by x ss) }
{}
