//! The reasons that an input is not shown to its end.
ghost use Rattle.std.specs.Prelude.{◌≡◌};
ghost use Rattle.asn1_ldap_stream.specs.Failures.{status_of};
ghost use Rattle.asn1_ldap_stream.specs.declared.failure.Failure.TheVariants.{Memory};

use asn1_dec::DecodeError;
use std::alloc::AllocError;
use thiserror::Error;

/// The reason that an input is not shown to its end. Positions are those of bytes in the stream, from 0.
#[derive(Clone, Copy, Debug, Drop, Error)]
pub enum Failure {
    /// No element begins at this position, or one that does not begin as a message does. The error is that of reading it.
    #[error("byte {0}: no LDAP message: {1}")]
    Damaged(u128, DecodeError),
    /// The input ends inside the element that begins at this position, of which it has this many bytes.
    #[error("byte {0}: the input ends inside an LDAP message, of which it has {1} bytes")]
    CutOff(u128, usize),
    /// Reading failed.
    #[error("reading failed")]
    Reading,
    /// Writing failed.
    #[error("writing failed")]
    Writing,
    /// There was no memory.
    #[error("no memory")]
    Memory,
}

impl Failure {
    /// The status with which the program ends.
    pub fn status(&self) -> u8
        ensures { result ≡ status_of self.now }
    {
        match self {
            Failure::Damaged(_, _) => 1,
            Failure::CutOff(_, _) => 1,
            Failure::Reading => 2,
            Failure::Writing => 2,
            Failure::Memory => 2,
        }
    }
}

impl From<AllocError> for Failure {
    ghost from_gives = { λ _ failure. failure ≡ Memory };

    fn from(_refused: AllocError) -> Failure {
        Failure::Memory
    }
}
