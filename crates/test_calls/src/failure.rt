//! Why a case fails.
ghost use Rattle.test_calls.specs.declared.failure.Failure.TheVariants.{Another, Memory, NotRead, NotWritten};
ghost use Rattle.asn1_laws.specs.declared.decode_error.DecodeError.TheVariants as reading;
ghost use Rattle.asn1_laws.specs.declared.encode_error.EncodeError.TheVariants as writing;
ghost use Rattle.asn1_rules.specs.declared.canonical.CanonicalError.TheVariants as canonical;
ghost use Rattle.std.specs.Prelude.{◌≡◌, ◌≢◌, ℕ};

use asn1_dec::DecodeError;
use asn1_enc::EncodeError;
use asn1_rules::CanonicalError;
use std::alloc::AllocError;

/// Why a case of a codec fails.
#[derive(Clone, Copy, Debug, Drop, PartialEq, Eq)]
pub enum Failure {
    /// There was no memory: for a value of the case, for writing it or for reading it.
    Memory,
    /// A value was not written.
    NotWritten(EncodeError),
    /// The output was not read.
    NotRead(DecodeError),
    /// Another value was read than was written, or a call gave a wrong answer.
    Another,
}

impl Failure {
    /// Why a case fails whose value was not written.
    pub fn of_writing(error: EncodeError) -> Failure
        ensures memory { error ≡ writing.Memory → result ≡ Memory }
        ensures other { error ≢ writing.Memory → result ≡ NotWritten error }
        ensures not_another { result ≢ Another }
    {
        match error {
            EncodeError::Memory => Failure::Memory,
            other => Failure::NotWritten(other),
        }
    }

    /// Why a case fails whose output was not read.
    pub fn of_reading(error: DecodeError) -> Failure
        ensures memory { error ≡ reading.Memory → result ≡ Memory }
        ensures other { error ≢ reading.Memory → result ≡ NotRead error }
        ensures not_another { result ≢ Another }
    {
        match error {
            DecodeError::Memory => Failure::Memory,
            other => Failure::NotRead(other),
        }
    }

    /// Why a case fails whose output was not read as what is written again.
    pub fn of_canonical_reading(error: CanonicalError) -> Failure
        ensures no_memory_to_read { error ≡ canonical.Read reading.Memory → result ≡ Memory }
        ensures no_memory_to_write { error ≡ canonical.Write writing.Memory → result ≡ Memory }
        ensures other_bytes { (at : ℕ) → error ≡ canonical.NotCanonical at → result ≡ Another }
    {
        match error {
            CanonicalError::Read(error) => Failure::of_reading(error),
            CanonicalError::Write(error) => Failure::of_writing(error),
            CanonicalError::NotCanonical { at: _ } => Failure::Another,
        }
    }
}

impl From<AllocError> for Failure {
    ghost from_gives = { λ _ failure. failure ≡ Memory };

    fn from(_refused: AllocError) -> Failure {
        Failure::Memory
    }
}
