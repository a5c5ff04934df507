//! The status that a call answers.
ghost use Rattle.std.specs.Prelude.{◌≡◌};
ghost use Rattle.fan_calls.specs.Statuses.{number_of};

/// The answer of a call. C gets its number, since no enum crosses to it.
#[derive(Clone, Copy, Debug, Drop, PartialEq, Eq)]
pub enum Status {
    /// The call did what its page says.
    Ok,
    /// The octets are at fault.
    Fault,
    /// The result does not fit into the memory of the caller.
    Room,
    /// Memory ran out.
    Memory,
    /// Constructed elements, or scopes of a value, are nested deeper than the call looks.
    Deep,
}

impl Status {
    /// The number of the status, as the header for C has it.
    pub fn number(self) -> i32
        ensures { result ≡ number_of self }
    {
        match self {
            Status::Ok => 0,
            Status::Fault => 1,
            Status::Room => 2,
            Status::Memory => 3,
            Status::Deep => 4,
        }
    }
}
