//! How far a search came.
ghost use Rattle.std.specs.Prelude.{◌≤◌};

/// How far the search for the end of the first element came: behind this many octets, inside this many open elements of indefinite
/// lengths.
#[derive(Clone, Copy, Debug)]
pub struct Progress {
    pub(crate) offset: usize,
    pub(crate) levels: usize,
    // The octets of an open element have begun.
    ghost begun: { levels ≤ offset },
}

impl Progress {
    ghost use Rattle.asn1_ber_items.specs.Progress.{HasCome};
    ghost use Rattle.std.specs.Prelude.{List, ℕ};

    /// The progress before any octet, which is right for all octets.
    pub fn new() -> Progress
        ensures { (octets : List ℕ) → HasCome result octets }
    {
        Progress {
            offset: 0,
            levels: 0,
        }
    }
}
