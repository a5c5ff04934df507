//! Object identifiers.
ghost use Rattle.std.specs.Prelude.{◌≡◌, ◌↔◌, IsTrue};

mod text;

use crate::kind::Arcs;
use crate::strings::unit_string::UnitString;

/// An OBJECT IDENTIFIER: its arcs from the root of the tree of objects on (X.680, 32). Any list of arcs
/// is one here, also an empty list.
pub type ObjectIdentifier = UnitString<u32, Arcs>;

impl UnitString<u32, Arcs> {
    /// Whether these are its arcs.
    pub fn has_arcs(&self, arcs: &[u32]) -> bool
        ensures { IsTrue result ↔ (self.now ≡ arcs.now) }
    {
        self.as_slice() == arcs
    }
}
