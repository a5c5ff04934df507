//! The finding of a walk over bytes.
ghost use Rattle.std.specs.Prelude.{◌≡◌, ◌+◌, ◌^◌, ◌<◌};
ghost use Rattle.asn1_certificate_rules.specs.Findings.{moved, position_of};

use crate::broken_rules::BrokenRule;

/// What a walk over bytes finds.
#[derive(Clone, Copy, Debug, Drop, PartialEq, Eq)]
pub enum Finding {
    /// They break a rule.
    Broken(BrokenRule),
    /// At this position elements begin that lie deeper than the walk looks.
    Deeper(usize),
}

impl Finding {
    /// The same behind this many further bytes.
    pub(crate) fn after(self, count: usize) -> Finding
        requires { count + position_of self < 2 ^ 64 }
        ensures { result ≡ moved count self }
    {
        match self {
            Finding::Broken(broken) => Finding::Broken(BrokenRule {
                rule: broken.rule,
                position: count + broken.position,
            }),
            Finding::Deeper(position) => Finding::Deeper(count + position),
        }
    }
}
