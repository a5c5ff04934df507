//! Whether a component may be absent.
ghost use Rattle.std.specs.Prelude.{◌≡◌};

/// Whether a component of a SEQUENCE or a SET may be absent (X.680, 25.1).
#[derive(Clone, Copy, PartialEq, Eq, PartialOrd, Ord, Debug)]
pub enum FieldPresence {
    /// The component is always there.
    Required,
    /// The component is marked OPTIONAL.
    Optional,
    /// The component is marked DEFAULT.
    Default,
}

impl FieldPresence {
    ghost use Rattle.asn1_fields.specs.FieldViews.{may_be_absent};

    /// Whether the component may be absent.
    pub fn is_optional_or_default(&self) -> bool
        ensures { result ≡ may_be_absent self.now }
    {
        match self {
            FieldPresence::Required => false,
            FieldPresence::Optional | FieldPresence::Default => true,
        }
    }
}

/// The default presence is DEFAULT.
impl Default for FieldPresence {
    ghost use Rattle.asn1_fields.specs.declared.presence.FieldPresence.TheVariants as presences;

    ghost is_default = { λ presence. presence ≡ presences.Default };

    fn default() -> Self {
        Self::Default
    }
}
