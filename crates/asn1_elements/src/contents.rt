//! Contents octets that were read.
ghost use Rattle.asn1_elements.specs.ElementForms.{octets_of};
ghost use Rattle.std.specs.Prelude.{◌≡◌};

/// The contents octets of a content, as DER has them.
#[derive(Drop)]
pub enum Contents<'a> {
    /// Those of the element that was parsed.
    AsParsed(&'a [u8]),
    /// Others, that were made of it.
    Made(Vec<u8>),
}

impl<'a> Contents<'a> {
    /// The octets.
    #[inline(always)]
    pub fn octets(&self) -> &[u8]
        ensures { result.now ≡ octets_of self.now }
    {
        match self {
            Contents::AsParsed(octets) => octets,
            Contents::Made(octets) => octets.as_slice(),
        }
    }
}
