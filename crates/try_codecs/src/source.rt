//! Numbers at random.
ghost use Rattle.std.specs.Prelude.{◌<◌};

use rand_core::Rng;
use rand_pcg::Pcg32;

/// Numbers at random, the same for the same seed.
#[derive(Drop)]
pub(crate) struct Source {
    generator: Pcg32,
}

impl Source {
    /// The numbers of a seed.
    pub(crate) fn new(seed: u32) -> Source {
        Source {
            generator: Pcg32::new(u64::from(seed), 1),
        }
    }

    /// A number below this one, or 0 where there is none.
    pub(crate) fn below(&mut self, end: usize) -> usize
        ensures { 0 < end → result < end }
    {
        if end == 0 {
            return 0;
        }
        self.generator.next_u32() as usize % end
    }

    /// A byte.
    pub(crate) fn byte(&mut self) -> u8 {
        (self.generator.next_u32() % 256) as u8
    }
}
