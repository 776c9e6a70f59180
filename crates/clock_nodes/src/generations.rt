//! The hash by which nodes are found.
use std::hash::{BuildHasher, Hasher};

/// A hash of generations by which those that follow each other stand beside each other, since nodes that were made together are
/// mostly looked for together. They do so in groups of 64, which stand apart: so generations of one kind may be any number
/// apart. The highest bits, by which a map tells apart what stands at one place, come of the lowest.
#[derive(Clone, Copy)]
pub(crate) struct Generations(u64);

impl Generations {
    pub(crate) fn new() -> Generations {
        Generations(0)
    }
}

impl Hasher for Generations {
    ghost use Rattle.clock_nodes.specs.Generations.{with_bytes, hash_of};

    ghost write = { with_bytes };

    ghost finish = { hash_of };

    fn finish(&self) -> u64 {
        let apart = (self.0 / 64).wrapping_mul(0x9E37_79B9_7F4A_7C15);
        let tag = self.0.wrapping_mul(0x0200_0000_0000_0000);
        self.0 ^ apart ^ tag
    }

    fn write(&mut self, bytes: &[u8]) {
        let mut hash = self.0;
        for b in bytes {
            hash = (hash / 256).wrapping_add((*b as u64).wrapping_mul(0x0100_0000_0000_0000));
        }
        self.0 = hash;
    }
}

impl BuildHasher for Generations {
    type Hasher = Generations;

    ghost build_hasher = { λ s. s };

    fn build_hasher(&self) -> Generations {
        *self
    }
}
