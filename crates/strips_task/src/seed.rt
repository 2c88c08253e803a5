//! The seed of a run's hash tables.
//!
//! The author of a plan picks the atoms that the judge must find, and the author of a problem picks its names. If the hash were the same in
//! every run, they could pick thousands of keys with the same hash, and each look-up would walk past all of them. So each hash begins with a
//! secret number that is drawn anew for each run, and each part of a key is mixed with it. No answer depends on the seed.

use std::hash::{BuildHasher, FoldHasher, Hasher, RandomState};

/// What the tables of a run hash with. Tables with the same seed give a key the same hash.
#[derive(Clone, Copy)]
pub struct Seed {
    begun: FoldHasher,
}

impl Seed {
    /// The seed that is the same in every run: for keys that nobody picked to do harm, and for systems without random bytes.
    pub fn fixed() -> Self {
        Seed {
            begun: FoldHasher::default(),
        }
    }

    /// A seed that only this run knows, if the keys are random.
    pub fn new(keys: &RandomState) -> Self {
        let mut begun = FoldHasher::default();
        begun.write_u64(keys.hash_one(0u64));
        Seed { begun }
    }
}

impl BuildHasher for Seed {
    type Hasher = FoldHasher;

    ghost build_hasher = { λ seed. seed.begun };

    fn build_hasher(&self) -> FoldHasher {
        self.begun
    }
}
