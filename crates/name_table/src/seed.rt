//! What names are hashed after.
use std::hash::{BuildHasher, DefaultHasher, Hasher};

/// Hashes a name after bytes of the file that it stands in, so that a hash depends on the whole of it.
#[derive(Clone, Copy)]
pub struct Seed {
    initial: DefaultHasher,
}

impl BuildHasher for Seed {
    type Hasher = DefaultHasher;

    ghost build_hasher = { λ seed. seed.initial };

    fn build_hasher(&self) -> DefaultHasher {
        self.initial
    }
}

impl Seed {
    /// After nothing.
    pub fn new() -> Seed {
        Seed {
            initial: DefaultHasher::new(),
        }
    }

    /// After these bytes too, and up to the end of a word of eight bytes, where a name is hashed faster.
    pub fn feed(&mut self, bytes: &[u8]) {
        self.initial.write(bytes);
        self.initial.write(&[0; 8][bytes.len() % 8..]);
    }
}
