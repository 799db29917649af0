//! Names as the keys of a map.
ghost use Rattle.std.specs.Prelude.{◌≡◌, ◌≤◌, [], ◌∷◌, length, take, nat_eq};
ghost use Rattle.std.specs.Cmp.Lexicographic.{pointwise, bytes_decides};
ghost use Rattle.std.specs.Cmp.Rules.{comparing};
ghost use Rattle.std.proofs.Common.{rules, ap};

use std::hash::{Hash, Hasher};

/// A name as a key. Its bytes are hashed in one piece, where a slice would be hashed byte by byte, and a short name is
/// compared by a copy that stands in the key, since the name itself may be anywhere in a large file.
#[derive(Clone, Copy)]
pub(crate) struct Key<'a> {
    pub(crate) bytes: &'a [u8],
    head: [u8; 16],
    ghost copied: { length bytes.now ≤ 16 → take (length bytes.now) head ≡ bytes.now },
}

impl<'a> Key<'a> {
    /// The name as a key.
    pub(crate) fn new(bytes: &'a [u8]) -> Key<'a>
        ensures { result.bytes.now ≡ bytes.now }
    {
        let mut head = [0; 16];
        if bytes.len() <= 16 {
            head[..bytes.len()].copy_from_slice(bytes);
        }
        Key { bytes, head }
    }
}

impl<'a> PartialEq for Key<'a> {
    ghost eq = { λ a b. pointwise nat_eq a.bytes.now b.bytes.now };

    ghost laws = { Prim.search (comparing, rules) };

    fn eq(&self, other: &Key<'a>) -> bool {
        let len = self.bytes.len();
        if len != other.bytes.len() {
            return false;
        }
        if len <= 16 {
            self.head[..len] == other.head[..len]
        } else {
            self.bytes == other.bytes
        }
    }
}

impl<'a> Eq for Key<'a> {
    ghost laws = { Prim.search (comparing, rules) };
}

impl<'a> Hash for Key<'a> {
    ghost hash_input = { λ key. key.bytes.now ∷ [] };

    ghost respects_eq = { λ a b same. ap (λ bytes. bytes ∷ []) ((bytes_decides a.bytes.now b.bytes.now).0 same) };

    fn hash<H: Hasher>(&self, state: &mut H) {
        state.write(self.bytes);
    }
}
