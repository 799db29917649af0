//! The told pairs and one more, before it is told for good.
ghost use Rattle.std.specs.Prelude.{◌≡◌};
ghost use Rattle.script.specs.Job.{verdict_in};
ghost use Rattle.script.specs.inside.Going.{told_beside};

use crate::used::Used;
use req_keys::{Key, Verdict};

/// The told pairs, and a key beside them with its verdict.
#[derive(Drop)]
pub(crate) struct Beside<'a> {
    pub used: &'a Used,
    pub key: &'a Key,
    pub verdict: Verdict,
}

impl Beside<'_> {
    /// The verdict that was told of the key.
    pub fn verdict_of(&self, key: &Key) -> Option<Verdict>
        ensures { result ≡ verdict_in (told_beside self.now) key.now }
    {
        match self.used.verdict_of(key) {
            Some(verdict) => Some(verdict),
            None => {
                if key == self.key {
                    Some(self.verdict)
                } else {
                    None
                }
            }
        }
    }
}
