//! Numbers that are drawn.
ghost use Rattle.std.specs.Prelude.{◌≡◌, ◌<◌, ℕ};
ghost use Rattle.model_gen.specs.Draws.{next_state, drawn_at};

/// A linear congruential generator. Its state starts as the seed.
#[derive(Drop)]
pub(crate) struct Draws {
    pub state: u32,
}

impl Draws {
    /// A number below the bound.
    pub fn below(&mut self, bound: u32) -> u32
        requires { 0 < bound }
        ensures state { self.new.state ≡ next_state self.old.state }
        ensures drawn { result ≡ drawn_at (next_state self.old.state) bound }
        ensures below { result < bound }
    {
        self.state = ((1664525 * self.state as u64 + 1013904223) % (1 << 32)) as u32;
        self.state / 256 % bound
    }
}
