//! How a propagator stands.
ghost use Rattle.std.specs.Prelude.{◌≡◌, ◌↔◌, IsTrue, IsFalse};
ghost use Rattle.propagation.specs.inside.UpToDate.{is_rest};

/// Whether what is assumed clashes, and where that came from.
#[derive(Clone, Copy, Debug, PartialEq, Eq)]
pub(crate) enum State {
    /// Nothing clashes.
    Rests,
    /// The literals assumed up to the last mark clash.
    Clashes,
    /// The problem's clauses and the learned ones clash with nothing assumed.
    Lost,
    /// The problem's clauses alone clash.
    Dead,
}

impl State {
    /// Whether nothing clashes.
    pub fn is_rest(self) -> bool
        ensures { result ≡ is_rest self }
    {
        matches!(self, State::Rests)
    }

    /// Whether the problem's clauses alone clash.
    pub fn is_dead(self) -> bool
        ensures { IsTrue result ↔ (self ≡ State.Dead) }
    {
        matches!(self, State::Dead)
    }
}

/// How it stands where all assumed literals were brought in, or clash.
pub(crate) fn brought(fits: bool) -> State
    ensures fits { IsTrue fits → result ≡ State.Rests }
    ensures clashes { IsFalse fits → result ≡ State.Clashes }
{
    if fits { State::Rests } else { State::Clashes }
}
