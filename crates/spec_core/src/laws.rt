//! What holds of every world that events lead to.
ghost use Rattle.std.specs.Prelude.{◌≡◌, ◌++◌, [], ◌∷◌, IsTrue, List, Some, length, map, ℕ};
ghost use Rattle.board.specs.Board.{fresh_board};
ghost use Rattle.req_keys.specs.Key.{PositionSet};
ghost use Rattle.req_keys.specs.declared.verdict.Verdict.{Verdict};
ghost use Rattle.script.specs.declared.job.JobPlan.{JobPlan};
ghost use Rattle.script.specs.declared.job.Outcome.{Outcome};
ghost use Rattle.script.specs.Job.{Told};
ghost use Rattle.script.specs.Sequential.{needs, result_of};
ghost use Rattle.spec_core.specs.declared.event.Event.{Event};
ghost use Rattle.spec_core.specs.Rounds.{AreWithTicket, goes, world_through};
ghost use Rattle.spec_core.specs.World.{IsAlong, World, ends_as, new_world, world_over};

/// Whatever happens to a new world, its told pairs begin what the sequential run needs, each answered cell holds its key's
/// verdict, and where the job is done its outcome is the sequential run's.
pub fn worlds_go_along_the_sequential_run()
    ensures along { (plan : JobPlan) (verdict : PositionSet → Verdict) (workers entries : ℕ) (events : List Event) →
        IsAlong verdict (world_over verdict events (new_world plan workers entries)) }
    ensures begins { (plan : JobPlan) (verdict : PositionSet → Verdict) (workers entries : ℕ) (events : List Event) →
        (rest : Told) × (needs plan verdict ≡ (world_over verdict events (new_world plan workers entries)).told ++ rest) }
    ensures outcome { (plan : JobPlan) (verdict : PositionSet → Verdict) (workers entries : ℕ) (events : List Event) (outcome : Outcome) →
        ends_as (world_over verdict events (new_world plan workers entries)) ≡ Some outcome → result_of plan verdict ≡ Some outcome }
{}

/// In a stopped world each worker with a ticket can go: the one that runs its entry gives up, each other one leaves. These events
/// are enabled one after the other, in any order. The next round is then enabled; it keeps the plan and the told pairs, and its
/// board is a new one with as many workers and of the same size.
pub fn rounds_begin_anew()
    ensures { (verdict : PositionSet → Verdict) (world : World) (workers : List ℕ) → IsTrue world.board.stopped → AreWithTicket world.board workers →
        world_through verdict (map (goes world.board) workers ++ Event.Round ∷ []) world
        ≡ Some (record world { board = fresh_board (length world.board.tickets) world.board.size }) }
{}
