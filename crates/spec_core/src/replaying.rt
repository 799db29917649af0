//! A world over a list of events.
ghost use Rattle.std.specs.Prelude.{◌≡◌, ◌≤◌, ◌++◌, IfOk, IfSome, OnOk, Some, length};
ghost use Rattle.script.specs.Job.{Told};
ghost use Rattle.script.specs.Sequential.{needs, result_of, verdicts_of};
ghost use Rattle.spec_core.specs.World.{IsAlong, ends_as, new_world, world_over};

use crate::event::{Event, Events};
use crate::laws::worlds_go_along_the_sequential_run;
use crate::world::World;
use clauses::Problem;
use script::JobPlan;
use std::alloc::{AllocError, Global};

/// The events happen to the world, one after the other.
fn play(world: &mut World<'_>, events: &[Event]) -> Result<(), AllocError>
    ensures { OnOk result (world.new ≡ record { problem = world.old.problem; world = world_over (verdicts_of world.old.problem) events.now world.old.world }) }
{
    for event in events {
        world.step(event)?;
    }
    Ok(())
}

/// The world after all events, in order. Events that aren't enabled are passed over. Whatever the events are, each answered cell
/// holds its key's verdict, the told pairs begin what the sequential run needs, and where the job is done its outcome is the
/// sequential run's.
pub fn replay<'a>(
    alloc: Global,
    problem: &'a Problem,
    plan: JobPlan,
    workers: u32,
    entries: u32,
    events: &Events,
) -> Result<World<'a>, AllocError>
    requires plan { plan.requirements ≡ length problem.now.roots }
    requires list { IfSome plan.list (λ size. size ≤ 4096) }
    requires workers { workers ≤ 64 }
    requires least { 1 ≤ entries }
    requires most { entries ≤ 4096 }
    ensures problem { IfOk result (λ world. world.problem ≡ problem.now) }
    ensures world { IfOk result (λ world. world.world ≡ world_over (verdicts_of problem.now) events.now (new_world plan workers entries)) }
    ensures along { IfOk result (λ world. IsAlong (verdicts_of problem.now) world.world) }
    ensures begins { IfOk result (λ world. (rest : Told) × (needs plan (verdicts_of problem.now) ≡ world.world.told ++ rest)) }
    ensures outcome { IfOk result (λ world. IfSome (ends_as world.world) (λ outcome. result_of plan (verdicts_of problem.now) ≡ Some outcome)) }
{
    worlds_go_along_the_sequential_run();
    let mut world = World::new(alloc, problem, plan, workers, entries)?;
    play(&mut world, events.as_slice())?;
    Ok(world)
}
