//! Worlds that are worked by hand.
use crate::{Event, Events, World, replay};
use clauses::{Lits, Problem, clauses_of, literal_of};
use req_keys::Key;
use script::{JobPlan, Outcome};
use std::alloc::{AllocError, Global};
use std::test::Fail;

/// A problem over two variables with these clauses. Where there is a requirement, it is that a is true.
fn problem_of(alloc: Global, words: &[&str], is_required: bool) -> Result<Problem, AllocError> {
    let mut roots = Lits::new(alloc);
    if is_required {
        roots.push(literal_of(2, b'a'))?;
    }
    Ok(Problem {
        variables: 2,
        features: 2,
        clauses: clauses_of(alloc, 2, words)?,
        roots,
        allowance: 10,
        rungs: 0,
    })
}

/// The event of a letter and a number. That of a post says how many requirements are in the key.
fn event_of(alloc: Global, letter: u8, number: u32) -> Result<Event, AllocError> {
    Ok(match letter {
        b'P' if number == 0 => Event::Post(Key::empty(alloc, 1)?),
        b'P' => Event::Post(Key::full(alloc, 1)?),
        b'D' => Event::Draw(number),
        b'C' => Event::Claim(number),
        b'A' => Event::Answer(number),
        b'X' => Event::Cancel(number),
        b'U' => Event::Use(number),
        b'S' => Event::Stop,
        b'R' => Event::Round,
        _ => Event::Solve,
    })
}

fn events_of(alloc: Global, table: &[(u8, u32)]) -> Result<Events, AllocError> {
    let mut events = Events::new(alloc);
    for (letter, number) in table {
        events.push(event_of(alloc, *letter, *number)?)?;
    }
    Ok(events)
}

/// How a world shows its end: nothing, nobody, all or parts, or that a search spent its allowance.
fn ending_of(world: &World<'_>) -> char {
    match world.finished() {
        None => '-',
        Some(Outcome::Consistent) => 'c',
        Some(Outcome::Background) => 'b',
        Some(Outcome::Explained(_)) => 'e',
        Some(Outcome::LimitAt { .. }) => 'l',
    }
}

/// How many pairs the world over these events was told, on a board of two entries, and how it ended.
fn shown(
    alloc: Global,
    problem: &Problem,
    workers: u8,
    table: &[(u8, u32)],
) -> Result<(u64, char), AllocError> {
    let plan = JobPlan {
        requirements: problem.n(),
        list: None,
    };
    let events = events_of(alloc, table)?;
    let world = replay(alloc, problem, plan, u32::from(workers).min(64), 2, &events)?;
    Ok((world.used().len(), ending_of(&world)))
}

/// Whether an entry can be taken from a new board.
fn takes(alloc: Global, problem: &Problem) -> Result<bool, AllocError> {
    let plan = JobPlan {
        requirements: problem.n(),
        list: None,
    };
    let mut world = World::new(alloc, problem, plan, 1, 2)?;
    world.step(&Event::Take(0))
}

/// Nothing can be met, and the one search of a job without requirements says so.
#[test]
fn solves(rt: HostRuntime) -> Result<(), Fail> {
    let problem = problem_of(rt.alloc(), &["ab", "aB", "Ab", "AB"], false)?;
    assert!(rt; matches!(shown(rt.alloc(), &problem, 1, &[(b'!', 0)]), Ok((1, 'b'))));
    Ok(())
}

#[test]
fn takes_nothing(rt: HostRuntime) -> Result<(), Fail> {
    let problem = problem_of(rt.alloc(), &["A"], true)?;
    assert!(rt; matches!(takes(rt.alloc(), &problem), Ok(false)));
    Ok(())
}

/// The answer about the empty key is there before it is asked, and that about the full key comes late. Both are lost, the first in a
/// new round, in which another worker answers again.
const LATE: &[(u8, u32)] = &[
    (b'P', 0),
    (b'P', 1),
    (b'D', 1),
    (b'C', 1),
    (b'A', 1),
    (b'U', 0),
    (b'D', 1),
    (b'C', 1),
    (b'X', 1),
    (b'A', 1),
    (b'U', 1),
    (b'D', 2),
    (b'!', 0),
    (b'S', 0),
    (b'R', 0),
    (b'U', 0),
    (b'P', 0),
    (b'D', 2),
    (b'C', 2),
    (b'A', 2),
    (b'U', 0),
];

#[test]
fn goes_over_rounds(rt: HostRuntime) -> Result<(), Fail> {
    let problem = problem_of(rt.alloc(), &["A"], true)?;
    // Before the last event the empty key is still asked.
    assert!(rt; matches!(shown(rt.alloc(), &problem, 2, &LATE[..20]), Ok((1, '-'))));
    assert!(rt; matches!(shown(rt.alloc(), &problem, 2, LATE), Ok((2, 'e'))));
    Ok(())
}
