//! The lines of some of the requirements.
ghost use Rattle.std.specs.Prelude.{◌≡◌, ◌≤◌, ◌++◌, IfOk, OnOk, length, codes};
ghost use Rattle.std.specs.List.{flat_map};
ghost use Rattle.report.specs.Lines.{chosen, conflict_lines, diagnosis_lines, member_line};

use config_reader::Requirement;
use diag_base::Bytes;
use req_keys::Key;
use std::alloc::{AllocError, Global};

/// Appends what to give up: all that isn't kept.
pub fn push_diagnosis(
    alloc: Global,
    text: &mut Bytes,
    requirements: &[Requirement],
    kept: &Key,
) -> Result<(), AllocError>
    requires { length requirements.now ≤ 4096 }
    ensures { OnOk result (text.new ≡ text.old ++ diagnosis_lines requirements.now kept.now) }
{
    let given = lines_of(alloc, false, requirements, kept)?;
    let count = given.count;
    let head = format!(in alloc; "diagnosis {count}\n")?;
    text.extend_from_slice(head.as_str().as_bytes())?;
    text.extend_from_slice(given.lines.as_slice())
}

/// Appends the requirements of a conflict.
pub fn push_conflict(
    alloc: Global,
    text: &mut Bytes,
    requirements: &[Requirement],
    conflict: &Key,
) -> Result<(), AllocError>
    requires { length requirements.now ≤ 4096 }
    ensures { OnOk result (text.new ≡ text.old ++ conflict_lines requirements.now conflict.now) }
{
    let given = lines_of(alloc, true, requirements, conflict)?;
    let count = given.count;
    let head = format!(in alloc; "conflict {count}\n")?;
    text.extend_from_slice(head.as_str().as_bytes())?;
    text.extend_from_slice(given.lines.as_slice())
}

/// Lines, and how many they are.
#[derive(Drop)]
struct Given {
    count: usize,
    lines: Bytes,
}

/// The lines of the requirements at the key's positions, or of those at the others.
fn lines_of(
    alloc: Global,
    inside: bool,
    requirements: &[Requirement],
    key: &Key,
) -> Result<Given, AllocError>
    requires { length requirements.now ≤ 4096 }
    ensures count { IfOk result (λ given. given.count ≡ length (chosen inside requirements.now key.now)) }
    ensures lines { IfOk result (λ given. given.lines ≡ flat_map member_line (chosen inside requirements.now key.now)) }
{
    let mut given = Given {
        count: 0,
        lines: Bytes::new(alloc),
    };
    for (i, requirement) in requirements.iter().enumerate() {
        let position = i as u32 + 1;
        if key.contains(position) == inside {
            push_member(alloc, &mut given.lines, position, requirement)?;
            given.count += 1;
        }
    }
    Ok(given)
}

fn push_member(
    alloc: Global,
    lines: &mut Bytes,
    position: u32,
    requirement: &Requirement,
) -> Result<(), AllocError>
    ensures { OnOk result (lines.new ≡ lines.old ++ member_line (position, requirement.now.text)) }
{
    let head = format!(in alloc; "  {position} ")?;
    lines.extend_from_slice(head.as_str().as_bytes())?;
    lines.extend_from_slice(requirement.text.as_slice())?;
    lines.extend_from_slice(b"\n")
}
