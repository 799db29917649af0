//! Products and what they make true.
ghost use Rattle.std.specs.Prelude.{◌≡◌, ◌≤◌, [], All, IfOk, Some, None, if◌then◌else◌, length};
ghost use Rattle.std.specs.List.{list_all};
ghost use Rattle.config_reader.specs.Consistent.{formulas_at};
ghost use Rattle.config_reader.specs.Laws.{AreNamed};
ghost use Rattle.feature_tree.specs.Truth.{truth};
ghost use Rattle.certificate.specs.Words.{product_in, set_of};

use crate::numbers::read_list;
use config_reader::{Config, Requirement};
use lists::Numbers;
use req_keys::Key;
use std::alloc::AllocError;

/// Reads the line of a product into a set, which has as many members as there are features.
pub(crate) fn read_product(
    line: &[u8],
    count: u32,
    numbers: &mut Numbers,
    set: &mut [bool],
) -> Result<bool, AllocError>
    requires { count ≡ length set.old }
    ensures { IfOk result (λ yes. product_in (length set.old) line.now ≡ (if yes then Some set.new else None)) }
{
    if !read_list(line, b"product", count, numbers)? {
        return Ok(false);
    }
    set.fill(false);
    put(set, numbers.as_slice());
    Ok(true)
}

/// Puts numbers into the set. They count from 1.
fn put(set: &mut [bool], numbers: &[u32])
    requires within { All (λ number. number ≤ length set.old) numbers.now }
    requires counted { All (λ number. 1 ≤ number) numbers.now }
    requires empty { set.old ≡ set_of (length set.old) [] }
    ensures { set.new ≡ set_of (length set.old) numbers.now }
{
    for number in numbers {
        set[(*number - 1) as usize] = true;
    }
}

/// Whether the set makes every must true.
pub(crate) fn musts_hold(musts: &[Requirement], set: &[bool]) -> bool
    requires { AreNamed (length set.now) musts.now }
    ensures { result ≡ list_all (λ must. truth set.now must.formula) musts.now }
{
    for must in musts {
        if !must.formula.holds(set) {
            return false;
        }
    }
    true
}

/// Whether the set makes the requirements at the key's positions true.
pub(crate) fn requirements_hold(
    config: &Config,
    key: &Key,
    set: &[bool],
) -> Result<bool, AllocError>
    requires named { AreNamed (length set.now) config.now.requirements }
    requires key { key.now.n ≡ length config.now.requirements }
    ensures { IfOk result (λ yes. yes ≡ list_all (truth set.now) (formulas_at config.now key.now.members)) }
{
    let same = key.n() as usize == config.requirements.len();
    prove!(same);
    let positions = key.positions()?;
    for position in positions.as_slice() {
        let requirement = config.requirements.get((*position - 1) as usize);
        if !requirement.formula.holds(set) {
            return Ok(false);
        }
    }
    Ok(true)
}
