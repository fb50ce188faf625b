// The lines of a plan, so sorted that those for one fire stand side by side.
ghost use Rattle.std.specs.Prelude.{◌≡◌, ℕ, ◌<◌, IfOk, filter};
ghost use Rattle.std.specs.List.Sorted.{IsNonDecreasingBy};
ghost use Rattle.ev_types.specs.declared.why.WhyKind.{WhyKind as KindOf};
ghost use Rattle.script_hook.specs.Keys.{key_at, line_key, rank};
ghost use Rattle.script_hook.specs.Planning.{is_at};

use ev_types::{NoMemory, PlanLine, WhyKind};
use std::alloc::Global;

/// The place of a kind among the five.
fn rank(kind: WhyKind) -> u8
    ensures rank { result ≡ rank kind }
    ensures few { result < 5 }
{
    match kind {
        WhyKind::Connected => 0,
        WhyKind::Read => 1,
        WhyKind::Write => 2,
        WhyKind::Timer => 3,
        WhyKind::Event => 4,
    }
}

/// What the lines are sorted by: the number of the fire, and then the kind of its reason.
fn key_at(kind: WhyKind, nth: u64) -> u128
    ensures { result ≡ key_at kind nth }
{
    8 * u128::from(nth) + u128::from(rank(kind))
}

/// The same of a line.
fn line_key(line: &PlanLine) -> u128
    ensures { result ≡ line_key line.now }
{
    key_at(line.why, u64::from(line.nth))
}

/// The lines, sorted; those for one fire keep their order. Takes time as a sort, and memory for them and for the sort.
pub(crate) fn sorted(alloc: Global, lines: &[PlanLine]) -> Result<Vec<PlanLine>, NoMemory>
    ensures sorted { IfOk result (λ v. IsNonDecreasingBy line_key v.items) }
    ensures same { IfOk result (λ v. (k : KindOf) → (n : ℕ) → filter (is_at k n) v.items ≡ filter (is_at k n) lines.now) }
{
    let mut kept = Vec::from_slice(alloc, lines)?;
    kept.sort_by_key(|line| line_key(line))?;
    Ok(kept)
}

/// Of sorted lines, those for the fire with this number for a kind. Logarithmic in the lines.
pub(crate) fn lines_at(lines: &[PlanLine], kind: WhyKind, nth: u64) -> &[PlanLine]
    requires sorted { IsNonDecreasingBy line_key lines.now }
    ensures { result.now ≡ filter (is_at kind nth) lines.now }
{
    let at = key_at(kind, nth);
    let (_, from) = lines.split_at(lines.partition_point(|line| line_key(line) < at));
    let (here, _) = from.split_at(from.partition_point(|line| line_key(line) <= at));
    here
}
