// A rank's end: the verdict, the banks, the registers and the debt at an edge.
ghost use Rattle.std.specs.List.{range_with_len};
ghost use Rattle.std.specs.Prelude.{map, cond, ◌≡◌, ltb, ◌+◌, ◌-◌, ◌/◌, ◌≤◌};
ghost use Rattle.answers.specs.Answer.{shown_of};
ghost use Rattle.running.specs.Breaks.{status_of};
ghost use Rattle.running.specs.Ends.{rest_of};
ghost use Rattle.running.specs.Late as late;
ghost use Rattle.running.specs.Ranges.{Small, last_edge, far_edge};
ghost use Rattle.running.specs.Said as said;
ghost use Rattle.edges.specs.Ends as ends;
ghost use Rattle.edges.specs.Ranges.{Ranged};
ghost use Rattle.edges.specs.Views as views;
ghost use Rattle.rank.specs.Promises.{Ended};

use crate::deadlines::{next24, next25, next28, next31};
use crate::numbers::either;
use crate::views::{kept_of, regs_of, written_of};
use answers::{End, Shown, Verdict};
use chip::Chip;
use edges::{Banks, Debt, Rank};
use kept::{since, status};
use running::{Kept, Late};
use says::{clean_at, sooner, verdict_at, why};
use std::array;
use still::{in_range, is_small, no_end, registers_of};

// The rank at the edge; zeros where a sum could wrap, or the edge is out of bounds.
pub fn end(chip: Chip, s: Rank, at: u64) -> End
    ensures { Ended chip s at result }
{
    if !is_small(chip) {
        return no_end();
    }
    if !in_range(s) {
        return no_end();
    }
    if (at < s.edge) | (17592186044416 < at) {
        return no_end();
    }
    closed(chip, s, at)
}

fn closed(chip: Chip, s: Rank, end: u64) -> End
    requires small { Small chip }
    requires ranged { Ranged s }
    requires end_le_last_edge { end ≤ last_edge }
    ensures { result ≡ ends.end_of chip s end }
{
    let v = verdict_of(chip, s, end);
    let t = rest(v, end);
    End {
        verdict: v,
        banks: banks_at(chip, s.banks, t),
        registers: registers_of(regs_of(s.device), written_of(s.device)),
        owed: owed_now(chip, s.debt, t),
    }
}

fn verdict_of(chip: Chip, s: Rank, end: u64) -> Verdict
    requires small { Small chip }
    requires ranged { Ranged s }
    requires end_le_last_edge { end ≤ last_edge }
    ensures { result ≡ ends.verdict_of chip s end }
{
    let first = s.first;
    if first.outcome != 0 {
        return first;
    }
    told(next_late(chip, s, end + 1), s.count, end)
}

// The deadline that passes first; at hi or later where none passes before hi.
fn next_late(chip: Chip, s: Rank, hi: u64) -> Late
    requires small { Small chip }
    requires ranged { Ranged s }
    ensures { result ≡ ends.next_late chip s hi }
{
    let at = s.device.at;
    let no = s.device.no;
    let x24 = next24(chip, s.banks, s.edge, hi);
    let x25 = next25(s.debt, no[0], hi);
    let x28 = next28(chip, s.level, s.debt.sleeps, at[6], no[6], hi);
    let x31 = next31(chip, s.debt, no[0], hi);
    sooner(x24, sooner(x25, sooner(x28, x31)))
}

fn told(x: Late, count: u32, end: u64) -> Verdict
    requires { end ≤ last_edge }
    ensures { result ≡ cond (ltb x.at (end + 1)) (said.verdict_at x.at 0 (late.why x)) (said.clean_at count end) }
{
    if x.at < end + 1 {
        return verdict_at(x.at, 0, why(x));
    }
    clean_at(count, end)
}

fn rest(v: Verdict, end: u64) -> u64
    ensures { result ≡ rest_of v end }
{
    if v.outcome == 0 {
        return end;
    }
    since(v.edge, 1)
}

// The debt + 8: 9 is owed where no clock is left.
fn owed_now(chip: Chip, d: Debt, t: u64) -> u64
    requires le_trefi { 1 ≤ chip.trefi }
    requires due_le_far_edge { d.due ≤ far_edge }
    ensures { result ≡ ends.owed_at chip d t }
{
    let left = since(d.due, either(d.sleeps, 0, t));
    since(17, begun(left, chip.trefi))
}

// The intervals in so many clocks, the last of them whole or not.
fn begun(left: u64, trefi: u32) -> u64
    requires le_trefi { 1 ≤ trefi }
    requires left_le_far_edge { left ≤ far_edge }
    ensures { result ≡ (left + (trefi - 1)) / trefi }
{
    (left + (trefi - 1) as u64) / trefi as u64
}

fn banks_at(chip: Chip, banks: Banks, t: u64) -> [Shown; 8]
    ensures { result ≡ map (λ b. shown_of (status_of (views.kept_of chip banks b) t)) (range_with_len 0 8) }
{
    array::from_fn(|b| shown_at(kept_of(chip, banks, b), t))
}

fn shown_at(k: Kept, t: u64) -> Shown
    ensures { result ≡ shown_of (status_of k t) }
{
    answers::show(status(k, t))
}
