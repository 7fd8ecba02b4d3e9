// Deadlines: the edge at which each passes next after the latest record, at hi if it does not before.
ghost use Rattle.std.specs.Prelude.{◌≡◌, ℕ, ◌≤◌, ◌<◌, map, get_or};
ghost use Rattle.std.specs.List.{range_with_len};
ghost use Rattle.running.specs.Late as late;
ghost use Rattle.running.specs.Next as next;
ghost use Rattle.running.specs.Ranges.{Small, last_edge, far_edge};
ghost use Rattle.edges.specs.Says as says;
ghost use Rattle.edges.specs.Views as views;

use crate::numbers::either;
use crate::views::kept_of;
use chip::Chip;
use edges::{Banks, Debt};
use running::{Kept, Late};
use says::{late_by, soonest};
use std::array;

// The edge at which the bank breaks rule 24, or 0.
fn due(chip: Chip, k: Kept) -> u64
    requires small { Small chip }
    requires at_le_far_edge { k.acted.at ≤ far_edge }
    ensures { result ≡ next.due chip k }
{
    let last = k.acted.at + chip.most as u64;
    if k.shut.num < k.acted.num {
        return last + 1;
    }
    if last < k.shut.at {
        return last + 1;
    }
    0
}

fn dues_of(chip: Chip, banks: Banks) -> [u64; 8]
    requires small { Small chip }
    requires by_index { (b : ℕ) → b < 8 → get_or banks.actat b 0 ≤ last_edge }
    ensures { result ≡ map (λ b. next.due chip (views.kept_of chip banks b)) (range_with_len 0 8) }
{
    array::from_fn(|b| due_at(chip, banks, b))
}

fn due_at(chip: Chip, banks: Banks, b: usize) -> u64
    requires small { Small chip }
    requires place { b < 8 }
    requires by_index { (b : ℕ) → b < 8 → get_or banks.actat b 0 ≤ last_edge }
    ensures { result ≡ next.due chip (views.kept_of chip banks b) }
{
    due(chip, kept_of(chip, banks, b))
}

// Rule 24 after the edge lo and before hi; at hi if there is none.
pub(crate) fn next24(chip: Chip, banks: Banks, lo: u64, hi: u64) -> Late
    requires small { Small chip }
    requires by_index { (b : ℕ) → b < 8 → get_or banks.actat b 0 ≤ last_edge }
    ensures { result ≡ says.next24 chip banks lo hi }
{
    let actno = banks.actno;
    let pick = soonest(dues_of(chip, banks), lo, hi);
    let b = pick.bank as usize;
    late_by(24, pick.at, actno[b], chip.most)
}

// Rule 25; at hi where the part sleeps.
pub(crate) fn next25(d: Debt, partner: u32, hi: u64) -> Late
    ensures { result ≡ says.next25 d partner hi }
{
    Late {
        at: either(d.sleeps, hi, d.due),
        rule: 25,
        partner: partner as u64,
        needed: 8,
        found: 9,
    }
}

fn stay_until(level: bool, sleeps: bool, at: u64, stay: u32, hi: u64) -> u64
    requires { at ≤ last_edge }
    ensures { result ≡ late.stay_until level sleeps at stay hi }
{
    if level | sleeps {
        return hi;
    }
    at + stay as u64 + 1
}

// Rule 28, of the latest change of CKE; at hi where the part is not in power-down.
pub(crate) fn next28(chip: Chip, level: bool, sleeps: bool, at: u64, no: u32, hi: u64) -> Late
    requires { at ≤ last_edge }
    ensures { result ≡ late.late_by 28 (late.stay_until level sleeps at chip.nine hi) no chip.nine }
{
    late_by(
        28,
        stay_until(level, sleeps, at, chip.nine, hi),
        no,
        chip.nine,
    )
}

// Rule 31; at hi where the part sleeps.
pub(crate) fn next31(chip: Chip, d: Debt, partner: u32, hi: u64) -> Late
    ensures { result ≡ says.next31 chip d partner hi }
{
    late_by(31, either(d.sleeps, hi, d.gap), partner, chip.nine)
}
