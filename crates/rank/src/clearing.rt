// The edge before which no deadline passes.
ghost use Rattle.std.specs.Prelude.{◌≡◌, ℕ, ◌+◌, ◌≤◌, ◌<◌, get_or};
ghost use Rattle.running.specs.Ranges.{last_edge};
ghost use Rattle.edges.specs.Clearing.{BankClears, Clears, Owing, Staying, owing_by, clear_next};

use crate::device::CKE;
use chip::Chip;
use edges::{Banks, Debt, Rank};
use records::Command;

// x, or the edge at which the bank b comes due if that is after edge and before x.
fn next_due(banks: &Banks, b: usize, most: u32, edge: u64, x: u64) -> u64
    requires b_bound { b < 8 }
    requires acted { get_or banks.now.actat b 0 ≤ last_edge }
    ensures off { BankClears most banks.now edge result b }
    ensures upper_bound { result ≤ x }
{
    let last = banks.actat[b] + most as u64;
    if ((banks.shutno[b] < banks.actno[b]) | (last < banks.shutat[b]))
        & ((edge <= last) & (last < x))
    {
        return last + 1;
    }
    x
}

// x, or the edge at which a stay in power-down is too long if that is before.
fn stay_of(s: &Rank, stay: u32, x: u64) -> u64
    requires { get_or s.now.device.at CKE 0 ≤ last_edge }
    ensures staying { Staying s.now.level s.now.debt.sleeps (get_or s.now.device.at CKE 0) stay result }
    ensures upper_bound { result ≤ x }
{
    if s.level || s.debt.sleeps {
        return x;
    }
    x.min(s.device.at[CKE] + stay as u64 + 1)
}

// x, or the edge at which 9 would be owed, or the last REF is too far back, if that is before.
fn owing_of(d: Debt, x: u64) -> u64
    ensures { result ≡ owing_by d x }
{
    if d.sleeps {
        return x;
    }
    x.min(d.due).min(d.gap)
}

pub(crate) fn clear_of(s: &Rank, chip: Chip) -> u64
    requires edge_le_last_edge { s.now.edge ≤ last_edge }
    requires turned_le_last_edge { get_or s.now.device.at CKE 0 ≤ last_edge }
    requires by_index { (b : ℕ) → b < 8 → get_or s.now.banks.actat b 0 ≤ last_edge }
    ensures clears { Clears chip.most s.now.banks s.now.edge result }
    ensures upper_bound { result ≤ s.now.edge + chip.most + 1 }
    ensures owing { Owing s.now.debt result }
    ensures staying { Staying s.now.level s.now.debt.sleeps (get_or s.now.device.at CKE 0) chip.nine result }
{
    let mut x = s.edge + chip.most as u64 + 1;
    for b in 0..8 {
        x = next_due(&s.banks, b, chip.most, s.edge, x);
    }
    owing_of(s.debt, stay_of(s, chip.nine, x))
}

// After a seldom command that came at the edge e; d: the debt behind it; at: the latest change of CKE. Behind a REF or a PRE of all banks no
// bank is open.
pub(crate) fn clear_next(c: Command, chip: Chip, e: u64, at: u64, d: Debt, clear: u64) -> u64
    requires e_le_last_edge { e ≤ last_edge }
    requires at_le_last_edge { at ≤ last_edge }
    ensures { result ≡ clear_next chip.most chip.nine c e at d clear }
{
    match c {
        Command::Ref | Command::Pre => owing_of(d, e + chip.most as u64 + 1),
        Command::Srx => owing_of(d, clear),
        Command::Pde => clear.min(at + chip.nine as u64 + 1),
        _ => clear,
    }
}
