// The ranges of a rank that is handed in, and of a chip's counts.
ghost use Rattle.std.specs.Prelude.{◌≡◌, ◌-◌, leb};
ghost use Rattle.running.specs.Ranges as counts;
ghost use Rattle.edges.specs.Ranges as ranges;
ghost use Rattle.still.specs.Promises.{InRange, IsSmall};

use chip::Chip;
use edges::{Debt, Rank};

pub fn in_range(s: Rank) -> bool
    ensures { InRange s result }
{
    counted(s.count, s.edge)
        & (debt_ok(s.edge, s.debt)
            & ((s.acts.turn <= 3)
                & ((s.first.edge <= 17592186044416)
                    & (edge_ok(s.device.at[6]) & (edges_ok(s.banks.actat) & edges_ok(s.acts.at))))))
}

pub fn is_small(chip: Chip) -> bool
    ensures { IsSmall chip result }
{
    (chip.trcd <= 70000000)
        & ((chip.trp <= 70000000)
            & ((chip.tras <= 70000000)
                & ((chip.tcke <= 70000000)
                    & ((chip.trtp <= 70000000)
                        & ((chip.twtr <= 70000000)
                            & ((chip.twr <= 70000000)
                                & ((chip.most <= 70000000)
                                    & ((chip.trefi <= 70000000)
                                        & ((chip.nine <= 80000000) & (1 <= chip.trefi))))))))))
}

// The product is worked out only where the count is within the limit.
fn counted(count: u32, edge: u64) -> bool
    ensures { result ≡ counts.counted count edge }
{
    if 1048576 < count {
        return false;
    }
    edge <= count as u64 * 16777216
}

// The clocks of a part that sleeps are counted from 0.
fn debt_ok(edge: u64, debt: Debt) -> bool
    ensures { result ≡ ranges.debt_ok edge debt }
{
    if debt.sleeps {
        return near(0, debt.due) & near(0, debt.gap);
    }
    near(edge, debt.due) & near(edge, debt.gap)
}

// The difference is worked out only where there is one.
fn near(edge: u64, due: u64) -> bool
    ensures { result ≡ leb (due - edge) ranges.farthest }
{
    if due < edge {
        return true;
    }
    due - edge <= 1190000000
}

fn edges_ok<const N: usize>(at: [u64; N]) -> bool
    ensures { result ≡ ranges.edges_ok at.entry N }
{
    let mut ok = true;
    for &e in &at {
        ok = ok & edge_ok(e);
    }
    ok
}

fn edge_ok(at: u64) -> bool
    ensures { result ≡ leb at counts.last_edge }
{
    at <= 17592186044416
}
