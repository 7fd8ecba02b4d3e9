// A record's effect on the rank, by value: for a record that is not one of the frequent ones.
ghost use Rattle.std.specs.Prelude.{◌≡◌, ◌+◌, ◌≤◌};
ghost use Rattle.running.specs.Ranges.{Small, limit};
ghost use Rattle.edges.specs.Ranges.{Ranged};
ghost use Rattle.edges.specs.Step as step;

use crate::asked::Event;
use crate::banks::start_of;
use crate::clocks::regs_of;
use crate::latest::four_back;
use crate::owing::debt_next;
use crate::said::said;
use crate::slow::slow_now;
use answers::Verdict;
use chip::Chip;
use edges::Rank;
use records::{Record, command_of};

fn moved(chip: Chip, s: Rank, r: Record) -> Rank
    requires small { Small chip }
    requires ranged { Ranged s }
    requires step_bound { r.step ≤ 16777216 }
    requires count_bound { s.count + 1 ≤ limit }
    ensures { result ≡ step.moved_of chip s r }
{
    let e = s.edge + r.step;
    let n = s.count + 1;
    let c = command_of(s.level, s.debt.sleeps, r);
    let g = regs_of(s.device.codes);
    let start = start_of(chip, c, r, e, g, s.banks);
    let four = four_back(chip, s.acts);
    let slow = slow_now(
        s.banks.actno,
        s.banks.shutno,
        s.device.codes,
        s.device.written,
    );
    let debt = debt_next(chip, c, e, s.debt);
    let event = Event {
        chip,
        c,
        r,
        e,
        g,
        start,
        four,
        slow,
    };
    Rank {
        edge: e,
        count: n,
        first: s.first,
        level: r.cke,
        debt: debt,
        banks: event.banks_next(n, s.banks),
        waits: event.waits_next(s.waits),
        acts: event.acts_next(n, s.acts),
        device: event.device_next(n, s.device),
    }
}

// The break, and the rest as it was just before the broken edge.
fn stopped(s: Rank, r: Record, v: Verdict) -> Rank
    requires ranged { Ranged s }
    requires step_bound { r.step ≤ 16777216 }
    requires count_bound { s.count + 1 ≤ limit }
    ensures { result ≡ step.stopped_of s r v }
{
    let mut x = s;
    x.edge = s.edge + r.step;
    x.count = s.count + 1;
    x.first = v;
    x
}

pub(crate) fn step(chip: Chip, s: Rank, r: Record) -> Rank
    requires small { Small chip }
    requires ranged { Ranged s }
    requires step_bound { r.step ≤ 16777216 }
    requires count_bound { s.count + 1 ≤ limit }
    ensures { result ≡ step.step_of chip s r }
{
    let broken = s.first.outcome;
    if broken != 0 {
        let first = s.first;
        return stopped(s, r, first);
    }
    let v = said(chip, s, r);
    let outcome = v.outcome;
    if outcome != 0 {
        return stopped(s, r, v);
    }
    moved(chip, s, r)
}
