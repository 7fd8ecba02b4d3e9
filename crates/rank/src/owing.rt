// The debt after a record: the edge at which 9 would be owed, and that at which the last REF is too far back.
ghost use Rattle.std.specs.Prelude.{◌≡◌, cond, ◌≤◌};
ghost use Rattle.running.specs.Ranges.{Small, far_edge};
ghost use Rattle.edges.specs.Next as next;

use crate::numbers::either;
use chip::Chip;
use edges::Debt;
use kept::since;
use records::Command;

fn counting(sleeps: bool, e: u64) -> u64
    ensures value { result ≡ cond sleeps 0 e }
    ensures upper_bound { result ≤ e }
{
    if sleeps {
        return 0;
    }
    e
}

fn paid(trefi: u32, e: u64, due: u64) -> u64
    requires trefi_bound { trefi ≤ 70000000 }
    requires e_le_far_edge { e ≤ far_edge }
    requires due_le_far_edge { due ≤ far_edge }
    ensures { result ≡ next.paid trefi e due }
{
    if due <= e + 16 * trefi as u64 {
        return due + trefi as u64;
    }
    due
}

pub(crate) fn debt_next(chip: Chip, c: Command, e: u64, d: Debt) -> Debt
    requires small { Small chip }
    requires e_le_far_edge { e ≤ far_edge }
    requires due_le_far_edge { (d.due ≤ far_edge) × (d.gap ≤ far_edge) }
    ensures { result ≡ next.debt_next chip c e d }
{
    let from = counting(d.sleeps, e);
    if c == Command::Ref {
        return Debt {
            sleeps: d.sleeps,
            due: paid(chip.trefi, from, d.due),
            gap: from + chip.nine as u64 + 1,
        };
    }
    if c == Command::Sre {
        return Debt {
            sleeps: true,
            due: since(d.due, from),
            gap: since(d.gap, from),
        };
    }
    if c == Command::Srx {
        let to = either(d.sleeps, e, 0);
        return Debt {
            sleeps: false,
            due: d.due + to,
            gap: d.gap + to,
        };
    }
    d
}
