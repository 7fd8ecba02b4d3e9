// What a seldom command leaves behind.
ghost use Rattle.std.specs.Prelude.{◌≡◌, ◌≤◌, cond};
ghost use Rattle.laws.specs.Eight.{table};
ghost use Rattle.records.specs.declared.Command.TheVariants.{Pre};
ghost use Rattle.records.specs.Command.{is_a};
ghost use Rattle.running.specs.Ranges.{Small, far_edge};
ghost use Rattle.edges.specs.Next as next;
ghost use Rattle.rank.specs.Lane as lane;

use crate::changes::{asked_by, floor_next, holds_next};
use crate::device::device_next;
use crate::lane::Lane;
use crate::owing::debt_next;
use crate::slow::slow_exit;
use chip::Chip;
use edges::{Banks, Debt};
use records::{Command, Record};

// A PRE of all banks: each precharge starts at the edge e, by record n.
fn shut_all(banks: &mut Banks, c: Command, e: u64, n: u32)
    ensures { banks.new ≡ record banks.old { shutat = cond (is_a Pre c) (table (λ _. e)) banks.old.shutat; shutno = cond (is_a Pre c) (table (λ _. n)) banks.old.shutno } }
{
    match c {
        Command::Pre => {
            banks.shutat = [e; 8];
            banks.shutno = [n; 8];
        }
        _ => {}
    }
}

// Of the seldom commands only these move the debt.
fn owed(debt: &mut Debt, chip: Chip, c: Command, e: u64)
    requires small { Small chip }
    requires e_le_far_edge { e ≤ far_edge }
    requires due_le_far_edge { (debt.old.due ≤ far_edge) × (debt.old.gap ≤ far_edge) }
    ensures { debt.new ≡ next.debt_next chip c e debt.old }
{
    match c {
        Command::Ref | Command::Sre | Command::Srx => *debt = debt_next(chip, c, e, *debt),
        _ => {}
    }
}

impl Lane {
    // The command c of the record r, at the edge e as record n.
    pub(crate) fn come(&mut self, chip: Chip, c: Command, r: Record, e: u64, n: u32)
        requires small { Small chip }
        requires e_le_far_edge { e ≤ far_edge }
        requires due_le_far_edge { (self.old.rank.debt.due ≤ far_edge) × (self.old.rank.debt.gap ≤ far_edge) }
        ensures { lane.Leaves chip c r e n self.old self.new }
    {
        let k = asked_by(chip, c, r);
        let slow = slow_exit(c, &self.rank);
        shut_all(&mut self.rank.banks, c, e, n);
        self.rank.waits.holds = holds_next(chip, c, r, e, k, self.rank.waits.holds);
        device_next(&mut self.rank.device, chip, c, r, e, n, k, slow);
        owed(&mut self.rank.debt, chip, c, e);
        self.floor = floor_next(chip, c, r, e, k, slow, self.floor);
        self.rank.level = r.cke;
        self.rank.edge = e;
        self.rank.count = n;
    }
}
