// A seldom command in the lane: whether it may come, what it leaves behind, and the edge before which no deadline passes.
ghost use Rattle.std.specs.Prelude.{◌≡◌, MatchOption};
ghost use Rattle.rank.specs.Lane as lane;

use crate::clearing::clear_next;
use crate::device::CKE;
use crate::lane::Lane;
use chip::Chip;
use records::{Command, Record, command_of};

// sets: it is an MRS; clear: the edge before which no deadline passes after it.
#[derive(Clone, Copy)]
pub(crate) struct Next {
    pub sets: bool,
    pub clear: u64,
}

impl Lane {
    // The next record. It does not come where it is not seen to be fine, where a deadline may pass, and, a PRE of all banks, where it is not real:
    // a bank has an ACT of a record to come.
    pub(crate) fn pass_next(
        &mut self,
        chip: Chip,
        clear: u64,
        real: bool,
        r: Record,
    ) -> Option<Next>
        requires { lane.Ahead chip r self.old }
        ensures { MatchOption result (self.new ≡ self.old) (λ next. lane.Passed chip r clear real self.old next self.new) }
    {
        let e = self.rank.edge + r.step;
        if (r.step == 0) | (clear <= e) {
            return None;
        }
        let c = command_of(self.rank.level, self.rank.debt.sleeps, r);
        if (matches!(c, Command::Pre) & !real) | !self.may(chip, c, r, e) {
            return None;
        }
        self.come(chip, c, r, e, self.rank.count + 1);
        Some(Next {
            sets: matches!(c, Command::Mrs),
            clear: clear_next(c, chip, e, self.rank.device.at[CKE], self.rank.debt, clear),
        })
    }
}
