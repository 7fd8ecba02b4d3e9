// The lane: frequent commands, and seldom ones that may come, one after the other.
ghost use Rattle.std.specs.Prelude.{◌≡◌, true, ℕ, ◌≤◌, ◌<◌, get_or};
ghost use Rattle.rank.specs.Lane as lane;

use crate::clearing::clear_of;
use crate::clocks::{asks_anew, asks_of, regs_of};
use crate::lane::Lane;
use crate::numbers::if_so;
use crate::quick::record_at;
use chip::Chip;
use edges::Rank;

// No bank has an ACT of a record to come.
fn numbered(s: &Rank) -> bool
    ensures { result ≡ true → (b : ℕ) → b < 8 → get_or s.now.banks.actno b 0 ≤ s.now.count }
{
    s.banks.actno.iter().all(|&n| n <= s.count)
}

impl Lane {
    // stale: w is of the registers before an MRS. clear: the edge before which no deadline passes.
    pub(crate) fn smoothly(&mut self, chip: Chip, bytes: &[u8], from: usize) -> usize
        requires { lane.Stands chip bytes.now self.old from }
        ensures { lane.Smoothly chip bytes.now self.old from self.new result }
    {
        let mut at = from;
        let mut stale = false;
        let mut w = asks_of(chip, regs_of(self.rank.device.codes));
        let mut clear = clear_of(&self.rank, chip);
        let real = numbered(&self.rank);
        while at < bytes.len() {
            let peek = record_at(bytes, at);
            // A frequent command comes next, with CKE high.
            let usual = self.rank.level & (peek.cke & ((1 < peek.pins) & (peek.pins != 6)));
            w = asks_anew(stale & usual, chip, &self.rank.device.codes, w);
            stale = stale & !usual;
            let bound = if_so(real & usual, clear);
            at = self.quick(chip, w, bound, bytes, at);
            if bytes.len() <= at {
                return at;
            }
            let r = record_at(bytes, at);
            match self.pass_next(chip, clear, real, r) {
                None => return at,
                Some(next) => {
                    at += 6;
                    clear = next.clear;
                    stale = stale | next.sets;
                }
            }
        }
        at
    }
}
