// What is kept of the banks, after a record.
ghost use Rattle.std.specs.Prelude.{◌≡◌, ℕ, ◌≤◌, ◌<◌, get_or};
ghost use Rattle.running.specs.Next as was;
ghost use Rattle.running.specs.Ranges.{Small, last_edge, far_edge};
ghost use Rattle.edges.specs.Next as next;

use crate::asked::Event;
use crate::clocks::{need10, need11, need14};
use crate::numbers::either;
use crate::placed::{put, put_all};
use after::{need4, need13, need19};
use chip::{Chip, Regs};
use edges::Banks;
use records::{Command, Record};

// The start of the record's precharge; a: the edge of its bank's ACT.
fn start_now(chip: Chip, c: Command, e: u64, g: Regs, a: u64) -> u64
    requires small { Small chip }
    requires e_le_last_edge { e ≤ last_edge }
    requires a_le_last_edge { a ≤ last_edge }
    ensures value { result ≡ was.start_now chip c e g a }
    ensures upper_bound { result ≤ far_edge }
{
    let al = chip::al_of(g);
    if c == Command::Pre {
        return e;
    }
    if c == Command::Rd {
        return (a + chip.tras as u64).max(e + al as u64 + chip.trtp as u64);
    }
    e + (al + chip::cwl_of(g)) as u64 + chip::h_of(g) as u64 + chip::wr_of(g) as u64
}

pub(crate) fn start_of(chip: Chip, c: Command, r: Record, e: u64, g: Regs, banks: Banks) -> u64
    requires small { Small chip }
    requires e_le_last_edge { e ≤ last_edge }
    requires by_index { (b : ℕ) → b < 8 → get_or banks.actat b 0 ≤ last_edge }
    ensures value { result ≡ next.start_of chip c r e g banks }
    ensures upper_bound { result ≤ far_edge }
{
    let actat = banks.actat;
    let b = (r.bank % 8) as usize;
    start_now(chip, c, e, g, actat[b])
}

fn place(c: Command, r: Record) -> usize
    ensures value { result ≡ next.place c r }
    ensures upper_bound { result < 16 }
{
    let b = (r.bank % 8) as usize;
    if c == Command::Wr {
        return b + 8;
    }
    b
}

impl Event {
    pub(crate) fn banks_next(self, n: u32, banks: Banks) -> Banks
        requires { self.start ≡ next.start_of self.chip self.c self.r self.e self.g banks }
        ensures { result ≡ next.banks_next self.chip self.c self.r self.e n self.g banks }
    {
        let act = self.c == Command::Act;
        let pre = self.c == Command::Pre;
        let rd = self.c == Command::Rd;
        let wr = self.c == Command::Wr;
        let a10 = self.r.a / 1024 % 2 == 1;
        let col = rd | wr;
        let all = pre & a10;
        let shuts = pre | (col & a10);
        let b = (self.r.bank % 8) as usize;
        let i = place(self.c, self.r);
        let al = chip::al_of(self.g);
        Banks {
            actat: put(act, banks.actat, b, self.e),
            actno: put(act, banks.actno, b, n),
            actneed: put(act, banks.actneed, b, need4(self.chip.trcd, al)),
            row: put(act, banks.row, b, self.r.a),
            colat: put(col, banks.colat, i, self.e),
            colno: put(col, banks.colno, i, n),
            colpre: put(
                col,
                banks.colpre,
                i,
                either(rd, need10(self.chip, self.g), need11(self.chip, self.g)),
            ),
            colturn: put(
                col,
                banks.colturn,
                i,
                either(rd, need13(self.g, self.r.a), need14(self.chip, self.g)),
            ),
            colout: put(
                col,
                banks.colout,
                i,
                either(rd, need19(self.g, self.r.a), 0),
            ),
            shutat: put_all(all, put(shuts, banks.shutat, b, self.start), self.e),
            shutno: put_all(all, put(shuts, banks.shutno, b, n), n),
        }
    }
}
