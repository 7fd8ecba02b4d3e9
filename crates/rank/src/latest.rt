// The last four ACTs, and the latest records that concern the device, after a record.
ghost use Rattle.std.specs.Prelude.{◌≡◌, ℕ, ◌≤◌, ◌<◌, get_or};
ghost use Rattle.running.specs.Next as was;
ghost use Rattle.running.specs.Ranges.{last_edge};
ghost use Rattle.edges.specs.Asks as asks;
ghost use Rattle.edges.specs.Next as next;

use crate::asked::{Event, need18};
use crate::numbers::either;
use crate::placed::put;
use chip::Chip;
use edges::{Acts, Device};
use records::{Command, Record};

// What rule 8 asks after an ACT.
pub(crate) fn four_back(chip: Chip, acts: Acts) -> u64
    requires by_index { (i : ℕ) → i < 4 → get_or acts.at i 0 ≤ last_edge }
    requires turn_bound { acts.turn ≤ 3 }
    ensures { result ≡ asks.four_back chip acts }
{
    let at = acts.at;
    let no = acts.no;
    let i = ((acts.turn + 1) % 4) as usize;
    either(no[i] == 0, 0, at[i] + chip.tfaw as u64)
}

pub(crate) fn resets_now(c: Command, r: Record) -> bool
    ensures { result ≡ was.resets_now c r }
{
    ((c == Command::Mrs) & (r.bank % 8 == 0)) & (r.a / 256 % 2 == 1)
}

// Of the latest REF, MRS, ZQ, SRE, SRX and DLL reset.
fn stamped<T: Copy>(
    c: Command,
    r: Record,
    xs: [T; 9],
    refs: T,
    mrs: T,
    zq: T,
    sre: T,
    srx: T,
    dll: T,
) -> [T; 9]
    ensures { result ≡ next.stamped c r xs refs mrs zq sre srx dll }
{
    let x0 = put(c == Command::Ref, xs, 0, refs);
    let x1 = put(c == Command::Mrs, x0, 1, mrs);
    let x2 = put(c == Command::Zq, x1, 2, zq);
    let x3 = put(c == Command::Sre, x2, 3, sre);
    let x4 = put(c == Command::Srx, x3, 4, srx);
    put(resets_now(c, r), x4, 5, dll)
}

// Of the latest change of CKE, power-down exit and slow one.
fn turned<T: Copy>(c: Command, slow: bool, xs: [T; 9], cke: T, pdx: T, late: T) -> [T; 9]
    ensures { result ≡ next.turned_to c slow xs cke pdx late }
{
    let left = c == Command::Pdx;
    let sleeps = (c == Command::Sre) | (c == Command::Srx);
    let x6 = put(sleeps | ((c == Command::Pde) | left), xs, 6, cke);
    let x7 = put(left, x6, 7, pdx);
    put(left & slow, x7, 8, late)
}

impl Event {
    pub(crate) fn acts_next(self, n: u32, acts: Acts) -> Acts
        requires { acts.turn ≤ 3 }
        ensures { result ≡ next.acts_next self.c self.e n acts }
    {
        let act = self.c == Command::Act;
        let turn = acts.turn;
        let i = turn as usize;
        Acts {
            at: put(act, acts.at, i, self.e),
            no: put(act, acts.no, i, n),
            turn: either(act, (turn + 1) % 4, turn),
        }
    }

    pub(crate) fn device_next(self, n: u32, d: Device) -> Device
        ensures { result ≡ next.device_next self.chip self.c self.r self.e n self.slow d }
    {
        let c = self.c;
        let r = self.r;
        let e = self.e;
        let chip = self.chip;
        let mrs = c == Command::Mrs;
        let i = (r.bank % 8 % 4) as usize;
        let zq = need18(chip, r);
        let sre = chip.tcke + 1;
        let at6 = stamped(c, r, d.at, e, e, e, e, e, e);
        let no6 = stamped(c, r, d.no, n, n, n, n, n, n);
        let need6 = stamped(c, r, d.need, chip.trfc, 4, zq, sre, chip.txs, 512);
        Device {
            at: turned(c, self.slow, at6, e, e, e),
            no: turned(c, self.slow, no6, n, n, n),
            need: turned(c, self.slow, need6, chip.tcke, chip.txp, chip.txpdll),
            codes: put(mrs, d.codes, i, r.a),
            written: put(mrs, d.written, i, true),
        }
    }
}
