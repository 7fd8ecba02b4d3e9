// A record, and what it asks of a later ACT, RD, WR, PRE, REF, MRS, ZQ or SRE.
ghost use Rattle.std.specs.Prelude.{◌≡◌, ◌+◌, ◌≤◌, max};
ghost use Rattle.records.specs.Command.{is_a};
ghost use Rattle.records.specs.declared.Command.TheVariants.{Ref, Mrs, Rd, Zq, Srx, Pdx};
ghost use Rattle.running.specs.Next as was;
ghost use Rattle.running.specs.Ranges.{Small, last_edge, far_edge};
ghost use Rattle.edges.specs.Asks as asks;

use crate::clocks::{need10, need11, need14};
use crate::latest::resets_now;
use crate::numbers::either;
use after::{need4, need13, need19};
use chip::{Chip, Regs};
use records::{Command, Record};

// A record of the command c at the edge e, by the registers in force there. start: of its precharge. four: what rule 8 asks after it. slow: an exit
// is one of precharge power-down with MR0 A12 = 0.
#[derive(Clone, Copy)]
pub(crate) struct Event {
    pub(crate) chip: Chip,
    pub(crate) c: Command,
    pub(crate) r: Record,
    pub(crate) e: u64,
    pub(crate) g: Regs,
    pub(crate) start: u64,
    pub(crate) four: u64,
    pub(crate) slow: bool,
    ghost small: { Small chip },
    ghost near: { e ≤ last_edge },
    ghost far: { start ≤ far_edge },
}

pub(crate) fn need18(chip: Chip, r: Record) -> u32
    ensures { result ≡ asks.need18 chip r }
{
    either(r.a / 1024 % 2 == 1, chip.zqlong, chip.zqshort)
}

// An edge that is asked for where yes holds, or x if that is later.
fn ask(yes: bool, e: u64, need: u32, x: u64) -> u64
    requires { e ≤ far_edge }
    ensures { result ≡ max (asks.when yes (e + need)) x }
{
    either(yes, e + need as u64, 0).max(x)
}

impl Event {
    // What a REF, an MRS and a ZQ ask, or x if that is later.
    fn held(self, mrs: u32, x: u64) -> u64
        ensures { result ≡ max (asks.when (is_a Ref self.c) (self.e + self.chip.trfc)) (max (asks.when (is_a Mrs self.c) (self.e + mrs)) (max (asks.when (is_a Zq self.c) (self.e + asks.need18 self.chip self.r)) x)) }
    {
        let c = self.c;
        let e = self.e;
        let zq = ask(c == Command::Zq, e, need18(self.chip, self.r), x);
        let set = ask(c == Command::Mrs, e, mrs, zq);
        ask(c == Command::Ref, e, self.chip.trfc, set)
    }

    // What an SRX and a power-down exit ask, or x if that is later.
    fn woken(self, x: u64) -> u64
        ensures { result ≡ max (asks.when (is_a Srx self.c) (self.e + self.chip.txs)) (max (asks.when (is_a Pdx self.c) (self.e + self.chip.txp)) x) }
    {
        let left = ask(self.c == Command::Pdx, self.e, self.chip.txp, x);
        ask(self.c == Command::Srx, self.e, self.chip.txs, left)
    }

    // What it asks by the end of its precharge, or x if that is later.
    fn shut(self, x: u64) -> u64
        ensures { result ≡ max (asks.when (was.shuts_now self.c self.r) (self.start + self.chip.trp)) x }
    {
        let pre = self.c == Command::Pre;
        let rd = self.c == Command::Rd;
        let wr = self.c == Command::Wr;
        let a10 = self.r.a / 1024 % 2 == 1;
        ask(pre | ((rd | wr) & a10), self.start, self.chip.trp, x)
    }

    pub(crate) fn asks_act(self, b: usize) -> u64
        ensures { result ≡ asks.asks_act self.chip self.c self.r self.e self.g self.start self.four self.slow b }
    {
        let chip = self.chip;
        let e = self.e;
        let act = self.c == Command::Act;
        let pre = self.c == Command::Pre;
        let rd = self.c == Command::Rd;
        let wr = self.c == Command::Wr;
        let own = (self.r.bank % 8) as usize == b;
        let a10 = self.r.a / 1024 % 2 == 1;
        let closes = (pre & (a10 | own)) | ((rd | wr) & (a10 & own));
        let rest = self.held(chip.tmod, self.woken(0));
        let all = ask(act, e, chip.trrd, either(act, self.four, 0).max(rest));
        ask(
            closes,
            self.start,
            chip.trp,
            ask(act & own, e, chip.trc, all),
        )
    }

    pub(crate) fn asks_rd(self, b: usize) -> u64
        ensures { result ≡ asks.asks_rd self.chip self.c self.r self.e self.g self.start self.four self.slow b }
    {
        let chip = self.chip;
        let e = self.e;
        let act = self.c == Command::Act;
        let rd = self.c == Command::Rd;
        let wr = self.c == Command::Wr;
        let srx = self.c == Command::Srx;
        let pdx = self.c == Command::Pdx;
        let own = (self.r.bank % 8) as usize == b;
        let n4 = need4(chip.trcd, chip::al_of(self.g));
        let resets = resets_now(self.c, self.r);
        let late = ask(pdx & self.slow, e, chip.txpdll, 0);
        let woke = ask(resets | srx, e, 512, self.woken(late));
        let rest = self.held(chip.tmod, woke);
        let turn = ask(wr, e, need14(chip, self.g), rest);
        ask(act & own, e, n4, ask(rd, e, 4, turn))
    }

    pub(crate) fn asks_wr(self, b: usize) -> u64
        ensures { result ≡ asks.asks_wr self.chip self.c self.r self.e self.g self.start self.four self.slow b }
    {
        let chip = self.chip;
        let e = self.e;
        let act = self.c == Command::Act;
        let rd = self.c == Command::Rd;
        let wr = self.c == Command::Wr;
        let own = (self.r.bank % 8) as usize == b;
        let n4 = need4(chip.trcd, chip::al_of(self.g));
        let rest = self.held(chip.tmod, self.woken(0));
        let turn = ask(rd, e, need13(self.g, self.r.a), rest);
        ask(act & own, e, n4, ask(wr, e, 4, turn))
    }

    pub(crate) fn asks_pre(self, b: usize) -> u64
        ensures { result ≡ asks.asks_pre self.chip self.c self.r self.e self.g self.start self.four self.slow b }
    {
        let chip = self.chip;
        let e = self.e;
        let act = self.c == Command::Act;
        let rd = self.c == Command::Rd;
        let wr = self.c == Command::Wr;
        let own = (self.r.bank % 8) as usize == b;
        let rest = self.held(chip.tmod, self.woken(0));
        let wrote = ask(wr & own, e, need11(chip, self.g), rest);
        let read = ask(rd & own, e, need10(chip, self.g), wrote);
        ask(act & own, e, chip.tras, read)
    }

    // Of a ZQ too.
    pub(crate) fn asks_ref(self) -> u64
        ensures { result ≡ asks.asks_ref self.chip self.c self.r self.e self.g self.start self.four self.slow }
    {
        self.shut(self.held(self.chip.tmod, self.woken(0)))
    }

    pub(crate) fn asks_mrs(self) -> u64
        ensures { result ≡ asks.asks_mrs self.chip self.c self.r self.e self.g self.start self.four self.slow }
    {
        self.shut(self.held(4, self.read(self.woken(0))))
    }

    pub(crate) fn asks_sre(self) -> u64
        ensures { result ≡ asks.asks_sre self.chip self.c self.r self.e self.g self.start self.four self.slow }
    {
        self.shut(self.held(self.chip.tmod, self.read(self.woken(0))))
    }

    // What a RD asks by its data, or x if that is later.
    fn read(self, x: u64) -> u64
        ensures { result ≡ max (asks.when (is_a Rd self.c) (self.e + asks.need19 self.g self.r)) x }
    {
        ask(self.c == Command::Rd, self.e, need19(self.g, self.r.a), x)
    }
}
