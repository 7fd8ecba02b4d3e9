// What ACT, RD, WR and PRE ask, and leave behind in the lane.
ghost use Rattle.std.specs.Prelude.{◌≡◌, ◌+◌, ◌%◌, ◌≤◌, ◌<◌, ℕ, get_or};
ghost use Rattle.running.specs.Ranges.{last_edge, far_edge};
ghost use Rattle.edges.specs.Ways as ways;
ghost use Rattle.rank.specs.Lane as lane;

use crate::lane::Lane;
use crate::numbers::{either, if_so};
use chip::Chip;
use edges::Acts;
use running::Asks;

// The start of a column's precharge, with A10; a: the edge of the bank's ACT.
pub(crate) fn col_start(w: Asks, tras: u32, rd: bool, e: u64, a: u64) -> u64
    requires { (e ≤ far_edge) × (a ≤ far_edge) }
    ensures value { result ≡ ways.col_start w tras rd e a }
    ensures upper_bound { result ≤ far_edge + far_edge }
{
    if_so(rd, a + tras as u64).max(e + either(rd, w.n10, w.start) as u64)
}

// What rule 8 asks after an ACT: the oldest of the last four is the one that the ACT after it takes.
fn four_of(acts: &Acts, tfaw: u32) -> u64
    requires turn_bound { acts.now.turn ≤ 3 }
    requires edge_bound { get_or acts.now.at ((acts.now.turn + 1) % 4) 0 ≤ far_edge }
    ensures { result ≡ ways.four_at acts.now.at acts.now.no acts.now.turn tfaw }
{
    let old = ((acts.turn + 1) % 4) as usize;
    if_so(acts.no[old] != 0, acts.at[old] + tfaw as u64)
}

impl Lane {
    // A precharge of bank b that starts at the edge e, by the record number n.
    pub(crate) fn shut(&mut self, trp: u32, b: usize, e: u64, n: u32)
        requires b_bound { b < 8 }
        requires e_bound { e ≤ far_edge + far_edge }
        ensures { self.new ≡ lane.shut self.old trp b e n }
    {
        let x = e + trp as u64;
        self.rank.banks.shutat[b] = e;
        self.rank.banks.shutno[b] = n;
        self.rank.waits.act[b] = self.rank.waits.act[b].max(x);
        self.floor.idle = self.floor.idle.max(x);
    }

    // A RD (y 0) or a WR (y 1) on bank b, with A12 or without.
    pub(crate) fn column(&mut self, w: Asks, b: usize, y: usize, long: bool, e: u64, n: u32)
        requires b_bound { b < 8 }
        requires y_bound { y < 2 }
        requires e_bound { e ≤ last_edge }
        ensures { self.new ≡ lane.column self.old w b y long e n }
    {
        let i = y * 8 + b;
        let rd = y == 0;
        let n13 = either(long, w.long13, w.short13);
        let n19 = either(long, w.long19, w.short19);
        let pre = either(rd, w.n10, w.n11);
        self.rank.banks.colat[i] = e;
        self.rank.banks.colno[i] = n;
        self.rank.banks.colpre[i] = pre;
        self.rank.banks.colturn[i] = either(rd, n13, w.n14);
        self.rank.banks.colout[i] = either(rd, n19, 0);
        self.rank.waits.pre[b] = self.rank.waits.pre[b].max(e + pre as u64);
        self.floor.rd = self.floor.rd.max(e + either(rd, 4, w.n14) as u64);
        self.floor.wr = self.floor.wr.max(e + either(rd, n13, 4) as u64);
        self.floor.out = self.floor.out.max(if_so(rd, e + n19 as u64));
    }

    // An ACT of a row on bank b.
    pub(crate) fn act(&mut self, chip: Chip, w: Asks, b: usize, row: u16, e: u64, n: u32)
        requires b_bound { b < 8 }
        requires e_bound { e ≤ last_edge }
        requires turn { self.old.rank.acts.turn ≤ 3 }
        requires ring { (i : ℕ) → i < 4 → get_or self.old.rank.acts.at i 0 ≤ last_edge }
        ensures { self.new ≡ lane.act self.old chip w b row e n }
    {
        let four = four_of(&self.rank.acts, chip.tfaw);
        self.rank.banks.actat[b] = e;
        self.rank.banks.actno[b] = n;
        self.rank.banks.actneed[b] = w.n4;
        self.rank.banks.row[b] = row;
        let turn = self.rank.acts.turn as usize;
        self.rank.acts.at[turn] = e;
        self.rank.acts.no[turn] = n;
        self.rank.acts.turn = (self.rank.acts.turn + 1) % 4;
        let x = e + w.n4 as u64;
        self.rank.waits.act[b] = self.rank.waits.act[b].max(e + chip.trc as u64);
        self.rank.waits.col[b] = self.rank.waits.col[b].max(x);
        self.rank.waits.col[b + 8] = self.rank.waits.col[b + 8].max(x);
        self.rank.waits.pre[b] = self.rank.waits.pre[b].max(e + chip.tras as u64);
        self.floor.act = self.floor.act.max((e + chip.trrd as u64).max(four));
    }

    pub(crate) fn may_column(&self, b: usize, y: usize, e: u64) -> bool
        requires b_bound { b < 8 }
        requires y_bound { y < 2 }
        ensures { result ≡ lane.may_col self.now b y e }
    {
        let floor = either(y == 0, self.floor.rd, self.floor.wr);
        (self.rank.banks.shutno[b] < self.rank.banks.actno[b])
            & ((self.rank.waits.col[y * 8 + b] <= e) & (floor <= e))
    }

    pub(crate) fn may_precharge(&self, b: usize, e: u64) -> bool
        requires { b < 8 }
        ensures { result ≡ lane.may_pre self.now b e }
    {
        ((self.rank.banks.shutno[b] < self.rank.banks.actno[b]) | (self.rank.banks.shutat[b] <= e))
            & ((self.rank.waits.pre[b] <= e) & (self.floor.pre <= e))
    }

    pub(crate) fn may_activate(&self, b: usize, e: u64) -> bool
        requires { b < 8 }
        ensures { result ≡ lane.may_act self.now b e }
    {
        ((self.rank.banks.actno[b] <= self.rank.banks.shutno[b]) & (self.rank.banks.shutat[b] <= e))
            & ((self.rank.waits.act[b] <= e) & (self.floor.act <= e))
    }
}
