// The types of the running judge: what is kept of the records so far, and no record. Its definitions stand in specs/, their laws in
// proofs/; the code stands in the crates above.
#![tactic(auto)]

use answers::Verdict;
use chip::Regs;

// A record that a rule counts from: its edge (or the start of its precharge), its number, the clocks needed. All 0: none.
#[derive(Clone, Copy)]
pub struct Mark {
    pub at: u64,
    pub num: u32,
    pub need: u32,
}

// A bank: its latest ACT (with rule 4's need) and row, RD (10), WR (11), and the start of its latest precharge (5).
#[derive(Clone, Copy)]
pub struct Kept {
    pub acted: Mark,
    pub row: u16,
    pub read: Mark,
    pub wrote: Mark,
    pub shut: Mark,
}

// The latest RD of all banks, with what rules 10, 13 and 19 need.
#[derive(Clone, Copy)]
pub struct Read {
    pub at: u64,
    pub num: u32,
    pub n10: u32,
    pub n13: u32,
    pub n19: u32,
}

// The latest WR of all banks, with what rules 11 and 14 need.
#[derive(Clone, Copy)]
pub struct Wrote {
    pub at: u64,
    pub num: u32,
    pub n11: u32,
    pub n14: u32,
}

// Which registers were written, and whether a DLL reset was.
#[derive(Clone, Copy)]
pub struct Written {
    pub w0: bool,
    pub w1: bool,
    pub w2: bool,
    pub w3: bool,
    pub dll: bool,
}

// The latest REF (15), ZQ (18), DLL reset or SRX (20), SRX (21), SRE (22), change of CKE (27), power-down exit (29), and one of precharge
// power-down with MR0 A12 = 0 (30).
#[derive(Clone, Copy)]
pub struct Rests {
    pub refreshed: Mark,
    pub tuned: Mark,
    pub reset: Mark,
    pub woke: Mark,
    pub slept: Mark,
    pub turned: Mark,
    pub left: Mark,
    pub slow: Mark,
}

// Refresh debt: asleep or not, the awake clock's place within an interval, debt + 8, the awake clocks since the last REF or edge 0.
#[derive(Clone, Copy)]
pub struct Debt {
    pub sleeps: bool,
    pub phase: u64,
    pub owed: u64,
    pub gap: u64,
}

// What all banks share. now: the edge of the latest record that the state speaks of.
#[derive(Clone, Copy)]
pub struct Shared {
    pub now: u64,
    pub level: bool,
    pub acts: [Mark; 4],
    pub rests: Rests,
    pub debt: Debt,
    pub regs: Regs,
    pub written: Written,
    pub read: Read,
    pub wrote: Wrote,
    pub mrs: Mark,
    pub shut: Mark,
}

// The soonest due edge found so far, and its bank.
#[derive(Clone, Copy)]
pub struct Pick {
    pub at: u64,
    pub bank: u64,
}

// A deadline: the edge at which it passes, and what is then reported.
#[derive(Clone, Copy)]
pub struct Late {
    pub at: u64,
    pub rule: u64,
    pub partner: u64,
    pub needed: u64,
    pub found: u64,
}

// One rank: edge and count go on after a break; the rest stays as it was just before the broken edge. first: the break, or all 0.
// dues: for each bank the edge at which rule 24 breaks, or 0.
#[derive(Clone, Copy)]
pub struct Rank {
    pub edge: u64,
    pub count: u32,
    pub first: Verdict,
    pub banks: [Kept; 8],
    pub dues: [u64; 8],
    pub shared: Shared,
}

// The clocks that ACT, RD and WR leave behind under the registers in force: what rules 4, 10, 11, 14, 13 and 19 need, and from a WR to
// the start of its auto precharge. long and short: of a read with A12 and without.
#[derive(Clone, Copy)]
pub struct Asks {
    pub n4: u32,
    pub n10: u32,
    pub n11: u32,
    pub n14: u32,
    pub start: u32,
    pub long13: u32,
    pub short13: u32,
    pub long19: u32,
    pub short19: u32,
}
