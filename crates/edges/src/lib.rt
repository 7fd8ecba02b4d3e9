// The types of what is kept of one rank, as edges: what can be an edge is an edge, so that a record that changes nothing changes no counter.
// The definitions stand in specs/, their laws in proofs/; the code stands in the crates above.
#![tactic(auto)]

use answers::Verdict;

// Refresh debt, if no REF came: due is the edge at which 9 would be owed, gap that at which the last REF is more than nine intervals back. Of
// a part that sleeps: the awake clocks that are left until then.
#[derive(Clone, Copy)]
pub struct Debt {
    pub sleeps: bool,
    pub due: u64,
    pub gap: u64,
}

// Of each bank, by the number of its record (0: none). act: the latest ACT, its edge, what rule 4 needs of it, its row. col: the latest RD of each
// of the eight banks, then the latest WR of each; its edge, and what it needs to a PRE (rules 10, 11), to one of the other direction (13, 14) and
// to an MRS or SRE (19; of a WR 0). shut: the start of the latest precharge, by the record that closes the bank.
#[derive(Clone, Copy)]
pub struct Banks {
    pub actat: [u64; 8],
    pub actno: [u32; 8],
    pub actneed: [u32; 8],
    pub row: [u16; 8],
    pub colat: [u64; 16],
    pub colno: [u32; 16],
    pub colpre: [u32; 16],
    pub colturn: [u32; 16],
    pub colout: [u32; 16],
    pub shutat: [u64; 8],
    pub shutno: [u32; 8],
}

// The earliest edges that rules 4 to 21, 29 and 30 allow: of each bank for an ACT, for a RD and then for a WR, for a PRE; of the device for a REF, an MRS, a
// ZQ and an SRE.
#[derive(Clone, Copy)]
pub struct Waits {
    pub act: [u64; 8],
    pub col: [u64; 16],
    pub pre: [u64; 8],
    pub holds: [u64; 4],
}

// The last four ACTs, their edges and numbers; turn is the place of the oldest, which the next one takes.
#[derive(Clone, Copy)]
pub struct Acts {
    pub at: [u64; 4],
    pub no: [u32; 4],
    pub turn: u64,
}

// The latest REF, MRS, ZQ, SRE, SRX, DLL reset, change of CKE, power-down exit, and exit of precharge power-down with MR0 A12 = 0: edge, number,
// and the clocks that rules 15, 16, 18, 22, 21, 20, 27, 29 and 30 need. The codes of the four registers, and which were written.
#[derive(Clone, Copy)]
pub struct Device {
    pub at: [u64; 9],
    pub no: [u32; 9],
    pub need: [u32; 9],
    pub codes: [u16; 4],
    pub written: [bool; 4],
}

// One rank: edge and count go on after a break; the rest stays as it was just before the broken edge. first: the break, or all 0. level: of CKE.
#[derive(Clone, Copy)]
pub struct Rank {
    pub edge: u64,
    pub count: u32,
    pub first: Verdict,
    pub level: bool,
    pub debt: Debt,
    pub banks: Banks,
    pub waits: Waits,
    pub acts: Acts,
    pub device: Device,
}

// What was asked since a section began: of an ACT, a RD, a WR and a PRE on every bank; by rule 5 of a REF, an MRS, a ZQ and an SRE (idle); by
// rule 19 of an MRS and an SRE (out). It is put into the waits at the section's end.
#[derive(Clone, Copy)]
pub struct Floor {
    pub act: u64,
    pub rd: u64,
    pub wr: u64,
    pub pre: u64,
    pub idle: u64,
    pub out: u64,
}
