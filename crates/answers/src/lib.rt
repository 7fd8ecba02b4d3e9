// What a judge answers: what a record or an edge breaks, a bank, a register, a verdict with its 20 bytes, what stands at the end.
#![tactic(auto)]

mod report;

pub use report::{put_verdict, put_verdicts, verdict_bytes};

// What a record or an edge breaks: the rule, the number of the earlier record (0: none), the clocks needed and found; found is the refused bit
// where an MRS breaks rule 3.
#[derive(Clone, Copy)]
pub enum Break {
    Fine,
    Broken {
        rule: u64,
        partner: u64,
        needed: u64,
        found: u64,
    },
}

// A bank at an edge. Unless it is idle: the edge, the number and the row of its ACT.
#[derive(Clone, Copy)]
pub enum Bank {
    Idle,
    Open { at: u64, num: u64, row: u64 },
    Closing { at: u64, num: u64, row: u64 },
}

// A bank as it is answered, with the row and the edge of its ACT unless it is idle.
#[derive(Clone, Copy, Debug, PartialEq, Eq)]
pub enum Shown {
    Idle,
    Open { row: u64, act: u64 },
    Closing { row: u64, act: u64 },
}

// 01's verdict. Clean: outcome, rule, partner, needed and found are 0, number is the number of records, edge the end edge.
// outcome is a number, as in the 20 bytes that C is handed: `read_back` and `bytes-tell` speak of any that fits there.
#[derive(Clone, Copy)]
pub struct Verdict {
    pub outcome: u64,
    pub rule: u64,
    pub number: u64,
    pub partner: u64,
    pub edge: u64,
    pub needed: u64,
    pub found: u64,
}

// What stands at the end edge. registers: the last code of each that was written. owed is the refresh debt + 8.
#[derive(Clone, Copy)]
pub struct End {
    pub verdict: Verdict,
    pub banks: [Shown; 8],
    pub registers: [Option<u16>; 4],
    pub owed: u64,
}

impl Shown {
    // 0 idle, 1 open, 2 closing.
    pub fn status(self) -> u64
        ensures { Status self result }
    {
        match self {
            Shown::Idle => 0,
            Shown::Open { row: _, act: _ } => 1,
            Shown::Closing { row: _, act: _ } => 2,
        }
    }

    // 0 of a bank that is idle.
    pub fn row(self) -> u64
        ensures { ShownRow self result }
    {
        match self {
            Shown::Idle => 0,
            Shown::Open { row, act: _ } => row,
            Shown::Closing { row, act: _ } => row,
        }
    }

    // The edge of its ACT; 0 of a bank that is idle.
    pub fn act(self) -> u64
        ensures { ActEdge self result }
    {
        match self {
            Shown::Idle => 0,
            Shown::Open { row: _, act } => act,
            Shown::Closing { row: _, act } => act,
        }
    }
}

// The bank as it is answered.
pub fn show(b: Bank) -> Shown
    ensures { Show b result }
{
    match b {
        Bank::Idle => Shown::Idle,
        Bank::Open { at, num: _, row } => Shown::Open { row, act: at },
        Bank::Closing { at, num: _, row } => Shown::Closing { row, act: at },
    }
}

ghost use Rattle.answers.specs.Promises.{Show, Status, ShownRow, ActEdge};
