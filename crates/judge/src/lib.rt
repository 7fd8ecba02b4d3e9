// The judge: its state, opening, a section, closing. The state is a summary of the records so far and keeps none of them.
#![tactic(auto)]

mod calls;
mod ranks;

use answers::{End, Verdict};
use edges::Rank;
use header::Header;

// edition: 1 or 2; any other is refused by 17, so it is a number. two: the second rank; in edition 1 there is none, and it is as it was opened.
#[derive(Clone, Copy)]
pub struct State {
    pub header: Header,
    pub edition: u64,
    pub one: Rank,
    pub two: Rank,
}

// The state after a section, and the verdicts so far of the first and of the second rank; in edition 1 the second is zero.
#[derive(Clone, Copy)]
pub struct Taken {
    pub state: State,
    pub verdict: Verdict,
    pub second: Verdict,
}

// end, second: of the first and of the second rank; in edition 1 the second is zero.
#[derive(Clone, Copy)]
pub struct Closed {
    pub end: End,
    pub second: End,
}

// Both ranks in a section of edition 2, and whether zero bits were set.
#[derive(Clone, Copy)]
struct Pair {
    spare: bool,
    one: Rank,
    two: Rank,
}

// One rank in a section of edition 2, and the same.
#[derive(Clone, Copy)]
struct Single {
    spare: bool,
    rank: Rank,
}
