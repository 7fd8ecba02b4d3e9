// What the judge's calls answer of each rank that there is.
use answers::{End, Verdict};
use edges::Waits;
use judge::{State, Taken};
use refusals::Refusal;

// Of each rank its own; in edition 1 there is one.
#[derive(Clone, Copy)]
pub(crate) struct Ranks<T> {
    pub(crate) first: T,
    pub(crate) second: Option<T>,
}

// The verdicts so far.
pub(crate) fn verdicts(t: Taken) -> Ranks<Verdict> {
    of_ranks(t.state, t.verdict, t.second)
}

pub(crate) fn closed(state: State, end: u64) -> Result<Ranks<End>, Refusal> {
    let c = state.close(end)?;
    Ok(of_ranks(state, c.end, c.second))
}

pub(crate) fn waits(state: State) -> Ranks<Waits> {
    of_ranks(state, state.one.waits, state.two.waits)
}

fn of_ranks<T: Copy>(state: State, first: T, second: T) -> Ranks<T> {
    Ranks {
        first,
        second: (state.edition == 2).then_some(second),
    }
}
