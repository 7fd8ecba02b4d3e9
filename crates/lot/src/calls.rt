// A closing of the ranks that there are, and a section counted.
use crate::view::{Rank, SECTION, View};
use answers::End;
use judge::State;
use refusals::Refusal;
use tally::Tally;

// Of the first rank, and in edition 2 of the second.
pub(crate) fn closed(state: State, end: u64) -> Result<(End, Option<End>), Refusal> {
    let c = state.close(end)?;
    Ok((c.end, (state.edition == 2).then_some(c.second)))
}

// A section as a rank sees it, counted.
pub(crate) fn counted(
    t: Tally,
    edition: u64,
    rank: Rank,
    section: &[u8],
) -> Result<Tally, Refusal> {
    let mut space = [0u8; SECTION];
    let view = View { edition, rank };
    t.section(view.of(section, &mut space))
}
