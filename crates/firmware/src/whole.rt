// A whole recording in one go: opening, one section, closing.
ghost use Rattle.std.specs.Prelude.{cond, ◌≡◌};
ghost use Rattle.firmware.specs.Whole.{JudgedAs};

use answers::Verdict;
use judge::State;
use refusals::Refusal;

// The verdicts of the first and the second rank; in edition 1 the second is zero.
#[derive(Clone, Copy)]
pub(crate) struct Whole {
    pub verdict: Verdict,
    pub second: Verdict,
}

// Checks 1, 2, 3, 4, 5, 7, 6, 14, 8.
pub(crate) fn judged(recording: &[u8], end: u64) -> Result<Whole, Refusal>
    ensures { JudgedAs recording.now end result }
{
    if recording.len() < 6 {
        return Err(Refusal::HeaderLength);
    }
    let state = State::open(&recording[..6])?;
    let taken = state.section(&recording[6..])?;
    let last = taken.state;
    let closed = last.close(end)?;
    Ok(Whole {
        verdict: closed.end.verdict,
        second: closed.second.verdict,
    })
}

// The bytes that the answer takes.
pub(crate) fn needed(two: bool) -> usize
    ensures { result ≡ cond two 40 20 }
{
    if two {
        return 40;
    }
    20
}
