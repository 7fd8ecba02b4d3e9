// A whole recording moved to the other edition: 02, Q-7. A move that is refused writes nothing. And the checks of a move, of a recording that
// comes in sections.
#![tactic(auto)]

mod behind;
mod checks;
mod outcome;
#[cfg(test)]
mod tests;

ghost use Rattle.std.specs.Prelude.{◌≡◌, ◌<◌, ◌≤◌, ◌++◌, length, take, drop};
ghost use Rattle.refusals.specs.Refusals.{number_in};
ghost use Rattle.moves.specs.Moves.{headed};
ghost use Rattle.moves.specs.Check.{begun_of, over_of, refusal_of};
ghost use Rattle.moves.specs.Promises.{Widen, Narrow};

use refusals::Refusal;
use wide::Seen;

// How far the checks have come: the edition that the move starts from, the header's refusal or 0, the bytes behind it, and what was seen in the
// records. The refusal is a number, as `Check::refusal` answers for any.
#[derive(Clone, Copy)]
pub struct Check {
    pub edition: u64,
    pub refused: u32,
    pub bytes: u64,
    pub seen: Seen,
}

// Edition 1 to 2. Checks 1, 2, 3, 4, 5, 7, 6, 9; then writes the moved recording to the front of out.
pub fn widen(recording: &[u8], out: &mut [u8]) -> Result<(), Refusal>
    ensures { Widen recording.now out.old (number_in result) out.new }
{
    checked(recording, 1)?;
    let count = (recording.len() - 6) / 6;
    if out.len() < 6 + 8 * count {
        return Err(Refusal::Room);
    }
    put_header(recording, 2, out);
    wide::widen_records(&recording[6..], &mut out[6..]);
    Ok(())
}

// Edition 2 to 1. Checks 1, 2, 3, 4, 5, 7, 6, 14, 13, 9.
pub fn narrow(recording: &[u8], out: &mut [u8]) -> Result<(), Refusal>
    ensures { Narrow recording.now out.old (number_in result) out.new }
{
    checked(recording, 2)?;
    let count = (recording.len() - 6) / 8;
    if out.len() < 6 + 6 * count {
        return Err(Refusal::Room);
    }
    put_header(recording, 1, out);
    wide::narrow_records(&recording[6..], false, &mut out[6..]);
    Ok(())
}

// What refuses a move that starts from an edition, but for 9.
fn checked(recording: &[u8], edition: u64) -> Result<(), Refusal>
    ensures { number_in result ≡ refusal_of (over_of (begun_of edition (take 6 recording.now)) (drop 6 recording.now)) }
{
    if recording.len() < 6 {
        return Err(Refusal::HeaderLength);
    }
    header::parse(&recording[..6], edition)?;
    Check::start(edition, 0).over(&recording[6..]).behind()
}

// Puts the header of another edition to the front of out.
fn put_header(recording: &[u8], edition: u8, out: &mut [u8])
    requires in_bounds { (6 ≤ length recording.now) × (6 ≤ length out.old) }
    requires edition_bound { edition < 3 }
    ensures { out.new ≡ headed edition recording.now ++ drop 6 out.old }
{
    let header = [
        edition * 16 + recording[0] % 16,
        recording[1],
        recording[2],
        recording[3],
        recording[4],
        recording[5],
    ];
    out[..6].copy_from_slice(&header);
}
