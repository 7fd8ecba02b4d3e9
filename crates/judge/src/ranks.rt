// A section of edition 2: its records narrowed for each rank, 1,000 at a time, and handed to the ranks. For a broken rank they are only counted.
ghost use Rattle.std.specs.Prelude.{not, ◌≡◌, ◌+◌, ◌%◌, ◌≤◌, length};
ghost use Rattle.running.specs.Ranges.{limit, last_edge};
ghost use Rattle.edges.specs.Step.{later_of};
ghost use Rattle.judge.specs.Pairs as pairs;

use crate::{Pair, Single};
use chip::Chip;
use edges::Rank;

// The bytes of 1,000 records.
const PART: usize = 8000;

// None where a step is 0.
pub(crate) fn both(chip: Chip, start: Pair, bytes: &[u8]) -> Option<Pair>
    requires { pairs.Ready chip (pairs.begun start) bytes.now }
    ensures { pairs.Took chip (pairs.begun start) bytes.now (pairs.pair_as start result) }
{
    let one = start.one.first.outcome;
    let two = start.two.first.outcome;
    if (one != 0) & (two != 0) {
        return counted(start, bytes);
    }
    if one != 0 {
        return beside(chip, start, true, bytes);
    }
    if two != 0 {
        return beside(chip, start, false, bytes);
    }
    in_parts(chip, start, bytes)
}

fn counted(start: Pair, bytes: &[u8]) -> Option<Pair>
    requires bytes_len { length bytes.now % 8 ≡ 0 }
    requires fit { pairs.Fit start.one bytes.now }
    requires fit_2 { pairs.Fit start.two bytes.now }
    ensures { pairs.pair_as start result ≡ pairs.counts_of start bytes.now }
{
    let steps = wide::steps_in(bytes);
    if steps.zero {
        return None;
    }
    let records = (bytes.len() / 8) as u32;
    Some(Pair {
        spare: start.spare | steps.spare,
        one: later(start.one, steps.sum, records),
        two: later(start.two, steps.sum, records),
    })
}

fn later(n: Rank, steps: u64, records: u32) -> Rank
    requires steps_bound { n.edge + steps ≤ last_edge }
    requires records_bound { n.count + records ≤ limit }
    ensures { result ≡ later_of n steps records }
{
    let mut m = n;
    m.edge = n.edge + steps;
    m.count = n.count + records;
    m
}

// second: the rank that is judged. The other is broken, and goes on as far.
fn beside(chip: Chip, start: Pair, second: bool, bytes: &[u8]) -> Option<Pair>
    requires ready { pairs.Ready chip (pairs.begun start) bytes.now }
    requires fact { (pairs.rank_in (pairs.begun start) (not second)).first.outcome ≡ 0 → ⊥ }
    ensures { pairs.Took chip (pairs.begun start) bytes.now (pairs.pair_as start result) }
{
    let judged = rank_in(start, second);
    let other = rank_in(start, !second);
    let r = alone(chip, judged, second, bytes)?;
    let spare = start.spare | r.spare;
    let after = r.rank;
    let records = (bytes.len() / 8) as u32;
    let on = later(other, after.edge - judged.edge, records);
    if second {
        return Some(Pair {
            spare,
            one: on,
            two: after,
        });
    }
    Some(Pair {
        spare,
        one: after,
        two: on,
    })
}

fn rank_in(p: Pair, second: bool) -> Rank
    ensures { result ≡ pairs.rank_in (pairs.begun p) second }
{
    if second {
        return p.two;
    }
    p.one
}

// None where a step is 0.
fn alone(chip: Chip, n: Rank, second: bool, bytes: &[u8]) -> Option<Single>
    requires { pairs.Able chip n bytes.now }
    ensures { pairs.Alone chip second n bytes.now (pairs.single_as n result) }
{
    let mut view = [0u8; 6000];
    let mut m = n;
    let mut spare = false;
    let mut at: usize = 0;
    while at < bytes.len() {
        let part = wide::narrow_part(bytes, at, second, &mut view);
        spare = spare | part.spare;
        m = rank::take(chip, m, &view[..part.len])?;
        at += PART;
    }
    Some(Single { spare, rank: m })
}

// Both ranks have the same steps: where the first has met no step of 0, neither has the second.
fn in_parts(chip: Chip, start: Pair, bytes: &[u8]) -> Option<Pair>
    requires { pairs.Ready chip (pairs.begun start) bytes.now }
    ensures { pairs.Took chip (pairs.begun start) bytes.now (pairs.pair_as start result) }
{
    let mut first = [0u8; 6000];
    let mut second = [0u8; 6000];
    let mut one = start.one;
    let mut two = start.two;
    let mut spare = false;
    let mut at: usize = 0;
    while at < bytes.len() {
        let part = wide::split_part(bytes, at, &mut first, &mut second);
        spare = spare | part.spare;
        one = rank::take(chip, one, &first[..part.len])?;
        two = rank::take(chip, two, &second[..part.len]).unwrap_or(two);
        at += PART;
    }
    Some(Pair {
        spare: start.spare | spare,
        one,
        two,
    })
}
