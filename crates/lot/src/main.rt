// Tells what is known of one lot, `name value` a line: the files that its arguments name, in order, judged as one recording. The first begins
// with the six header bytes, and each ends between records. With `--list FROM TO EDGE` before them it tells the records of these numbers
// instead, and how many stand before the edge: in edition 2 as the first rank sees them, with `--second FROM TO EDGE` as the second does.
// However the records are cut into files, the verdict and the counts are those of the uncut recording (sections/proofs, Sections and Lots).
// A file that cannot be judged ends it with the reason. A program has no exit status to set.
#![tactic(auto)]

mod calls;
mod eights;
mod find;
mod reading;
mod text;
mod trouble;
mod values;
mod view;

use find::List;
use judge::State;
use refusals::Refusal;
use tally::Tally;
use trouble::{Trouble, Why};
use view::Rank;

// What the files so far have led to. header: the six bytes of the lot's header. two: of the second rank, in edition 2.
#[derive(Clone, Copy)]
struct Lot {
    header: [u8; 6],
    state: State,
    one: Tally,
    two: Option<Tally>,
}

fn main(rt: HostRuntime) {
    let end = inputs::count(&rt);
    if let Some(rank) = listed_of(&rt) {
        find::run(&rt, sought(&rt, rank), end);
        return;
    }
    if end <= 1 {
        text::put(b"usage: lot [--list FROM TO EDGE | --second FROM TO EDGE] FILE..\n");
        return;
    }
    if let Err(t) = judged(&rt, end).and_then(answer) {
        t.tell();
    }
}

// The rank whose records the first argument asks for.
fn listed_of(rt: &HostRuntime) -> Option<Rank> {
    if inputs::is(rt, 1, b"--list") {
        return Some(Rank::First);
    }
    inputs::is(rt, 1, b"--second").then_some(Rank::Second)
}

fn sought(rt: &HostRuntime, rank: Rank) -> List {
    List {
        from: number_at(rt, 2),
        to: number_at(rt, 3),
        limit: number_at(rt, 4),
        rank,
    }
}

// The number that an argument spells.
fn number_at(rt: &HostRuntime, i: usize) -> u64 {
    let mut digits = [0u8; 20];
    let n = inputs::read(rt, i, &mut digits);
    spelled(&digits[..n])
}

// Whatever the bytes are: a number too long wraps.
fn spelled(digits: &[u8]) -> u64 {
    digits.iter().fold(0, |n: u64, &d| {
        n.wrapping_mul(10)
            .wrapping_add(u64::from(d).wrapping_sub(48))
    })
}

fn judged(rt: &HostRuntime, end: usize) -> Result<Lot, Trouble> {
    let mut lot = reading::first(rt)?;
    for i in 2..end {
        lot = reading::later(rt, lot, i)?;
    }
    Ok(lot)
}

// Closes at the last record's edge. A state that was opened and whose last edge is the end is not refused.
fn answer(lot: Lot) -> Result<(), Trouble> {
    let state = lot.state;
    let (first, second) = calls::closed(state, state.one.edge).map_err(refused)?;
    if let Some((two, second)) = lot.two.zip(second) {
        text::value(b"rank", 1);
        values::end(lot.one, state.one.count, first, lot.header);
        text::value(b"rank", 2);
        values::end(two, state.two.count, second, lot.header);
    } else {
        values::end(lot.one, state.one.count, first, lot.header);
    }
    Ok(())
}

fn refused(refusal: Refusal) -> Trouble {
    Trouble {
        file: 1,
        why: Why::Refused { refusal, at: 0 },
    }
}
