// The first reading: each file's bytes, in sections of 6,000, through the judge and the tally.
use crate::trouble::{Trouble, Why};
use crate::view::{Rank, SECTION};
use crate::{Lot, calls, eights, values};
use judge::State;
use refusals::Refusal;
use std::fs::File;
use tally::Tally;

// Where the reading of a file stands: its number, the byte of it that comes next, the count and the edge at its start, and whether it begins with
// a header of its own.
#[derive(Clone, Copy)]
struct Place {
    file: usize,
    at: u64,
    count: u32,
    edge: u64,
    headed: bool,
}

impl Place {
    // At the start of a file, behind count records, the last of them at the edge.
    fn start(file: usize, count: u32, edge: u64) -> Place {
        Place {
            file,
            at: 0,
            count,
            edge,
            headed: false,
        }
    }

    fn behind(self, bytes: &[u8]) -> Place {
        let mut n = self;
        n.at = self.at.wrapping_add(bytes.len() as u64);
        n
    }

    fn trouble(self, why: Why) -> Trouble {
        Trouble {
            file: self.file,
            why,
        }
    }

    // A refusal, at a byte behind this place.
    fn refused(self, refusal: Refusal, behind: usize) -> Trouble {
        let at = self.at.wrapping_add(behind as u64);
        self.trouble(Why::Refused { refusal, at })
    }

    // The bytes that come next, at the front of space; what does not fill it is to be the file's end.
    fn next<'a>(self, file: &Option<File>, space: &'a mut [u8]) -> Result<&'a [u8], Trouble> {
        let n = inputs::fill(file, space);
        if n < space.len() && !inputs::ends(file) {
            return Err(self.trouble(Why::Unread));
        }
        if self.at == 0 && n == 0 {
            return Err(self.trouble(Why::Empty));
        }
        Ok(&space[..n])
    }

    // Does a later file begin with what opening would take as a header?
    fn begins_anew(self, bytes: &[u8]) -> bool {
        self.file != 1 && self.at == 0 && bytes.len() >= 6 && State::open(&bytes[..6]).is_ok()
    }
}

// The lot's first file: the header, and the records behind it.
pub(crate) fn first(rt: &HostRuntime) -> Result<Lot, Trouble> {
    let place = Place::start(1, 0, 0);
    let file = opened(rt, place)?;
    let mut header = [0u8; 6];
    let bytes = place.next(&file, &mut header)?;
    let behind = place.behind(bytes);
    let state = State::open(bytes).map_err(|n| place.refused(n, 0))?;
    values::edition(state.edition);
    values::part(state.header);
    sections(begun(state, header), behind, &file)
}

fn begun(state: State, header: [u8; 6]) -> Lot {
    let tally = Tally::start();
    Lot {
        header,
        state,
        one: tally,
        two: (state.edition == 2).then_some(tally),
    }
}

// A later file.
pub(crate) fn later(rt: &HostRuntime, lot: Lot, i: usize) -> Result<Lot, Trouble> {
    let place = Place::start(i, lot.state.one.count, lot.state.one.edge);
    let file = opened(rt, place)?;
    sections(lot, place, &file)
}

// The file, where it can be opened.
fn opened(rt: &HostRuntime, place: Place) -> Result<Option<File>, Trouble> {
    let file = inputs::open(rt, place.file);
    if file.is_none() {
        return Err(place.trouble(Why::Unopened));
    }
    Ok(file)
}

// Section after section. Nothing says that a file ends, so the turns have a bound that no run comes to.
fn sections(start: Lot, from: Place, file: &Option<File>) -> Result<Lot, Trouble> {
    let mut lot = start;
    let mut place = from;
    for _ in 0..u64::MAX {
        let mut space = [0u8; SECTION];
        let bytes = place.next(file, &mut space)?;
        place.headed = place.headed || place.begins_anew(bytes);
        lot = taken(lot, place, bytes)?;
        if bytes.len() < SECTION {
            tell(place, lot.state);
            break;
        }
        place = place.behind(bytes);
    }
    Ok(lot)
}

fn taken(lot: Lot, place: Place, bytes: &[u8]) -> Result<Lot, Trouble> {
    let state = lot.state;
    let taken = state
        .section(bytes)
        .map_err(|n| place.refused(n, refused_at(n, bytes, state)))?;
    counted(lot, taken.state, bytes).map_err(|n| place.refused(n, 0))
}

fn counted(lot: Lot, state: State, bytes: &[u8]) -> Result<Lot, Refusal> {
    let mut n = lot;
    n.state = state;
    n.one = calls::counted(lot.one, state.edition, Rank::First, bytes)?;
    if let Some(two) = lot.two {
        n.two = Some(calls::counted(two, state.edition, Rank::Second, bytes)?);
    }
    Ok(n)
}

fn refused_at(refusal: Refusal, bytes: &[u8], s: State) -> usize {
    let refused = u64::from(refusal.number());
    if s.edition == 2 {
        return eights::refused_at(refused, bytes, s.one.count);
    }
    tally::refused_at(refused, bytes, s.one.count)
}

// The lines of a file that was read to its end.
fn tell(p: Place, s: State) {
    let records = s.one.count.wrapping_sub(p.count);
    values::file(
        p.file as u64,
        u64::from(records),
        p.edge,
        s.one.edge,
        p.headed,
    );
}
