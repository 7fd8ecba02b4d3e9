// The records of a list, each sought by its number in section after section of the files; and how many stand before an edge.
use crate::text::{hex, value};
use crate::values::listed;
use crate::view::{Rank, SECTION, View};
use crate::{eights, values};
use std::fs::File;
use tally::{Placed, Spot};

// The first file's place among the arguments.
const FIRST: usize = 5;

// What is sought: the records of these numbers as a rank sees them, and how many stand before the edge `limit`.
#[derive(Clone, Copy)]
pub(crate) struct List {
    pub(crate) from: u64,
    pub(crate) to: u64,
    pub(crate) limit: u64,
    pub(crate) rank: Rank,
}

// The number that was listed last, the list's last, where the walk over the files stands, and how its records are seen.
#[derive(Clone, Copy)]
struct Search {
    last: u64,
    to: u64,
    spot: Spot,
    view: View,
}

// Records count from 1.
pub(crate) fn run(rt: &HostRuntime, l: List, end: usize) {
    let start = Search {
        last: l.from.saturating_sub(1),
        to: l.to,
        spot: Spot::start(l.limit),
        view: View {
            edition: 1,
            rank: l.rank,
        },
    };
    let s = files(rt, start, end);
    value(b"records_before", s.spot.reached.before);
}

fn files(rt: &HostRuntime, start: Search, end: usize) -> Search {
    let mut s = start;
    for i in FIRST..end {
        s = file(rt, s, i, i == FIRST);
    }
    s
}

// A file that cannot be opened has a number and no records.
fn file(rt: &HostRuntime, s: Search, i: usize, headed: bool) -> Search {
    let mut n = s;
    n.spot = s.spot.begun(headed);
    let file = inputs::open(rt, i);
    if file.is_none() {
        return n;
    }
    if headed {
        n.view.edition = header_edition(&file);
    }
    sections(n, &file)
}

// Reads the header, and tells an edition that is not 1.
fn header_edition(file: &Option<File>) -> u64 {
    let mut header = [0u8; 6];
    let k = inputs::fill(file, &mut header);
    let edition = header::edition_for(&header[..k]);
    values::edition(edition);
    edition
}

// Section after section, to one with no record more. Nothing says that a file ends, so the turns have a bound that no run comes to.
fn sections(start: Search, file: &Option<File>) -> Search {
    let mut s = start;
    for _ in 0..u64::MAX {
        let before = s.spot.at;
        s = section(s, file);
        if s.spot.at == before {
            break;
        }
    }
    s
}

fn section(s: Search, file: &Option<File>) -> Search {
    let mut space = [0u8; SECTION];
    let mut narrow = [0u8; SECTION];
    let k = inputs::fill(file, &mut space);
    let bytes = &space[..k];
    let seen = s.view.of(bytes, &mut narrow);
    let mut n = s;
    n.last = all(s, seen, bytes);
    n.spot = s.spot.passed(seen);
    n
}

// Lists what the section has of the numbers that are left, and answers which was listed last.
fn all(s: Search, seen: &[u8], bytes: &[u8]) -> u64 {
    for n in s.last..s.to {
        let Some(p) = s.spot.find(n + 1, seen) else {
            return n;
        };
        told(s, p, bytes);
    }
    s.last.max(s.to)
}

// In edition 2 the walk counts six bytes a record too: the place is worked out from that, and the record's own bytes are shown.
fn told(s: Search, p: Placed, bytes: &[u8]) {
    if s.view.edition != 2 {
        listed(p, p.at);
        hex(b"list_bytes ", p.word, 12);
        return;
    }
    listed(p, eights::place(p.file == 1, p.at));
    let at = eights::distance(p.at.wrapping_sub(s.spot.at));
    eights::tell(bytes, at as usize);
}
