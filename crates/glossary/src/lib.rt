// The glossary of the tally's kinds: the name of each, the levels of CKE and of the pins by which a record is of that kind, and what it
// means, in one table. The report prints its rows, and they are those of the definition: 01, "Commands and the 25 rules", and 02, Q-1.
#![tactic(auto)]

mod table;

ghost use Rattle.std.specs.Prelude.{◌≡◌, ◌<◌};
ghost use Rattle.glossary.specs.Glossary as defs;
ghost use Rattle.glossary.specs.Promises.{PinOf, RowAt, RowOf, LineAt};

use table::ROWS;

// The level of a pin, or of being asleep, in a row; or any.
#[derive(Clone, Copy, PartialEq, Eq)]
pub enum Level {
    Low,
    High,
    Any,
}

impl Level {
    // 0 low, 1 high; none where any will do.
    pub fn pin(self) -> Option<u64>
        ensures { PinOf self result }
    {
        match self {
            Level::Low => Some(0),
            Level::High => Some(1),
            Level::Any => None,
        }
    }
}

// A kind of the tally and its name; the levels of CKE before and now, of being asleep before, of CS, RAS, CAS, WE and A10; what it means. The
// texts are arrays, since a reference has an address besides, and a row is to be equal to that of the definition.
#[derive(Clone, Copy)]
pub struct Row {
    pub kind: u64,
    pub name: [u8; 9],
    pub levels: [Level; 8],
    pub meaning: [u8; 52],
}

// A row as a report prints it: whether it is the first of its kind, and how many records of its kind a tally has.
#[derive(Clone, Copy)]
pub struct Line {
    pub row: Row,
    pub first: bool,
    pub count: u64,
}

// The row at a place, counted from 0; behind the last place, 27, the last row.
pub fn row_at(place: usize) -> Row
    ensures { RowAt place result }
{
    ROWS[place.min(27)]
}

// The first row of a kind; above the last kind, the last row. A number, since there is an answer for any: `RowOf`.
pub fn row_of(kind: u64) -> Row
    ensures { RowOf kind result }
{
    row_at(place_of(kind))
}

// The row at a place, with the count of its own kind.
pub fn line_at(place: usize, counts: [u64; 19]) -> Line
    ensures { LineAt place counts result }
{
    let w = row_at(place);
    let first = place_of(w.kind);
    let n = count_in(counts, w.kind);
    Line {
        row: w,
        first: first == place,
        count: n,
    }
}

// By `for`: with `position` over the table the proof did not close.
fn place_of(kind: u64) -> usize
    ensures { (result ≡ defs.place_of kind) × (result < 28) }
{
    for i in 0..27 {
        if row_at(i).kind == kind {
            return i;
        }
    }
    27
}

fn count_in(counts: [u64; 19], kind: u64) -> u64
    ensures { result ≡ defs.count_in counts kind }
{
    counts.get(kind as usize).copied().unwrap_or(0)
}
