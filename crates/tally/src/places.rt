// Where a lot's records stand in its files, and which of them has a number. The files are handed over in order, each in sections that end between
// records.
ghost use Rattle.std.specs.Prelude.{◌≡◌, ◌+◌, ◌==◌};
ghost use Rattle.tally.specs.Walk.{wrapped};
ghost use Rattle.tally.specs.Places as defs;
ghost use Rattle.tally.specs.Promises.{SpotStart, SpotBegun, SpotPassed, SpotFind};

use crate::{Placed, Reached, Spot};
use records::Record;

impl Spot {
    // Before the first file.
    pub fn start(limit: u64) -> Spot
        ensures { SpotStart limit result }
    {
        Spot {
            reached: Reached::start(limit),
            file: 0,
            at: 0,
        }
    }

    // A file more; headed: it begins with the six bytes of a header.
    pub fn begun(self, headed: bool) -> Spot
        ensures { SpotBegun self headed result }
    {
        let reached = self.reached;
        Spot {
            reached: reached,
            file: std::num::wrapping_add_u64(self.file, 1),
            at: skipped(headed),
        }
    }

    // A section more. Bytes behind its last whole record belong to none.
    pub fn passed(self, bytes: &[u8]) -> Spot
        ensures { SpotPassed self bytes.now result }
    {
        let mut s = self;
        for &six in records::sixes(bytes) {
            s = s.after(records::decode(six));
        }
        s
    }

    // The section's record of number n.
    pub fn find(self, n: u64, bytes: &[u8]) -> Option<Placed>
        ensures { SpotFind self n bytes.now result }
    {
        let mut s = self;
        for &six in records::sixes(bytes) {
            let r = records::decode(six);
            if comes_next(s.reached.number, n) {
                return Some(s.placed(r, bits::word(six)));
            }
            s = s.after(r);
        }
        None
    }

    fn after(self, r: Record) -> Spot
        ensures { result ≡ defs.after_of self r }
    {
        let reached = self.reached;
        Spot {
            reached: reached.next(r),
            file: self.file,
            at: std::num::wrapping_add_u64(self.at, 6),
        }
    }

    fn placed(self, r: Record, word: u64) -> Placed
        ensures { result ≡ defs.placed_of self r word }
    {
        let reached = self.reached;
        Placed {
            found: reached.found(r),
            file: self.file,
            at: self.at,
            word: word,
        }
    }
}

fn skipped(headed: bool) -> u64
    ensures { result ≡ defs.skip_of headed }
{
    if headed {
        return 6;
    }
    0
}

// Has the record behind so many the number n?
fn comes_next(number: u64, n: u64) -> bool
    ensures { result ≡ (wrapped (number + 1) == n) }
{
    std::num::wrapping_add_u64(number, 1) == n
}
