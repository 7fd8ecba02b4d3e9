// What stands in the way of a move, of all records of a section.
ghost use Rattle.std.specs.Prelude.{◌≡◌};
ghost use Rattle.wide.specs.Wide as defs;
ghost use Rattle.wide.specs.Seen.{seen_more};
ghost use Rattle.wide.specs.Promises.{SeenIn, StepOfZero};

use crate::{Seen, Wide, eights, word};

// What was seen before, and in the whole records of a section of edition 2.
pub fn seen_in(before: Seen, bytes: &[u8]) -> Seen
    ensures { SeenIn before bytes.now result }
{
    let mut s = before;
    for &eight in eights(bytes) {
        s = more(s, fields(word(eight)));
    }
    s
}

fn fields(w: u64) -> Wide
    ensures { result ≡ defs.fields_of w }
{
    Wide {
        step: w / 1099511627776 % 16777216,
        reset: w / 549755813888 % 2 == 1,
        cke: w / 274877906944 % 2 == 1,
        first: w / 137438953472 % 2 == 1,
        second: w / 68719476736 % 2 == 1,
        odt: w / 34359738368 % 2 == 1,
        pins: w / 4294967296 % 8,
        bank: w / 536870912 % 8,
        a: (w / 8192 % 65536) as u16,
        zero: w % 8192,
    }
}

fn more(s: Seen, w: Wide) -> Seen
    ensures { result ≡ seen_more s w }
{
    Seen {
        zero: s.zero | (w.step == 0),
        spare: s.spare | (w.zero != 0),
        stays: s.stays | !returns(w),
    }
}

// May the record go back to edition 1?
fn returns(w: Wide) -> bool
    ensures { result ≡ defs.returns w }
{
    w.reset & (w.second & !w.odt)
}

// Has a whole record of a section of edition 1 a step of 0?
pub fn step_of_zero(bytes: &[u8]) -> bool
    ensures { StepOfZero bytes.now result }
{
    for &six in records::sixes(bytes) {
        if records::decode(six).step == 0 {
            return true;
        }
    }
    false
}
