// The records of edition 2 narrowed for both ranks in one pass: what the ranks see differs in one bit.
ghost use Rattle.std.specs.Prelude.{◌≡◌, length, take};
ghost use Rattle.wide.specs.Promises.{SplitPart, Split};

use crate::Part;
use crate::low::{ROW, lay, look};

// Narrows the whole records from `at` on, 1,000 at most, to the fronts of one and two, as the first and as the second rank see them.
pub fn split_part(bytes: &[u8], at: usize, one: &mut [u8; 6000], two: &mut [u8; 6000]) -> Part
    ensures { SplitPart bytes.now at one.old two.old result one.new two.new }
{
    if bytes.len() < at {
        return Part {
            len: 0,
            spare: false,
        };
    }
    split_records(&bytes[at..], one, two)
}

fn split_records(bytes: &[u8], one: &mut [u8], two: &mut [u8]) -> Part
    requires { (length one.old ≡ 6000) × (length two.old ≡ 6000) }
    ensures { Split (take 8000 bytes.now) one.old two.old result one.new two.new }
{
    let count = (bytes.len() / 8).min(1000);
    let mut first = [0u64; ROW];
    let mut second = [0u64; ROW];
    let mut spare = false;
    let mut i: usize = 0;
    while i < count {
        let n = (count - i).min(ROW);
        let seen = look(bytes, 8 * i, n, &mut first, &mut second);
        lay(&first, n, one, 6 * i);
        lay(&second, n, two, 6 * i);
        spare = spare | (seen != 0);
        i += n;
    }
    Part {
        len: 6 * count,
        spare,
    }
}
