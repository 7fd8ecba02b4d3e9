// Records moved from one edition to the other.
ghost use Rattle.std.specs.Prelude.{◌≡◌, ◌+◌, ◌≤◌, min, ◌++◌, length, take, drop};
ghost use Rattle.records.specs.Record as old;
ghost use Rattle.wide.specs.Moved.{packed_wide, widened, bytes8};
ghost use Rattle.wide.specs.Promises.{NarrowPart, NarrowRecords, WidenRecords};

use crate::Part;
use crate::low::{ROW, lay_either, look};

// Narrows the whole records from `at` on, 1,000 at most, to the front of out, as the first or the second rank sees them.
pub fn narrow_part(bytes: &[u8], at: usize, second: bool, out: &mut [u8; 6000]) -> Part
    ensures { NarrowPart bytes.now at second out.old result out.new }
{
    if bytes.len() < at {
        return Part {
            len: 0,
            spare: false,
        };
    }
    narrow_records(&bytes[at..], second, out)
}

// Narrows as many whole records as out has room for to its front.
pub fn narrow_records(bytes: &[u8], second: bool, out: &mut [u8]) -> Part
    ensures { NarrowRecords bytes.now second out.old result out.new }
{
    let count = (bytes.len() / 8).min(out.len() / 6);
    let mut one = [0u64; ROW];
    let mut two = [0u64; ROW];
    let mut spare = false;
    let mut i: usize = 0;
    while i < count {
        let n = (count - i).min(ROW);
        let seen = look(bytes, 8 * i, n, &mut one, &mut two);
        lay_either(&one, &two, second, n, out, 6 * i);
        spare = spare | (seen != 0);
        i += n;
    }
    Part {
        len: 6 * count,
        spare,
    }
}

// Widens as many whole records as out has room for to its front, and answers how many bytes they take.
pub fn widen_records(bytes: &[u8], out: &mut [u8]) -> usize
    ensures { WidenRecords bytes.now out.old result out.new }
{
    let count = (bytes.len() / 6).min(out.len() / 8);
    for i in 0..count {
        let w = narrow_word(bytes, 6 * i);
        put8(out, 8 * i, widened(w));
    }
    8 * count
}

// The six bytes from a place on as one word.
fn narrow_word(bytes: &[u8], at: usize) -> u64
    requires { at + 6 ≤ length bytes.now }
    ensures { old.fields_of result ≡ old.record_at bytes.now at }
{
    bits::word([
        bytes[at],
        bytes[at + 1],
        bytes[at + 2],
        bytes[at + 3],
        bytes[at + 4],
        bytes[at + 5],
    ])
}

// The word of edition 2: RESET and the second CS are 1, ODT and the last 13 bits 0.
fn widened(w: u64) -> u64
    ensures { result ≡ packed_wide (widened (old.fields_of w)) }
{
    w / 16777216 % 16777216 * 1099511627776
        + 618475290624
        + w / 8388608 % 2 * 274877906944
        + w / 4194304 % 2 * 137438953472
        + w % 4194304 * 8192
}

// Puts a record of edition 2 at a place.
fn put8(out: &mut [u8], at: usize, n: u64)
    requires { at + 8 ≤ length out.old }
    ensures { out.new ≡ take at out.old ++ bytes8 n ++ drop (at + 8) out.old }
{
    out[at..at + 8].copy_from_slice(&n.to_be_bytes());
}
