// The record of edition 2: 02, Q-7. Records moved from one edition to the other, and what stands in the way of a move.
#![tactic(auto)]

mod checks;
mod low;
mod moved;
mod split;
mod sums;

ghost use Rattle.std.specs.Prelude.{◌≡◌};
ghost use Rattle.records.specs.Pieces.{pieces};
ghost use Rattle.wide.specs.Wide.{word_at};

pub use checks::{seen_in, step_of_zero};
pub use moved::{narrow_part, narrow_records, widen_records};
pub use split::split_part;
pub use sums::steps_in;

// Edges since the record before; the levels of RESET, CKE, both CS, ODT, and of RAS, CAS, WE as one number; BA, A15..A0, and 13 bits that
// are to be zero.
#[derive(Clone, Copy)]
pub struct Wide {
    pub step: u64,
    pub reset: bool,
    pub cke: bool,
    pub first: bool,
    pub second: bool,
    pub odt: bool,
    pub pins: u64,
    pub bank: u64,
    pub a: u16,
    pub zero: u64,
}

// Records that were narrowed: how many bytes they take, and whether some had zero bits set.
#[derive(Clone, Copy)]
pub struct Part {
    pub len: usize,
    pub spare: bool,
}

// Whether some record had a step of 0, had zero bits set, cannot go back to edition 1.
#[derive(Clone, Copy)]
pub struct Seen {
    pub zero: bool,
    pub spare: bool,
    pub stays: bool,
}

// The sum of the records' steps, whether one was 0, and whether some record had zero bits set.
#[derive(Clone, Copy)]
pub struct Steps {
    pub sum: u64,
    pub zero: bool,
    pub spare: bool,
}

// A section's records, eight bytes each. Bytes behind the last whole one belong to none.
pub(crate) fn eights(bytes: &[u8]) -> &[[u8; 8]]
    ensures { result.now ≡ pieces 8 bytes.now }
{
    bytes.as_chunks::<8>().0
}

pub(crate) fn word(eight: [u8; 8]) -> u64
    ensures { result ≡ word_at eight 0 }
{
    u64::from_be_bytes(eight)
}
