// Places among records of eight bytes, those of edition 2.
use crate::text::{STDOUT_FILENO, put};
use crate::view::{Rank, SECTION, View};

// Where a refused record begins: the one cut short (5), the first of step 0 (6), the first past the limit (7), the first with zero bits set (14).
pub(crate) fn refused_at(refused: u64, bytes: &[u8], count: u32) -> usize {
    match refused {
        5 => bytes.len() - bytes.len() % 8,
        14 => spare_at(bytes),
        _ => narrowed_at(refused, bytes, count),
    }
}

// By the records of six bytes that the first rank sees.
fn narrowed_at(refused: u64, bytes: &[u8], count: u32) -> usize {
    let mut space = [0u8; SECTION];
    let view = View {
        edition: 2,
        rank: Rank::First,
    };
    let sixes = tally::refused_at(refused, view.of(bytes, &mut space), count);
    distance(sixes as u64) as usize
}

fn spare_at(bytes: &[u8]) -> usize {
    let records = bytes.as_chunks::<8>().0;
    let spare = records.iter().position(|r| r[6] % 32 != 0 || r[7] != 0);
    8 * spare.unwrap_or(records.len())
}

// The place in a file of edition 2 of the record that would stand at the byte `at` of one of edition 1, and so of any distance between records.
pub(crate) fn place(headed: bool, at: u64) -> u64 {
    if headed {
        return distance(at.wrapping_sub(6)).wrapping_add(6);
    }
    distance(at)
}

// Eight bytes for six.
pub(crate) fn distance(sixes: u64) -> u64 {
    (sixes / 6).wrapping_mul(8)
}

// Tells the eight bytes that begin at a place of a section, two at once: each call is a write.
pub(crate) fn tell(bytes: &[u8], at: usize) {
    let Some(record) = bytes.get(at..at.saturating_add(8)) else {
        return;
    };
    put(b"list_bytes ");
    for &two in record.as_chunks::<2>().0 {
        io::print_hex(STDOUT_FILENO, u64::from(u16::from_be_bytes(two)), 4);
    }
    put(b"\n");
}
