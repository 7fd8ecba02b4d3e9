// A section's records.
ghost use Rattle.edges.specs.Folded.{folded_as};
ghost use Rattle.rank.specs.Promises.{Take};

use crate::fold::fold;
use chip::Chip;
use edges::Rank;
use still::{in_range, is_small};

// The rank after the records, none where a step is 0; as it was, where a sum could wrap.
pub fn take(chip: Chip, s: Rank, bytes: &[u8]) -> Option<Rank>
    ensures { Take chip s bytes.now (folded_as s result) }
{
    let count = s.count as u64 + (bytes.len() / 6) as u64;
    if bytes.len() % 6 != 0 || 1048576 < count || !in_range(s) || !is_small(chip) {
        return Some(s);
    }
    fold(chip, s, bytes)
}
