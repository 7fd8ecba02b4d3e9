// After a break the records are only counted.
ghost use Rattle.std.specs.Prelude.{◌≡◌, ◌+◌, ◌-◌, ◌/◌};
ghost use Rattle.chip.specs.declared.Chip.{Chip};
ghost use Rattle.edges.specs.declared.Rank.{Rank};
ghost use Rattle.edges.specs.Folded.{folded_as};
ghost use Rattle.edges.specs.Folding as folding;

use crate::quick::record_at;
use edges::Rank;

// n: the rank after the records before from, broken; none where a step is 0.
pub(crate) fn counted(n: Rank, bytes: &[u8], from: usize) -> Option<Rank>
    requires { folding.Counting n bytes.now from }
    ensures { (C : Chip) (s : Rank) → folded_as s result ≡ folding.folded_from C s n bytes.now from }
{
    let mut m = n;
    let mut at = from;
    while at < bytes.len() {
        let r = record_at(bytes, at);
        if r.step == 0 {
            return None;
        }
        m.edge += r.step;
        m.count += 1;
        at += 6;
    }
    Some(m)
}
