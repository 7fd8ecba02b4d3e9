// A section's records, one after the other.
ghost use Rattle.std.specs.Prelude.{◌≡◌};
ghost use Rattle.edges.specs.Floors.{no_floor};
ghost use Rattle.edges.specs.Ranges.{Ready};
ghost use Rattle.edges.specs.Folded.{folded_as};
ghost use Rattle.edges.specs.Folding as folding;
ghost use Rattle.rank.specs.Lane as lane;

use crate::counting::counted;
use crate::lane::Lane;
use crate::moved::step;
use crate::quick::record_at;
use chip::Chip;
use edges::Rank;

impl Lane {
    // The lane from a rank on, the floor put in at its end.
    fn run_on(&mut self, chip: Chip, bytes: &[u8], from: usize) -> usize
        requires floor { self.old.floor ≡ no_floor }
        requires reached { folding.Reached chip bytes.now self.old.rank from self.old.rank from }
        ensures floored { self.new.floor ≡ no_floor }
        ensures goes_on { folding.Reached chip bytes.now self.old.rank from self.new.rank result }
    {
        let at = self.smoothly(chip, bytes, from);
        self.settle();
        at
    }
}

// None where a step is 0. One place that calls `run_on`, so that the lane is a local there: its arrays then need no pointer to them, which is faster.
pub(crate) fn fold(chip: Chip, s: Rank, bytes: &[u8]) -> Option<Rank>
    requires { Ready chip s bytes.now }
    ensures { folded_as s result ≡ folding.folded_from chip s s bytes.now 0 }
{
    if s.first.outcome != 0 {
        return counted(s, bytes, 0);
    }
    let mut lane = Lane::of(s);
    let mut at = 0;
    loop {
        at = lane.run_on(chip, bytes, at);
        if bytes.len() <= at {
            return Some(lane.rank);
        }
        let r = record_at(bytes, at);
        if r.step == 0 {
            return None;
        }
        lane.rank = step(chip, lane.rank, r);
        at += 6;
        if lane.rank.first.outcome != 0 {
            return counted(lane.rank, bytes, at);
        }
    }
}
