// What a rank shows: no end, its registers, the verdict so far.
ghost use Rattle.still.specs.Promises.{NoEnd, RegistersOf, SoFar};

use answers::{End, Shown, Verdict};
use chip::Regs;
use edges::Rank;
use running::Written;
use says::{clean_at, none};

pub fn no_end() -> End
    ensures { NoEnd result }
{
    End {
        verdict: none(),
        banks: [Shown::Idle; 8],
        registers: [None; 4],
        owed: 0,
    }
}

pub fn registers_of(g: Regs, w: Written) -> [Option<u16>; 4]
    ensures { RegistersOf g w result }
{
    [
        w.w0.then_some(g.mr0),
        w.w1.then_some(g.mr1),
        w.w2.then_some(g.mr2),
        w.w3.then_some(g.mr3),
    ]
}

// The verdict as if closed at the last record's edge so far.
pub fn so_far(s: Rank) -> Verdict
    ensures { SoFar s result }
{
    let first = s.first;
    if first.outcome == 0 {
        return clean_at(s.count, s.edge);
    }
    first
}
