// The check of one least-spacing rule against one mark.
ghost use Rattle.std.specs.Prelude.{◌≡◌};
ghost use Rattle.running.specs.Marks as marks;
ghost use Rattle.kept.specs.Promises.{Since, Needing};

use answers::Break;
use running::Mark;

// The edges from one edge to another; 0 where the first is not before.
pub fn since(e: u64, at: u64) -> u64
    ensures { Since e at result }
{
    if at <= e { e - at } else { 0 }
}

// Rule k at edge e: the break, or what else is broken.
pub(crate) fn spaced(k: u64, e: u64, m: Mark, otherwise: Break) -> Break
    ensures { result ≡ marks.spaced k e m otherwise }
{
    let found = since(e, m.at);
    let need = m.need as u64;
    if found < need {
        return Break::Broken {
            rule: k,
            partner: m.num as u64,
            needed: need,
            found: found,
        };
    }
    otherwise
}

// The same record under another need; a mark of no record stays one.
pub fn needing(need: u32, m: Mark) -> Mark
    ensures { Needing need m result }
{
    if m.num == 0 {
        return Mark {
            at: m.at,
            num: m.num,
            need: 0,
        };
    }
    Mark {
        at: m.at,
        num: m.num,
        need: need,
    }
}
