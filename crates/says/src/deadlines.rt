// Deadlines, of which the sooner counts.
ghost use Rattle.std.specs.Prelude.{◌≡◌};
ghost use Rattle.running.specs.Late as deadlines;
ghost use Rattle.says.specs.Promises.{Soonest, LateBy, Sooner, Why};

use answers::Break;
use running::{Late, Pick};

// The soonest due edge after lo and before hi, and its bank; hi where there is none.
pub fn soonest(dues: [u64; 8], lo: u64, hi: u64) -> Pick
    ensures { Soonest dues lo hi result }
{
    let mut pick = Pick { at: hi, bank: 0 };
    for (b, &due) in dues.iter().enumerate() {
        pick = better(lo, due, b as u64, pick);
    }
    pick
}

fn better(lo: u64, d: u64, b: u64, k: Pick) -> Pick
    ensures { result ≡ deadlines.better lo d b k }
{
    if (lo < d) & (d < k.at) {
        return Pick { at: d, bank: b };
    }
    k
}

// Of rules 24 and 28: needed its limit, found one more.
pub fn late_by(rule: u64, at: u64, partner: u32, most: u32) -> Late
    ensures { LateBy rule at partner most result }
{
    Late {
        at: at,
        rule: rule,
        partner: partner as u64,
        needed: most as u64,
        found: most as u64 + 1,
    }
}

// Of two deadlines the sooner, of equals the first.
pub fn sooner(x: Late, y: Late) -> Late
    ensures { Sooner x y result }
{
    if x.at <= y.at {
        return x;
    }
    y
}

pub fn why(x: Late) -> Break
    ensures { Why x result }
{
    Break::Broken {
        rule: x.rule,
        partner: x.partner,
        needed: x.needed,
        found: x.found,
    }
}
