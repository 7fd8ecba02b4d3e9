// What is said of an edge, by what is broken there.
ghost use Rattle.std.specs.Prelude.{◌≡◌};
ghost use Rattle.running.specs.Said as said;
ghost use Rattle.says.specs.Promises.{First, LateAt, VerdictAt, None, CleanAt};

use crate::deadlines::why;
use answers::{Break, Verdict};
use running::Late;

// Of two verdicts the first that says something.
pub fn first(v: Verdict, w: Verdict) -> Verdict
    ensures { First v w result }
{
    if v.outcome == 0 {
        return w;
    }
    v
}

pub fn late_at(e: u64, x: Late) -> Break
    ensures { LateAt e x result }
{
    if x.at == e {
        return why(x);
    }
    Break::Fine
}

pub fn verdict_at(e: u64, n: u32, b: Break) -> Verdict
    ensures { VerdictAt e n b result }
{
    match b {
        Break::Fine => none(),
        Break::Broken {
            rule,
            partner,
            needed,
            found,
        } => broken_at(e, n, rule, partner, needed, found),
    }
}

fn broken_at(e: u64, n: u32, rule: u64, partner: u64, needed: u64, found: u64) -> Verdict
    ensures { result ≡ said.broken_at e n rule partner needed found }
{
    Verdict {
        outcome: 1,
        rule: rule,
        number: n as u64,
        partner: partner,
        edge: e,
        needed: needed,
        found: found,
    }
}

pub fn none() -> Verdict
    ensures { None result }
{
    clean_at(0, 0)
}

pub fn clean_at(count: u32, end: u64) -> Verdict
    ensures { CleanAt count end result }
{
    Verdict {
        outcome: 0,
        rule: 0,
        number: count as u64,
        partner: 0,
        edge: end,
        needed: 0,
        found: 0,
    }
}
