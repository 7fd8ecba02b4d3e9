// What a record breaks: rules 1 to 23, the lowest first, from what is kept.
ghost use Rattle.std.specs.Prelude.{◌≡◌};
ghost use Rattle.running.specs.Breaks as breaks;
ghost use Rattle.kept.specs.Wants.{number_of};
ghost use Rattle.kept.specs.Promises.{OrElse, SpeaksOfAll, Barred, FirstBarred, Rule3, Joined};

use crate::bank::status;
use answers::{Bank, Break};
use chip::Chip;
use records::{Command, Record};
use running::{Kept, Written};

pub fn or_else(a: Break, b: Break) -> Break
    ensures { OrElse a b result }
{
    match a {
        Break::Fine => b,
        Break::Broken { .. } => a,
    }
}

fn rule1(c: Command) -> Break
    ensures { result ≡ breaks.rule1 c }
{
    if c == Command::Bad {
        return Break::Broken {
            rule: 1,
            partner: 0,
            needed: 0,
            found: 0,
        };
    }
    Break::Fine
}

// Does the command speak of all banks?
pub fn speaks_of_all(c: Command, r: Record) -> bool
    ensures { SpeaksOfAll c r result }
{
    let pre = c == Command::Pre;
    let held = (c == Command::Zq) | (c == Command::Sre);
    let rest = (c == Command::Ref) | ((c == Command::Mrs) | held);
    (pre & (r.a / 1024 % 2 == 1)) | rest
}

// What a command wants of a bank; Open is not closing.
#[derive(Clone, Copy)]
enum Want {
    Nothing,
    Idle,
    Open,
    NotClosing,
}

fn wants(c: Command) -> Want
    ensures { number_of result ≡ breaks.wants c }
{
    match c {
        Command::Mrs | Command::Ref | Command::Act | Command::Zq | Command::Sre => Want::Idle,
        Command::Wr | Command::Rd => Want::Open,
        Command::Pre => Want::NotClosing,
        Command::Nop
        | Command::Des
        | Command::Srx
        | Command::Low
        | Command::Bad
        | Command::Pde
        | Command::Pdx => Want::Nothing,
    }
}

fn barred_by(w: Want, k: Bank) -> Break
    ensures { result ≡ breaks.barred_by (number_of w) k }
{
    match k {
        Bank::Idle => two_if(matches!(w, Want::Open), 0),
        Bank::Open { num, .. } => two_if(matches!(w, Want::Idle), num),
        Bank::Closing { num, .. } => two_if(!matches!(w, Want::Nothing), num),
    }
}

fn two_if(broken: bool, partner: u64) -> Break
    ensures { result ≡ breaks.two_if broken partner }
{
    if broken {
        return Break::Broken {
            rule: 2,
            partner: partner,
            needed: 0,
            found: 0,
        };
    }
    Break::Fine
}

// Rule 2 of one bank.
pub fn barred(c: Command, k: Kept, e: u64) -> Break
    ensures { Barred c k e result }
{
    barred_by(wants(c), status(k, e))
}

// Rule 2 of all banks: the lowest in the way.
pub fn first_barred(c: Command, banks: [Kept; 8], e: u64) -> Break
    ensures { FirstBarred c banks e result }
{
    let mut first = Break::Fine;
    for &k in &banks {
        first = or_else(first, barred(c, k, e));
    }
    first
}

fn three_if(fine: bool) -> Break
    ensures { result ≡ breaks.demand fine 0 }
{
    if fine {
        return Break::Fine;
    }
    Break::Broken {
        rule: 3,
        partner: 0,
        needed: 0,
        found: 0,
    }
}

pub fn rule3(chip: Chip, c: Command, r: Record, w: Written) -> Break
    ensures { Rule3 chip c r w result }
{
    if c == Command::Mrs {
        return mrs_allowed(chip, r);
    }
    if c == Command::Act {
        return three_if(w.w0 & (w.w1 & (w.w2 & w.w3)));
    }
    if c == Command::Rd {
        return three_if(w.dll);
    }
    Break::Fine
}

// An allowed code and BA below 4; found is the bit that is refused.
fn mrs_allowed(chip: Chip, r: Record) -> Break
    ensures { result ≡ breaks.mrs_allowed chip r }
{
    let h = chip.header;
    let b = r.bank % 8;
    match registers::decode(h, b as u32, r.a) {
        Ok(_) => Break::Fine,
        Err(bad) => Break::Broken {
            rule: 3,
            partner: 0,
            needed: 0,
            found: bad.bit as u64,
        },
    }
}

// What the record breaks.
pub fn joined(c: Command, two: Break, three: Break, spacing: Break) -> Break
    ensures { Joined c two three spacing result }
{
    let t = or_else(three, spacing);
    let u = or_else(two, t);
    or_else(rule1(c), u)
}
