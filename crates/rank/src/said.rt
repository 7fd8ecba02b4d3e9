// What is said of a record: the gap before it, its edge, and rules 1 to 31.
ghost use Rattle.std.specs.Prelude.{◌≡◌, ◌+◌, ◌≤◌, cond, not};
ghost use Rattle.answers.specs.declared.Break.TheVariants.{Fine};
ghost use Rattle.running.specs.Breaks.{rule2};
ghost use Rattle.running.specs.Down as down;
ghost use Rattle.running.specs.Ranges.{Small, limit};
ghost use Rattle.edges.specs.Asks as asks;
ghost use Rattle.edges.specs.Ranges.{Ranged};
ghost use Rattle.edges.specs.Says as says;
ghost use Rattle.edges.specs.Views.{kepts_of};

use crate::deadlines::{next24, next25, next28, next31};
use crate::numbers::either;
use crate::views::{kept_of, kepts, shared_of, written_of};
use answers::{Break, Verdict};
use chip::Chip;
use edges::{Banks, Rank, Waits};
use kept::{
    barred, exit_rules, first_barred, joined, last_rules, or_else, rule3, rule26, rule27, spacings,
    speaks_of_all,
};
use records::{Command, Record, command_of};
use running::{Late, Shared};
use says::{first, late_at, sooner, verdict_at, why};

// ── A record ────────────────────────────────────────────────────────────────────────────────

fn greatest(xs: [u64; 8]) -> u64
    ensures { result ≡ asks.greatest xs 8 }
{
    let mut most: u64 = 0;
    for &x in &xs {
        most = most.max(x);
    }
    most
}

// The edge that the record of the command c has to wait for.
fn wait_for(w: Waits, c: Command, r: Record) -> u64
    ensures { result ≡ asks.wait_for w c r }
{
    let act = w.act;
    let col = w.col;
    let pre = w.pre;
    let holds = w.holds;
    let b = (r.bank % 8) as usize;
    let i = b + 8;
    match c {
        Command::Mrs => holds[1],
        Command::Ref => holds[0],
        Command::Pre => either(r.a / 1024 % 2 == 1, greatest(pre), pre[b]),
        Command::Act => act[b],
        Command::Wr => col[i],
        Command::Rd => col[b],
        Command::Zq => holds[2],
        Command::Sre => holds[3],
        Command::Nop
        | Command::Des
        | Command::Srx
        | Command::Low
        | Command::Bad
        | Command::Pde
        | Command::Pdx => 0,
    }
}

fn rule2_in(chip: Chip, banks: Banks, c: Command, r: Record, e: u64) -> Break
    ensures { result ≡ rule2 c r (kepts_of chip banks) e }
{
    if speaks_of_all(c, r) {
        return first_barred(c, kepts(chip, banks), e);
    }
    barred(c, kept_of(chip, banks, (r.bank % 8) as usize), e)
}

// Rules 4 to 23: the marks are asked only where the waiting time is not over.
fn spaced_in(chip: Chip, s: Rank, c: Command, r: Record, e: u64) -> Break
    requires turn_bound { s.acts.turn ≤ 3 }
    requires c_value { c ≡ says.command_in s r }
    ensures { result ≡ says.spaced_in chip s r e }
{
    let shared = shared_of(chip, s.banks, s.acts, s.device);
    if wait_for(s.waits, c, r) <= e {
        return last_rules(c, e, shared);
    }
    spacings(
        chip,
        c,
        r,
        e,
        kept_of(chip, s.banks, (r.bank % 8) as usize),
        shared,
    )
}

fn broken_in(chip: Chip, s: Rank, c: Command, r: Record, e: u64) -> Break
    requires turn_bound { s.acts.turn ≤ 3 }
    requires c_value { c ≡ says.command_in s r }
    ensures { result ≡ says.broken_in chip s r e }
{
    let two = rule2_in(chip, s.banks, c, r, e);
    let three = rule3(chip, c, r, written_of(s.device));
    let spacing = spaced_in(chip, s, c, r, e);
    joined(c, two, three, spacing)
}

// ── Rules 26, 27, 29 and 30 ─────────────────────────────────────────────────────────────────

fn entered(chip: Chip, s: Rank, c: Command, shared: Shared, e: u64) -> Break
    ensures { result ≡ down.rule26 chip c (kepts_of chip s.banks) shared e }
{
    if c == Command::Pde {
        return rule26(chip, c, kepts(chip, s.banks), shared, e);
    }
    Break::Fine
}

fn turns(level: bool, cke: bool) -> bool
    ensures { result ≡ cond level (not cke) cke }
{
    if level {
        return !cke;
    }
    cke
}

fn changed_in(chip: Chip, s: Rank, c: Command, r: Record, e: u64) -> Break
    requires turn_bound { s.acts.turn ≤ 3 }
    requires c_value { c ≡ says.command_in s r }
    ensures { result ≡ says.changed_in chip s r e }
{
    let shared = shared_of(chip, s.banks, s.acts, s.device);
    let held = rule27(turns(s.level, r.cke), e, shared);
    or_else(entered(chip, s, c, shared, e), held)
}

fn left_in(chip: Chip, s: Rank, c: Command, r: Record, e: u64) -> Break
    requires turn_bound { s.acts.turn ≤ 3 }
    requires c_value { c ≡ says.command_in s r }
    ensures { result ≡ says.left_in chip s r e }
{
    if wait_for(s.waits, c, r) <= e {
        return Break::Fine;
    }
    exit_rules(c, e, shared_of(chip, s.banks, s.acts, s.device))
}

// ── What is said ────────────────────────────────────────────────────────────────────────────

// Rule 25 at the record's edge: a REF pays for it.
fn owing(c: Command, e: u64, x: Late) -> Break
    ensures { result ≡ says.owing c e x }
{
    if (x.at <= e) & (c != Command::Ref) {
        return why(x);
    }
    Break::Fine
}

// A deadline before the edge e; else by number what the record breaks, and the deadlines at e. No break: all 0.
// rules: of 1 to 23; owes: of 25 at the edge; changed: of 26 and 27; left: of 29 and 30.
fn says_by(
    e: u64,
    n: u32,
    x24: Late,
    x25: Late,
    x28: Late,
    x31: Late,
    rules: Break,
    owes: Break,
    changed: Break,
    left: Break,
) -> Verdict
    ensures { result ≡ says.says_by e n x24 x25 x28 x31 rules owes changed left }
{
    let x = sooner(x24, sooner(x25, sooner(x28, x31)));
    if x.at < e {
        return verdict_at(x.at, 0, why(x));
    }
    let at31 = verdict_at(e, 0, late_at(e, x31));
    let at30 = first(verdict_at(e, n, left), at31);
    let at28 = first(verdict_at(e, 0, late_at(e, x28)), at30);
    let at26 = first(verdict_at(e, n, changed), at28);
    let at25 = first(verdict_at(e, 0, owes), at26);
    let at24 = first(verdict_at(e, 0, late_at(e, x24)), at25);
    first(verdict_at(e, n, rules), at24)
}

pub(crate) fn said(chip: Chip, s: Rank, r: Record) -> Verdict
    requires small { Small chip }
    requires ranged { Ranged s }
    requires step_bound { r.step ≤ 16777216 }
    requires count_bound { s.count + 1 ≤ limit }
    ensures { result ≡ says.says_of chip s r }
{
    let at = s.device.at;
    let no = s.device.no;
    let e = s.edge + r.step;
    let c = command_of(s.level, s.debt.sleeps, r);
    let x24 = next24(chip, s.banks, s.edge, e + 1);
    let x25 = next25(s.debt, no[0], e + 1);
    let x28 = next28(chip, s.level, s.debt.sleeps, at[6], no[6], e + 1);
    let x31 = next31(chip, s.debt, no[0], e + 1);
    let rules = broken_in(chip, s, c, r, e);
    let owes = owing(c, e, x25);
    let changed = changed_in(chip, s, c, r, e);
    let left = left_in(chip, s, c, r, e);
    says_by(
        e,
        s.count + 1,
        x24,
        x25,
        x28,
        x31,
        rules,
        owes,
        changed,
        left,
    )
}
