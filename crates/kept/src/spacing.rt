// Rules 4 to 23 of a record, by its command, the lowest rule first. Each names only the rules that speak of its command.
ghost use Rattle.std.specs.Prelude.{◌≡◌};
ghost use Rattle.records.specs.declared.Command.TheVariants.{Act, Pre, Rd, Wr, Mrs, Ref, Sre};
ghost use Rattle.answers.specs.declared.Break.TheVariants.{Fine};
ghost use Rattle.running.specs.Marks as marks;
ghost use Rattle.running.specs.Breaks as breaks;
ghost use Rattle.kept.specs.Promises.{Spacings, LastRules};

use crate::spaced::{needing, spaced};
use answers::Break;
use chip::Chip;
use records::{Command, Record};
use running::{Kept, Mark, Read, Shared, Wrote};

pub fn spacings(chip: Chip, c: Command, r: Record, e: u64, k: Kept, s: Shared) -> Break
    ensures { Spacings chip c r e k s result }
{
    match c {
        Command::Mrs => of_mrs(chip, r, e, k, s),
        Command::Ref | Command::Zq => of_ref(chip, r, e, k, s),
        Command::Pre => of_pre(chip, r, e, k, s),
        Command::Act => of_act(chip, r, e, k, s),
        Command::Wr => of_wr(chip, r, e, k, s),
        Command::Rd => of_rd(chip, r, e, k, s),
        Command::Sre => of_sre(chip, r, e, k, s),
        Command::Srx => of_srx(e, s),
        Command::Nop | Command::Des | Command::Low | Command::Bad | Command::Pde | Command::Pdx =>
            Break::Fine,
    }
}

// Rules 15, 17, 18, 21: after REF, MRS, ZQ, SRX to any command but MRS.
fn waits(chip: Chip, e: u64, s: Shared, otherwise: Break) -> Break
    ensures { result ≡ breaks.waits chip e s otherwise }
{
    let b21 = spaced(21, e, s.rests.woke, otherwise);
    let b18 = spaced(18, e, s.rests.tuned, b21);
    let b17 = spaced(17, e, needing(chip.tmod, s.mrs), b18);
    spaced(15, e, s.rests.refreshed, b17)
}

fn of_act(chip: Chip, r: Record, e: u64, k: Kept, s: Shared) -> Break
    ensures { result ≡ breaks.spacings chip Act r e k s }
{
    let a0 = s.acts[0];
    let a3 = s.acts[3];
    let b15 = waits(chip, e, s, Break::Fine);
    let b8 = spaced(8, e, needing(chip.tfaw, a3), b15);
    let b7 = spaced(7, e, needing(chip.trrd, a0), b8);
    let b6 = spaced(6, e, needing(chip.trc, k.acted), b7);
    spaced(5, e, k.shut, b6)
}

fn of_rd(chip: Chip, r: Record, e: u64, k: Kept, s: Shared) -> Break
    ensures { result ≡ breaks.spacings chip Rd r e k s }
{
    let b21 = spaced(21, e, s.rests.woke, Break::Fine);
    let b20 = spaced(20, e, s.rests.reset, b21);
    let b18 = spaced(18, e, s.rests.tuned, b20);
    let b17 = spaced(17, e, needing(chip.tmod, s.mrs), b18);
    let b15 = spaced(15, e, s.rests.refreshed, b17);
    let b14 = spaced(14, e, wrote_mark(s.wrote, s.wrote.n14), b15);
    let b12 = spaced(12, e, needing(4, read_mark(s.read, s.read.n10)), b14);
    spaced(4, e, k.acted, b12)
}

fn of_wr(chip: Chip, r: Record, e: u64, k: Kept, s: Shared) -> Break
    ensures { result ≡ breaks.spacings chip Wr r e k s }
{
    let b15 = waits(chip, e, s, Break::Fine);
    let b13 = spaced(13, e, read_mark(s.read, s.read.n13), b15);
    let b12 = spaced(12, e, needing(4, wrote_mark(s.wrote, s.wrote.n11)), b13);
    spaced(4, e, k.acted, b12)
}

fn of_pre(chip: Chip, r: Record, e: u64, k: Kept, s: Shared) -> Break
    ensures { result ≡ breaks.spacings chip Pre r e k s }
{
    let a0 = s.acts[0];
    let b15 = waits(chip, e, s, Break::Fine);
    if r.a / 1024 % 2 == 1 {
        let b11 = spaced(11, e, wrote_mark(s.wrote, s.wrote.n11), b15);
        let b10 = spaced(10, e, read_mark(s.read, s.read.n10), b11);
        return spaced(9, e, a0, b10);
    }
    let b11 = spaced(11, e, k.wrote, b15);
    let b10 = spaced(10, e, k.read, b11);
    spaced(9, e, needing(chip.tras, k.acted), b10)
}

// Of ZQ too: the same rules speak of both.
fn of_ref(chip: Chip, r: Record, e: u64, k: Kept, s: Shared) -> Break
    ensures { result ≡ breaks.spacings chip Ref r e k s }
{
    let b15 = waits(chip, e, s, Break::Fine);
    spaced(5, e, s.shut, b15)
}

fn of_mrs(chip: Chip, r: Record, e: u64, k: Kept, s: Shared) -> Break
    ensures { result ≡ breaks.spacings chip Mrs r e k s }
{
    let b21 = spaced(21, e, s.rests.woke, Break::Fine);
    let b19 = spaced(19, e, read_mark(s.read, s.read.n19), b21);
    let b18 = spaced(18, e, s.rests.tuned, b19);
    let b16 = spaced(16, e, s.mrs, b18);
    let b15 = spaced(15, e, s.rests.refreshed, b16);
    spaced(5, e, s.shut, b15)
}

fn of_sre(chip: Chip, r: Record, e: u64, k: Kept, s: Shared) -> Break
    ensures { result ≡ breaks.spacings chip Sre r e k s }
{
    let b23 = rule23(s);
    let b21 = spaced(21, e, s.rests.woke, b23);
    let b19 = spaced(19, e, read_mark(s.read, s.read.n19), b21);
    let b18 = spaced(18, e, s.rests.tuned, b19);
    let b17 = spaced(17, e, needing(chip.tmod, s.mrs), b18);
    let b15 = spaced(15, e, s.rests.refreshed, b17);
    spaced(5, e, s.shut, b15)
}

// Rules 22 and 23, of which no waiting time tells.
pub fn last_rules(c: Command, e: u64, s: Shared) -> Break
    ensures { LastRules c e s result }
{
    if c == Command::Srx {
        return of_srx(e, s);
    }
    if c == Command::Sre {
        return rule23(s);
    }
    Break::Fine
}

fn of_srx(e: u64, s: Shared) -> Break
    ensures { result ≡ marks.spaced 22 e s.rests.slept Fine }
{
    spaced(22, e, s.rests.slept, Break::Fine)
}

// An SRE after an SRX with no REF in between.
fn rule23(s: Shared) -> Break
    ensures { result ≡ breaks.rule23 Sre s }
{
    if s.rests.refreshed.num < s.rests.woke.num {
        return Break::Broken {
            rule: 23,
            partner: wide(s.rests.woke.num),
            needed: 0,
            found: 0,
        };
    }
    Break::Fine
}

fn wide(x: u32) -> u64
    ensures { result ≡ x }
{
    x as u64
}

// The latest RD of all banks, of which a rule needs so many clocks.
fn read_mark(s: Read, need: u32) -> Mark
    ensures { result ≡ record { at = s.at; num = s.num; need = need } }
{
    Mark {
        at: s.at,
        num: s.num,
        need,
    }
}

// The latest WR of all banks.
fn wrote_mark(s: Wrote, need: u32) -> Mark
    ensures { result ≡ record { at = s.at; num = s.num; need = need } }
{
    Mark {
        at: s.at,
        num: s.num,
        need,
    }
}
