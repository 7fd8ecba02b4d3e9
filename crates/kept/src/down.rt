// Rules 26, 27, 29 and 30 of a record, from what is kept.
ghost use Rattle.std.specs.Prelude.{◌≡◌, cond, ◌+◌, eqb, ltb, get_or};
ghost use Rattle.answers.specs.declared.Break.TheVariants.{Fine, Broken};
ghost use Rattle.running.specs.Marks as marks;
ghost use Rattle.chip.specs.Latencies.{al_of, cl_of, cwl_of, wr_of, h_of};
ghost use Rattle.running.specs.Marks.{empty};
ghost use Rattle.running.specs.Down as down;
ghost use Rattle.kept.specs.Promises.{Rule26, Rule27, ExitRules};

use crate::spaced::{needing, spaced};
use answers::Break;
use chip::{Chip, Regs, al_of, cl_of, cwl_of, h_of, wr_of};
use records::Command;
use running::{Kept, Mark, Read, Shared};

// Of two breaks of one rule that by the later record.
fn later_of(a: Break, b: Break) -> Break
    ensures { result ≡ down.later_of a b }
{
    match a {
        Break::Fine => b,
        Break::Broken { partner: n, .. } => match b {
            Break::Broken { partner: m, .. } if n < m => b,
            _ => a,
        },
    }
}

fn read_need(g: Regs, mrs: u32, read: u32) -> u32
    ensures { result ≡ cond (ltb mrs read) (al_of g + cl_of g + 5) 0 }
{
    if mrs < read {
        return al_of(g) + cl_of(g) + 5;
    }
    0
}

// The latest RD; where an MRS came since, that one asks for more.
fn entry_read(g: Regs, m: Mark, s: Read) -> Mark
    ensures { result ≡ down.entry_read g m s }
{
    Mark {
        at: s.at,
        num: s.num,
        need: read_need(g, m.num, s.num),
    }
}

fn auto_need(g: Regs, mrs: u32, wrote: u32) -> u32
    ensures { result ≡ cond (ltb mrs wrote) (al_of g + cwl_of g + h_of g + wr_of g + 1) 0 }
{
    if mrs < wrote {
        return al_of(g) + cwl_of(g) + h_of(g) + wr_of(g) + 1;
    }
    0
}

fn write_need(g: Regs, mrs: u32, shut: u32, wrote: u32, plain: u32) -> u32
    ensures { result ≡ cond (eqb shut wrote) (cond (ltb mrs wrote) (al_of g + cwl_of g + h_of g + wr_of g + 1) 0) plain }
{
    if shut == wrote {
        return auto_need(g, mrs, wrote);
    }
    plain
}

// The latest WR of a bank: with auto precharge where it is the record that closed the bank.
fn entry_write(g: Regs, m: Mark, k: Kept) -> Mark
    ensures { result ≡ down.entry_write g m k }
{
    Mark {
        at: k.wrote.at,
        num: k.wrote.num,
        need: write_need(g, m.num, k.shut.num, k.wrote.num, k.wrote.need),
    }
}

fn wrote(g: Regs, m: Mark, k: Kept, e: u64) -> Break
    ensures { result ≡ down.check26 e (down.entry_write g m k) }
{
    spaced(26, e, entry_write(g, m, k), Break::Fine)
}

fn all_wrote(g: Regs, m: Mark, banks: [Kept; 8], e: u64) -> Break
    ensures { result ≡ down.latest_of (λ b. down.check26 e (down.entry_write g m (get_or banks b empty))) 8 }
{
    let mut latest = Break::Fine;
    for &k in &banks {
        latest = later_of(latest, wrote(g, m, k, e));
    }
    latest
}

// Power-down entry: the latest RD, WR of each bank and MRS, of those that break it the latest.
pub fn rule26(chip: Chip, c: Command, banks: [Kept; 8], s: Shared, e: u64) -> Break
    ensures { Rule26 chip c banks s e result }
{
    if c == Command::Pde {
        let g = s.regs;
        let m = s.mrs;
        let w = all_wrote(g, m, banks, e);
        let r = spaced(26, e, entry_read(g, m, s.read), Break::Fine);
        let set = spaced(26, e, needing(chip.tmod, m), Break::Fine);
        return later_of(w, later_of(r, set));
    }
    Break::Fine
}

// changes: CKE changes at the record.
pub fn rule27(changes: bool, e: u64, s: Shared) -> Break
    ensures { Rule27 changes e s result }
{
    if changes {
        return spaced(27, e, s.rests.turned, Break::Fine);
    }
    Break::Fine
}

// Rules 29 and 30, of which a waiting time tells too.
pub fn exit_rules(c: Command, e: u64, s: Shared) -> Break
    ensures { ExitRules c e s result }
{
    match c {
        Command::Mrs
        | Command::Ref
        | Command::Pre
        | Command::Act
        | Command::Wr
        | Command::Zq
        | Command::Sre => of_left(e, s),
        Command::Rd => spaced(29, e, s.rests.left, of_slow(e, s)),
        Command::Nop
        | Command::Des
        | Command::Srx
        | Command::Low
        | Command::Bad
        | Command::Pde
        | Command::Pdx => Break::Fine,
    }
}

fn of_left(e: u64, s: Shared) -> Break
    ensures { result ≡ marks.spaced 29 e s.rests.left Fine }
{
    spaced(29, e, s.rests.left, Break::Fine)
}

fn of_slow(e: u64, s: Shared) -> Break
    ensures { result ≡ marks.spaced 30 e s.rests.slow Fine }
{
    spaced(30, e, s.rests.slow, Break::Fine)
}
