// What a seldom command that may come leaves behind.
ghost use Rattle.std.specs.Prelude.{cond, ◌≡◌, ◌+◌, ◌≤◌};
ghost use Rattle.records.specs.declared.Command.TheVariants.{Mrs};
ghost use Rattle.running.specs.Next.{resets_now};
ghost use Rattle.running.specs.Ranges.{far_edge};
ghost use Rattle.edges.specs.Ways as ways;

use crate::asked::need18;
use chip::Chip;
use edges::Floor;
use records::{Command, Record};

// Does an MRS reset the DLL?
pub(crate) fn resets(r: Record) -> bool
    ensures { result ≡ resets_now Mrs r }
{
    (r.bank % 8 == 0) & (r.a / 256 % 2 == 1)
}

// What the command asks for, in clocks.
pub(crate) fn asked_by(chip: Chip, c: Command, r: Record) -> u32
    ensures { result ≡ ways.asked_by chip c r }
{
    match c {
        Command::Mrs => chip.tmod,
        Command::Ref => chip.trfc,
        Command::Pre => chip.trp,
        Command::Zq => need18(chip, r),
        Command::Srx => chip.txs,
        Command::Pdx => chip.txp,
        Command::Act | Command::Wr | Command::Rd | Command::Nop | Command::Des => 0,
        Command::Sre | Command::Low | Command::Bad | Command::Pde => 0,
    }
}

fn raised(f: Floor, x: u64) -> Floor
    ensures { result ≡ ways.raised_floor f x }
{
    Floor {
        act: f.act.max(x),
        rd: f.rd.max(x),
        wr: f.wr.max(x),
        pre: f.pre.max(x),
        ..f
    }
}

fn reads_later(f: Floor, x: u64) -> Floor
    ensures { result ≡ ways.rd_floor f x }
{
    Floor {
        rd: f.rd.max(x),
        ..f
    }
}

fn all_shut(f: Floor, x: u64) -> Floor
    ensures { result ≡ ways.shut_all_floor f x }
{
    Floor {
        act: f.act.max(x),
        idle: f.idle.max(x),
        ..f
    }
}

fn held_to(h: [u64; 4], x: u64, m: u64) -> [u64; 4]
    ensures { result ≡ ways.held_to h x m }
{
    [h[0].max(x), h[1].max(m), h[2].max(x), h[3].max(x)]
}

fn mode_floor(r: Record, e: u64, x: u64, f: Floor) -> Floor
    requires { e ≤ far_edge }
    ensures { result ≡ cond (resets_now Mrs r) (ways.rd_floor (ways.raised_floor f x) (e + 512)) (ways.raised_floor f x) }
{
    let g = raised(f, x);
    if resets(r) {
        return reads_later(g, e + 512);
    }
    g
}

fn exit_floor(slow: bool, e: u64, x: u64, txpdll: u32, f: Floor) -> Floor
    requires { e ≤ far_edge }
    ensures { result ≡ cond slow (ways.rd_floor (ways.raised_floor f x) (e + txpdll)) (ways.raised_floor f x) }
{
    let g = raised(f, x);
    if slow {
        return reads_later(g, e + txpdll as u64);
    }
    g
}

// k: what the command asks for; slow: an exit is one of precharge power-down with MR0 A12 = 0.
pub(crate) fn floor_next(
    chip: Chip,
    c: Command,
    r: Record,
    e: u64,
    k: u32,
    slow: bool,
    f: Floor,
) -> Floor
    requires e_bound { e ≤ far_edge }
    requires asked { k ≡ ways.asked_by chip c r }
    ensures { result ≡ ways.floor_next chip c r slow e f }
{
    let y = e + k as u64;
    match c {
        Command::Mrs => mode_floor(r, e, y, f),
        Command::Ref | Command::Zq => raised(f, y),
        Command::Pre => all_shut(f, y),
        Command::Srx => reads_later(raised(f, y), e + 512),
        Command::Pdx => exit_floor(slow, e, y, chip.txpdll, f),
        Command::Act | Command::Wr | Command::Rd | Command::Nop | Command::Des => f,
        Command::Sre | Command::Low | Command::Bad | Command::Pde => f,
    }
}

pub(crate) fn holds_next(chip: Chip, c: Command, r: Record, e: u64, k: u32, h: [u64; 4]) -> [u64; 4]
    requires e_bound { e ≤ far_edge }
    requires asked { k ≡ ways.asked_by chip c r }
    ensures { result ≡ ways.holds_next chip c r e h }
{
    let y = e + k as u64;
    match c {
        Command::Mrs => held_to(h, y, e + 4),
        Command::Ref | Command::Zq | Command::Srx | Command::Pdx => held_to(h, y, y),
        Command::Pre | Command::Act | Command::Wr | Command::Rd | Command::Nop => h,
        Command::Des | Command::Sre | Command::Low | Command::Bad | Command::Pde => h,
    }
}
