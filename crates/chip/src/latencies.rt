// What the registers in force set: latencies, write recovery, and the clocks of a burst.
ghost use Rattle.std.specs.Prelude.{◌≡◌};
ghost use Rattle.chip.specs.Latencies.{al_of, cl_of, cwl_of, wr_of, h_of};
ghost use Rattle.chip.specs.Promises.{InForce, BOf};

use crate::Regs;

pub fn al_of(g: Regs) -> u32
    ensures { InForce al_of g result }
{
    wide(codes::al(g.mr0, g.mr1))
}

pub fn cl_of(g: Regs) -> u32
    ensures { InForce cl_of g result }
{
    wide(codes::cl(g.mr0))
}

pub fn cwl_of(g: Regs) -> u32
    ensures { InForce cwl_of g result }
{
    wide(codes::cwl(g.mr2))
}

// Programmed write recovery.
pub fn wr_of(g: Regs) -> u32
    ensures { InForce wr_of g result }
{
    wide(codes::wr(g.mr0))
}

// h of a write: 4, but 2 where MR0 fixes four; a chop by A12 does not shorten it.
pub fn h_of(g: Regs) -> u32
    ensures { InForce h_of g result }
{
    if g.mr0 % 4 == 2 {
        return 2;
    }
    4
}

// b of a read at an address: 4 for eight words, 2 for four.
pub fn b_of(g: Regs, a: u16) -> u32
    ensures { BOf g a result }
{
    let mode = g.mr0 % 4;
    if mode == 0 {
        return 4;
    }
    if mode == 1 {
        if a / 4096 % 2 == 1 {
            return 4;
        }
        return 2;
    }
    2
}

fn wide(x: u8) -> u32
    ensures { result ≡ x }
{
    x as u32
}
