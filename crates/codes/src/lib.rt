// The fields of a register's code, and the latencies of the codes in force.
#![tactic(auto)]

ghost use Rattle.codes.specs.Promises.{Cl, Wr, Resets, Al, Cwl, Rl, Wl};

// CL by its code A6A5A4A2; 0: not listed.
const CL: [u8; 16] = [0, 12, 5, 0, 6, 0, 7, 0, 8, 0, 9, 0, 10, 0, 11, 0];

// WR by its code A11A10A9.
const WR: [u8; 8] = [16, 5, 6, 7, 8, 10, 12, 14];

pub fn cl(mr0: u16) -> u8
    ensures { Cl mr0 result }
{
    let at = (mr0 / 16 % 8 * 2 + mr0 / 4 % 2) as usize;
    CL[at]
}

pub fn wr(mr0: u16) -> u8
    ensures { Wr mr0 result }
{
    let at = (mr0 / 512 % 8) as usize;
    WR[at]
}

pub fn resets(mr0: u16) -> bool
    ensures { Resets mr0 result }
{
    mr0 / 256 % 2 == 1
}

// CL less the code of AL, 0 where the code is 0 or MR0 gives no CL.
pub fn al(mr0: u16, mr1: u16) -> u8
    ensures { Al mr0 mr1 result }
{
    let less = (mr1 / 8 % 4) as u8;
    let most = cl(mr0);
    if less == 0 {
        return 0;
    }
    if most < less {
        return 0;
    }
    most - less
}

pub fn cwl(mr2: u16) -> u8
    ensures { Cwl mr2 result }
{
    (mr2 / 8 % 8 + 5) as u8
}

pub fn rl(mr0: u16, mr1: u16) -> u64
    ensures { Rl mr0 mr1 result }
{
    al(mr0, mr1) as u64 + cl(mr0) as u64
}

pub fn wl(mr0: u16, mr1: u16, mr2: u16) -> u64
    ensures { Wl mr0 mr1 mr2 result }
{
    al(mr0, mr1) as u64 + cwl(mr2) as u64
}
